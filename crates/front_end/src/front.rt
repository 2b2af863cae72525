ghost use Rattle.std.specs.Prelude.{◌≡◌, ◌≤◌, IfOk, Ok, length, map};
ghost use Rattle.mir_text.specs.Answers.{Means};
ghost use Rattle.decl_file.specs.File.{declared_by};
ghost use Rattle.front_end.specs.Front.{IsTold, LayoutsAreKept, function_name};
ghost use Rattle.front_end.specs.Steps.{IsJudged, IsTyped};

use crate::lines::place_of;
use crate::refusal::{Refusal, declaration_refusal, layout_refusal, text_refusal};
use decl_counts::is_countable;
use decl_file::declarations;
use decl_laws::each_file_is_well_made;
use layout_rules::check_layouts;
use mir_ir::{Declarations, Function};
use mir_program::Program;
use mir_text::{MAX_TEXT, parse};
use mir_types::{TypeFault, check_types};
use program_laws::each_text_is_well_made;
use sqlite_items::Items;
use std::alloc::Global;
use typed_program::Typed;
use vk_core::{Name, NoMemory};

/// The program of a text and a declaration file, or why they are refused.
type Told = Result<Result<Typed, Refusal>, NoMemory>;

fn names_of(alloc: Global, functions: &[Function]) -> Result<Items<Name>, NoMemory>
    ensures { IfOk result (λ names. names ≡ map function_name functions.now) }
{
    let mut names = Items::new(alloc);
    let mut left = functions;
    while let [function, rest @ ..] = left {
        names.push(Name::from_bytes(alloc, function.name.as_bytes())?)?;
        left = rest;
    }
    Ok(names)
}

/// What there is to tell of a program whose layouts keep the rules.
fn typed(alloc: Global, program: Program) -> Told
    requires { LayoutsAreKept program }
    ensures { IfOk result (IsTyped program) }
{
    let names = names_of(alloc, program.functions())?;
    match check_types(alloc, program) {
        Ok(typed) => Ok(Ok(typed)),
        Err(TypeFault::Memory) => Err(NoMemory),
        Err(TypeFault::Rule { kind, at }) => {
            let place = place_of(alloc, names.as_slice(), &at)?;
            Ok(Err(Refusal::Types { kind, place }))
        }
    }
}

/// What there is to tell of a program.
fn judged(alloc: Global, program: Program) -> Told
    ensures { IfOk result (IsJudged program) }
{
    match check_layouts(alloc, &program) {
        Ok(()) => {
            let told = typed(alloc, program)?;
            Ok(told)
        }
        Err(fault) => match layout_refusal(fault) {
            None => Err(NoMemory),
            Some(refusal) => Ok(Err(refusal)),
        },
    }
}

/// The program of what was read of both files. The law of declaration files leaves their counts open; no file of the length that is
/// read comes near 2^31, so memory is what would be wanting.
fn joined(
    alloc: Global,
    text: &[u8],
    file: &[u8],
    functions: Items<Function>,
    declared: Declarations,
) -> Result<Program, NoMemory>
    requires short { length text.now ≤ MAX_TEXT }
    requires meant { Means text.now functions }
    requires declared { declared_by file.now ≡ Ok declared }
    ensures { IfOk result (λ program. program ≡ record { functions = functions; declarations = declared }) }
{
    if !is_countable(&declared) {
        return Err(NoMemory);
    }
    each_text_is_well_made(text);
    each_file_is_well_made(file);
    Ok(Program::join(functions, declared))
}

/// What there is to tell of a text that means these functions, and a file.
fn told_of(alloc: Global, text: &[u8], file: &[u8], functions: Items<Function>) -> Told
    requires short { length text.now ≤ MAX_TEXT }
    requires meant { Means text.now functions }
    ensures { IfOk result (IsTold text.now file.now) }
{
    match declarations(alloc, file) {
        Ok(declared) => {
            let program = joined(alloc, text, file, functions, declared)?;
            let told = judged(alloc, program)?;
            Ok(told)
        }
        Err(fault) => match declaration_refusal(fault) {
            None => Err(NoMemory),
            Some(refusal) => Ok(Err(refusal)),
        },
    }
}

/// Reads both files, and asks of the program that they make whether its layouts keep the rules and its types fit. An answer is a
/// program that is well typed, or the first refusal.
pub fn typed_of(alloc: Global, text: &[u8], file: &[u8]) -> Told
    requires { length text.now ≤ MAX_TEXT }
    ensures { IfOk result (IsTold text.now file.now) }
{
    match parse(alloc, text) {
        Ok(functions) => {
            let told = told_of(alloc, text, file, functions)?;
            Ok(told)
        }
        Err(fault) => match text_refusal(fault) {
            None => Err(NoMemory),
            Some(refusal) => Ok(Err(refusal)),
        },
    }
}
