ghost use Rattle.std.specs.Prelude.{◌≡◌, IfErr, IfOk, Ok};
ghost use Rattle.layout_rules.specs.Mentions.{program_rows};
ghost use Rattle.layout_rules.specs.Rules.{AreKept, outlines_in, rules};
ghost use Rattle.type_rules.specs.Entries.{typing};
ghost use Rattle.mir_types.specs.Types.{IsTypeFault};

use entry_types::{Functions, declarations_fit};
use function_types::functions_fit;
use mir_ir::{Declarations, Function};
use mir_program::Program;
use name_tables::Declared;
use std::alloc::Global;
use thiserror::Error;
use type_rules::{Refusal, TypeKind};
use typed_program::Typed;
use vk_core::{At, NoMemory};

/// Why the types of a program do not fit: the first refusal, with its place.
#[derive(Debug, Drop, Error)]
pub enum TypeFault {
    #[error("a type that does not fit")]
    Rule { kind: TypeKind, at: At },
    #[error("out of memory")]
    Memory,
}

/// The first refusal in the entries of the declarations, and then in the functions in their order.
fn first_refusal<'a>(
    alloc: Global,
    functions: &Functions<'a>,
    declared: &Declared<'a>,
) -> Result<Result<(), Refusal>, NoMemory>
    ensures { IfOk result (λ fits. fits ≡ typing functions.now declared.now) }
{
    let entries = declarations_fit(alloc, functions, declared)?;
    match entries {
        Ok(()) => functions_fit(alloc, functions.table(), declared),
        Err(refusal) => Ok(Err(refusal)),
    }
}

fn typing_by<'a>(
    alloc: Global,
    functions: &'a [Function],
    declared: &Declared<'a>,
) -> Result<Result<(), Refusal>, NoMemory>
    ensures { IfOk result (λ fits. fits ≡ typing functions.now declared.now) }
{
    let named = Functions::new(alloc, functions)?;
    let fits = first_refusal(alloc, &named, declared)?;
    Ok(fits)
}

fn typing(
    alloc: Global,
    functions: &[Function],
    declarations: &Declarations,
) -> Result<Result<(), Refusal>, NoMemory>
    ensures { IfOk result (λ fits. fits ≡ typing functions.now declarations.now) }
{
    let declared = Declared::new(alloc, declarations)?;
    let fits = typing_by(alloc, functions, &declared)?;
    Ok(fits)
}

/// The program with its types numbered, where they fit; else the first refusal: of the entries of the declarations in their order, and
/// then of the functions in the order of the text, each by its head and its blocks by number.
pub fn check_types(alloc: Global, program: Program) -> Result<Typed, TypeFault>
    requires { AreKept (outlines_in program) (program_rows program) rules }
    ensures ok { IfOk result (λ typed. typed ≡ program) }
    ensures err { IfErr result (IsTypeFault program) }
{
    let Ok(fits) = typing(alloc, program.functions(), program.declarations()) else {
        return Err(TypeFault::Memory);
    };
    match fits {
        Err(refusal) => Err(TypeFault::Rule {
            kind: refusal.kind,
            at: refusal.at,
        }),
        Ok(()) => match Typed::from_program(alloc, program) {
            Ok(typed) => Ok(typed),
            Err(NoMemory) => Err(TypeFault::Memory),
        },
    }
}
