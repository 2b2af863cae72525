ghost use Rattle.std.specs.Prelude.{◌≡◌, find, option_copied};
ghost use Rattle.layout_rules.specs.Placing.{is_misaligned, is_outside, is_overlapping};
ghost use Rattle.type_layouts.specs.Parts.{is_too_big};
ghost use Rattle.layout_rules.specs.Judged.{IsJudged};
ghost use Rattle.layout_rules.specs.Rules.{IsAnswer, IsLayoutAnswer};

use crate::code_rows::rows_of_program;
use crate::fault::{LayoutFault, LayoutKind, refusal};
use crate::placing::{is_misaligned, is_outside, is_overlapping};
use crate::recursion::first_recursive;
use crate::values::first_unknown;
use mir_ir::{Declarations, Function};
use mir_program::Program;
use std::alloc::Global;
use type_layouts::{Outline, Row, Scope, is_too_big, outlines_of, parts_table};

/// The declared types, and every type that a program names.
#[derive(Drop)]
struct Laid {
    outlines: Vec<Outline>,
    rows: Vec<Row>,
}

fn first_too_big<'a>(table: &[u64], rows: &'a [Row]) -> Option<&'a Row>
    ensures { option_copied result ≡ find (λ row. is_too_big table.now row.extent) rows.now }
{
    rows.iter().find(|row| is_too_big(table, &row.extent))
}

fn first_misaligned(outlines: &[Outline]) -> Option<&Outline>
    ensures { option_copied result ≡ find is_misaligned outlines.now }
{
    outlines.iter().find(|outline| is_misaligned(outline))
}

fn first_outside(outlines: &[Outline]) -> Option<&Outline>
    ensures { option_copied result ≡ find is_outside outlines.now }
{
    outlines.iter().find(|outline| is_outside(outline))
}

fn first_overlapping(outlines: &[Outline]) -> Option<&Outline>
    ensures { option_copied result ≡ find is_overlapping outlines.now }
{
    outlines.iter().find(|outline| is_overlapping(outline))
}

#[tactic(auto, using(crate::proofs::JudgeLaws::refused, crate::proofs::JudgeLaws::named_row, crate::proofs::JudgeLaws::named_outline, crate::proofs::JudgeLaws::first_place, crate::proofs::JudgeLaws::none_named))]
fn judge_unknown(alloc: Global, laid: &Laid) -> Result<(), LayoutFault>
    ensures { IsJudged laid.now.outlines.items laid.now.rows.items LayoutKind.Unknown result }
{
    if let Some(row) = first_unknown(alloc, laid.rows.as_slice())? {
        return Err(refusal(alloc, LayoutKind::Unknown, &row.text));
    }
    Ok(())
}

#[tactic(auto, using(crate::proofs::JudgeLaws::refused, crate::proofs::JudgeLaws::named_row, crate::proofs::JudgeLaws::named_outline, crate::proofs::JudgeLaws::first_place, crate::proofs::JudgeLaws::none_named))]
fn judge_recursive(alloc: Global, laid: &Laid) -> Result<(), LayoutFault>
    ensures { IsJudged laid.now.outlines.items laid.now.rows.items LayoutKind.Recursive result }
{
    if let Some(place) = first_recursive(alloc, laid.outlines.as_slice())? {
        return Err(refusal(alloc, LayoutKind::Recursive, &laid.outlines[place].text));
    }
    Ok(())
}

#[tactic(auto, using(crate::proofs::JudgeLaws::refused, crate::proofs::JudgeLaws::named_row, crate::proofs::JudgeLaws::named_outline, crate::proofs::JudgeLaws::first_place, crate::proofs::JudgeLaws::none_named))]
fn judge_too_big(alloc: Global, laid: &Laid) -> Result<(), LayoutFault>
    ensures { IsJudged laid.now.outlines.items laid.now.rows.items LayoutKind.TooBig result }
{
    let table = parts_table(alloc, laid.outlines.as_slice())?;
    if let Some(row) = first_too_big(table.as_slice(), laid.rows.as_slice()) {
        return Err(refusal(alloc, LayoutKind::TooBig, &row.text));
    }
    Ok(())
}

#[tactic(auto, using(crate::proofs::JudgeLaws::refused, crate::proofs::JudgeLaws::named_row, crate::proofs::JudgeLaws::named_outline, crate::proofs::JudgeLaws::first_place, crate::proofs::JudgeLaws::none_named))]
fn judge_misaligned(alloc: Global, laid: &Laid) -> Result<(), LayoutFault>
    ensures { IsJudged laid.now.outlines.items laid.now.rows.items LayoutKind.Misaligned result }
{
    if let Some(outline) = first_misaligned(laid.outlines.as_slice()) {
        return Err(refusal(alloc, LayoutKind::Misaligned, &outline.text));
    }
    Ok(())
}

#[tactic(auto, using(crate::proofs::JudgeLaws::refused, crate::proofs::JudgeLaws::named_row, crate::proofs::JudgeLaws::named_outline, crate::proofs::JudgeLaws::first_place, crate::proofs::JudgeLaws::none_named))]
fn judge_outside(alloc: Global, laid: &Laid) -> Result<(), LayoutFault>
    ensures { IsJudged laid.now.outlines.items laid.now.rows.items LayoutKind.Outside result }
{
    if let Some(outline) = first_outside(laid.outlines.as_slice()) {
        return Err(refusal(alloc, LayoutKind::Outside, &outline.text));
    }
    Ok(())
}

#[tactic(auto, using(crate::proofs::JudgeLaws::refused, crate::proofs::JudgeLaws::named_row, crate::proofs::JudgeLaws::named_outline, crate::proofs::JudgeLaws::first_place, crate::proofs::JudgeLaws::none_named))]
fn judge_overlap(alloc: Global, laid: &Laid) -> Result<(), LayoutFault>
    ensures { IsJudged laid.now.outlines.items laid.now.rows.items LayoutKind.Overlap result }
{
    if let Some(outline) = first_overlapping(laid.outlines.as_slice()) {
        return Err(refusal(alloc, LayoutKind::Overlap, &outline.text));
    }
    Ok(())
}

#[tactic(auto, using(crate::proofs::JudgeLaws::answered))]
fn judge(alloc: Global, laid: &Laid) -> Result<(), LayoutFault>
    ensures { IsAnswer laid.now.outlines.items laid.now.rows.items result }
{
    judge_unknown(alloc, laid)?;
    judge_recursive(alloc, laid)?;
    judge_too_big(alloc, laid)?;
    judge_misaligned(alloc, laid)?;
    judge_outside(alloc, laid)?;
    judge_overlap(alloc, laid)?;
    Ok(())
}

/// Whether the types of functions and of declarations beside them keep the layout rules; else the first rule that is broken, and
/// the first type that breaks it.
pub fn judge_types(
    alloc: Global,
    functions: &[Function],
    declarations: &Declarations,
) -> Result<(), LayoutFault>
    ensures { IsLayoutAnswer (record { functions = functions.now; declarations = declarations.now }) result }
{
    let scope = Scope::new(alloc, declarations.types.as_slice())?;
    let laid = Laid {
        outlines: outlines_of(alloc, &scope)?,
        rows: rows_of_program(alloc, &scope, functions, declarations)?,
    };
    judge(alloc, &laid)?;
    Ok(())
}

/// Whether the types of a program keep the layout rules; else the first rule that is broken, and the first type that breaks it.
pub fn check_layouts(alloc: Global, program: &Program) -> Result<(), LayoutFault>
    ensures { IsLayoutAnswer program.now result }
{
    judge_types(alloc, program.functions(), program.declarations())?;
    Ok(())
}
