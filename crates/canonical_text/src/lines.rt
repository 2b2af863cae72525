ghost use Rattle.std.specs.Prelude.{◌≡◌, ◌++◌, OnOk};
ghost use Rattle.canonical_text.specs.Lines.{arms_text, assert_text, assign_text, call_end_text, call_text, drop_text, expected_word, goes_on_text, goto_text, set_variant_text, statement_text, storage_text, switch_text, terminator_text};

use crate::names::push_path;
use crate::operands::{push_more_operands, push_operand, push_operands, push_quoted};
use crate::places::{push_label, push_local, push_place};
use crate::positions::Position;
use crate::pushes::{push_decimal, push_text};
use crate::rvalues::push_rvalue;
use mir_ir::{Arm, Callee, Operand, PlaceExpr, Rvalue, Statement, Terminator};
use vk_core::{BlockId, LocalId, NoMemory};

pub fn push_statement(out: &mut Vec<u8>, statement: &Statement) -> Result<(), NoMemory>
    ensures { OnOk result (out.new.items ≡ out.old.items ++ statement_text statement.now) }
{
    match statement {
        Statement::Assign { place, value } => push_assign(out, place, value)?,
        Statement::StorageLive(local) => push_storage(out, "StorageLive", *local)?,
        Statement::StorageDead(local) => push_storage(out, "StorageDead", *local)?,
        Statement::SetVariant { place, variant } => push_set_variant(out, place, *variant)?,
    }
    Ok(())
}

#[tactic(auto, unfolding(crate::specs::Lines::assign_text))]
fn push_assign(out: &mut Vec<u8>, place: &PlaceExpr, value: &Rvalue) -> Result<(), NoMemory>
    ensures { OnOk result (out.new.items ≡ out.old.items ++ assign_text place.now value.now) }
{
    push_place(out, place)?;
    push_text(out, " = ")?;
    push_rvalue(out, value)?;
    push_text(out, ";")?;
    Ok(())
}

#[tactic(auto, unfolding(crate::specs::Lines::storage_text))]
fn push_storage(out: &mut Vec<u8>, word: &str, local: LocalId) -> Result<(), NoMemory>
    ensures { OnOk result (out.new.items ≡ out.old.items ++ storage_text word.now local.0) }
{
    push_text(out, word)?;
    push_text(out, "(")?;
    push_local(out, local)?;
    push_text(out, ");")?;
    Ok(())
}

#[tactic(auto, unfolding(crate::specs::Lines::set_variant_text))]
fn push_set_variant(out: &mut Vec<u8>, place: &PlaceExpr, variant: u128) -> Result<(), NoMemory>
    ensures { OnOk result (out.new.items ≡ out.old.items ++ set_variant_text place.now variant) }
{
    push_text(out, "discriminant(")?;
    push_place(out, place)?;
    push_text(out, ") = ")?;
    push_decimal(out, variant)?;
    push_text(out, ";")?;
    Ok(())
}

pub fn push_terminator(out: &mut Vec<u8>, terminator: &Terminator) -> Result<(), NoMemory>
    ensures { OnOk result (out.new.items ≡ out.old.items ++ terminator_text terminator.now) }
{
    match terminator {
        Terminator::Goto { target } => push_goto(out, *target)?,
        Terminator::Switch {
            operand,
            arms,
            otherwise,
        } => {
            push_switch(out, operand, arms.as_slice(), *otherwise)?;
        }
        Terminator::Return => push_text(out, "return;")?,
        Terminator::Unreachable => push_text(out, "unreachable;")?,
        Terminator::Drop { place, next } => push_drop(out, place, *next)?,
        Terminator::Assert {
            operand,
            expected,
            text,
            shown,
            next,
        } => {
            push_assert(
                out,
                operand,
                *expected,
                text.as_slice(),
                shown.as_slice(),
                *next,
            )?;
        }
        Terminator::Call {
            destination,
            callee,
            arguments,
            next,
        } => {
            push_call(out, destination, callee, arguments.as_slice(), *next)?;
        }
    }
    Ok(())
}

#[tactic(auto, unfolding(crate::specs::Lines::goto_text))]
fn push_goto(out: &mut Vec<u8>, target: BlockId) -> Result<(), NoMemory>
    ensures { OnOk result (out.new.items ≡ out.old.items ++ goto_text target.0) }
{
    push_text(out, "goto -> ")?;
    push_label(out, target)?;
    push_text(out, ";")?;
    Ok(())
}

#[tactic(auto, unfolding(crate::specs::Lines::switch_text))]
fn push_switch(
    out: &mut Vec<u8>,
    operand: &Operand,
    arms: &[Arm],
    otherwise: BlockId,
) -> Result<(), NoMemory>
    ensures { OnOk result (out.new.items ≡ out.old.items ++ switch_text operand.now arms.now otherwise.0) }
{
    push_text(out, "switchInt(")?;
    push_operand(out, operand)?;
    push_text(out, ") -> [")?;
    push_arms(out, arms)?;
    push_text(out, "otherwise: ")?;
    push_label(out, otherwise)?;
    push_text(out, "];")?;
    Ok(())
}

fn push_arms(out: &mut Vec<u8>, arms: &[Arm]) -> Result<(), NoMemory>
    ensures { OnOk result (out.new.items ≡ out.old.items ++ arms_text arms.now) }
{
    for arm in arms {
        push_decimal(out, arm.number)?;
        push_text(out, ": ")?;
        push_label(out, arm.target)?;
        push_text(out, ", ")?;
    }
    Ok(())
}

#[tactic(auto, unfolding(crate::specs::Lines::drop_text))]
fn push_drop(out: &mut Vec<u8>, place: &PlaceExpr, next: BlockId) -> Result<(), NoMemory>
    ensures { OnOk result (out.new.items ≡ out.old.items ++ drop_text place.now next.0) }
{
    push_text(out, "drop(")?;
    push_place(out, place)?;
    push_text(out, ")")?;
    push_goes_on(out, "return", next)?;
    Ok(())
}

#[tactic(auto, unfolding(crate::specs::Lines::assert_text))]
fn push_assert(
    out: &mut Vec<u8>,
    operand: &Operand,
    expected: bool,
    text: &[u8],
    shown: &[Operand],
    next: BlockId,
) -> Result<(), NoMemory>
    ensures { OnOk result (out.new.items ≡ out.old.items ++ assert_text operand.now expected text.now shown.now next.0) }
{
    push_text(out, "assert(")?;
    push_text(out, expected_word(expected))?;
    push_operand(out, operand)?;
    push_text(out, ", ")?;
    push_quoted(out, text)?;
    push_more_operands(out, shown)?;
    push_text(out, ")")?;
    push_goes_on(out, "success", next)?;
    Ok(())
}

fn expected_word(expected: bool) -> &'static str
    ensures { result.now ≡ expected_word expected }
{
    if expected { "" } else { "!" }
}

#[tactic(auto, unfolding(crate::specs::Lines::call_text))]
fn push_call(
    out: &mut Vec<u8>,
    destination: &PlaceExpr,
    callee: &Callee,
    arguments: &[Operand],
    next: Option<BlockId>,
) -> Result<(), NoMemory>
    ensures { OnOk result (out.new.items ≡ out.old.items ++ call_text destination.now callee.now arguments.now next) }
{
    push_place(out, destination)?;
    push_text(out, " = ")?;
    push_path(out, Position::AsValue, &callee.path)?;
    push_text(out, "(")?;
    push_operands(out, arguments)?;
    push_text(out, ")")?;
    push_call_end(out, next)?;
    Ok(())
}

fn push_call_end(out: &mut Vec<u8>, next: Option<BlockId>) -> Result<(), NoMemory>
    ensures { OnOk result (out.new.items ≡ out.old.items ++ call_end_text next) }
{
    match next {
        Some(next) => push_goes_on(out, "return", next)?,
        None => push_text(out, " -> unwind continue;")?,
    }
    Ok(())
}

#[tactic(auto, unfolding(crate::specs::Lines::goes_on_text))]
fn push_goes_on(out: &mut Vec<u8>, word: &str, next: BlockId) -> Result<(), NoMemory>
    ensures { OnOk result (out.new.items ≡ out.old.items ++ goes_on_text word.now next.0) }
{
    push_text(out, " -> [")?;
    push_text(out, word)?;
    push_text(out, ": ")?;
    push_label(out, next)?;
    push_text(out, ", unwind continue];")?;
    Ok(())
}
