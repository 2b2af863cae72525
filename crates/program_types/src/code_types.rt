ghost use Rattle.std.specs.Prelude.{◌≡◌, ◌++◌, drop, flat_map, length, min, take, OnOk};
ghost use Rattle.mir_program.specs.Mentions.{argument_types, block_types, function_types, local_types, named_operand_types, operand_types, rvalue_types, statement_types, terminator_types};
ghost use Rattle.program_types.specs.Mentioned.{written_at};

use crate::declared_types::push_place;
use crate::written::{Written, push_type};
use mir_ir::{Block, Function, Local, NamedOperand, Operand, Rvalue, Statement, Terminator, Ty};
use vk_core::NoMemory;

fn push_operand<'a>(out: &mut Written<'a>, operand: &'a Operand) -> Result<(), NoMemory>
    ensures { OnOk result (out.new ≡ out.old ++ operand_types written_at operand.now) }
{
    match operand {
        Operand::Copy(place) => push_place(out, place)?,
        Operand::Move(place) => push_place(out, place)?,
        Operand::Const(_) => {}
    }
    Ok(())
}

fn push_operands<'a>(out: &mut Written<'a>, items: &'a [Operand]) -> Result<(), NoMemory>
    ensures { OnOk result (out.new ≡ out.old ++ flat_map (operand_types written_at) items.now) }
{
    for item in items {
        push_operand(out, item)?;
    }
    Ok(())
}

fn push_named_operands<'a>(out: &mut Written<'a>, items: &'a [NamedOperand]) -> Result<(), NoMemory>
    ensures { OnOk result (out.new ≡ out.old ++ flat_map (named_operand_types written_at) items.now) }
{
    for item in items {
        push_operand(out, &item.operand)?;
    }
    Ok(())
}

fn push_rvalue<'a>(out: &mut Written<'a>, value: &'a Rvalue) -> Result<(), NoMemory>
    ensures { OnOk result (out.new ≡ out.old ++ rvalue_types written_at value.now) }
{
    match value {
        Rvalue::Use(operand) => push_operand(out, operand)?,
        Rvalue::Cast { operand, ty, .. } => {
            push_operand(out, operand)?;
            push_type(out, ty)?;
        }
        Rvalue::Binary { a, b, .. } => {
            push_operand(out, a)?;
            push_operand(out, b)?;
        }
        Rvalue::Not(operand) => push_operand(out, operand)?,
        Rvalue::Neg(operand) => push_operand(out, operand)?,
        Rvalue::PtrMetadata(operand) => push_operand(out, operand)?,
        Rvalue::RefOf { place, .. } => push_place(out, place)?,
        Rvalue::RawOf { place, .. } => push_place(out, place)?,
        Rvalue::Discriminant(place) => push_place(out, place)?,
        Rvalue::Len(place) => push_place(out, place)?,
        Rvalue::SizeOf(ty) => push_type(out, ty)?,
        Rvalue::AlignOf(ty) => push_type(out, ty)?,
        Rvalue::Array(operands) => push_operands(out, operands.as_slice())?,
        Rvalue::Repeat { operand, .. } => push_operand(out, operand)?,
        Rvalue::Tuple(operands) => push_operands(out, operands.as_slice())?,
        Rvalue::PathUnit(_) => {}
        Rvalue::PathTuple { operands, .. } => { push_operands(out, operands.as_slice())? },
        Rvalue::PathFields { fields, .. } => { push_named_operands(out, fields.as_slice())? }
    }
    Ok(())
}

fn push_statement<'a>(out: &mut Written<'a>, statement: &'a Statement) -> Result<(), NoMemory>
    ensures { OnOk result (out.new ≡ out.old ++ statement_types written_at statement.now) }
{
    match statement {
        Statement::Assign { place, value } => {
            push_place(out, place)?;
            push_rvalue(out, value)?;
        }
        Statement::StorageLive(_) | Statement::StorageDead(_) => {}
        Statement::SetVariant { place, .. } => push_place(out, place)?,
    }
    Ok(())
}

fn push_statements<'a>(out: &mut Written<'a>, items: &'a [Statement]) -> Result<(), NoMemory>
    ensures { OnOk result (out.new ≡ out.old ++ flat_map (statement_types written_at) items.now) }
{
    for item in items {
        push_statement(out, item)?;
    }
    Ok(())
}

fn push_argument<'a>(out: &mut Written<'a>, argument: &'a Option<Ty>) -> Result<(), NoMemory>
    ensures { OnOk result (out.new ≡ out.old ++ argument_types written_at argument.now) }
{
    match argument {
        None => {}
        Some(ty) => push_type(out, ty)?,
    }
    Ok(())
}

fn push_terminator<'a>(out: &mut Written<'a>, last: &'a Terminator) -> Result<(), NoMemory>
    ensures { OnOk result (out.new ≡ out.old ++ terminator_types written_at last.now) }
{
    match last {
        Terminator::Goto { .. } | Terminator::Return | Terminator::Unreachable => {}
        Terminator::Switch { operand, .. } => push_operand(out, operand)?,
        Terminator::Drop { place, .. } => push_place(out, place)?,
        Terminator::Assert { operand, shown, .. } => {
            push_operand(out, operand)?;
            push_operands(out, shown.as_slice())?;
        }
        Terminator::Call {
            destination,
            callee,
            arguments,
            ..
        } => {
            push_place(out, destination)?;
            push_operands(out, arguments.as_slice())?;
            push_argument(out, &callee.argument)?;
        }
    }
    Ok(())
}

fn push_block<'a>(out: &mut Written<'a>, block: &'a Block) -> Result<(), NoMemory>
    ensures { OnOk result (out.new ≡ out.old ++ block_types written_at block.now) }
{
    push_statements(out, block.statements.as_slice())?;
    push_terminator(out, &block.terminator)?;
    Ok(())
}

fn push_blocks<'a>(out: &mut Written<'a>, items: &'a [Block]) -> Result<(), NoMemory>
    ensures { OnOk result (out.new ≡ out.old ++ flat_map (block_types written_at) items.now) }
{
    for item in items {
        push_block(out, item)?;
    }
    Ok(())
}

fn push_locals<'a>(out: &mut Written<'a>, items: &'a [Local]) -> Result<(), NoMemory>
    ensures { OnOk result (out.new ≡ out.old ++ flat_map (local_types written_at) items.now) }
{
    for item in items {
        push_type(out, &item.ty)?;
    }
    Ok(())
}

/// How many of the locals are parameters.
fn parameter_count(function: &Function) -> usize
    ensures { result ≡ min (length function.now.locals) function.now.parameters }
{
    function.locals.len().min(function.parameters as usize)
}

#[tactic(auto, using(crate::proofs::ListLaws::take_front))]
fn parameters_of(function: &Function) -> &[Local]
    ensures { result.now ≡ take function.now.parameters function.now.locals }
{
    let count = parameter_count(function);
    &function.locals.as_slice()[..count]
}

#[tactic(auto, using(crate::proofs::ListLaws::drop_front))]
fn other_locals_of(function: &Function) -> &[Local]
    ensures { result.now ≡ drop function.now.parameters function.now.locals }
{
    let count = parameter_count(function);
    &function.locals.as_slice()[count..]
}

#[tactic(auto, using(crate::proofs::ListLaws::appended_four))]
fn push_function<'a>(out: &mut Written<'a>, function: &'a Function) -> Result<(), NoMemory>
    ensures { OnOk result (out.new ≡ out.old ++ function_types written_at function.now) }
{
    push_locals(out, parameters_of(function))?;
    push_type(out, &function.result)?;
    push_locals(out, other_locals_of(function))?;
    push_blocks(out, function.blocks.as_slice())?;
    Ok(())
}

/// Adds the types that functions name.
pub fn push_functions<'a>(out: &mut Written<'a>, items: &'a [Function]) -> Result<(), NoMemory>
    ensures { OnOk result (out.new ≡ out.old ++ flat_map (function_types written_at) items.now) }
{
    for item in items {
        push_function(out, item)?;
    }
    Ok(())
}
