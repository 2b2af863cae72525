ghost use Rattle.std.specs.Prelude.{◌≡◌, ◌++◌, drop, flat_map, length, min, take, IfOk, OnOk};
ghost use Rattle.mir_program.specs.Mentions.{argument_types, block_types, function_types, local_types, named_operand_types, operand_types, rvalue_types, statement_types, terminator_types};
ghost use Rattle.type_layouts.specs.Rows.{rows_of};
ghost use Rattle.layout_rules.specs.Mentions.{program_rows};

use crate::declared_rows::{push_declarations, push_place};
use mir_ir::{
    Block, Declarations, Function, Local, NamedOperand, Operand, Rvalue, Statement, Terminator, Ty,
};
use std::alloc::Global;
use type_layouts::{Row, Scope, push_type};
use vk_core::NoMemory;

fn push_operand(
    alloc: Global,
    out: &mut Vec<Row>,
    scope: &Scope<'_>,
    operand: &Operand,
) -> Result<(), NoMemory>
    ensures { OnOk result (out.new.items ≡ out.old.items ++ operand_types (rows_of scope.now) operand.now) }
{
    match operand {
        Operand::Copy(place) => push_place(alloc, out, scope, place)?,
        Operand::Move(place) => push_place(alloc, out, scope, place)?,
        Operand::Const(_) => {}
    }
    Ok(())
}

fn push_operands(
    alloc: Global,
    out: &mut Vec<Row>,
    scope: &Scope<'_>,
    items: &[Operand],
) -> Result<(), NoMemory>
    ensures { OnOk result (out.new.items ≡ out.old.items ++ flat_map (operand_types (rows_of scope.now)) items.now) }
{
    for item in items {
        push_operand(alloc, out, scope, item)?;
    }
    Ok(())
}

fn push_named_operands(
    alloc: Global,
    out: &mut Vec<Row>,
    scope: &Scope<'_>,
    items: &[NamedOperand],
) -> Result<(), NoMemory>
    ensures { OnOk result (out.new.items ≡ out.old.items ++ flat_map (named_operand_types (rows_of scope.now)) items.now) }
{
    for item in items {
        push_operand(alloc, out, scope, &item.operand)?;
    }
    Ok(())
}

fn push_rvalue(
    alloc: Global,
    out: &mut Vec<Row>,
    scope: &Scope<'_>,
    value: &Rvalue,
) -> Result<(), NoMemory>
    ensures { OnOk result (out.new.items ≡ out.old.items ++ rvalue_types (rows_of scope.now) value.now) }
{
    match value {
        Rvalue::Use(operand) => push_operand(alloc, out, scope, operand)?,
        Rvalue::Cast { operand, ty, .. } => {
            push_operand(alloc, out, scope, operand)?;
            push_type(alloc, out, scope, ty, false)?;
        }
        Rvalue::Binary { a, b, .. } => {
            push_operand(alloc, out, scope, a)?;
            push_operand(alloc, out, scope, b)?;
        }
        Rvalue::Not(operand) => push_operand(alloc, out, scope, operand)?,
        Rvalue::Neg(operand) => push_operand(alloc, out, scope, operand)?,
        Rvalue::PtrMetadata(operand) => push_operand(alloc, out, scope, operand)?,
        Rvalue::RefOf { place, .. } => push_place(alloc, out, scope, place)?,
        Rvalue::RawOf { place, .. } => push_place(alloc, out, scope, place)?,
        Rvalue::Discriminant(place) => push_place(alloc, out, scope, place)?,
        Rvalue::Len(place) => push_place(alloc, out, scope, place)?,
        Rvalue::SizeOf(ty) => push_type(alloc, out, scope, ty, false)?,
        Rvalue::AlignOf(ty) => push_type(alloc, out, scope, ty, false)?,
        Rvalue::Array(operands) => push_operands(alloc, out, scope, operands.as_slice())?,
        Rvalue::Repeat { operand, .. } => push_operand(alloc, out, scope, operand)?,
        Rvalue::Tuple(operands) => push_operands(alloc, out, scope, operands.as_slice())?,
        Rvalue::PathUnit(_) => {}
        Rvalue::PathTuple { operands, .. } => push_operands(
            alloc,
            out,
            scope,
            operands.as_slice(),
        )?,
        Rvalue::PathFields { fields, .. } => {
            push_named_operands(alloc, out, scope, fields.as_slice())?
        }
    }
    Ok(())
}

fn push_statement(
    alloc: Global,
    out: &mut Vec<Row>,
    scope: &Scope<'_>,
    statement: &Statement,
) -> Result<(), NoMemory>
    ensures { OnOk result (out.new.items ≡ out.old.items ++ statement_types (rows_of scope.now) statement.now) }
{
    match statement {
        Statement::Assign { place, value } => {
            push_place(alloc, out, scope, place)?;
            push_rvalue(alloc, out, scope, value)?;
        }
        Statement::StorageLive(_) | Statement::StorageDead(_) => {}
        Statement::SetVariant { place, .. } => push_place(alloc, out, scope, place)?,
    }
    Ok(())
}

fn push_statements(
    alloc: Global,
    out: &mut Vec<Row>,
    scope: &Scope<'_>,
    items: &[Statement],
) -> Result<(), NoMemory>
    ensures { OnOk result (out.new.items ≡ out.old.items ++ flat_map (statement_types (rows_of scope.now)) items.now) }
{
    for item in items {
        push_statement(alloc, out, scope, item)?;
    }
    Ok(())
}

fn push_argument(
    alloc: Global,
    out: &mut Vec<Row>,
    scope: &Scope<'_>,
    argument: &Option<Ty>,
) -> Result<(), NoMemory>
    ensures { OnOk result (out.new.items ≡ out.old.items ++ argument_types (rows_of scope.now) argument.now) }
{
    match argument {
        None => {}
        Some(ty) => push_type(alloc, out, scope, ty, false)?,
    }
    Ok(())
}

fn push_terminator(
    alloc: Global,
    out: &mut Vec<Row>,
    scope: &Scope<'_>,
    last: &Terminator,
) -> Result<(), NoMemory>
    ensures { OnOk result (out.new.items ≡ out.old.items ++ terminator_types (rows_of scope.now) last.now) }
{
    match last {
        Terminator::Goto { .. } | Terminator::Return | Terminator::Unreachable => {}
        Terminator::Switch { operand, .. } => push_operand(alloc, out, scope, operand)?,
        Terminator::Drop { place, .. } => push_place(alloc, out, scope, place)?,
        Terminator::Assert { operand, shown, .. } => {
            push_operand(alloc, out, scope, operand)?;
            push_operands(alloc, out, scope, shown.as_slice())?;
        }
        Terminator::Call {
            destination,
            callee,
            arguments,
            ..
        } => {
            push_place(alloc, out, scope, destination)?;
            push_operands(alloc, out, scope, arguments.as_slice())?;
            push_argument(alloc, out, scope, &callee.argument)?;
        }
    }
    Ok(())
}

fn push_block(
    alloc: Global,
    out: &mut Vec<Row>,
    scope: &Scope<'_>,
    block: &Block,
) -> Result<(), NoMemory>
    ensures { OnOk result (out.new.items ≡ out.old.items ++ block_types (rows_of scope.now) block.now) }
{
    push_statements(alloc, out, scope, block.statements.as_slice())?;
    push_terminator(alloc, out, scope, &block.terminator)?;
    Ok(())
}

fn push_blocks(
    alloc: Global,
    out: &mut Vec<Row>,
    scope: &Scope<'_>,
    items: &[Block],
) -> Result<(), NoMemory>
    ensures { OnOk result (out.new.items ≡ out.old.items ++ flat_map (block_types (rows_of scope.now)) items.now) }
{
    for item in items {
        push_block(alloc, out, scope, item)?;
    }
    Ok(())
}

fn push_locals(
    alloc: Global,
    out: &mut Vec<Row>,
    scope: &Scope<'_>,
    items: &[Local],
) -> Result<(), NoMemory>
    ensures { OnOk result (out.new.items ≡ out.old.items ++ flat_map (local_types (rows_of scope.now)) items.now) }
{
    for item in items {
        push_type(alloc, out, scope, &item.ty, true)?;
    }
    Ok(())
}

/// How many of the locals are parameters.
fn parameter_count(function: &Function) -> usize
    ensures { result ≡ min (length function.now.locals) function.now.parameters }
{
    function.locals.len().min(function.parameters as usize)
}

#[tactic(auto, using(crate::proofs::RowLaws::take_front))]
fn parameters_of(function: &Function) -> &[Local]
    ensures { result.now ≡ take function.now.parameters function.now.locals }
{
    let count = parameter_count(function);
    &function.locals.as_slice()[..count]
}

#[tactic(auto, using(crate::proofs::RowLaws::drop_front))]
fn other_locals_of(function: &Function) -> &[Local]
    ensures { result.now ≡ drop function.now.parameters function.now.locals }
{
    let count = parameter_count(function);
    &function.locals.as_slice()[count..]
}

#[tactic(auto, using(crate::proofs::RowLaws::appended_four))]
fn push_function(
    alloc: Global,
    out: &mut Vec<Row>,
    scope: &Scope<'_>,
    function: &Function,
) -> Result<(), NoMemory>
    ensures { OnOk result (out.new.items ≡ out.old.items ++ function_types (rows_of scope.now) function.now) }
{
    push_locals(alloc, out, scope, parameters_of(function))?;
    push_type(alloc, out, scope, &function.result, true)?;
    push_locals(alloc, out, scope, other_locals_of(function))?;
    push_blocks(alloc, out, scope, function.blocks.as_slice())?;
    Ok(())
}

fn push_functions(
    alloc: Global,
    out: &mut Vec<Row>,
    scope: &Scope<'_>,
    items: &[Function],
) -> Result<(), NoMemory>
    ensures { OnOk result (out.new.items ≡ out.old.items ++ flat_map (function_types (rows_of scope.now)) items.now) }
{
    for item in items {
        push_function(alloc, out, scope, item)?;
    }
    Ok(())
}

/// The types that a program names, in their order. The scope is that of its declared types.
#[tactic(auto, unfolding(crate::specs::Mentions::program_rows))]
pub fn rows_of_program(
    alloc: Global,
    scope: &Scope<'_>,
    functions: &[Function],
    declarations: &Declarations,
) -> Result<Vec<Row>, NoMemory>
    requires { scope.now ≡ declarations.now.types }
    ensures { IfOk result (λ rows. rows.items ≡ program_rows (record { functions = functions.now; declarations = declarations.now })) }
{
    let mut out = Vec::new(alloc);
    push_declarations(alloc, &mut out, scope, declarations)?;
    push_functions(alloc, &mut out, scope, functions)?;
    Ok(out)
}
