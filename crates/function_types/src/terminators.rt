ghost use Rattle.std.specs.Prelude.{◌≡◌, IfOk};
ghost use Rattle.type_rules.specs.Code.{operands_fit, terminator_fits};
ghost use Rattle.function_types.specs.Steps.{assertion_fits, call_written, drop_fits, switch_by, switched};

use crate::arms::{arms_fit, scalar_width};
use crate::calls::call_fits;
use crate::forms::is_bool;
use crate::labels::{label_fits, next_fits, then_label};
use code_types::{check, operand_type, value_type};
use mir_ir::{Arm, Callee, Function, Operand, PlaceExpr, Terminator};
use name_tables::{Body, Declared, Table};
use std::alloc::Global;
use type_rules::{Scalar, TypeKind};
use vk_core::{BlockId, NoMemory};

fn drop_fits<'a>(
    declared: &Declared<'a>,
    body: &Body<'a>,
    place: &'a PlaceExpr,
    next: BlockId,
) -> Result<(), TypeKind>
    ensures { result ≡ drop_fits declared.now body.now place.now next }
{
    value_type(declared, body, place)?;
    label_fits(body, next)?;
    Ok(())
}

fn operands_fit<'a>(
    declared: &Declared<'a>,
    body: &Body<'a>,
    operands: &'a [Operand],
) -> Result<(), TypeKind>
    ensures { result ≡ operands_fit declared.now body.now operands.now }
{
    let mut place = 0;
    while place < operands.len() {
        operand_type(declared, body, &operands[place])?;
        place += 1;
    }
    Ok(())
}

fn assertion_fits<'a>(
    declared: &Declared<'a>,
    body: &Body<'a>,
    operand: &'a Operand,
    shown: &'a [Operand],
    next: BlockId,
) -> Result<(), TypeKind>
    ensures { result ≡ assertion_fits declared.now body.now operand.now shown.now next }
{
    let condition = operand_type(declared, body, operand)?;
    operands_fit(declared, body, shown)?;
    check(is_bool(condition.scalar()), TypeKind::Mismatch)?;
    label_fits(body, next)?;
    Ok(())
}

fn call_written<'a>(
    functions: &Table<'a, Function>,
    declared: &Declared<'a>,
    body: &Body<'a>,
    destination: &'a PlaceExpr,
    callee: &'a Callee,
    arguments: &'a [Operand],
    next: Option<BlockId>,
) -> Result<(), TypeKind>
    ensures { result ≡ call_written functions.now declared.now body.now destination.now callee.now arguments.now next }
{
    let to = value_type(declared, body, destination)?;
    call_fits(functions, declared, body, to, callee, arguments)?;
    next_fits(body, next)?;
    Ok(())
}

/// The arms and the last label of a `switchInt` over a value of this type.
fn switch_by(
    alloc: Global,
    body: &Body<'_>,
    scalar: Option<Scalar>,
    arms: &[Arm],
    otherwise: BlockId,
) -> Result<Result<(), TypeKind>, NoMemory>
    ensures { IfOk result (λ fits. fits ≡ switch_by body.now scalar arms.now otherwise) }
{
    match scalar {
        None => Ok(Err(TypeKind::Mismatch)),
        Some(scalar) => {
            let fits = arms_fit(alloc, body, scalar_width(scalar), arms)?;
            Ok(then_label(fits, body, otherwise))
        }
    }
}

fn switched<'a>(
    alloc: Global,
    declared: &Declared<'a>,
    body: &Body<'a>,
    operand: &'a Operand,
    arms: &[Arm],
    otherwise: BlockId,
) -> Result<Result<(), TypeKind>, NoMemory>
    ensures { IfOk result (λ fits. fits ≡ switched declared.now body.now operand.now arms.now otherwise) }
{
    match operand_type(declared, body, operand) {
        Err(kind) => Ok(Err(kind)),
        Ok(value) => switch_by(alloc, body, value.scalar(), arms, otherwise),
    }
}

/// The typing of a terminator.
pub fn terminator_fits<'a>(
    alloc: Global,
    functions: &Table<'a, Function>,
    declared: &Declared<'a>,
    body: &Body<'a>,
    terminator: &'a Terminator,
) -> Result<Result<(), TypeKind>, NoMemory>
    ensures { IfOk result (λ fits. fits ≡ terminator_fits functions.now declared.now body.now terminator.now) }
{
    match terminator {
        Terminator::Goto { target } => Ok(label_fits(body, *target)),
        Terminator::Switch {
            operand,
            arms,
            otherwise,
        } => switched(alloc, declared, body, operand, arms.as_slice(), *otherwise),
        Terminator::Return => Ok(Ok(())),
        Terminator::Unreachable => Ok(Ok(())),
        Terminator::Drop { place, next } => Ok(drop_fits(declared, body, place, *next)),
        Terminator::Assert {
            operand,
            shown,
            next,
            ..
        } => Ok(assertion_fits(declared, body, operand, shown.as_slice(), *next)),
        Terminator::Call {
            destination,
            callee,
            arguments,
            next,
        } => Ok(call_written(
            functions,
            declared,
            body,
            destination,
            callee,
            arguments.as_slice(),
            *next,
        )),
    }
}
