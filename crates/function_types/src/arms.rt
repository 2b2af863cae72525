ghost use Rattle.std.specs.Prelude.{◌≡◌, ◌^◌, IfOk, [], nat_lt};
ghost use Rattle.type_rules.specs.Code.{arms_fit, scalar_width};
ghost use Rattle.mir_ir.specs.Integers.{width_of};
ghost use Rattle.function_types.specs.Steps.{arm_fits};

use crate::labels::label_fits;
use code_types::check;
use indexmap::IndexSet;
use mir_ir::{Arm, IntTy};
use name_tables::Body;
use std::alloc::Global;
use type_rules::{Scalar, TypeKind};
use vk_core::NoMemory;

fn width_of(int: IntTy) -> u32
    ensures { result ≡ width_of int }
{
    match int {
        IntTy::I8 | IntTy::U8 => 8,
        IntTy::I16 | IntTy::U16 => 16,
        IntTy::I32 | IntTy::U32 => 32,
        IntTy::I64 | IntTy::U64 | IntTy::Isize | IntTy::Usize => 64,
        IntTy::I128 | IntTy::U128 => 128,
    }
}

/// How many bits the patterns of a `switchInt` have.
pub fn scalar_width(scalar: Scalar) -> u32
    ensures { result ≡ scalar_width scalar }
{
    match scalar {
        Scalar::Bool => 1,
        Scalar::Char => 32,
        Scalar::Int(int) => width_of(int),
    }
}

/// Whether a number has no more bits than these.
fn is_pattern(width: u32, number: u128) -> bool
    ensures { result ≡ nat_lt number (2 ^ width) }
{
    width >= 128 || number >> width == 0
}

/// An arm: its number is a pattern that no arm before has, and its label exists.
fn arm_fits(body: &Body<'_>, width: u32, is_new: bool, arm: Arm) -> Result<(), TypeKind>
    ensures { result ≡ arm_fits body.now width is_new arm }
{
    check(is_pattern(width, arm.number) && is_new, TypeKind::Mismatch)?;
    label_fits(body, arm.target)?;
    Ok(())
}

/// The arms of a `switchInt` in order. Their numbers are kept in a set, so that each is looked up once.
pub fn arms_fit(
    alloc: Global,
    body: &Body<'_>,
    width: u32,
    arms: &[Arm],
) -> Result<Result<(), TypeKind>, NoMemory>
    ensures { IfOk result (λ fits. fits ≡ arms_fit body.now width [] arms.now) }
{
    let mut before = IndexSet::new(alloc);
    let mut place = 0;
    while place < arms.len() {
        let arm = arms[place];
        let is_new = before.insert(arm.number)?;
        match arm_fits(body, width, is_new, arm) {
            Ok(()) => place += 1,
            Err(kind) => return Ok(Err(kind)),
        }
    }
    Ok(Ok(()))
}
