ghost use Rattle.std.specs.Prelude.{◌≡◌, None, slice_index_or};
ghost use Rattle.scalar_runs.specs.Values.{held_value, is_signed_operand, kind_of_constant, kind_of_operand, operand_value, read_local, rvalue_value, signed_of, word_of_constant};

use crate::kinds::{ValueKind, kind_of};
use crate::look::local_kind;
use crate::operators::{binary_value, cast_value, neg_value, not_value, truth};
use mir_ir::{Constant, Function, Operand, Rvalue};
use vk_core::{CheckClass, LocalId};
use word_bits::Word;

fn held(values: &[Option<Word>], local: LocalId) -> Option<Word>
    ensures { result ≡ slice_index_or values.now local.0 None }
{
    values.get(local.0 as usize).copied().flatten()
}

fn held_value(held: Option<Word>) -> Result<Word, CheckClass>
    ensures { result ≡ held_value held }
{
    match held {
        Some(word) => Ok(word),
        None => Err(CheckClass::Uninit),
    }
}

fn read_local(
    function: &Function,
    values: &[Option<Word>],
    local: LocalId,
) -> Result<Word, CheckClass>
    ensures { result ≡ read_local function.now values.now local.0 }
{
    match local_kind(function, local) {
        None => Err(CheckClass::Invalid),
        Some(kind) => match kind {
            ValueKind::Unit | ValueKind::Never => Ok(truth(false)),
            ValueKind::Bool => held_value(held(values, local)),
            ValueKind::Char => held_value(held(values, local)),
            ValueKind::Int(_) => held_value(held(values, local)),
        },
    }
}

/// The word that a constant writes: a fault where it is none of a scalar type.
pub fn word_of_constant(constant: &Constant) -> Result<Word, CheckClass>
    ensures { result ≡ word_of_constant constant.now }
{
    match constant {
        Constant::Integer { word, .. } => Ok(*word),
        Constant::Bool(value) => Ok(truth(*value)),
        Constant::Char(value) => Ok(Word {
            width: 32,
            value: *value as u128,
        }),
        Constant::Text(_) | Constant::Unit | Constant::Named(_) => Err(CheckClass::Invalid),
    }
}

pub fn operand_value(
    function: &Function,
    values: &[Option<Word>],
    operand: &Operand,
) -> Result<Word, CheckClass>
    ensures { result ≡ operand_value function.now values.now operand.now }
{
    match operand {
        Operand::Copy(place) => read_local(function, values, place.local),
        Operand::Move(place) => read_local(function, values, place.local),
        Operand::Const(constant) => word_of_constant(constant),
    }
}

fn kind_of_constant(constant: &Constant) -> Option<ValueKind>
    ensures { result ≡ kind_of_constant constant.now }
{
    match constant {
        Constant::Integer { ty, .. } => Some(ValueKind::Int(*ty)),
        Constant::Bool(_) => Some(ValueKind::Bool),
        Constant::Char(_) => Some(ValueKind::Char),
        Constant::Text(_) | Constant::Unit | Constant::Named(_) => None,
    }
}

/// The kind of an operand's type, None where it is no scalar.
pub fn kind_of_operand(function: &Function, operand: &Operand) -> Option<ValueKind>
    ensures { result ≡ kind_of_operand function.now operand.now }
{
    match operand {
        Operand::Copy(place) => local_kind(function, place.local),
        Operand::Move(place) => local_kind(function, place.local),
        Operand::Const(constant) => kind_of_constant(constant),
    }
}

/// Whether the operand is a number with a sign.
pub fn is_signed_operand(function: &Function, operand: &Operand) -> bool
    ensures { result ≡ is_signed_operand function.now operand.now }
{
    match kind_of_operand(function, operand) {
        None => false,
        Some(kind) => kind.is_signed(),
    }
}

pub fn rvalue_value(
    function: &Function,
    values: &[Option<Word>],
    value: &Rvalue,
) -> Result<Word, CheckClass>
    ensures { result ≡ rvalue_value function.now values.now value.now }
{
    match value {
        Rvalue::Use(operand) => operand_value(function, values, operand),
        Rvalue::Cast { operand, ty, kind } => cast_value(
            *kind,
            is_signed_operand(function, operand),
            kind_of(ty),
            operand_value(function, values, operand),
        ),
        Rvalue::Binary { op, a, b } => binary_value(
            *op,
            is_signed_operand(function, a),
            operand_value(function, values, a),
            operand_value(function, values, b),
        ),
        Rvalue::Not(operand) => not_value(operand_value(function, values, operand)),
        Rvalue::Neg(operand) => neg_value(operand_value(function, values, operand)),
        _ => Err(CheckClass::Invalid),
    }
}
