ghost use Rattle.std.specs.Prelude.{◌≡◌, true, Result};
ghost use Rattle.scalar_runs.specs.Operators.{are_operands, binary_value, cast_value, is_shift, lawful, neg_value, not_value, operated, operator_value, recast_value, truth};
ghost use Rattle.word_bits.specs.Words.{quotient, remainder};

use crate::kinds::{ValueKind, is_word};
use mir_ir::{BinaryOp, CastKind};
use vk_core::CheckClass;
use word_bits::Word;

/// A truth value as a word of one bit.
pub fn truth(value: bool) -> Word
    ensures { result ≡ truth value }
{
    Word {
        width: 1,
        value: if value { 1 } else { 0 },
    }
}

fn is_shift(op: BinaryOp) -> bool
    ensures { result ≡ is_shift op }
{
    match op {
        BinaryOp::Shl | BinaryOp::Shr => true,
        _ => false,
    }
}

/// Whether both are words, of one width where the operator is no shift.
pub fn are_operands(op: BinaryOp, a: Word, b: Word) -> bool
    ensures { result ≡ are_operands op a b }
{
    is_word(a) && is_word(b) && (is_shift(op) || b.width == a.width)
}

fn quotient(a: Word, b: Word, signed: bool) -> Result<Word, CheckClass>
    requires { are_operands BinaryOp.Div a b ≡ true }
    ensures { result ≡ lawful a b signed (quotient a b signed) }
{
    if word_bits::lawful_divisor(a, b, signed) {
        Ok(word_bits::div(a, b, signed))
    } else {
        Err(CheckClass::Division)
    }
}

fn remainder(a: Word, b: Word, signed: bool) -> Result<Word, CheckClass>
    requires { are_operands BinaryOp.Rem a b ≡ true }
    ensures { result ≡ lawful a b signed (remainder a b signed) }
{
    if word_bits::lawful_divisor(a, b, signed) {
        Ok(word_bits::rem(a, b, signed))
    } else {
        Err(CheckClass::Division)
    }
}

#[tactic(auto, using(crate::proofs::OperandLaws::words_of_operands))]
fn operated(op: BinaryOp, signed: bool, a: Word, b: Word) -> Result<Word, CheckClass>
    requires { are_operands op a b ≡ true }
    ensures { result ≡ operated op signed a b }
{
    match op {
        BinaryOp::Add => Ok(word_bits::add(a, b)),
        BinaryOp::Sub => Ok(word_bits::sub(a, b)),
        BinaryOp::Mul => Ok(word_bits::mul(a, b)),
        BinaryOp::Div => quotient(a, b, signed),
        BinaryOp::Rem => remainder(a, b, signed),
        BinaryOp::BitXor => Ok(word_bits::xor(a, b)),
        BinaryOp::BitAnd => Ok(word_bits::and(a, b)),
        BinaryOp::BitOr => Ok(word_bits::or(a, b)),
        BinaryOp::Shl => Ok(word_bits::shl(a, b)),
        BinaryOp::Shr => Ok(word_bits::shr(a, b, signed)),
        BinaryOp::Eq => Ok(truth(a.value == b.value)),
        BinaryOp::Lt => Ok(truth(word_bits::less(a, b, signed))),
        BinaryOp::Le => Ok(truth(!word_bits::less(b, a, signed))),
        BinaryOp::Ne => Ok(truth(a.value != b.value)),
        BinaryOp::Ge => Ok(truth(!word_bits::less(a, b, signed))),
        BinaryOp::Gt => Ok(truth(word_bits::less(b, a, signed))),
        BinaryOp::Offset
        | BinaryOp::AddWithOverflow
        | BinaryOp::SubWithOverflow
        | BinaryOp::MulWithOverflow => Err(CheckClass::Invalid),
    }
}

/// The value of an operator on words: it wraps, and a quotient that there is none of is the fault `division`.
pub fn operator_value(op: BinaryOp, signed: bool, a: Word, b: Word) -> Result<Word, CheckClass>
    ensures { result ≡ operator_value op signed a b }
{
    if are_operands(op, a, b) {
        operated(op, signed, a, b)
    } else {
        Err(CheckClass::Invalid)
    }
}

pub fn binary_value(
    op: BinaryOp,
    signed: bool,
    a: Result<Word, CheckClass>,
    b: Result<Word, CheckClass>,
) -> Result<Word, CheckClass>
    ensures { result ≡ binary_value op signed a b }
{
    match a {
        Err(class) => Err(class),
        Ok(first) => match b {
            Err(class) => Err(class),
            Ok(second) => operator_value(op, signed, first, second),
        },
    }
}

#[tactic(auto, using(crate::proofs::OperandLaws::word_of_test))]
pub fn not_value(value: Result<Word, CheckClass>) -> Result<Word, CheckClass>
    ensures { result ≡ not_value value }
{
    match value {
        Err(class) => Err(class),
        Ok(word) => {
            if is_word(word) {
                Ok(word_bits::not(word))
            } else {
                Err(CheckClass::Invalid)
            }
        }
    }
}

#[tactic(auto, using(crate::proofs::OperandLaws::word_of_test))]
pub fn neg_value(value: Result<Word, CheckClass>) -> Result<Word, CheckClass>
    ensures { result ≡ neg_value value }
{
    match value {
        Err(class) => Err(class),
        Ok(word) => {
            if is_word(word) {
                Ok(word_bits::neg(word))
            } else {
                Err(CheckClass::Invalid)
            }
        }
    }
}

#[tactic(auto, using(crate::proofs::OperandLaws::word_of_test))]
fn recast_value(
    signed: bool,
    kind: ValueKind,
    value: Result<Word, CheckClass>,
) -> Result<Word, CheckClass>
    ensures { result ≡ recast_value signed (Some kind) value }
{
    match value {
        Err(class) => Err(class),
        Ok(word) => {
            if is_word(word) {
                Ok(word_bits::cast(word, signed, kind.width()))
            } else {
                Err(CheckClass::Invalid)
            }
        }
    }
}

pub fn cast_value(
    cast: CastKind,
    signed: bool,
    target: Option<ValueKind>,
    value: Result<Word, CheckClass>,
) -> Result<Word, CheckClass>
    ensures { result ≡ cast_value cast signed target value }
{
    match cast {
        CastKind::IntToInt => match target {
            None => Err(CheckClass::Invalid),
            Some(kind) => recast_value(signed, kind, value),
        },
        _ => Err(CheckClass::Invalid),
    }
}
