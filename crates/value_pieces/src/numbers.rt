ghost use Rattle.std.specs.Prelude.{◌≡◌, ◌-◌, ◌^◌, ◌≤◌};
ghost use Rattle.mir_ir.specs.Integers.{width_of};
ghost use Rattle.mir_grammar.specs.Values.{plus_word, minus_word, integer_of, least_word, greatest_word};

use mir_ir::{Constant, IntTy};
use word_bits::Word;

/// The greatest number of the type's width.
fn greatest(ty: IntTy) -> u128
    ensures { result ≡ 2 ^ width_of ty - 1 }
{
    match ty {
        IntTy::I8 | IntTy::U8 => 255,
        IntTy::I16 | IntTy::U16 => 65_535,
        IntTy::I32 | IntTy::U32 => 4_294_967_295,
        IntTy::I64 | IntTy::U64 | IntTy::Isize | IntTy::Usize => 18_446_744_073_709_551_615,
        IntTy::I128 | IntTy::U128 => u128::MAX,
    }
}

/// Half the count of the numbers of the type's width.
fn half(ty: IntTy) -> u128
    ensures value { result ≡ 2 ^ (width_of ty - 1) }
    ensures positive { 1 ≤ result }
{
    match ty {
        IntTy::I8 | IntTy::U8 => 128,
        IntTy::I16 | IntTy::U16 => 32_768,
        IntTy::I32 | IntTy::U32 => 2_147_483_648,
        IntTy::I64 | IntTy::U64 | IntTy::Isize | IntTy::Usize => 9_223_372_036_854_775_808,
        IntTy::I128 | IntTy::U128 => 170_141_183_460_469_231_731_687_303_715_884_105_728,
    }
}

fn plus_word(ty: IntTy, number: u128) -> Word
    ensures { result ≡ plus_word (width_of ty) number }
{
    let most = greatest(ty);
    let value = if number <= most {
        number
    } else {
        number % (most + 1)
    };
    Word {
        width: ty.width(),
        value,
    }
}

/// The number with a minus, in two's complement.
fn minus_word(ty: IntTy, number: u128) -> Word
    ensures { result ≡ minus_word (width_of ty) number }
{
    let most = greatest(ty);
    let value = if number == 0 || number > most {
        0
    } else {
        most - number + 1
    };
    Word {
        width: ty.width(),
        value,
    }
}

/// A number of the type that is written behind it.
pub fn integer_of(minus: bool, ty: Option<IntTy>, number: u128) -> Constant
    ensures { result ≡ integer_of minus ty number }
{
    match ty {
        None => Constant::Unit,
        Some(ty) => {
            if minus {
                Constant::Integer {
                    ty,
                    word: minus_word(ty, number),
                }
            } else {
                Constant::Integer {
                    ty,
                    word: plus_word(ty, number),
                }
            }
        }
    }
}

/// `T::MIN`.
pub fn least_word(ty: IntTy) -> Word
    ensures { result ≡ least_word ty }
{
    Word {
        width: ty.width(),
        value: if ty.is_signed() { half(ty) } else { 0 },
    }
}

/// `T::MAX`.
pub fn greatest_word(ty: IntTy) -> Word
    ensures { result ≡ greatest_word ty }
{
    Word {
        width: ty.width(),
        value: if ty.is_signed() {
            half(ty) - 1
        } else {
            greatest(ty)
        },
    }
}
