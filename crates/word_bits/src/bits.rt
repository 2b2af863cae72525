ghost use Rattle.std.specs.Prelude.{◌≡◌, ◌<◌, ◌%◌};
ghost use Rattle.word_bits.specs.Words.{IsWord, AreWords, complement, both_bits, either_bit, different_bits, shifted_left, shifted_right};

use crate::signs::is_negative;
use crate::word::{Word, greatest};

/// The bits that both have.
pub fn and(a: Word, b: Word) -> Word
    requires { AreWords a b }
    ensures { result ≡ both_bits a b }
{
    Word {
        width: a.width,
        value: a.value & b.value,
    }
}

/// The bits that one of them has.
pub fn or(a: Word, b: Word) -> Word
    requires { AreWords a b }
    ensures { result ≡ either_bit a b }
{
    Word {
        width: a.width,
        value: a.value | b.value,
    }
}

/// The bits that one of them alone has.
pub fn xor(a: Word, b: Word) -> Word
    requires { AreWords a b }
    ensures { result ≡ different_bits a b }
{
    Word {
        width: a.width,
        value: a.value ^ b.value,
    }
}

/// Every bit turned.
pub fn not(a: Word) -> Word
    requires { IsWord a }
    ensures { result ≡ complement a }
{
    Word {
        width: a.width,
        value: greatest(a.width) - a.value,
    }
}

/// The amount of a shift, taken modulo the width.
fn shift_amount(width: u32, by: Word) -> u32
    requires { 0 < width }
    ensures amount { result ≡ by.value % width }
    ensures below { result < width }
{
    (by.value % width as u128) as u32
}

/// The left shift, whose amount is taken modulo the width of `a`. `by` may have any width.
pub fn shl(a: Word, by: Word) -> Word
    requires shifted { IsWord a }
    requires amount { IsWord by }
    ensures { result ≡ shifted_left a by }
{
    let amount = shift_amount(a.width, by);
    Word {
        width: a.width,
        value: (a.value << amount) & greatest(a.width),
    }
}

/// The right shift, whose amount is taken modulo the width of `a`. A signed number keeps its sign. `by` may have any
/// width.
pub fn shr(a: Word, by: Word, signed: bool) -> Word
    requires shifted { IsWord a }
    requires amount { IsWord by }
    ensures { result ≡ shifted_right a by signed }
{
    let amount = shift_amount(a.width, by);
    if is_negative(a, signed) {
        not(Word {
            width: a.width,
            value: not(a).value >> amount,
        })
    } else {
        Word {
            width: a.width,
            value: a.value >> amount,
        }
    }
}
