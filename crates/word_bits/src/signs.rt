ghost use Rattle.std.specs.Prelude.{◌≡◌, ◌<◌, ◌^◌, unsigned_abs};
ghost use Rattle.word_bits.specs.Words.{IsWidth, IsWord, value_of, word_of};
ghost use Rattle.word_bits.specs.Signs.{is_below_zero, with_sign};

use crate::word::{Word, greatest};

/// Whether the number is below zero.
pub fn is_negative(w: Word, signed: bool) -> bool
    requires { IsWord w }
    ensures { result ≡ is_below_zero (value_of signed w) }
{
    signed && w.value > greatest(w.width) / 2
}

/// The number without its sign.
pub fn magnitude(w: Word, signed: bool) -> u128
    requires { IsWord w }
    ensures value { result ≡ unsigned_abs (value_of signed w) }
    ensures below { result < 2 ^ w.width }
{
    if is_negative(w, signed) {
        greatest(w.width) - w.value + 1
    } else {
        w.value
    }
}

/// The word of the number with this sign and magnitude.
pub fn signed_word(width: u32, negative: bool, magnitude: u128) -> Word
    requires { IsWidth width }
    ensures { result ≡ word_of width (with_sign negative magnitude) }
{
    let value = if negative {
        0u128.wrapping_sub(magnitude)
    } else {
        magnitude
    };
    Word {
        width,
        value: value & greatest(width),
    }
}
