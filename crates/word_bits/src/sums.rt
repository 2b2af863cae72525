ghost use Rattle.std.specs.Prelude.{◌≡◌};
ghost use Rattle.word_bits.specs.Words.{IsWord, AreWords, added, subtracted, multiplied, negated};

use crate::signs::signed_word;
use crate::word::{Word, greatest};

/// The sum, which wraps.
pub fn add(a: Word, b: Word) -> Word
    requires { AreWords a b }
    ensures { result ≡ added a b }
{
    Word {
        width: a.width,
        value: a.value.wrapping_add(b.value) & greatest(a.width),
    }
}

/// The difference, which wraps.
pub fn sub(a: Word, b: Word) -> Word
    requires { AreWords a b }
    ensures { result ≡ subtracted a b }
{
    Word {
        width: a.width,
        value: a.value.wrapping_sub(b.value) & greatest(a.width),
    }
}

/// The product, which wraps.
pub fn mul(a: Word, b: Word) -> Word
    requires { AreWords a b }
    ensures { result ≡ multiplied a b }
{
    Word {
        width: a.width,
        value: a.value.wrapping_mul(b.value) & greatest(a.width),
    }
}

/// Zero less the number, which wraps at the least signed value.
pub fn neg(a: Word) -> Word
    requires { IsWord a }
    ensures { result ≡ negated a }
{
    signed_word(a.width, true, a.value)
}
