ghost use Rattle.std.specs.Prelude.{◌≡◌, IsTrue};
ghost use Rattle.word_bits.specs.Words.{AreWords, is_lawful, quotient, remainder};

use crate::signs::{is_negative, magnitude, signed_word};
use crate::word::{Word, greatest};

/// Whether a quotient and a remainder are defined: the divisor is not 0, and with a sign the division is not that of
/// the least value by -1.
pub fn lawful_divisor(a: Word, b: Word, signed: bool) -> bool
    requires { AreWords a b }
    ensures { result ≡ is_lawful a b signed }
{
    let greatest = greatest(a.width);
    b.value != 0 && !(signed && a.value == greatest / 2 + 1 && b.value == greatest)
}

/// The quotient, rounded towards 0.
pub fn div(a: Word, b: Word, signed: bool) -> Word
    requires words { AreWords a b }
    requires lawful { IsTrue (is_lawful a b signed) }
    ensures { result ≡ quotient a b signed }
{
    let negative = is_negative(a, signed) != is_negative(b, signed);
    signed_word(
        a.width,
        negative,
        magnitude(a, signed) / magnitude(b, signed),
    )
}

/// The remainder, which has the sign of the dividend.
pub fn rem(a: Word, b: Word, signed: bool) -> Word
    requires words { AreWords a b }
    requires lawful { IsTrue (is_lawful a b signed) }
    ensures { result ≡ remainder a b signed }
{
    signed_word(
        a.width,
        is_negative(a, signed),
        magnitude(a, signed) % magnitude(b, signed),
    )
}
