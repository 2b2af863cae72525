ghost use Rattle.std.specs.Prelude.{◌≡◌};
ghost use Rattle.word_bits.specs.Words.{AreWords, is_less};

use crate::signs::is_negative;
use crate::word::Word;

/// Whether the first number is less than the second.
pub fn less(a: Word, b: Word, signed: bool) -> bool
    requires { AreWords a b }
    ensures { result ≡ is_less a b signed }
{
    let negative = is_negative(a, signed);
    if negative == is_negative(b, signed) {
        a.value < b.value
    } else {
        negative
    }
}
