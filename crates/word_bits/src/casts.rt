ghost use Rattle.std.specs.Prelude.{◌≡◌};
ghost use Rattle.word_bits.specs.Words.{IsWord, IsWidth, recast};

use crate::signs::{is_negative, magnitude, signed_word};
use crate::word::Word;

/// The number at another width: extended by the sign of the source, and then cut.
pub fn cast(a: Word, signed: bool, width: u32) -> Word
    requires source { IsWord a }
    requires target { IsWidth width }
    ensures { result ≡ recast a signed width }
{
    signed_word(width, is_negative(a, signed), magnitude(a, signed))
}
