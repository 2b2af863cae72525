ghost use Rattle.std.specs.Prelude.{◌≡◌, ◌↔◌, ◌-◌, ◌^◌, IsTrue};
ghost use Rattle.word_bits.specs.Words.{IsWidth, IsWord, AreWords};

/// A number of `width` bits: `width` is 1 to 128, and `value` is below 2^`width`. A signed number is its two's
/// complement.
///
/// The fields are public and hold no bounds of their own: each call that needs them requires them of its arguments,
/// and `is_word` and `are_words` test them.
#[derive(Clone, Copy, Debug, PartialEq, Eq, Hash)]
pub struct Word {
    pub width: u32,
    pub value: u128,
}

/// The greatest number of a width, all of whose bits are 1.
pub fn greatest(width: u32) -> u128
    requires { IsWidth width }
    ensures { result ≡ 2 ^ width - 1 }
{
    u128::MAX >> (128 - width)
}

/// Whether the width is 1 to 128 and the value is below 2^width.
pub fn is_word(w: Word) -> bool
    ensures { IsTrue result ↔ IsWord w }
{
    1 <= w.width && w.width <= 128 && w.value <= greatest(w.width)
}

/// Whether both are words and have one width.
pub fn are_words(a: Word, b: Word) -> bool
    ensures { IsTrue result ↔ AreWords a b }
{
    is_word(a) && b.width == a.width && b.value <= greatest(a.width)
}
