ghost use Rattle.std.specs.Prelude.{◌≡◌, ◌-◌, ◌≤◌};
ghost use Rattle.mir_lex.specs.Bytes.{number_within};
ghost use Rattle.mir_lex.specs.Views.{slice_of, text_of, is_index, is_local, is_label, decimal, capped, digits_of, suffix_of, between, escaped, scalar_value, or_zero, quoted_value, character_value};

use crate::bytes::{are_digits, behind, digits_len, front, is_digit};
use crate::digits::number_within;
use crate::token::Token;

/// The greatest number of a local or a block.
const MAX_NUMBER: u32 = 4095;

/// The greatest number of a char.
const MAX_CHAR: u128 = 0x10FFFF;

/// Decimal digits without a leading zero.
pub fn is_index(digits: &[u8]) -> bool
    ensures { result ≡ is_index digits.now }
{
    match digits {
        [] => false,
        [digit] => is_digit(*digit),
        [first, _second, ..] => *first != b'0' && are_digits(digits),
    }
}

/// A word that is a local: `_` and a number without a leading zero.
pub fn is_local(word: &[u8]) -> bool
    ensures { result ≡ is_local word.now }
{
    match word {
        [] => false,
        [first, digits @ ..] => *first == b'_' && is_index(digits),
    }
}

/// A word that is a label: `bb` and a number without a leading zero.
pub fn is_label(word: &[u8]) -> bool
    ensures { result ≡ is_label word.now }
{
    match word {
        [] => false,
        [_] => false,
        [first, second, digits @ ..] => *first == b'b' && *second == b'b' && is_index(digits),
    }
}

/// The number that decimal digits write, and 4096 where it is past the limit of locals and blocks.
pub fn capped_number(digits: &[u8]) -> u32
    ensures { result ≡ capped (decimal digits.now) }
{
    match number_within(10, u128::from(MAX_NUMBER), digits) {
        None => MAX_NUMBER + 1,
        Some(number) => number as u32,
    }
}

/// The digits of a number, without its type.
pub fn digits_of(number: &[u8]) -> &[u8]
    ensures { result.now ≡ digits_of number.now }
{
    front(number, digits_len(number))
}

/// The name of the type behind a number; nothing where there is none.
pub fn suffix_of(number: &[u8]) -> &[u8]
    ensures { result.now ≡ suffix_of number.now }
{
    behind(number, digits_len(number) + 1)
}

/// What stands between the first and the last byte, as between the quotes of a text.
pub fn between(text: &[u8]) -> &[u8]
    ensures { result.now ≡ between text.now }
{
    front(behind(text, 1), text.len().saturating_sub(2))
}

/// What a backslash and one byte mean.
fn escaped(byte: u8) -> u32
    ensures { result ≡ escaped byte }
{
    match byte {
        b'n' => 10,
        b'r' => 13,
        b't' => 9,
        b'0' => 0,
        _ => u32::from(byte),
    }
}

/// What a byte has above `base`.
fn above(base: u8, byte: u8) -> u32
    ensures value { result ≡ byte - base }
    ensures small { result ≤ 255 }
{
    u32::from(byte.saturating_sub(base))
}

/// The number of a UTF-8 sequence.
fn scalar_value(bytes: &[u8]) -> u32
    ensures { result ≡ scalar_value bytes.now }
{
    match bytes {
        [] => 0,
        [a] => u32::from(*a),
        [a, b] => 64 * above(192, *a) + above(128, *b),
        [a, b, c] => 4096 * above(224, *a) + (64 * above(128, *b) + above(128, *c)),
        [a, b, c, d, ..] => {
            262_144 * above(240, *a)
                + (4096 * above(128, *b) + (64 * above(128, *c) + above(128, *d)))
        }
    }
}

/// The number that hexadecimal digits write, where it is at most that of a char, else 0.
fn code_value(digits: &[u8]) -> u32
    ensures { result ≡ or_zero (number_within 16 1114111 digits.now) }
{
    match number_within(16, MAX_CHAR, digits) {
        None => 0,
        Some(code) => code as u32,
    }
}

/// The number of what stands between the quotes of a character.
fn quoted_value(bytes: &[u8]) -> u32
    ensures { result ≡ quoted_value bytes.now }
{
    match bytes {
        [] => 0,
        [byte] => u32::from(*byte),
        [first, second] => {
            if *first == b'\\' {
                escaped(*second)
            } else {
                scalar_value(bytes)
            }
        }
        [first, _, _, rest @ ..] => {
            if *first == b'\\' {
                code_value(front(rest, rest.len().saturating_sub(1)))
            } else {
                scalar_value(bytes)
            }
        }
    }
}

/// The number of a character, from its bytes as they are written.
#[tactic(auto, unfolding(crate::specs::Views::character_value))]
pub fn character_value(text: &[u8]) -> u32
    ensures { result ≡ character_value text.now }
{
    quoted_value(between(text))
}

/// Bytes of the source; none where there are no such bytes.
fn slice_of(source: &[u8], start: usize, end: usize) -> &[u8]
    ensures { result.now ≡ slice_of source.now start end }
{
    if start <= end && end <= source.len() {
        front(behind(source, start), end - start)
    } else {
        &[]
    }
}

impl Token {
    /// The bytes of the token, as they are written.
    pub fn text<'a>(&self, source: &'a [u8]) -> &'a [u8]
        ensures { result.now ≡ text_of source.now self.now }
    {
        slice_of(source, self.start, self.end)
    }
}
