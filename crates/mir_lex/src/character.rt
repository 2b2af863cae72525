ghost use Rattle.std.specs.Prelude.{◌≡◌, ◌≤◌, IfSome};
ghost use Rattle.mir_lex.specs.Bytes.{is_tail, is_head_of_three, is_head_of_four, is_scalar, within, is_char};
ghost use Rattle.mir_lex.specs.Lexing.{scalar_len};

use crate::bytes::{front, within};

/// A byte that goes on with a UTF-8 sequence.
fn is_tail(byte: u8) -> bool
    ensures { result ≡ is_tail byte }
{
    within(0x80, 0xBF, byte)
}

fn is_head_of_three(first: u8, second: u8) -> bool
    ensures { result ≡ is_head_of_three first second }
{
    (first == 0xE0 && within(0xA0, 0xBF, second))
        || (within(0xE1, 0xEC, first) && is_tail(second))
        || (first == 0xED && within(0x80, 0x9F, second))
        || (within(0xEE, 0xEF, first) && is_tail(second))
}

fn is_head_of_four(first: u8, second: u8) -> bool
    ensures { result ≡ is_head_of_four first second }
{
    (first == 0xF0 && within(0x90, 0xBF, second))
        || (within(0xF1, 0xF3, first) && is_tail(second))
        || (first == 0xF4 && within(0x80, 0x8F, second))
}

/// One well-formed UTF-8 sequence.
fn is_scalar(bytes: &[u8]) -> bool
    ensures { result ≡ is_scalar bytes.now }
{
    match bytes {
        [] => false,
        [a] => *a <= 0x7F,
        [a, b] => within(0xC2, 0xDF, *a) && is_tail(*b),
        [a, b, c] => is_head_of_three(*a, *b) && is_tail(*c),
        [a, b, c, d] => is_head_of_four(*a, *b) && is_tail(*c) && is_tail(*d),
        [_, _, _, _, _, ..] => false,
    }
}

/// How many bytes the UTF-8 sequence at the front has.
#[tactic(auto, unfolding(crate::specs::Lexing::scalar_len))]
pub fn scalar_len(bytes: &[u8]) -> Option<usize>
    ensures value { result ≡ scalar_len bytes.now }
    ensures short { IfSome result (λ n. n ≤ 4) }
{
    if is_scalar(front(bytes, 1)) {
        Some(1)
    } else if is_scalar(front(bytes, 2)) {
        Some(2)
    } else if is_scalar(front(bytes, 3)) {
        Some(3)
    } else if is_scalar(front(bytes, 4)) {
        Some(4)
    } else {
        None
    }
}

/// The number of a char: up to 10FFFF in hexadecimal, but no surrogate.
pub fn is_char(code: u128) -> bool
    ensures { result ≡ is_char code }
{
    code < 0xD800 || (0xE000 <= code && code <= 0x10FFFF)
}
