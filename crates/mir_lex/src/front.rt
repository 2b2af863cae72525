ghost use Rattle.std.specs.Prelude.{◌≡◌, ◌≤◌, ◌<◌, ◌+◌, length, false, IfSome, drop};
ghost use Rattle.mir_lex.specs.Bytes.{first_is, is_double};
ghost use Rattle.mir_lex.specs.Tokens.{opens_impl, opens_segment};
ghost use Rattle.mir_lex.specs.Lexing.{token_of, failed, word_at, width_len, name_len, suffix_len, number_of, number_at, body_len, text_at, segment_len, segment_at, sign_at, token_at};

use crate::bytes::{
    behind, digits_len, goes_on, is_blank, is_digit, is_double, is_sign_byte, is_word_start,
    starts, word_len,
};
use crate::digits::number_within;
use crate::fault::FaultKind;
use crate::quoted::quote;
use crate::token::TokenKind;

/// The most bytes that a word has.
pub const MAX_WORD: usize = 256;

/// A token at the front of bytes, and how many of them it has.
#[derive(Clone, Copy, Debug)]
pub struct Found {
    pub kind: TokenKind,
    pub size: usize,
}

/// A fault, and how many bytes stand before it.
#[derive(Clone, Copy, Debug)]
pub struct Fault {
    pub kind: FaultKind,
    pub skip: usize,
}

/// A token of `size` bytes.
pub fn token_of(kind: TokenKind, size: usize) -> Result<Found, Fault>
    ensures { result ≡ token_of kind size }
{
    Ok(Found { kind, size })
}

/// A fault behind `skip` bytes.
pub fn failed(kind: FaultKind, skip: usize) -> Result<Found, Fault>
    ensures { result ≡ failed kind skip }
{
    Err(Fault { kind, skip })
}

#[tactic(auto, unfolding(crate::specs::Lexing::word_at))]
fn word(bytes: &[u8]) -> Result<Found, Fault>
    ensures { result ≡ word_at bytes.now }
{
    let len = word_len(bytes);
    if len <= MAX_WORD {
        token_of(TokenKind::Word, len)
    } else {
        failed(FaultKind::NameTooLong, 0)
    }
}

fn width_len(bytes: &[u8]) -> Option<usize>
    ensures value { result ≡ width_len bytes.now }
    ensures short { IfSome result (λ n. n ≤ 4) }
{
    if starts(b"8", bytes) {
        Some(1)
    } else if starts(b"16", bytes) || starts(b"32", bytes) || starts(b"64", bytes) {
        Some(2)
    } else if starts(b"128", bytes) {
        Some(3)
    } else if starts(b"size", bytes) {
        Some(4)
    } else {
        None
    }
}

fn name_len(bytes: &[u8]) -> Option<usize>
    ensures value { result ≡ name_len bytes.now }
    ensures short { IfSome result (λ n. n ≤ 5) }
{
    match bytes {
        [] => None,
        [first, rest @ ..] => {
            if *first == b'i' || *first == b'u' {
                let width = width_len(rest)?;
                Some(width + 1)
            } else {
                None
            }
        }
    }
}

/// How many bytes `_` and the name of an integer type take at the front.
#[tactic(auto, unfolding(crate::specs::Lexing::suffix_len))]
fn suffix_len(bytes: &[u8]) -> Option<usize>
    ensures value { result ≡ suffix_len bytes.now }
    ensures short { IfSome result (λ n. n ≤ 6) }
{
    match bytes {
        [] => None,
        [first, rest @ ..] => {
            if *first == b'_' {
                let name = name_len(rest)?;
                Some(name + 1)
            } else {
                None
            }
        }
    }
}

/// A number of `len` bytes.
fn number_of(len: usize, bytes: &[u8]) -> Result<Found, Fault>
    ensures { result ≡ number_of len bytes.now }
{
    if goes_on(behind(bytes, len)) {
        failed(FaultKind::BadByte, len)
    } else {
        token_of(TokenKind::Number, len)
    }
}

#[tactic(auto, unfolding(crate::specs::Lexing::number_at))]
fn number(bytes: &[u8]) -> Result<Found, Fault>
    ensures { result ≡ number_at bytes.now }
{
    let len = digits_len(bytes);
    let (digits, rest) = bytes.split_at(len);
    match number_within(10, u128::MAX, digits) {
        None => failed(FaultKind::NumberTooWide, 0),
        Some(_value) => number_of(len + suffix_len(rest).unwrap_or(0), bytes),
    }
}

/// How many bytes stand before the quote that ends a text.
fn text_len(text: &[u8]) -> Option<usize>
    ensures value { result ≡ body_len false text.now }
    ensures within { IfSome result (λ n. n < length text.now) }
{
    let mut bytes = text;
    let mut escaped = false;
    let mut len = 0;
    while let [byte, rest @ ..] = bytes {
        if !escaped && *byte == b'"' {
            return Some(len);
        }
        if *byte < b' ' {
            return None;
        }
        escaped = !escaped && *byte == b'\\';
        len += 1;
        bytes = rest;
    }
    None
}

/// The text behind its first quote.
#[tactic(auto, unfolding(crate::specs::Lexing::text_at))]
fn text(bytes: &[u8]) -> Result<Found, Fault>
    ensures { result ≡ text_at bytes.now }
{
    match text_len(bytes) {
        None => failed(FaultKind::OpenText, 0),
        Some(len) => token_of(TokenKind::Text, len + 2),
    }
}

/// How many bytes stand before the `>` that ends the first of the open `<`, one at the start.
fn segment_len(segment: &[u8]) -> Option<usize>
    ensures value { result ≡ segment_len 1 segment.now }
    ensures within { IfSome result (λ n. n < length segment.now) }
{
    let mut bytes = segment;
    let mut depth: usize = 1;
    let mut len = 0;
    while let [byte, rest @ ..] = bytes {
        if *byte == b'<' {
            depth += 1;
        } else if *byte == b'>' {
            if depth <= 1 {
                return Some(len);
            }
            depth -= 1;
        } else if *byte < b' ' {
            return None;
        }
        len += 1;
        bytes = rest;
    }
    None
}

/// The impl segment behind `<impl` and its blank.
#[tactic(auto, unfolding(crate::specs::Lexing::segment_at))]
fn segment(bytes: &[u8]) -> Result<Found, Fault>
    ensures { result ≡ segment_at bytes.now }
{
    match segment_len(bytes) {
        None => failed(FaultKind::OpenText, 0),
        Some(len) => token_of(TokenKind::ImplSegment, len + 7),
    }
}

/// The bytes begin with `impl` and a blank, so that with a `<` before them they begin an impl segment.
pub fn opens_impl(bytes: &[u8]) -> bool
    ensures { result ≡ opens_impl bytes.now }
{
    match bytes {
        [] => false,
        [_] => false,
        [_, _] => false,
        [_, _, _] => false,
        [_, _, _, _] => false,
        [a, b, c, d, blank, ..] => {
            *a == b'i' && *b == b'm' && *c == b'p' && *d == b'l' && is_blank(*blank)
        }
    }
}

fn opens_segment(bytes: &[u8]) -> bool
    ensures { result ≡ opens_segment bytes.now }
{
    match bytes {
        [] => false,
        [first, rest @ ..] => *first == b'<' && opens_impl(rest),
    }
}

/// A sign of two bytes begins with `first`.
fn begins_double(first: u8, rest: &[u8]) -> bool
    ensures { result ≡ first_is (is_double first) rest.now }
{
    match rest {
        [] => false,
        [second, ..] => is_double(first, *second),
    }
}

#[tactic(auto, unfolding(crate::specs::Lexing::sign_at))]
fn sign(bytes: &[u8]) -> Result<Found, Fault>
    ensures { result ≡ sign_at bytes.now }
{
    match bytes {
        [] => failed(FaultKind::BadByte, 0),
        [first, rest @ ..] => {
            if begins_double(*first, rest) {
                token_of(TokenKind::Sign, 2)
            } else if is_sign_byte(*first) {
                token_of(TokenKind::Sign, 1)
            } else {
                failed(FaultKind::BadByte, 0)
            }
        }
    }
}

/// The token at the front.
#[tactic(auto, unfolding(crate::specs::Lexing::token_at))]
pub fn token(bytes: &[u8]) -> Result<Found, Fault>
    ensures { result ≡ token_at bytes.now }
{
    match bytes {
        [] => failed(FaultKind::BadByte, 0),
        [first, rest @ ..] => {
            if is_word_start(*first) {
                word(bytes)
            } else if is_digit(*first) {
                number(bytes)
            } else if *first == b'"' {
                text(rest)
            } else if *first == b'\'' {
                quote(rest)
            } else if opens_segment(bytes) {
                segment(behind(bytes, 6))
            } else {
                sign(bytes)
            }
        }
    }
}
