ghost use Rattle.std.specs.Prelude.{◌≡◌, ◌≤◌, length, IfSome, codes, ◌==◌};
ghost use Rattle.mir_lex.specs.Bytes.{first_is};
ghost use Rattle.mir_lex.specs.Tokens.{is_escape};
ghost use Rattle.mir_lex.specs.Lexing.{codes_char, is_code_of, code_len, escape_len, quoted_len, quote_behind, lifetime_of, lifetime_at, quote_at};

use crate::bytes::{begins_with_apostrophe, begins_word, behind, front, hex_len, word_len};
use crate::character::{is_char, scalar_len};
use crate::digits::number_within;
use crate::fault::FaultKind;
use crate::front::{Fault, Found, MAX_WORD, failed, token_of};
use crate::token::TokenKind;

/// The greatest number of a char.
const MAX_CHAR: u128 = 0x10FFFF;

/// What a backslash takes to one byte.
fn is_escape(byte: u8) -> bool
    ensures { result ≡ is_escape byte }
{
    byte == b'n'
        || byte == b'r'
        || byte == b't'
        || byte == b'0'
        || byte == b'\\'
        || byte == b'\''
        || byte == b'"'
}

fn codes_char(code: Option<u128>) -> bool
    ensures { result ≡ codes_char code }
{
    match code {
        None => false,
        Some(code) => is_char(code),
    }
}

fn begins_with_bracket(bytes: &[u8]) -> bool
    ensures { result ≡ first_is (λ c. c == 125) bytes.now }
{
    match bytes {
        [] => false,
        [byte, ..] => *byte == b'}',
    }
}

/// So many digits at the front, and a bracket behind them, are those of `\u{h}`.
fn is_code_of(len: usize, bytes: &[u8]) -> bool
    ensures { result ≡ is_code_of len bytes.now }
{
    1 <= len
        && len <= 6
        && codes_char(number_within(16, MAX_CHAR, front(bytes, len)))
        && begins_with_bracket(behind(bytes, len))
}

/// How many bytes the digits of `\u{h}` and their bracket have.
#[tactic(auto, unfolding(crate::specs::Lexing::code_len))]
fn code_len(bytes: &[u8]) -> Option<usize>
    ensures value { result ≡ code_len bytes.now }
    ensures short { IfSome result (λ n. n ≤ 7) }
{
    let len = hex_len(bytes);
    if is_code_of(len, bytes) {
        Some(len + 1)
    } else {
        None
    }
}

/// How many bytes stand behind a backslash before the last quote.
fn escape_len(bytes: &[u8]) -> Option<usize>
    ensures value { result ≡ escape_len bytes.now }
    ensures short { IfSome result (λ n. n ≤ 9) }
{
    match bytes {
        [] => None,
        [first] => { if is_escape(*first) { Some(1) } else { None } }
        [first, second, rest @ ..] => {
            if is_escape(*first) {
                Some(1)
            } else if *first == b'u' && *second == b'{' {
                let len = code_len(rest)?;
                Some(len + 2)
            } else {
                None
            }
        }
    }
}

/// How many bytes stand between the quotes of a character.
fn quoted_len(bytes: &[u8]) -> Option<usize>
    ensures value { result ≡ quoted_len bytes.now }
    ensures short { IfSome result (λ n. n ≤ 10) }
{
    match bytes {
        [] => None,
        [first, rest @ ..] => {
            if *first == b'\\' {
                let len = escape_len(rest)?;
                Some(len + 1)
            } else if *first == b'\'' {
                None
            } else {
                scalar_len(bytes)
            }
        }
    }
}

/// `len`, where the quote that ends a character stands behind so many bytes.
fn quote_behind(bytes: &[u8], len: Option<usize>) -> Option<usize>
    ensures value { result ≡ quote_behind bytes.now len }
    ensures same { IfSome result (λ n. len ≡ Some n) }
{
    match len {
        None => None,
        Some(len) => {
            if begins_with_apostrophe(behind(bytes, len)) {
                Some(len)
            } else {
                None
            }
        }
    }
}

/// The lifetime with a word of `len` bytes behind its `'`.
fn lifetime_of(len: usize, bytes: &[u8]) -> Result<Found, Fault>
    requires { len ≤ length bytes.now }
    ensures { result ≡ lifetime_of len bytes.now }
{
    if begins_with_apostrophe(behind(bytes, len)) {
        failed(FaultKind::OpenText, 0)
    } else if len <= MAX_WORD {
        token_of(TokenKind::Lifetime, len + 1)
    } else {
        failed(FaultKind::NameTooLong, 1)
    }
}

#[tactic(auto, unfolding(crate::specs::Lexing::lifetime_at))]
fn lifetime(bytes: &[u8]) -> Result<Found, Fault>
    ensures { result ≡ lifetime_at bytes.now }
{
    if begins_word(bytes) {
        lifetime_of(word_len(bytes), bytes)
    } else {
        failed(FaultKind::OpenText, 0)
    }
}

/// The character or the lifetime behind its first `'`.
#[tactic(auto, unfolding(crate::specs::Lexing::quote_at))]
pub fn quote(bytes: &[u8]) -> Result<Found, Fault>
    ensures { result ≡ quote_at bytes.now }
{
    match quote_behind(bytes, quoted_len(bytes)) {
        None => lifetime(bytes),
        Some(len) => token_of(TokenKind::Character, len + 2),
    }
}
