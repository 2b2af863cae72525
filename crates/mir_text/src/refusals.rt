ghost use Rattle.std.specs.Prelude.{◌≡◌, ◌-◌, ◌≤◌, length, drop, IfOk};
ghost use Rattle.mir_text.specs.Answers.{place_of, unsupported_in};
ghost use Rattle.mir_text.specs.Coded.{fault_at, fault_before, from_lex, is_memory, wrong_at};

use crate::fault::TextFault;
use crate::unsupported::unsupported_in;
use grammar_words::{Stop, Why};
use mir_lex::{LexFault, MAX_TEXT, text_place};
use mir_pieces::Piece;
use std::alloc::Global;
use vk_core::{Name, NoMemory, TextPlace};

/// The answer for a fault of tokens.
pub fn from_lex(fault: LexFault) -> TextFault
    ensures { result ≡ from_lex fault }
{
    match fault {
        LexFault::BadByte { place } => TextFault::Lex(LexFault::BadByte { place }),
        LexFault::OpenText { place } => TextFault::Lex(LexFault::OpenText { place }),
        LexFault::NumberTooWide { place } => TextFault::Lex(LexFault::NumberTooWide { place }),
        LexFault::NameTooLong { place } => TextFault::Lex(LexFault::NameTooLong { place }),
        LexFault::Memory => TextFault::Memory,
    }
}

/// The fault is want of memory.
pub fn is_memory(fault: LexFault) -> bool
    ensures { result ≡ is_memory fault }
{
    match fault {
        LexFault::BadByte { .. } => false,
        LexFault::OpenText { .. } => false,
        LexFault::NumberTooWide { .. } => false,
        LexFault::NameTooLong { .. } => false,
        LexFault::Memory => true,
    }
}

/// Where the first of these tokens starts, or the end of the text.
fn place_of(text: &[u8], tokens: &[Piece<'_>]) -> TextPlace
    requires { length text.now ≤ MAX_TEXT }
    ensures { result ≡ place_of text.now tokens.now }
{
    match tokens {
        [] => text_place(text, text.len()),
        [token, ..] => text_place(text, token.start()),
    }
}

/// The answer for a wrong token at this place.
fn wrong_at(alloc: Global, place: TextPlace, tokens: &[Piece<'_>]) -> Result<TextFault, NoMemory>
    ensures { IfOk result (λ fault. fault ≡ wrong_at place (unsupported_in tokens.now)) }
{
    match unsupported_in(tokens) {
        None => Ok(TextFault::Unexpected { place }),
        Some(word) => {
            let form = Name::from_bytes(alloc, word)?;
            Ok(TextFault::Unsupported { place, form })
        }
    }
}

/// The last tokens, so many.
fn last<'t, 'a>(tokens: &'t [Piece<'a>], left: usize) -> &'t [Piece<'a>]
    ensures { result.now ≡ drop (length tokens.now - left) tokens.now }
{
    let before = tokens.len().saturating_sub(left);
    &tokens[before..]
}

fn fault_before(
    alloc: Global,
    text: &[u8],
    why: Why,
    tokens: &[Piece<'_>],
) -> Result<TextFault, NoMemory>
    requires { length text.now ≤ MAX_TEXT }
    ensures { IfOk result (λ fault. fault ≡ fault_before text.now why tokens.now) }
{
    let place = place_of(text, tokens);
    match why {
        Why::Wrong => {
            let fault = wrong_at(alloc, place, tokens)?;
            Ok(fault)
        }
        Why::Deep => Ok(TextFault::TooDeep { place }),
        Why::Spent => Ok(TextFault::Unexpected { place }),
    }
}

/// The answer for a reading of these tokens that stops.
pub fn fault_at(
    alloc: Global,
    text: &[u8],
    tokens: &[Piece<'_>],
    stop: Stop,
) -> Result<TextFault, NoMemory>
    requires { length text.now ≤ MAX_TEXT }
    ensures { IfOk result (λ fault. fault ≡ fault_at text.now tokens.now stop) }
{
    let fault = fault_before(alloc, text, stop.why, last(tokens, stop.left))?;
    Ok(fault)
}
