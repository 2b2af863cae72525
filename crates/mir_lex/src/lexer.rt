ghost use Rattle.std.specs.Prelude.{◌≡◌, ◌≤◌, length, false, IfOk};
ghost use Rattle.mir_lex.specs.Tokens.{IsLexing};
ghost use Rattle.mir_lex.specs.Lexing.{skipped, lexed};
ghost use Rattle.mir_lex.specs.Coded.{opens_comment, fault_of, answer_of};

use crate::bytes::{behind, is_separator};
use crate::fault::{FaultKind, LexFault};
use crate::front::{Fault, token};
use crate::place_in_text::text_place;
use crate::token::Token;
use sqlite_items::Items;
use std::alloc::Global;
use vk_core::{NoMemory, TextPlace};

/// The greatest number of bytes of a text.
pub const MAX_TEXT: usize = 4_194_304;

fn begins_comment(byte: u8, rest: &[u8]) -> bool
    ensures { result ≡ opens_comment byte rest.now }
{
    match rest {
        [] => false,
        [next, ..] => byte == b'/' && *next == b'/',
    }
}

fn past_separators(text: &[u8]) -> &[u8]
    ensures { result.now ≡ skipped false text.now }
{
    let mut bytes = text;
    let mut comment = false;
    while let [byte, rest @ ..] = bytes {
        if comment {
            comment = *byte != b'\n';
        } else if !is_separator(*byte) {
            if !begins_comment(*byte, rest) {
                return bytes;
            }
            comment = true;
        }
        bytes = rest;
    }
    bytes
}

/// The tokens of a text, or its fault and how many bytes of the text stand before it.
#[tactic(auto, unfolding(crate::specs::Lexing::lexed))]
fn lexed(alloc: Global, text: &[u8]) -> Result<Result<Items<Token>, Fault>, NoMemory>
    ensures { IfOk result (λ read. read ≡ lexed text.now) }
{
    let mut tokens = Vec::new(alloc);
    let mut bytes = text;
    for _turn in 0..text.len() + 1 {
        let mid = past_separators(bytes);
        if mid.is_empty() {
            return Ok(Ok(Items::from_vec(tokens)));
        }
        let start = text.len().saturating_sub(mid.len());
        match token(mid) {
            Ok(found) => {
                tokens.push(Token {
                    kind: found.kind,
                    start,
                    end: start + found.size,
                })?;
                bytes = behind(mid, found.size);
            }
            Err(fault) => {
                return Ok(Err(Fault {
                    kind: fault.kind,
                    skip: start + fault.skip,
                }));
            }
        }
    }
    Ok(Err(Fault {
        kind: FaultKind::BadByte,
        skip: 0,
    }))
}

fn fault_of(kind: FaultKind, place: TextPlace) -> LexFault
    ensures { result ≡ fault_of kind place }
{
    match kind {
        FaultKind::BadByte => LexFault::BadByte { place },
        FaultKind::OpenText => LexFault::OpenText { place },
        FaultKind::NumberTooWide => LexFault::NumberTooWide { place },
        FaultKind::NameTooLong => LexFault::NameTooLong { place },
    }
}

fn answer(text: &[u8], lexed: Result<Items<Token>, Fault>) -> Result<Items<Token>, LexFault>
    requires { length text.now ≤ MAX_TEXT }
    ensures { result ≡ answer_of text.now lexed }
{
    match lexed {
        Ok(tokens) => Ok(tokens),
        Err(fault) => Err(fault_of(fault.kind, text_place(text, fault.skip))),
    }
}

/// The tokens of a text, in order. Each fault is the earliest one, at its place.
pub fn tokens(alloc: Global, text: &[u8]) -> Result<Items<Token>, LexFault>
    requires { length text.now ≤ MAX_TEXT }
    ensures { IsLexing text.now result }
{
    match lexed(alloc, text) {
        Ok(lexed) => answer(text, lexed),
        Err(_memory) => Err(LexFault::Memory),
    }
}
