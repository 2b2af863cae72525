ghost use Rattle.std.specs.Prelude.{◌≡◌, ◌≤◌, ◌+◌, length, IfOk};
ghost use Rattle.mir_lex.specs.Tokens.{Lexes};
ghost use Rattle.grammar_words.specs.Coded.{counted};
ghost use Rattle.mir_grammar.specs.Functions.{text_at};
ghost use Rattle.mir_text.specs.Coded.{IsReading, answered, ended};

use crate::fault::TextFault;
use crate::refusals::fault_at;
use block_reader::text_at;
use grammar_words::{Stop, expect_end};
use mir_grammar::RawFunction;
use mir_lex::{MAX_TEXT, Token};
use mir_pieces::{Piece, pieces};
use sqlite_items::Items;
use std::alloc::Global;
use vk_core::NoMemory;

/// One less than the greatest depth of types, places and scopes.
pub const DEPTH: u32 = 63;

/// The functions that these tokens are, as they are written.
fn functions_in(
    alloc: Global,
    tokens: &[Piece<'_>],
) -> Result<Result<Items<RawFunction>, Stop>, NoMemory>
    ensures { IfOk result (λ read. read ≡ ended (counted (text_at (length tokens.now + 1) 63 tokens.now))) }
{
    match text_at(alloc, tokens.len() + 1, DEPTH, tokens)? {
        Ok((functions, rest)) => match expect_end(rest) {
            Ok(()) => Ok(Ok(functions)),
            Err(stop) => Ok(Err(stop)),
        },
        Err(stop) => Ok(Err(stop)),
    }
}

fn answered(
    alloc: Global,
    text: &[u8],
    tokens: &[Piece<'_>],
) -> Result<Result<Items<RawFunction>, TextFault>, NoMemory>
    requires { length text.now ≤ MAX_TEXT }
    ensures { IfOk result (λ read. read ≡ answered text.now tokens.now (ended (counted (text_at (length tokens.now + 1) 63 tokens.now)))) }
{
    match functions_in(alloc, tokens)? {
        Ok(functions) => Ok(Ok(functions)),
        Err(stop) => {
            let fault = fault_at(alloc, text, tokens, stop)?;
            Ok(Err(fault))
        }
    }
}

/// The functions of a text with these tokens, as they are written, or why there are none.
pub fn written(
    alloc: Global,
    text: &[u8],
    tokens: &[Token],
) -> Result<Result<Items<RawFunction>, TextFault>, NoMemory>
    requires size { length text.now ≤ MAX_TEXT }
    requires lexed { Lexes text.now tokens.now }
    ensures { IfOk result (λ read. IsReading text.now read) }
{
    let pieces = pieces(alloc, text, tokens)?;
    let read = answered(alloc, text, pieces.as_slice())?;
    Ok(read)
}
