ghost use Rattle.std.specs.Prelude.{◌≡◌, ◌≤◌, length};
ghost use Rattle.mir_lex.specs.Tokens.{Lexes};
ghost use Rattle.raw_functions.specs.Doubles.{duplicate_of};
ghost use Rattle.mir_text.specs.Answers.{IsAnswer, IsWritten};

use crate::fault::TextFault;
use crate::refusals::from_lex;
use crate::written::written;
use mir_grammar::RawFunction;
use mir_ir::Function;
use mir_lex::{MAX_TEXT, Token, text_place, tokens};
use raw_functions::{duplicate_of, functions_of, limit_of};
use sqlite_items::Items;
use std::alloc::Global;

/// The answer to a text of these functions, where no name stands twice.
fn within_limits(
    alloc: Global,
    text: &[u8],
    functions: Items<RawFunction>,
) -> Result<Items<Function>, TextFault>
    requires size { length text.now ≤ MAX_TEXT }
    requires written { IsWritten text.now functions }
    requires single { duplicate_of functions ≡ None }
    ensures { IsAnswer text.now result }
{
    match limit_of(functions.as_slice()) {
        Some(what) => Err(TextFault::TooMany { what }),
        None => match functions_of(alloc, text, functions) {
            Ok(functions) => Ok(functions),
            Err(_memory) => Err(TextFault::Memory),
        },
    }
}

/// The answer to a text of these functions.
fn judged(
    alloc: Global,
    text: &[u8],
    functions: Items<RawFunction>,
) -> Result<Items<Function>, TextFault>
    requires size { length text.now ≤ MAX_TEXT }
    requires written { IsWritten text.now functions }
    ensures { IsAnswer text.now result }
{
    match duplicate_of(alloc, functions.as_slice()) {
        Ok(Some(start)) => Err(TextFault::Duplicate {
            place: text_place(text, start),
        }),
        Ok(None) => within_limits(alloc, text, functions),
        Err(_memory) => Err(TextFault::Memory),
    }
}

/// The answer to a text with these tokens.
fn read(alloc: Global, text: &[u8], tokens: &[Token]) -> Result<Items<Function>, TextFault>
    requires size { length text.now ≤ MAX_TEXT }
    requires lexed { Lexes text.now tokens.now }
    ensures { IsAnswer text.now result }
{
    match written(alloc, text, tokens) {
        Ok(Ok(functions)) => judged(alloc, text, functions),
        Ok(Err(fault)) => Err(fault),
        Err(_memory) => Err(TextFault::Memory),
    }
}

/// The functions of a text. A refusal is the first of these: a token that is none, a token that is wrong or too deep, a name
/// that stands twice, a limit that is passed; each but the last with the earliest place of its kind.
pub fn parse(alloc: Global, text: &[u8]) -> Result<Items<Function>, TextFault>
    requires { length text.now ≤ MAX_TEXT }
    ensures { IsAnswer text.now result }
{
    match tokens(alloc, text) {
        Ok(tokens) => read(alloc, text, tokens.as_slice()),
        Err(fault) => Err(from_lex(fault)),
    }
}
