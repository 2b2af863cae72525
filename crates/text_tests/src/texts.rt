ghost use Rattle.std.specs.Prelude.{IfOk};
ghost use Rattle.text_tests.specs.Lexed.{IsLexed};

use mir_lex::{MAX_TEXT, tokens};
use mir_pieces::{Piece, pieces};
use std::alloc::Global;
use std::test::Fail;

/// The tokens of a text, with their classes. It fails for a text that is too long or has a token that is none.
pub fn lexed<'a>(alloc: Global, text: &'a [u8]) -> Result<Vec<Piece<'a>>, Fail>
    ensures { IfOk result (λ found. IsLexed text.now found.items) }
{
    if text.len() > MAX_TEXT {
        return Err("a long text".into());
    }
    let found = tokens(alloc, text)?;
    let lexed = pieces(alloc, text, found.as_slice())?;
    Ok(lexed)
}
