ghost use Rattle.std.specs.Prelude.{◌≡◌};
ghost use Rattle.grammar_words.specs.Classes.{tok};
ghost use Rattle.grammar_words.specs.Coded.{counted};
ghost use Rattle.mir_grammar.specs.Lexemes.{class_of};
ghost use Rattle.mir_pieces.specs.Views.{token_view};

use crate::piece::Piece;
use crate::sets::inside;
use grammar_words::{Stop, Why, stop_before};

/// A token of these classes.
pub fn token<'t, 'a>(
    set: &[u32],
    tokens: &'t [Piece<'a>],
) -> Result<(&'t Piece<'a>, &'t [Piece<'a>]), Stop>
    ensures { token_view result ≡ counted (tok class_of set.now tokens.now) }
{
    match tokens {
        [] => Err(stop_before(Why::Wrong, tokens)),
        [token, rest @ ..] => {
            if inside(set, token) {
                Ok((token, rest))
            } else {
                Err(stop_before(Why::Wrong, tokens))
            }
        }
    }
}
