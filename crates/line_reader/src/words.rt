ghost use Rattle.std.specs.Prelude.{◌≡◌};
ghost use Rattle.mir_grammar.specs.Lexemes.{label_number};

use mir_lex::capped_number;
use mir_pieces::Piece;

/// The number of a block, where 4096 stands for each one past the limit.
#[tactic(auto, unfolding(mir_grammar::specs::Lexemes::label_number))]
pub fn label_number(label: &Piece<'_>) -> u32
    ensures { result ≡ label_number label.now }
{
    match label.text() {
        [] => 0,
        [_] => 0,
        [_, _, digits @ ..] => capped_number(digits),
    }
}
