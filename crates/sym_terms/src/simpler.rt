ghost use Rattle.std.specs.Prelude.{◌≡◌};
ghost use Rattle.sym_terms.specs.Simpler.{simpler_of};

use crate::laws::Law;
use crate::term::{Term, TermId, TermOp};
use word_bits::Word;

/// A simpler form of a term.
#[derive(Clone, Copy, Debug)]
pub enum Simpler {
    Known(TermId),
    Other(Term),
    WithConstant {
        op: TermOp,
        a: TermId,
        constant: Word,
    },
}

/// The form that a law gives for this first operand.
pub fn simpler_of(a: TermId, law: Law) -> Simpler
    ensures { result ≡ simpler_of a law }
{
    match law {
        Law::First => Simpler::Known(a),
        Law::Value(word) => Simpler::Other(Term::Constant(word)),
        Law::Applied(op, constant) => Simpler::WithConstant { op, a, constant },
    }
}
