ghost use Rattle.std.specs.Prelude.{◌≡◌};
ghost use Rattle.sym_terms.specs.Terms.{applied, truth, divided, left_over};
ghost use Rattle.sym_terms.specs.Folds.{AreFolded};
ghost use Rattle.word_bits.specs.Words.{AreWords};

use crate::term::TermOp;
use word_bits::Word;

/// A truth value as a word of one bit.
pub fn truth_word(value: bool) -> Word
    ensures { result ≡ truth value }
{
    Word {
        width: 1,
        value: if value { 1 } else { 0 },
    }
}

/// The quotient, 0 where the divisor is not lawful.
fn quotient_word(a: Word, b: Word, signed: bool) -> Word
    requires { AreWords a b }
    ensures { result ≡ divided a b signed }
{
    if word_bits::lawful_divisor(a, b, signed) {
        word_bits::div(a, b, signed)
    } else {
        Word {
            width: a.width,
            value: 0,
        }
    }
}

/// The remainder, 0 where the divisor is not lawful.
fn remainder_word(a: Word, b: Word, signed: bool) -> Word
    requires { AreWords a b }
    ensures { result ≡ left_over a b signed }
{
    if word_bits::lawful_divisor(a, b, signed) {
        word_bits::rem(a, b, signed)
    } else {
        Word {
            width: a.width,
            value: 0,
        }
    }
}

/// The value of an operation at two words.
#[tactic(auto, using(word_bits::proofs::Kept::words_of))]
pub fn fold(op: TermOp, a: Word, b: Word) -> Word
    requires { AreFolded op a b }
    ensures { result ≡ applied op a b }
{
    match op {
        TermOp::Equal => truth_word(a.value == b.value),
        TermOp::Add => word_bits::add(a, b),
        TermOp::Sub => word_bits::sub(a, b),
        TermOp::Mul => word_bits::mul(a, b),
        TermOp::And => word_bits::and(a, b),
        TermOp::Or => word_bits::or(a, b),
        TermOp::Xor => word_bits::xor(a, b),
        TermOp::Not => word_bits::not(a),
        TermOp::Neg => word_bits::neg(a),
        TermOp::Shl => word_bits::shl(a, b),
        TermOp::DivUnsigned => quotient_word(a, b, false),
        TermOp::DivSigned => quotient_word(a, b, true),
        TermOp::RemUnsigned => remainder_word(a, b, false),
        TermOp::RemSigned => remainder_word(a, b, true),
        TermOp::ShrUnsigned => word_bits::shr(a, b, false),
        TermOp::ShrSigned => word_bits::shr(a, b, true),
        TermOp::LessUnsigned => truth_word(word_bits::less(a, b, false)),
        TermOp::LessSigned => truth_word(word_bits::less(a, b, true)),
        TermOp::AddOverflowsUnsigned => truth_word(word_bits::add_overflows(a, b, false)),
        TermOp::AddOverflowsSigned => truth_word(word_bits::add_overflows(a, b, true)),
        TermOp::SubOverflowsUnsigned => truth_word(word_bits::sub_overflows(a, b, false)),
        TermOp::SubOverflowsSigned => truth_word(word_bits::sub_overflows(a, b, true)),
        TermOp::MulOverflowsUnsigned => truth_word(word_bits::mul_overflows(a, b, false)),
        TermOp::MulOverflowsSigned => truth_word(word_bits::mul_overflows(a, b, true)),
        TermOp::LawfulUnsigned => truth_word(word_bits::lawful_divisor(a, b, false)),
        TermOp::LawfulSigned => truth_word(word_bits::lawful_divisor(a, b, true)),
    }
}
