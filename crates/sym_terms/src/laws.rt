ghost use Rattle.std.specs.Prelude.{◌≡◌, ◌<◌, ◌-◌, ◌^◌, IsTrue, IfSome, true, false};
ghost use Rattle.word_bits.specs.Words.{IsWord, IsWidth};
ghost use Rattle.sym_terms.specs.Ops.{is_shift};
ghost use Rattle.sym_terms.specs.Terms.{is_shift_width};
ghost use Rattle.sym_terms.specs.Laws.{IsLaw, IsSameLaw};

use crate::term::TermOp;
use word_bits::Word;

/// What an operation is by a law of words: its first operand, a constant, or another operation on the first operand
/// and a constant.
#[derive(Clone, Copy, Debug)]
pub enum Law {
    First,
    Value(Word),
    Applied(TermOp, Word),
}

/// The law for an operation at one word twice.
pub fn law_of_same(op: TermOp, width: u32) -> Option<Law>
    requires { IsWidth width }
    ensures { IfSome result (λ law. IsSameLaw op width law) }
{
    let no_bits = Word { width, value: 0 };
    let no = Word { width: 1, value: 0 };
    match op {
        TermOp::And => Some(Law::First),
        TermOp::Or => Some(Law::First),
        TermOp::Xor => Some(Law::Value(no_bits)),
        TermOp::Sub => Some(Law::Value(no_bits)),
        TermOp::RemUnsigned => Some(Law::Value(no_bits)),
        TermOp::Equal => Some(Law::Value(Word { width: 1, value: 1 })),
        TermOp::LessUnsigned => Some(Law::Value(no)),
        TermOp::LessSigned => Some(Law::Value(no)),
        TermOp::SubOverflowsUnsigned => Some(Law::Value(no)),
        TermOp::SubOverflowsSigned => Some(Law::Value(no)),
        _ => None,
    }
}

/// The law for a word and no bits, where there is one.
fn law_of_zero(op: TermOp, width: u32, c: Word) -> Option<Law>
    requires width_is { IsWidth width }
    requires zero { c ≡ record { width = width; value = 0 } }
    ensures { IfSome result (λ law. IsLaw op width c law) }
{
    let no = Word { width: 1, value: 0 };
    match op {
        TermOp::Add => Some(Law::First),
        TermOp::Sub => Some(Law::First),
        TermOp::Or => Some(Law::First),
        TermOp::Xor => Some(Law::First),
        TermOp::And => Some(Law::Value(c)),
        TermOp::Mul => Some(Law::Value(c)),
        TermOp::DivUnsigned => Some(Law::Value(c)),
        TermOp::DivSigned => Some(Law::Value(c)),
        TermOp::RemUnsigned => Some(Law::Value(c)),
        TermOp::RemSigned => Some(Law::Value(c)),
        TermOp::LessUnsigned => Some(Law::Value(no)),
        TermOp::AddOverflowsUnsigned => Some(Law::Value(no)),
        TermOp::AddOverflowsSigned => Some(Law::Value(no)),
        TermOp::SubOverflowsUnsigned => Some(Law::Value(no)),
        TermOp::SubOverflowsSigned => Some(Law::Value(no)),
        TermOp::MulOverflowsUnsigned => Some(Law::Value(no)),
        TermOp::MulOverflowsSigned => Some(Law::Value(no)),
        TermOp::LawfulUnsigned => Some(Law::Value(no)),
        TermOp::LawfulSigned => Some(Law::Value(no)),
        _ => None,
    }
}

/// The law for a word and all bits, where there is one.
fn law_of_ones(op: TermOp, width: u32, c: Word) -> Option<Law>
    requires width_is { IsWidth width }
    requires ones { c ≡ record { width = width; value = 2 ^ width - 1 } }
    ensures { IfSome result (λ law. IsLaw op width c law) }
{
    match op {
        TermOp::And => Some(Law::First),
        TermOp::Or => Some(Law::Value(c)),
        TermOp::Xor => Some(Law::Applied(TermOp::Not, c)),
        _ => None,
    }
}

/// The law for a word and the power of two with this exponent, where there is one.
fn law_of_power(op: TermOp, width: u32, exponent: u32, c: Word) -> Option<Law>
    requires width_is { IsWidth width }
    requires below { exponent < width }
    requires power { c ≡ record { width = width; value = 2 ^ exponent } }
    ensures { IfSome result (λ law. IsLaw op width c law) }
{
    let amount = Word {
        width,
        value: exponent as u128,
    };
    match op {
        TermOp::Mul if is_shift_width(width) => Some(Law::Applied(TermOp::Shl, amount)),
        TermOp::DivUnsigned if is_shift_width(width) => Some(Law::Applied(
            TermOp::ShrUnsigned,
            amount,
        )),
        TermOp::RemUnsigned => Some(Law::Applied(
            TermOp::And,
            Word {
                width,
                value: c.value - 1,
            },
        )),
        _ => None,
    }
}

/// The law for the equality of a bit with a constant.
fn law_of_bit(c: Word) -> Law
    requires word { IsWord c }
    requires bit { c.width ≡ 1 }
    ensures { IsLaw TermOp.Equal 1 c result }
{
    if c.value == 0 {
        Law::Applied(TermOp::Not, c)
    } else {
        Law::First
    }
}

/// Whether a shift may be at this width.
pub fn is_shift_width(width: u32) -> bool
    ensures { result ≡ is_shift_width width }
{
    matches!(width, 1 | 2 | 4 | 8 | 16 | 32 | 64 | 128)
}

/// The law for a word and a constant, where there is one.
pub fn law_of_constant(op: TermOp, width: u32, c: Word) -> Option<Law>
    requires width_is { IsWidth width }
    requires constant { IsWord c }
    requires one_width { is_shift op ≡ false → c.width ≡ width }
    requires shift_width { IsTrue (is_shift op) → IsTrue (is_shift_width width) }
    ensures { IfSome result (λ law. IsLaw op width c law) }
{
    if op.is_shift() {
        if c.value % width as u128 == 0 {
            return Some(Law::First);
        }
        return None;
    }
    if width == 1 {
        if let TermOp::Equal = op {
            return Some(law_of_bit(c));
        }
    }
    if c.value == 0 {
        return law_of_zero(op, width, c);
    }
    if let TermOp::Sub = op {
        return Some(Law::Applied(TermOp::Add, word_bits::neg(c)));
    }
    if c.value == u128::MAX >> (128 - width) {
        return law_of_ones(op, width, c);
    }
    let exponent = c.value.ilog2();
    if c.value == 1u128 << exponent {
        return law_of_power(op, width, exponent, c);
    }
    None
}
