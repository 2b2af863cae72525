ghost use Rattle.std.specs.Prelude.{◌≡◌, ◌<◌, ℕ, Bool, IfOk, length, if◌then◌else◌, true, false};
ghost use Rattle.sym_terms.specs.Terms.{AreFitting, applied, value, width_of};
ghost use Rattle.value_terms.specs.Made.{IsMade, IsTest};
ghost use Rattle.value_terms.specs.Operators.{FitsOperator, IsOperator, divides, is_inverted, is_swapped, lawful_op, lawful_value, result_width, term_op, word_value};

use crate::made::{apply, bit};
use mir_ir::BinaryOp;
use sym_terms::{TermId, TermOp, Terms};
use vk_core::NoMemory;

/// The value of an operator, and whether there is one: 1 or 0, with one bit.
#[derive(Clone, Copy, Debug)]
pub struct OpTerms {
    pub lawful: TermId,
    pub word: TermId,
}

fn lawful_op(signed: bool) -> TermOp
    ensures { result ≡ lawful_op signed }
{
    if signed {
        TermOp::LawfulSigned
    } else {
        TermOp::LawfulUnsigned
    }
}

fn term_op(op: BinaryOp, signed: bool) -> TermOp
    ensures { result ≡ term_op op signed }
{
    match op {
        BinaryOp::Add => TermOp::Add,
        BinaryOp::Sub => TermOp::Sub,
        BinaryOp::Mul => TermOp::Mul,
        BinaryOp::Div => {
            if signed {
                TermOp::DivSigned
            } else {
                TermOp::DivUnsigned
            }
        },
        BinaryOp::Rem => {
            if signed {
                TermOp::RemSigned
            } else {
                TermOp::RemUnsigned
            }
        },
        BinaryOp::BitXor => TermOp::Xor,
        BinaryOp::BitAnd => TermOp::And,
        BinaryOp::BitOr => TermOp::Or,
        BinaryOp::Shl => TermOp::Shl,
        BinaryOp::Shr => {
            if signed {
                TermOp::ShrSigned
            } else {
                TermOp::ShrUnsigned
            }
        },
        BinaryOp::Eq | BinaryOp::Ne => TermOp::Equal,
        BinaryOp::Lt => {
            if signed {
                TermOp::LessSigned
            } else {
                TermOp::LessUnsigned
            }
        }
        BinaryOp::Le => {
            if signed {
                TermOp::LessSigned
            } else {
                TermOp::LessUnsigned
            }
        }
        BinaryOp::Ge => {
            if signed {
                TermOp::LessSigned
            } else {
                TermOp::LessUnsigned
            }
        }
        BinaryOp::Gt => {
            if signed {
                TermOp::LessSigned
            } else {
                TermOp::LessUnsigned
            }
        }
        _ => TermOp::Add,
    }
}

fn is_swapped(op: BinaryOp) -> bool
    ensures { result ≡ is_swapped op }
{
    match op {
        BinaryOp::Gt | BinaryOp::Le => true,
        _ => false,
    }
}

fn is_inverted(op: BinaryOp) -> bool
    ensures { result ≡ is_inverted op }
{
    match op {
        BinaryOp::Ne | BinaryOp::Ge | BinaryOp::Le => true,
        _ => false,
    }
}

fn divides(op: BinaryOp) -> bool
    ensures { result ≡ divides op }
{
    match op {
        BinaryOp::Div | BinaryOp::Rem => true,
        _ => false,
    }
}

/// The operation on the operands in their order.
fn applied_term(
    terms: &mut Terms,
    op: BinaryOp,
    signed: bool,
    a: TermId,
    b: TermId,
) -> Result<TermId, NoMemory>
    requires a_inside { a.0 < length terms.old }
    requires b_inside { b.0 < length terms.old }
    requires fits { FitsOperator op (width_of terms.old a.0) (width_of terms.old b.0) }
    ensures { IfOk result (λ id. IsMade terms.old terms.new id.0 (result_width op signed (width_of terms.old a.0)) (λ inputs. applied (term_op op signed) (if is_swapped op then value terms.old inputs b.0 else value terms.old inputs a.0) (if is_swapped op then value terms.old inputs a.0 else value terms.old inputs b.0))) }
{
    if is_swapped(op) {
        let id = apply(terms, term_op(op, signed), b, a)?;
        Ok(id)
    } else {
        let id = apply(terms, term_op(op, signed), a, b)?;
        Ok(id)
    }
}

/// The word of the operator.
fn word_term(
    terms: &mut Terms,
    op: BinaryOp,
    signed: bool,
    a: TermId,
    b: TermId,
) -> Result<TermId, NoMemory>
    requires a_inside { a.0 < length terms.old }
    requires b_inside { b.0 < length terms.old }
    requires fits { FitsOperator op (width_of terms.old a.0) (width_of terms.old b.0) }
    ensures { IfOk result (λ id. IsMade terms.old terms.new id.0 (result_width op signed (width_of terms.old a.0)) (λ inputs. word_value op signed (value terms.old inputs a.0) (value terms.old inputs b.0))) }
{
    let plain = applied_term(terms, op, signed, a, b)?;
    if is_inverted(op) {
        let id = apply(terms, TermOp::Not, plain, plain)?;
        Ok(id)
    } else {
        Ok(plain)
    }
}

/// Whether the operator has a word.
fn lawful_term(
    terms: &mut Terms,
    op: BinaryOp,
    signed: bool,
    a: TermId,
    b: TermId,
) -> Result<TermId, NoMemory>
    requires a_inside { a.0 < length terms.old }
    requires b_inside { b.0 < length terms.old }
    requires fits { FitsOperator op (width_of terms.old a.0) (width_of terms.old b.0) }
    ensures { IfOk result (λ id. IsTest terms.old terms.new id.0 (λ inputs. lawful_value op signed (value terms.old inputs a.0) (value terms.old inputs b.0))) }
{
    if divides(op) {
        let id = apply(terms, lawful_op(signed), a, b)?;
        Ok(id)
    } else {
        let id = bit(terms, true)?;
        Ok(id)
    }
}

/// The value of the operator, whose operands have the sign.
pub fn operator_terms(
    terms: &mut Terms,
    op: BinaryOp,
    signed: bool,
    a: TermId,
    b: TermId,
) -> Result<OpTerms, NoMemory>
    requires a_inside { a.0 < length terms.old }
    requires b_inside { b.0 < length terms.old }
    requires fits { FitsOperator op (width_of terms.old a.0) (width_of terms.old b.0) }
    ensures { IfOk result (λ t. IsOperator terms.old terms.new op signed a.0 b.0 t) }
{
    let _a = terms.term(a);
    let _b = terms.term(b);
    let lawful = lawful_term(terms, op, signed, a, b)?;
    let word = word_term(terms, op, signed, a, b)?;
    Ok(OpTerms { lawful, word })
}
