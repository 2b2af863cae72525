ghost use Rattle.std.specs.Prelude.{◌≡◌, ◌<◌, ◌==◌, ◌&&◌, ◌||◌, ℕ, not, if◌then◌else◌, IfOk, length};
ghost use Rattle.word_bits.specs.Words.{IsWidth, IsWord, recast};
ghost use Rattle.sym_terms.specs.Terms.{AreOperands, applied, op_width, truth as truth_word, value, width_of};
ghost use Rattle.value_terms.specs.Made.{IsBit, IsFree, IsInput, IsMade, IsTest, holds};

use sym_terms::{Term, TermId, TermOp, Terms};
use vk_core::NoMemory;
use word_bits::Word;

/// A term of a constant.
pub fn constant(terms: &mut Terms, word: Word) -> Result<TermId, NoMemory>
    requires { IsWord word }
    ensures { IfOk result (λ id. IsMade terms.old terms.new id.0 word.width (λ inputs. word)) }
{
    let id = terms.insert(Term::Constant(word))?;
    Ok(id)
}

/// A term of an operation.
pub fn apply(terms: &mut Terms, op: TermOp, a: TermId, b: TermId) -> Result<TermId, NoMemory>
    requires { AreOperands (length terms.old) (width_of terms.old) op a.0 b.0 }
    ensures { IfOk result (λ id. IsMade terms.old terms.new id.0 (op_width op (width_of terms.old a.0)) (λ inputs. applied op (value terms.old inputs a.0) (value terms.old inputs b.0))) }
{
    let id = terms.insert(Term::Apply { op, a, b })?;
    Ok(id)
}

/// A term at another width.
pub fn cast(terms: &mut Terms, a: TermId, signed: bool, width: u32) -> Result<TermId, NoMemory>
    requires inside { a.0 < length terms.old }
    requires width_is { IsWidth width }
    ensures { IfOk result (λ id. IsMade terms.old terms.new id.0 width (λ inputs. recast (value terms.old inputs a.0) signed width)) }
{
    let id = terms.insert(Term::Cast { a, signed, width })?;
    Ok(id)
}

/// One of two terms of one width.
pub fn choose(terms: &mut Terms, test: TermId, a: TermId, b: TermId) -> Result<TermId, NoMemory>
    requires test { IsBit terms.old test.0 }
    requires a_inside { a.0 < length terms.old }
    requires b_inside { b.0 < length terms.old }
    requires widths { width_of terms.old b.0 ≡ width_of terms.old a.0 }
    ensures { IfOk result (λ id. IsMade terms.old terms.new id.0 (width_of terms.old a.0) (λ inputs. if holds terms.old inputs test.0 then value terms.old inputs a.0 else value terms.old inputs b.0)) }
{
    let id = terms.insert(Term::Choose { test, a, b })?;
    Ok(id)
}

fn truth_word(truth: bool) -> Word
    ensures { result ≡ truth_word truth }
{
    Word {
        width: 1,
        value: if truth { 1 } else { 0 },
    }
}

/// A truth value.
pub fn bit(terms: &mut Terms, truth: bool) -> Result<TermId, NoMemory>
    ensures { IfOk result (λ id. IsTest terms.old terms.new id.0 (λ inputs. truth)) }
{
    let id = constant(terms, truth_word(truth))?;
    Ok(id)
}

/// Both are 1.
pub fn both(terms: &mut Terms, a: TermId, b: TermId) -> Result<TermId, NoMemory>
    requires a_bit { IsBit terms.old a.0 }
    requires b_bit { IsBit terms.old b.0 }
    ensures { IfOk result (λ id. IsTest terms.old terms.new id.0 (λ inputs. holds terms.old inputs a.0 && holds terms.old inputs b.0)) }
{
    let _a = terms.term(a);
    let _b = terms.term(b);
    let id = apply(terms, TermOp::And, a, b)?;
    Ok(id)
}

/// One of them is 1.
pub fn either(terms: &mut Terms, a: TermId, b: TermId) -> Result<TermId, NoMemory>
    requires a_bit { IsBit terms.old a.0 }
    requires b_bit { IsBit terms.old b.0 }
    ensures { IfOk result (λ id. IsTest terms.old terms.new id.0 (λ inputs. holds terms.old inputs a.0 || holds terms.old inputs b.0)) }
{
    let _a = terms.term(a);
    let _b = terms.term(b);
    let id = apply(terms, TermOp::Or, a, b)?;
    Ok(id)
}

/// It is 0.
pub fn inverse(terms: &mut Terms, a: TermId) -> Result<TermId, NoMemory>
    requires { IsBit terms.old a.0 }
    ensures { IfOk result (λ id. IsTest terms.old terms.new id.0 (λ inputs. not (holds terms.old inputs a.0))) }
{
    let _a = terms.term(a);
    let id = apply(terms, TermOp::Not, a, a)?;
    Ok(id)
}

/// The first is 1, and the second is 0.
pub fn but_not(terms: &mut Terms, a: TermId, b: TermId) -> Result<TermId, NoMemory>
    requires a_bit { IsBit terms.old a.0 }
    requires b_bit { IsBit terms.old b.0 }
    ensures { IfOk result (λ id. IsTest terms.old terms.new id.0 (λ inputs. holds terms.old inputs a.0 && not (holds terms.old inputs b.0))) }
{
    let other = inverse(terms, b)?;
    let id = both(terms, a, other)?;
    Ok(id)
}

/// The term is this number.
pub fn equals(terms: &mut Terms, a: TermId, word: Word) -> Result<TermId, NoMemory>
    requires inside { a.0 < length terms.old }
    requires word { IsWord word }
    requires width_is { width_of terms.old a.0 ≡ word.width }
    ensures { IfOk result (λ id. IsTest terms.old terms.new id.0 (λ inputs. (value terms.old inputs a.0).value == word.value)) }
{
    let number = constant(terms, word)?;
    let id = apply(terms, TermOp::Equal, a, number)?;
    Ok(id)
}

/// The number of an input that no term has yet, cut to the width.
pub fn input(terms: &mut Terms, number: usize, width: u32) -> Result<TermId, NoMemory>
    requires width_is { IsWidth width }
    requires free { IsFree terms.old number }
    ensures { IfOk result (λ id. IsInput terms.old terms.new id.0 number width) }
{
    let id = terms.insert(Term::Input { number, width })?;
    Ok(id)
}
