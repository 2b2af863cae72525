ghost use Rattle.std.specs.Prelude.{◌≡◌, ◌<◌, length, slice_get, Some, IfSome, false, true};
ghost use Rattle.sym_terms.specs.Ops.{is_binary};
ghost use Rattle.sym_terms.specs.Terms.{Fits, AreFitting};
ghost use Rattle.sym_terms.specs.Simpler.{IsSimpler};

use crate::fold::fold;
use crate::laws::{law_of_constant, law_of_same};
use crate::simpler::{Simpler, simpler_of};
use crate::term::{Term, TermId, TermOp};
use crate::terms::Terms;
use word_bits::Word;

impl Terms {
    /// A form of the term that has its value, after two rounds of laws.
    pub fn simplest(&self, term: Term) -> Simpler
        requires { Fits self.now term }
        ensures { IsSimpler self.now term result }
    {
        match self.simpler(term) {
            Simpler::Other(other) => self.simpler(other),
            form => form,
        }
    }

    /// A form of the term that has its value, after one law.
    fn simpler(&self, term: Term) -> Simpler
        requires { Fits self.now term }
        ensures { IsSimpler self.now term result }
    {
        let form = match term {
            Term::Apply { op, a, b } => return self.simpler_operation(op, a, b),
            Term::Cast { a, signed, width } => self.simpler_cast(a, signed, width),
            Term::Choose { test, a, b } => self.simpler_choose(test, a, b),
            Term::Slice { a, from, width } => self.simpler_slice(a, from, width),
            _ => None,
        };
        form.unwrap_or(Simpler::Other(term))
    }

    /// The word of a term that is a constant.
    pub(crate) fn constant(&self, id: TermId) -> Option<Word>
        requires { id.0 < length self.now }
        ensures found { IfSome result (λ c. slice_get self.now id.0 ≡ Some (Term.Constant c)) }
        ensures fitting { AreFitting self.now }
    {
        match self.term(id) {
            Term::Constant(word) => Some(word),
            _ => None,
        }
    }

    /// A simpler form of an operation. Of one whose operands may change places, a constant goes second, else the
    /// later term.
    fn simpler_operation(&self, op: TermOp, a: TermId, b: TermId) -> Simpler
        requires { Fits self.now (Term.Apply op a b) }
        ensures { IsSimpler self.now (Term.Apply op a b) result }
    {
        if let Some(form) = self.simpler_equation(op, a, b) {
            return form;
        }
        if op.is_commutative() && self.goes_second(a, b) {
            self.simpler_in_order(op, b, a)
        } else {
            self.simpler_in_order(op, a, b)
        }
    }

    /// Whether the first operand is to go second. No answer of a call depends on it but for its size.
    fn goes_second(&self, a: TermId, b: TermId) -> bool
        requires first { a.0 < length self.now }
        requires second { b.0 < length self.now }
        ensures { AreFitting self.now }
    {
        let first = self.constant(a).is_some();
        let second = self.constant(b).is_some();
        if first == second { b.0 < a.0 } else { first }
    }

    /// A simpler form of an operation with its operands in this order.
    fn simpler_in_order(&self, op: TermOp, a: TermId, b: TermId) -> Simpler
        requires { Fits self.now (Term.Apply op a b) }
        ensures { IsSimpler self.now (Term.Apply op a b) result }
    {
        match self.simpler_apply(op, a, b) {
            Some(form) => form,
            None => Simpler::Other(Term::Apply { op, a, b }),
        }
    }

    /// A simpler form of an operation, where a law has one.
    fn simpler_apply(&self, op: TermOp, a: TermId, b: TermId) -> Option<Simpler>
        requires { Fits self.now (Term.Apply op a b) }
        ensures { IfSome result (λ form. IsSimpler self.now (Term.Apply op a b) form) }
    {
        if !op.is_binary() {
            return self.simpler_unary(op, a, b);
        }
        if let Some(second) = self.constant(b) {
            return self.with_constant(op, a, b, second);
        }
        if a == b {
            let law = law_of_same(op, self.width(a))?;
            return Some(simpler_of(a, law));
        }
        match op {
            TermOp::Xor => self.xor_again(a, b),
            TermOp::Sub => self.sub_again(a, b),
            TermOp::Add => self.add_again(a, b),
            TermOp::Equal => self.equal_again(a, b),
            _ => None,
        }
    }

    /// A simpler form of an operation with this constant, where a law has one.
    fn with_constant(&self, op: TermOp, a: TermId, b: TermId, second: Word) -> Option<Simpler>
        requires fits { Fits self.now (Term.Apply op a b) }
        requires constant { slice_get self.now b.0 ≡ Some (Term.Constant second) }
        requires binary { is_binary op ≡ true }
        ensures { IfSome result (λ form. IsSimpler self.now (Term.Apply op a b) form) }
    {
        if let Some(first) = self.constant(a) {
            return Some(Simpler::Other(Term::Constant(fold(op, first, second))));
        }
        match law_of_constant(op, self.width(a), second) {
            Some(law) => Some(simpler_of(a, law)),
            None => self.with_both_constants(op, a, b, second),
        }
    }

    /// An operation with one constant after another, as that with both at once.
    fn with_both_constants(&self, op: TermOp, a: TermId, b: TermId, second: Word) -> Option<Simpler>
        requires fits { Fits self.now (Term.Apply op a b) }
        requires constant { slice_get self.now b.0 ≡ Some (Term.Constant second) }
        ensures { IfSome result (λ form. IsSimpler self.now (Term.Apply op a b) form) }
    {
        if !op.is_associative() {
            return None;
        }
        let (inner, outer) = self.parts(op, a)?;
        let first = self.constant(outer)?;
        Some(Simpler::WithConstant {
            op,
            a: inner,
            constant: fold(op, first, second),
        })
    }

    /// A simpler form of an operation that looks at its first operand alone, where a law has one.
    fn simpler_unary(&self, op: TermOp, a: TermId, b: TermId) -> Option<Simpler>
        requires fits { Fits self.now (Term.Apply op a b) }
        requires unary { is_binary op ≡ false }
        ensures { IfSome result (λ form. IsSimpler self.now (Term.Apply op a b) form) }
    {
        match self.constant(a) {
            Some(first) => Some(Simpler::Other(Term::Constant(fold(op, first, first)))),
            None => {
                let (inner, _) = self.parts(op, a)?;
                Some(Simpler::Known(inner))
            }
        }
    }
}
