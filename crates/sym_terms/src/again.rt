ghost use Rattle.std.specs.Prelude.{◌≡◌, ◌<◌, length, slice_get, Some, IfSome, true};
ghost use Rattle.sym_terms.specs.Ops.{is_cancelling};
ghost use Rattle.sym_terms.specs.Terms.{Fits, AreFitting};
ghost use Rattle.sym_terms.specs.Simpler.{IsSimpler, IsKnown};

use crate::simpler::Simpler;
use crate::term::{Term, TermId, TermOp};
use crate::terms::Terms;

impl Terms {
    /// The operands of a term that is this operation.
    pub fn parts(&self, op: TermOp, id: TermId) -> Option<(TermId, TermId)>
        requires { id.0 < length self.now }
        ensures found { IfSome result (λ p. slice_get self.now id.0 ≡ Some (Term.Apply op p.0 p.1)) }
        ensures fitting { AreFitting self.now }
    {
        match self.term(id) {
            Term::Apply { op: found, a, b } if found == op => Some((a, b)),
            _ => None,
        }
    }

    /// (p ^ q) ^ q and (p ^ q) ^ p.
    fn xor_part(&self, a: TermId, b: TermId) -> Option<TermId>
        requires { Fits self.now (Term.Apply TermOp.Xor a b) }
        ensures found { IfSome result (λ id. IsKnown self.now (Term.Apply TermOp.Xor a b) id.0) }
        ensures fitting { AreFitting self.now }
    {
        let (p, q) = self.parts(TermOp::Xor, a)?;
        if q == b {
            Some(p)
        } else if p == b {
            Some(q)
        } else {
            None
        }
    }

    /// An exclusive or with an operand of the other operand.
    pub fn xor_again(&self, a: TermId, b: TermId) -> Option<Simpler>
        requires { Fits self.now (Term.Apply TermOp.Xor a b) }
        ensures { IfSome result (λ form. IsSimpler self.now (Term.Apply TermOp.Xor a b) form) }
    {
        match self.xor_part(a, b) {
            Some(id) => Some(Simpler::Known(id)),
            None => {
                let id = self.xor_part(b, a)?;
                Some(Simpler::Known(id))
            }
        }
    }

    /// (p + q) - q, (p + q) - p and p - (p - q).
    pub fn sub_again(&self, a: TermId, b: TermId) -> Option<Simpler>
        requires { Fits self.now (Term.Apply TermOp.Sub a b) }
        ensures { IfSome result (λ form. IsSimpler self.now (Term.Apply TermOp.Sub a b) form) }
    {
        match self.parts(TermOp::Add, a) {
            Some((p, q)) => {
                if q == b {
                    Some(Simpler::Known(p))
                } else if p == b {
                    Some(Simpler::Known(q))
                } else {
                    None
                }
            }
            None => {
                let (p, q) = self.parts(TermOp::Sub, b)?;
                if p == a {
                    Some(Simpler::Known(q))
                } else {
                    None
                }
            }
        }
    }

    /// (p - q) + q.
    fn add_part(&self, a: TermId, b: TermId) -> Option<TermId>
        requires { Fits self.now (Term.Apply TermOp.Add a b) }
        ensures found { IfSome result (λ id. IsKnown self.now (Term.Apply TermOp.Add a b) id.0) }
        ensures fitting { AreFitting self.now }
    {
        let (p, q) = self.parts(TermOp::Sub, a)?;
        if q == b { Some(p) } else { None }
    }

    /// (p - q) + q and q + (p - q).
    pub fn add_again(&self, a: TermId, b: TermId) -> Option<Simpler>
        requires { Fits self.now (Term.Apply TermOp.Add a b) }
        ensures { IfSome result (λ form. IsSimpler self.now (Term.Apply TermOp.Add a b) form) }
    {
        match self.add_part(a, b) {
            Some(id) => Some(Simpler::Known(id)),
            None => {
                let id = self.add_part(b, a)?;
                Some(Simpler::Known(id))
            }
        }
    }

    /// The equation of the other operands, where the two results have an operand in common.
    fn equal_parts(&self, op: TermOp, a: TermId, b: TermId) -> Option<Simpler>
        requires fits { Fits self.now (Term.Apply TermOp.Equal a b) }
        requires cancelling { is_cancelling op ≡ true }
        ensures { IfSome result (λ form. IsSimpler self.now (Term.Apply TermOp.Equal a b) form) }
    {
        let (p, q) = self.parts(op, a)?;
        let (r, s) = self.parts(op, b)?;
        if q == s {
            return Some(equation(p, r));
        }
        if !op.is_commutative() {
            return None;
        }
        if p == r {
            Some(equation(q, s))
        } else if p == s {
            Some(equation(q, r))
        } else if q == r {
            Some(equation(p, s))
        } else {
            None
        }
    }

    /// An equation of two sums, differences or exclusive ors with an operand in common.
    pub fn equal_again(&self, a: TermId, b: TermId) -> Option<Simpler>
        requires { Fits self.now (Term.Apply TermOp.Equal a b) }
        ensures { IfSome result (λ form. IsSimpler self.now (Term.Apply TermOp.Equal a b) form) }
    {
        match self.term(a) {
            Term::Apply { op, a: _, b: _ } => match op {
                TermOp::Add => self.equal_parts(op, a, b),
                TermOp::Sub => self.equal_parts(op, a, b),
                TermOp::Xor => self.equal_parts(op, a, b),
                _ => None,
            },
            _ => None,
        }
    }
}

/// The equation of two terms.
fn equation(a: TermId, b: TermId) -> Simpler
    ensures { result ≡ Simpler.Other (Term.Apply TermOp.Equal a b) }
{
    Simpler::Other(Term::Apply {
        op: TermOp::Equal,
        a,
        b,
    })
}
