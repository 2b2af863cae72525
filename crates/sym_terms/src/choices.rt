ghost use Rattle.std.specs.Prelude.{◌≡◌, IfSome, slice_get, Some};
ghost use Rattle.sym_terms.specs.Terms.{Fits};
ghost use Rattle.sym_terms.specs.Simpler.{IsSimpler};

use crate::simpler::Simpler;
use crate::term::{Term, TermId, TermOp};
use crate::terms::Terms;
use word_bits::Word;

impl Terms {
    /// A simpler form of a choice, where a law has one.
    pub fn simpler_choose(&self, test: TermId, a: TermId, b: TermId) -> Option<Simpler>
        requires { Fits self.now (Term.Choose test a b) }
        ensures { IfSome result (λ form. IsSimpler self.now (Term.Choose test a b) form) }
    {
        let condition = self.term(test);
        if a == b {
            return Some(Simpler::Known(a));
        }
        match condition {
            Term::Constant(word) => {
                if word.value == 1 {
                    Some(Simpler::Known(a))
                } else {
                    Some(Simpler::Known(b))
                }
            }
            Term::Apply {
                op,
                a: turned,
                b: _,
            } => match op {
                TermOp::Not => Some(Simpler::Other(Term::Choose {
                    test: turned,
                    a: b,
                    b: a,
                })),
                _ => self.simpler_arms(test, a, b),
            },
            _ => self.simpler_arms(test, a, b),
        }
    }

    /// A simpler form of a choice by its arms, where a law has one.
    fn simpler_arms(&self, test: TermId, a: TermId, b: TermId) -> Option<Simpler>
        requires { Fits self.now (Term.Choose test a b) }
        ensures { IfSome result (λ form. IsSimpler self.now (Term.Choose test a b) form) }
    {
        match self.term(a) {
            Term::Constant(word) if word.width == 1 && word.value == 1 => self.test_itself(
                test, a, b, word,
            ),
            Term::Choose {
                test: again,
                a: first,
                b: _,
            } if again == test => Some(Simpler::Other(Term::Choose { test, a: first, b })),
            _ => self.simpler_second_arm(test, a, b),
        }
    }

    /// A simpler form of a choice by its second arm, where a law has one.
    fn simpler_second_arm(&self, test: TermId, a: TermId, b: TermId) -> Option<Simpler>
        requires { Fits self.now (Term.Choose test a b) }
        ensures { IfSome result (λ form. IsSimpler self.now (Term.Choose test a b) form) }
    {
        match self.term(b) {
            Term::Choose {
                test: again,
                a: _,
                b: second,
            } if again == test => Some(Simpler::Other(Term::Choose { test, a, b: second })),
            _ => None,
        }
    }

    /// The test itself, where the second arm is 0.
    fn test_itself(&self, test: TermId, a: TermId, b: TermId, first: Word) -> Option<Simpler>
        requires fits { Fits self.now (Term.Choose test a b) }
        requires constant { slice_get self.now a.0 ≡ Some (Term.Constant first) }
        requires one { first ≡ record { width = 1; value = 1 } }
        ensures { IfSome result (λ form. IsSimpler self.now (Term.Choose test a b) form) }
    {
        match self.term(b) {
            Term::Constant(word) if word.value == 0 => Some(Simpler::Known(test)),
            _ => None,
        }
    }
}
