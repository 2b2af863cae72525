ghost use Rattle.std.specs.Prelude.{◌≡◌, ◌≤◌, ◌+◌, IfSome, slice_get, Some};
ghost use Rattle.word_bits.specs.Words.{IsWord};
ghost use Rattle.sym_terms.specs.Terms.{Fits, AreFitting, sliced};
ghost use Rattle.sym_terms.specs.Simpler.{IsSimpler};

use crate::simpler::Simpler;
use crate::term::{Term, TermId};
use crate::terms::Terms;
use word_bits::Word;

/// Bits of a word, of which the lowest is its bit `from`.
fn slice_word(c: Word, from: u32, width: u32) -> Word
    requires word { IsWord c }
    requires some_bits { 1 ≤ width }
    requires inside { from + width ≤ c.width }
    ensures { result ≡ sliced c from width }
{
    let shifted = Word {
        width: c.width,
        value: c.value >> from,
    };
    word_bits::cast(shifted, false, width)
}

impl Terms {
    /// A simpler form of a cast, where a law has one.
    pub fn simpler_cast(&self, a: TermId, signed: bool, width: u32) -> Option<Simpler>
        requires { Fits self.now (Term.Cast a signed width) }
        ensures { IfSome result (λ form. IsSimpler self.now (Term.Cast a signed width) form) }
    {
        let operand = self.term(a);
        let source = self.width(a);
        if source == width {
            return Some(Simpler::Known(a));
        }
        match operand {
            Term::Constant(word) => Some(Simpler::Other(Term::Constant(word_bits::cast(
                word, signed, width,
            )))),
            Term::Cast {
                a: inner,
                signed: first,
                width: middle,
            } => self.simpler_recast(a, signed, width, inner, first, middle),
            _ => {
                if signed && width < source {
                    Some(Simpler::Other(Term::Cast {
                        a,
                        signed: false,
                        width,
                    }))
                } else {
                    None
                }
            }
        }
    }

    /// A simpler form of a cast of a cast, where a law has one.
    fn simpler_recast(
        &self,
        a: TermId,
        signed: bool,
        width: u32,
        inner: TermId,
        first: bool,
        middle: u32,
    ) -> Option<Simpler>
        requires fits { Fits self.now (Term.Cast a signed width) }
        requires cast { slice_get self.now a.0 ≡ Some (Term.Cast inner first middle) }
        requires fitting { AreFitting self.now }
        ensures { IfSome result (λ form. IsSimpler self.now (Term.Cast a signed width) form) }
    {
        if width <= middle {
            return Some(Simpler::Other(Term::Cast {
                a: inner,
                signed: first,
                width,
            }));
        }
        if !signed && !first && self.width(inner) <= middle {
            return Some(Simpler::Other(Term::Cast {
                a: inner,
                signed: false,
                width,
            }));
        }
        None
    }

    /// A simpler form of a slice, where a law has one.
    pub fn simpler_slice(&self, a: TermId, from: u32, width: u32) -> Option<Simpler>
        requires { Fits self.now (Term.Slice a from width) }
        ensures { IfSome result (λ form. IsSimpler self.now (Term.Slice a from width) form) }
    {
        match self.term(a) {
            Term::Constant(word) => return Some(Simpler::Other(Term::Constant(slice_word(
                word, from, width,
            )))),
            Term::Slice {
                a: inner,
                from: first,
                width: _,
            } => {
                return Some(Simpler::Other(Term::Slice {
                    a: inner,
                    from: first + from,
                    width,
                }));
            }
            Term::Cast {
                a: inner,
                signed: _,
                width: _,
            } => {
                if from + width <= self.width(inner) {
                    return Some(Simpler::Other(Term::Slice {
                        a: inner,
                        from,
                        width,
                    }));
                }
            }
            _ => {}
        }
        self.low_slice(a, from, width)
    }

    /// A slice of the lowest bits as a cast, or as the term itself.
    fn low_slice(&self, a: TermId, from: u32, width: u32) -> Option<Simpler>
        requires fits { Fits self.now (Term.Slice a from width) }
        requires fitting { AreFitting self.now }
        ensures { IfSome result (λ form. IsSimpler self.now (Term.Slice a from width) form) }
    {
        if from != 0 {
            return None;
        }
        if width == self.width(a) {
            return Some(Simpler::Known(a));
        }
        Some(Simpler::Other(Term::Cast {
            a,
            signed: false,
            width,
        }))
    }
}
