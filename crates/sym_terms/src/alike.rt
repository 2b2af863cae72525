ghost use Rattle.std.specs.Prelude.{◌≡◌, ◌<◌, ◌≤◌, ◌+◌, ◌*◌, IfSome, IsTrue, length};
ghost use Rattle.word_bits.specs.Words.{IsWidth};
ghost use Rattle.sym_terms.specs.Terms.{AreFitting, Fits, width_of};
ghost use Rattle.sym_terms.specs.Simpler.{IsSimpler};
ghost use Rattle.sym_terms.specs.Alike.{number_at, Collects, IsShiftFactor, AreAlike};

use crate::simpler::Simpler;
use crate::sums::{Product, Sum, is_nothing};
use crate::term::{Term, TermId, TermOp};
use crate::terms::Terms;
use word_bits::Word;

/// How many terms are looked at for one equation.
const VISITS: u32 = 64;

impl Terms {
    /// A simpler form of an equation of two sums of products that are one in whatever order they stand.
    pub(crate) fn simpler_equation(&self, op: TermOp, a: TermId, b: TermId) -> Option<Simpler>
        requires { Fits self.now (Term.Apply op a b) }
        ensures { IfSome result (λ form. IsSimpler self.now (Term.Apply op a b) form) }
    {
        match op {
            TermOp::Equal => {
                if !self.is_arithmetic(a) && !self.is_arithmetic(b) {
                    return None;
                }
                if !self.are_alike(a, b) {
                    return None;
                }
                Some(Simpler::Other(Term::Constant(Word { width: 1, value: 1 })))
            }
            _ => None,
        }
    }

    /// Whether a term may be more than one summand. Where it is not, none of what is found depends on it.
    fn is_arithmetic(&self, id: TermId) -> bool
        requires { id.0 < length self.now }
        ensures { AreFitting self.now }
    {
        match self.term(id) {
            Term::Apply { op, a: _, b: _ } => matches!(
                op,
                TermOp::Add | TermOp::Sub | TermOp::Mul | TermOp::Neg | TermOp::Shl
            ),
            _ => false,
        }
    }

    /// Whether two terms are found to be one sum of products.
    fn are_alike(&self, a: TermId, b: TermId) -> bool
        requires first { a.0 < length self.now }
        requires second { b.0 < length self.now }
        requires one_width { width_of self.now b.0 ≡ width_of self.now a.0 }
        requires fitting { AreFitting self.now }
        ensures { IsTrue result → AreAlike self.now a.0 b.0 }
    {
        let mut sum = Sum::new();
        let mut visits = VISITS;
        if !self.collect(a, 1, &mut sum, &mut visits) {
            return false;
        }
        let minus = 1u128.wrapping_neg();
        if !self.collect(b, minus, &mut sum, &mut visits) {
            return false;
        }
        is_nothing(&sum.summands, self.width(a))
    }

    /// Adds the value of a term, as often as the coefficient says. False where that takes too many visits or places.
    #[cycle(collecting)]
    fn collect(&self, id: TermId, coefficient: u128, sum: &mut Sum, visits: &mut u32) -> bool
        requires { id.0 < length self.now }
        ensures { IsTrue result → Collects self.now (width_of self.now id.0) sum.old.summands sum.new.summands (λ inputs. coefficient * number_at self.now inputs id.0) }
    {
        if *visits == 0 {
            return false;
        }
        *visits -= 1;
        match self.term(id) {
            Term::Constant(word) => sum.add(Product::One, coefficient.wrapping_mul(word.value)),
            Term::Apply { op, a, b } => match op {
                TermOp::Add => self.collect_both(a, coefficient, b, coefficient, sum, visits),
                TermOp::Sub => self.collect_both(
                    a,
                    coefficient,
                    b,
                    coefficient.wrapping_neg(),
                    sum,
                    visits,
                ),
                TermOp::Neg => self.collect(a, coefficient.wrapping_neg(), sum, visits),
                TermOp::Mul => self.collect_product(a, b, coefficient, sum, visits),
                TermOp::Shl => match self.shift_factor(b, self.width(a)) {
                    Some(factor) => self.collect(a, coefficient.wrapping_mul(factor), sum, visits),
                    None => sum.add(Product::Single(id), coefficient),
                },
                _ => sum.add(Product::Single(id), coefficient),
            },
            _ => sum.add(Product::Single(id), coefficient),
        }
    }

    /// Adds the values of two terms, each as often as its coefficient says.
    #[cycle(collecting)]
    fn collect_both(
        &self,
        a: TermId,
        first: u128,
        b: TermId,
        second: u128,
        sum: &mut Sum,
        visits: &mut u32,
    ) -> bool
        requires a_inside { a.0 < length self.now }
        requires b_inside { b.0 < length self.now }
        requires one_width { width_of self.now b.0 ≡ width_of self.now a.0 }
        ensures { IsTrue result → Collects self.now (width_of self.now a.0) sum.old.summands sum.new.summands (λ inputs. first * number_at self.now inputs a.0 + second * number_at self.now inputs b.0) }
    {
        if !self.collect(a, first, sum, visits) {
            return false;
        }
        self.collect(b, second, sum, visits)
    }

    /// Adds the product of the values of two terms, as often as the coefficient says.
    #[cycle(collecting)]
    fn collect_product(
        &self,
        a: TermId,
        b: TermId,
        coefficient: u128,
        sum: &mut Sum,
        visits: &mut u32,
    ) -> bool
        requires a_inside { a.0 < length self.now }
        requires b_inside { b.0 < length self.now }
        requires one_width { width_of self.now b.0 ≡ width_of self.now a.0 }
        requires few_bits { width_of self.now a.0 ≤ 128 }
        ensures { IsTrue result → Collects self.now (width_of self.now a.0) sum.old.summands sum.new.summands (λ inputs. coefficient * (number_at self.now inputs a.0 * number_at self.now inputs b.0)) }
    {
        match self.multiplied_out(a, b, coefficient, *sum, visits) {
            Some(whole) => {
                *sum = whole;
                true
            }
            None => sum.add(Product::of_terms(a, b), coefficient),
        }
    }

    /// The sum with the product of two terms that are sums themselves, where there are not too many summands.
    #[cycle(collecting)]
    fn multiplied_out(
        &self,
        a: TermId,
        b: TermId,
        coefficient: u128,
        sum: Sum,
        visits: &mut u32,
    ) -> Option<Sum>
        requires a_inside { a.0 < length self.now }
        requires b_inside { b.0 < length self.now }
        requires one_width { width_of self.now b.0 ≡ width_of self.now a.0 }
        requires few_bits { width_of self.now a.0 ≤ 128 }
        ensures { IfSome result (λ whole. Collects self.now (width_of self.now a.0) sum.summands whole.summands (λ inputs. coefficient * (number_at self.now inputs a.0 * number_at self.now inputs b.0))) }
    {
        let mut first = Sum::new();
        if !self.collect(a, 1, &mut first, visits) {
            return None;
        }
        let mut second = Sum::new();
        if !self.collect(b, 1, &mut second, visits) {
            return None;
        }
        let mut whole = sum;
        if !whole.add_product(&first.summands, &second.summands, coefficient) {
            return None;
        }
        Some(whole)
    }

    /// The factor of a shift by a constant, at a width.
    fn shift_factor(&self, amount: TermId, width: u32) -> Option<u128>
        requires inside { amount.0 < length self.now }
        requires width_is { IsWidth width }
        ensures { IfSome result (λ factor. IsShiftFactor self.now amount.0 width factor) }
    {
        let constant = self.constant(amount)?;
        let places = (constant.value % width as u128) as u32;
        Some(1u128 << places)
    }
}
