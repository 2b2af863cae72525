ghost use Rattle.std.specs.Prelude.{◌≡◌, ℕ, ◌*◌, ◌%◌, ◌^◌, ◌<◌, ◌≤◌, IsTrue, IfSome};
ghost use Rattle.sym_terms.specs.Sums.{product_value, sum_value, IsProduct, IsPlace, Adds, IsNothing};

use crate::term::TermId;

/// How many products a sum has room for.
const PLACES: usize = 16;

/// A product of the values of at most two terms.
#[derive(Clone, Copy, Debug, PartialEq, Eq)]
pub enum Product {
    One,
    Single(TermId),
    Pair(TermId, TermId),
}

impl Product {
    /// The product of two terms, the earlier one first.
    pub fn of_terms(a: TermId, b: TermId) -> Product
        ensures { (values : ℕ → ℕ) → product_value values result ≡ values a.0 * values b.0 }
    {
        if b.0 < a.0 {
            Product::Pair(b, a)
        } else {
            Product::Pair(a, b)
        }
    }

    /// The product of two products, where it has no more than two factors.
    fn times(self, other: Product) -> Option<Product>
        ensures { IfSome result (λ whole. IsProduct whole self other) }
    {
        match self {
            Product::One => Some(other),
            Product::Single(a) => match other {
                Product::One => Some(self),
                Product::Single(b) => Some(Product::of_terms(a, b)),
                Product::Pair(_first, _second) => None,
            },
            Product::Pair(_first, _second) => match other {
                Product::One => Some(self),
                _ => None,
            },
        }
    }
}

/// A product that is taken as often as its coefficient says.
#[derive(Clone, Copy, Debug)]
pub struct Summand {
    pub coefficient: u128,
    pub product: Product,
}

/// A sum of products. All its arithmetic wraps.
#[derive(Clone, Copy, Debug)]
pub struct Sum {
    pub summands: [Summand; PLACES],
}

impl Sum {
    /// The sum of nothing.
    pub fn new() -> Sum
        ensures { (values : ℕ → ℕ) → sum_value values result.summands ≡ 0 }
    {
        Sum {
            summands: [Summand {
                coefficient: 0,
                product: Product::One,
            }; PLACES],
        }
    }

    /// The place of this product.
    fn place_with(&self, product: Product) -> Option<usize>
        ensures { IfSome result (λ at. IsPlace self.now.summands product at) }
    {
        for (at, summand) in self.summands.iter().enumerate() {
            if summand.product == product {
                return Some(at);
            }
        }
        None
    }

    /// A place whose product is taken no times.
    fn free_place(&self, product: Product) -> Option<usize>
        ensures { IfSome result (λ at. IsPlace self.now.summands product at) }
    {
        for (at, summand) in self.summands.iter().enumerate() {
            if summand.coefficient == 0 {
                return Some(at);
            }
        }
        None
    }

    /// The place that a product may have.
    fn place_of(&self, product: Product) -> Option<usize>
        ensures { IfSome result (λ at. IsPlace self.now.summands product at) }
    {
        match self.place_with(product) {
            Some(at) => Some(at),
            None => self.free_place(product),
        }
    }

    /// Adds a product that is taken as often as the coefficient says. False where there is no room for it.
    pub fn add(&mut self, product: Product, coefficient: u128) -> bool
        ensures { IsTrue result → Adds self.old.summands self.new.summands (λ values. coefficient * product_value values product) }
    {
        let Some(at) = self.place_of(product) else {
            return false;
        };
        let before = self.summands[at].coefficient;
        self.summands[at] = Summand {
            coefficient: before.wrapping_add(coefficient),
            product,
        };
        true
    }

    /// Adds what the summands make, each times the product and the coefficient.
    fn add_all(&mut self, product: Product, coefficient: u128, summands: &[Summand]) -> bool
        ensures { IsTrue result → Adds self.old.summands self.new.summands (λ values. coefficient * product_value values product * sum_value values summands.now) }
    {
        match summands {
            [] => true,
            [first, rest @ ..] => {
                if !self.add_multiple(product, coefficient, *first) {
                    return false;
                }
                self.add_all(product, coefficient, rest)
            }
        }
    }

    /// Adds a summand times the product and the coefficient.
    fn add_multiple(&mut self, product: Product, coefficient: u128, summand: Summand) -> bool
        ensures { IsTrue result → Adds self.old.summands self.new.summands (λ values. coefficient * product_value values product * (summand.coefficient * product_value values summand.product)) }
    {
        if summand.coefficient == 0 {
            return true;
        }
        match product.times(summand.product) {
            Some(whole) => self.add(whole, coefficient.wrapping_mul(summand.coefficient)),
            None => false,
        }
    }

    /// Adds what the summands make, each times the one summand and the coefficient.
    fn add_times(&mut self, one: Summand, coefficient: u128, summands: &[Summand]) -> bool
        ensures { IsTrue result → Adds self.old.summands self.new.summands (λ values. coefficient * (one.coefficient * product_value values one.product * sum_value values summands.now)) }
    {
        if one.coefficient == 0 {
            return true;
        }
        self.add_all(
            one.product,
            coefficient.wrapping_mul(one.coefficient),
            summands,
        )
    }

    /// Adds the product of two sums, as often as the coefficient says.
    pub fn add_product(&mut self, first: &[Summand], second: &[Summand], coefficient: u128) -> bool
        ensures { IsTrue result → Adds self.old.summands self.new.summands (λ values. coefficient * (sum_value values first.now * sum_value values second.now)) }
    {
        match first {
            [] => true,
            [one, rest @ ..] => {
                if !self.add_times(*one, coefficient, second) {
                    return false;
                }
                self.add_product(rest, second, coefficient)
            }
        }
    }
}

/// Whether each product is taken a multiple of so many times as there are words of this width.
pub fn is_nothing(summands: &[Summand], width: u32) -> bool
    requires some_bits { 1 ≤ width }
    requires few_bits { width ≤ 128 }
    ensures { IsTrue result → IsNothing width summands.now }
{
    match summands {
        [] => true,
        [first, rest @ ..] => {
            if first.coefficient & (u128::MAX >> (128 - width)) != 0 {
                return false;
            }
            is_nothing(rest, width)
        }
    }
}
