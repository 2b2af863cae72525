ghost use Rattle.std.specs.Prelude.{◌≡◌, ℕ, Bool, not, ◌&&◌, ◌||◌, if◌then◌else◌};
ghost use Rattle.region_pool.specs.Literals.{literal_value};
ghost use Rattle.bit_gates.specs.Values.{differ};
ghost use Rattle.bit_gates.specs.Folding.{IsFolding, IsTurned};

use crate::gate::{Gate, is_negated, negation, positive, signed};

/// What a wanted gate comes to: a literal that is there, or a gate, perhaps negated.
#[derive(Clone, Copy)]
pub enum Folded {
    Known(u64),
    Fresh { gate: Gate, negated: bool },
}

impl Folded {
    /// The other truth value.
    #[tactic(auto, using(crate::proofs::LiteralLaws::literal_value_negation, crate::proofs::LiteralLaws::negation_inside))]
    fn negated(self) -> Folded
        ensures { IsTurned self result }
    {
        match self {
            Folded::Known(literal) => Folded::Known(negation(literal)),
            Folded::Fresh { gate, negated } => Folded::Fresh {
                gate,
                negated: !negated,
            },
        }
    }
}

/// A conjunction. `truth` is the literal of the constant.
#[tactic(auto, using(crate::proofs::LiteralLaws::literal_value_negation, crate::proofs::LiteralLaws::negation_inside))]
pub fn fold_and(truth: u64, a: u64, b: u64) -> Folded
    ensures { IsFolding truth a b b result (λ v. v a && v b) }
{
    if a == truth {
        return Folded::Known(b);
    }
    if b == truth {
        return Folded::Known(a);
    }
    if a == b {
        return Folded::Known(a);
    }
    let falsity = negation(truth);
    if a == falsity {
        return Folded::Known(falsity);
    }
    if b == falsity {
        return Folded::Known(falsity);
    }
    if a == negation(b) {
        return Folded::Known(falsity);
    }
    Folded::Fresh {
        gate: Gate::And {
            a: a.min(b),
            b: a.max(b),
        },
        negated: false,
    }
}

/// A disjunction.
#[tactic(auto, using(crate::proofs::LiteralLaws::literal_value_negation, crate::proofs::LiteralLaws::negation_inside))]
pub fn fold_or(truth: u64, a: u64, b: u64) -> Folded
    ensures { IsFolding truth a b b result (λ v. v a || v b) }
{
    fold_and(truth, negation(a), negation(b)).negated()
}

/// One of the two alone.
#[tactic(auto, using(crate::proofs::LiteralLaws::literal_value_negation, crate::proofs::LiteralLaws::negation_inside))]
pub fn fold_xor(truth: u64, a: u64, b: u64) -> Folded
    ensures { IsFolding truth a b b result (λ v. differ (v a) (v b)) }
{
    let negated = is_negated(a) != is_negated(b);
    let x = positive(a);
    let y = positive(b);
    if x == y {
        return Folded::Known(signed(truth, !negated));
    }
    if x == truth {
        return Folded::Known(signed(y, !negated));
    }
    if y == truth {
        return Folded::Known(signed(x, !negated));
    }
    Folded::Fresh {
        gate: Gate::Xor {
            a: x.min(y),
            b: x.max(y),
        },
        negated,
    }
}

/// `a` where `test` is true, and else `b`.
#[tactic(auto, using(crate::proofs::LiteralLaws::literal_value_negation, crate::proofs::LiteralLaws::negation_inside))]
pub fn fold_choose(truth: u64, test: u64, a: u64, b: u64) -> Folded
    ensures { IsFolding truth test a b result (λ v. if v test then v a else v b) }
{
    if is_negated(test) {
        fold_choice(truth, negation(test), b, a)
    } else {
        fold_choice(truth, test, a, b)
    }
}

#[tactic(auto, using(crate::proofs::LiteralLaws::literal_value_negation, crate::proofs::LiteralLaws::negation_inside))]
fn fold_choice(truth: u64, test: u64, a: u64, b: u64) -> Folded
    ensures { IsFolding truth test a b result (λ v. if v test then v a else v b) }
{
    let falsity = negation(truth);
    let other = negation(test);
    if test == truth {
        return Folded::Known(a);
    }
    if a == b {
        return Folded::Known(a);
    }
    if a == truth {
        return fold_or(truth, test, b);
    }
    if a == test {
        return fold_or(truth, test, b);
    }
    if a == falsity {
        return fold_and(truth, other, b);
    }
    if a == other {
        return fold_and(truth, other, b);
    }
    if b == truth {
        return fold_or(truth, other, a);
    }
    if b == other {
        return fold_or(truth, other, a);
    }
    if b == falsity {
        return fold_and(truth, test, a);
    }
    if b == test {
        return fold_and(truth, test, a);
    }
    if a == negation(b) {
        return fold_xor(truth, test, b);
    }
    if is_negated(a) {
        return Folded::Fresh {
            gate: Gate::Choose {
                test,
                a: negation(a),
                b: negation(b),
            },
            negated: true,
        };
    }
    Folded::Fresh {
        gate: Gate::Choose { test, a, b },
        negated: false,
    }
}
