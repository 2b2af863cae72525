//! Which literal is decided: an open one of an unsatisfied clause whose false literals became so last.

ghost use Rattle.std.specs.Prelude.{◌≡◌, ℕ, ◌<◌, length};
ghost use Rattle.region_pool.specs.Blocks.{block_at};
ghost use Rattle.region_pool.specs.Clauses.{AreLiterals};
ghost use Rattle.region_pool.specs.Refutation.{IsFalsified};
ghost use Rattle.sat_core.specs.Choice.{OfferIs, ChoiceIs};
ghost use Rattle.sat_core.specs.Steps.{literals_of_steps};

use crate::trail::{Trail, Truth, negation_of};
use region_pool::Clauses;

/// What a clause offers to a decision.
#[derive(Clone, Copy, Debug, PartialEq, Eq)]
enum Offer {
    /// Nothing: a literal is true.
    Satisfied,
    /// An open literal, and the place of the false literal that became so last, or 0 where none is false.
    Chance { literal: u64, latest: usize },
}

/// What the clause offers.
fn offer_of(trail: &Trail, clause: &[u64]) -> Offer
    requires literals { AreLiterals trail.now.variables clause.now }
    requires stands { ¬ IsFalsified (literals_of_steps trail.now.steps) clause.now }
    ensures { OfferIs (literals_of_steps trail.now.steps) clause.now result }
{
    let mut open = None;
    let mut latest = 0;
    for literal in clause {
        match trail.truth(*literal) {
            Truth::True => return Offer::Satisfied,
            Truth::False => latest = trail.place(negation_of(*literal)).max(latest),
            Truth::Open => open = Some(*literal),
        }
    }
    match open {
        None => unreachable!(),
        Some(literal) => Offer::Chance { literal, latest },
    }
}

/// The literal to decide, or None where each clause is satisfied.
pub fn choice_of(clauses: &Clauses, trail: &Trail) -> Option<u64>
    requires variables { trail.now.variables ≡ clauses.now.variables }
    requires stand { (number : ℕ) → number < length clauses.now.clauses
        → ¬ IsFalsified (literals_of_steps trail.now.steps) (block_at clauses.now.clauses number) }
    ensures { ChoiceIs trail.now.variables (literals_of_steps trail.now.steps) clauses.now.clauses (length clauses.now.clauses) result }
{
    let mut choice = None;
    let mut best = 0;
    for number in 0..clauses.len() {
        match offer_of(trail, clauses.clause(number)) {
            Offer::Satisfied => {}
            Offer::Chance { literal, latest } => {
                if choice.is_none() || latest >= best {
                    best = latest;
                    choice = Some(literal);
                }
            }
        }
    }
    choice
}
