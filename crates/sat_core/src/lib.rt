//! A solver of clause lists that shows its work: it answers a satisfying assignment, a refutation, or the clauses that it
//! learned before its budget was spent.
#![tactic(auto)]

mod choice;
mod known;
mod learn;
mod order;
mod prepare;
mod propagate;
mod roles;
mod search;
mod shorten;
mod solver;
mod trail;
mod watching;

pub use solver::{Effort, SatAnswer, solve};
