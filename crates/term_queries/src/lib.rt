//! Whether a term of one bit can be 1: by its gates, their clauses and the solver.
#![tactic(auto)]

mod numbers;
mod query;

pub use query::{TermAnswer, ask};
