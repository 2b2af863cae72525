//! A checker of refutations. It shares nothing with a solver but the lists of clauses and lines.
#![tactic(auto)]

mod acceptance;
mod line_check;
mod marks;
mod propagation;

pub use acceptance::{Verdict, accept};
pub use line_check::Checker;

#[cfg(test)]
mod tests;
