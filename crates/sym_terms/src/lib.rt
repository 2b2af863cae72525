//! Terms: the values of words as functions of inputs, shared and folded.
#![tactic(auto)]

mod again;
mod alike;
mod choices;
mod fold;
mod laws;
mod parts;
mod rewrite;
mod simpler;
mod sums;
mod term;
mod terms;

pub use term::{Term, TermId, TermOp};
pub use terms::Terms;
