//! Clauses that say what gates compute.
#![tactic(auto)]

mod form;

pub use form::clauses;
