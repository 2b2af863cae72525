//! Lists of the clauses that wait for a literal to become false, one list for each literal.
#![tactic(auto)]

mod lists;

pub use lists::{Watch, WatchLists};
