//! Blocks of words that are lent and not copied, and what a solver and a checker of its refutations share: lists of
//! clauses and logs of lines.
//!
//! A literal is a word: 2v for the variable v, and 2v + 1 for its negation.
#![tactic(auto)]

mod blocks;
mod clause_list;
mod line_log;
mod words;

pub use blocks::{BlockRef, Region};
pub use clause_list::Clauses;
pub use line_log::Log;
