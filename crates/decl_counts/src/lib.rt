//! Counts declarations and the types that are written in them: a program has room for so many of each.
#![tactic(auto)]

mod counts;
mod taking;

pub use counts::is_countable;
