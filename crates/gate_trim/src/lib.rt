//! Circuits without the gates that nobody reads.
#![tactic(auto)]

mod marks;
mod moves;
mod trimming;

pub use trimming::{Trimmed, trim};
