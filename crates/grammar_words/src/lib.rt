//! The words of a grammar whose faults have exact places: what begins a text, what stops it, and what is nested too
//! deep. The words are definitions (`specs/`), and their laws are in `proofs/`.
#![tactic(auto)]

mod stop;

pub use stop::{Stop, Why, expect_end, stop_before};
