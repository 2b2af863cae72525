//! Prints functions as their canonical text, which reads as these functions again.
#![tactic(auto)]

mod printed;

pub use printed::print;
