//! The types of a program: whether its declarations and functions fit one another, or the first refusal.
#![tactic(auto)]

mod check;

pub use check::{TypeFault, check_types};
