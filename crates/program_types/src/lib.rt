//! The types that are written in a program, where they stand.
#![tactic(auto)]

mod code_types;
mod declared_types;
mod mentioned;
mod written;

pub use mentioned::types_written;
pub use written::Written;
