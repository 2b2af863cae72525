//! Tests of the crates that find the types of programs.
#![tactic(auto)]

#[cfg(test)]
mod of_entry_types;
mod types;

pub use types::reference;
