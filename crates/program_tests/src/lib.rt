//! Tests of the crates on whole programs: layouts and the rules that they keep, and types by their numbers.
#![tactic(auto)]

mod declaring;
#[cfg(test)]
mod of_layout_rules;
#[cfg(test)]
mod of_program_types;
#[cfg(test)]
mod of_type_layouts;
#[cfg(test)]
mod of_typed_program;

pub use declaring::with_types;
