//! Tests of the crates on trees of functions: names, typing, programs, the scalar form, its terms and its verdicts.
#![tactic(auto)]

#[cfg(test)]
mod of_mir_ir;
#[cfg(test)]
mod of_mir_program;
#[cfg(test)]
mod of_scalar_form;
#[cfg(test)]
mod of_scalar_terms;
#[cfg(test)]
mod of_scalar_verdicts;
#[cfg(test)]
mod of_type_rules;
#[cfg(test)]
mod of_value_terms;
#[cfg(test)]
mod of_vk_core;
mod types;

pub use types::{bytes, raw};
