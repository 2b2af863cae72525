//! Tests of the crates on terms, circuits, clauses and the solver.
#![tactic(auto)]

mod constants;
#[cfg(test)]
mod of_bit_blast;
#[cfg(test)]
mod of_bit_gates;
#[cfg(test)]
mod of_clause_form;
#[cfg(test)]
mod of_gate_trim;
#[cfg(test)]
mod of_region_pool;
#[cfg(test)]
mod of_sat_core;
#[cfg(test)]
mod of_sym_terms;
#[cfg(test)]
mod of_term_queries;
#[cfg(test)]
mod of_watch_lists;

pub use constants::constant;
