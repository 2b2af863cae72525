//! Tests of the crates that read the declaration file.
#![tactic(auto)]

mod joining;
#[cfg(test)]
mod of_decl_counts;
#[cfg(test)]
mod of_decl_file;
#[cfg(test)]
mod of_decl_laws;
#[cfg(test)]
mod of_decl_texts;
#[cfg(test)]
mod of_decl_tree;
#[cfg(test)]
mod of_decl_types;
#[cfg(test)]
mod of_part_texts;
mod trees;

pub use joining::alone;
pub use trees::{is_fault, is_read, plain, tree_of};
