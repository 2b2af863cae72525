//! A program with its types numbered: their layouts, the places of their fields and the tags of their variants.
#![tactic(auto)]

mod copies;
mod files;
mod hashes;
mod numbers;
mod places;
mod rows;
mod typed;

pub use rows::{Layout, TypeRow, rows_of};
pub use typed::Typed;
