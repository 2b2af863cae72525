//! Reads the types of a declaration file: structs, tuples and enums with their layouts.
#![tactic(auto)]

mod enums;
mod fields;
mod types;
mod variants;

pub use fields::{Fields, decimal_name, fields_at};
pub use types::Types;
pub use variants::Variants;
