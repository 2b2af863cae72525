//! Places, operands and rvalues, read from tokens.
#![tactic(auto)]

mod arrays;
mod casts;
mod fields;
mod operands;
mod operators;
mod places;
mod references;
mod tuples;
mod values;

pub use fields::fields_at;
pub use operands::{operand_at, operands_at};
pub use places::place;
pub use values::{formed_value_at, value_path_at};
