//! Typing of code: places, operands and rvalues. What is right is said in `specs/` of `type_rules`; each function gives just that.
#![tactic(auto)]

mod aggregates;
mod fields;
mod forms;
mod lists;
mod operands;
mod places;
mod rules;
mod rvalues;

pub use aggregates::{Halves, Made, halves_of, has_field, made_by};
pub use lists::{operands_all, operands_are_fields, operands_same, operands_typed};
pub use operands::operand_type;
pub use places::{PlaceTy, place_type, value_type};
pub use rules::{check, required};
pub use rvalues::written;
