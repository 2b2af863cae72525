//! Operands, operators and rvalues of the scalar form as terms.
#![tactic(auto)]

mod made;
mod operators;
mod rvalues;
mod slots;

pub use made::{bit, both, but_not, choose, either, equals, input, inverse};
pub use operators::{OpTerms, operator_terms};
pub use rvalues::{ValueTerms, rvalue_terms};
pub use slots::{Slot, known, read, slot_at};
