//! The checks of a function of the scalar form: a list that leaves out no fault in which a run can end.
#![tactic(auto)]

mod checks;

pub use checks::{Check, checks_of};
