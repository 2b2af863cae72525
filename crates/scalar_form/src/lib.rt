//! The scalar form of functions: which functions are of it.
#![tactic(auto)]

mod form;
mod reached;
mod size;
mod typing;

pub use form::is_scalar;
pub use reached::{first_reached, reach};
