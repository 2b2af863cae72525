//! A whole program: the functions of a text, and the declarations beside them.
#![tactic(auto)]

mod program;

pub use program::Program;
