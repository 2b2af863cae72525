//! Functions and types as their canonical text: one line for each statement and terminator, as rustc prints MIR.
#![tactic(auto)]

mod functions;
mod lines;
mod names;
mod operands;
mod places;
mod positions;
mod pushes;
mod rvalues;
mod types;

pub use functions::functions_text;
pub use types::type_text;
