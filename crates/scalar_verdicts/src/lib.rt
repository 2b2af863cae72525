//! Which checks of a function of the scalar form can fail.
#![tactic(auto)]

mod alone;
mod choices;
mod failures;
mod outcomes;
mod rounds;
mod runs;
mod trying;
mod verify;
mod walks;

pub use verify::verify_scalar;
