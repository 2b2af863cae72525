//! Gates that equal terms.
#![tactic(auto)]

mod apply;
mod arithmetic;
mod division;
mod inputs;
mod moves;
mod overflow;
mod reached;
mod signs;
mod terms_to_gates;
mod tests_of_words;

pub use bit_gates::{Gate, Gates, InputBit};
pub use terms_to_gates::blast;
