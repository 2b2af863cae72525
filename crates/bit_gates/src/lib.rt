//! Circuits of gates with sharing and folding, and the arithmetic of words over lists of literals.
//!
//! A word is a list of literals, the lowest bit first. What each call promises of its result is plain arithmetic on
//! the numbers that the bits write, whatever the input bits are.
#![tactic(auto)]

mod fold;
mod gate;
mod gates;
mod inputs;
mod net;
mod products;
mod shifts;
mod sums;
mod table;
mod words;

pub use gate::{Gate, negation};
pub use gates::{Gates, InputBit};
pub use inputs::{constant_word, input_word};
pub use net::Net;
pub use products::{Division, divide, mask, multiply};
pub use shifts::{shift_down, shift_up};
pub use sums::{Sum, add, negate, subtract};
pub use words::{BitOp, bitwise, choose_words, complement, copies, equal, less};
