//! The front end: a text and a declaration file to a program that is well typed, or to the first refusal and its line.
#![tactic(auto)]

mod front;
mod lines;
mod refusal;
mod words;

pub use front::typed_of;
pub use lines::refusal_text;
pub use refusal::{Refusal, TextKind};
