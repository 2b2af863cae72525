//! Types, places and paths, each read from a whole text.
#![tactic(auto)]

mod laws;
mod parts;

pub use laws::texts_are_read;
pub use parts::{path_of, place_of, type_of};
