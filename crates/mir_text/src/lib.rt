//! The whole text of a program: the functions that it means, or why it is refused, and where; and types, places and paths
//! alone.
#![tactic(auto)]

mod fault;
mod laws;
mod parts;
mod refusals;
mod text;
mod unsupported;
mod written;

pub use fault::{PartFault, TextFault};
pub use laws::one_meaning;
pub use mir_lex::{LexFault, MAX_TEXT};
pub use parts::{read_path, read_place, read_type};
pub use raw_functions::Limit;
pub use text::parse;
