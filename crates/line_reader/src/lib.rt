//! Statements, terminators and the lines of blocks, read from tokens.
#![tactic(auto)]

/// What a part reads; where it stops, the function that calls it stops.
macro_rules! read {
    ($part:expr) => {
        match $part {
            Ok(read) => read,
            Err(stop) => return Ok(Err(stop)),
        }
    };
}

mod asserts;
mod labels;
mod lines;
mod next;
mod paths;
mod sets;
mod statements;
mod switches;
mod terminators;
mod words;

pub use labels::Seen;
pub use lines::{cleanup_line, line};
pub use next::Next;
pub use sets::LABEL;
pub use statements::Kept;
pub use terminators::EndingAt;
pub use words::label_number;
