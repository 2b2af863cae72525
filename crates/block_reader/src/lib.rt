//! Blocks, functions and whole texts, read from tokens.
#![tactic(auto)]

/// What a part reads; where it stops, the function that calls it stops.
macro_rules! read {
    ($part:expr) => {
        match $part {
            Ok(read) => read,
            Err(stop) => return Ok(Err(stop)),
        }
    };
}

mod blocks;
mod functions;
mod items;
mod reader;
mod sets;

pub use reader::text_at;
