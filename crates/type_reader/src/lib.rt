//! Types and paths, read from tokens: each function gives just what the grammar's reader gives
//! (`specs/Types.antt` of `mir_grammar`), or want of memory.
#![tactic(auto)]

mod leaves;
mod reader;
mod wrapper;

pub use reader::{free_path_at, path_from_at, type_at};
