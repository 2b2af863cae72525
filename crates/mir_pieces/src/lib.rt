//! What the parser makes of tokens: each with its bytes and its class, and the types and paths that are made of them with
//! their canonical texts. Every function gives just what the grammar's definition says.
#![tactic(auto)]

mod boxes;
mod classes;
mod names;
mod path;
mod piece;
mod reading;
mod sets;
mod type_reading;
mod types;
mod want;

pub use path::{to_keyed_path, to_mut_path, to_path};
pub use piece::{Piece, pieces};
pub use reading::token;
pub use sets::{
    AMPERSAND, ANY_WORD, ARGUMENT_FIRSTS, AS, CLOSE_BRACKET, CLOSE_PAREN, COLONS, COMMA, CONST,
    DYN, FORMED_FIRSTS, GREATER, IMPL_SEGMENT, LESS, LIFETIME, MUT, NUMBER, OPEN_BRACKET,
    OPEN_PAREN, PATH_WORDS, PATH_WORDS_BUT_MUT, PLAIN, PLUS, SEMICOLON, STAR, STEP_FIRSTS,
    TYPE_FIRSTS, TYPE_FIRSTS_BUT_MUT, TYPE_WORDS, WRITTEN, inside, starts,
};
pub use type_reading::{Read, impl_step, is_formed, plain, word_step, written_argument};
pub use types::{to_dyn, to_plain, to_qualified, to_raw, to_ref, to_slice, to_tuple};
pub use want::{Want, firsts};
