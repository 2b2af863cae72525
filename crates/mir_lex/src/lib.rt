//! The tokens of a text: each a slice of it, in order, or the earliest fault of a text that has none
//! (`specs/Tokens.antt`).
#![tactic(auto)]

mod agreement;
mod bytes;
mod character;
mod digits;
mod fault;
mod front;
mod lexer;
mod place_in_text;
mod quoted;
mod seen;
mod token;

pub use agreement::one_lexing;
pub use bytes::{begins_word, is_word_byte};
pub use character::is_char;
pub use digits::number_within;
pub use fault::{FaultKind, LexFault};
pub use front::opens_impl;
pub use lexer::{MAX_TEXT, tokens};
pub use place_in_text::text_place;
pub use seen::{
    between, capped_number, character_value, digits_of, is_index, is_label, is_local, suffix_of,
};
pub use token::{Token, TokenKind};
