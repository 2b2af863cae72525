//! What places and values are made of: steps, words, constants and rvalues from their parts, and the readers that need
//! no type. Every function gives just what the grammar's definition says.
#![tactic(auto)]

mod casts;
mod constants;
mod indexes;
mod numbers;
mod operands;
mod parts;
mod sets;
mod steps;
mod tokens;
mod values;

pub use casts::cast_kind;
pub use constants::{formed_constant, is_formed_constant, to_named};
pub use indexes::{downcast_step, indexes_behind, local_place};
pub use operands::{to_const, to_copy, to_move, to_named_operand};
pub use parts::{all_passed, values_of};
pub use sets::{
    BINARIES, CHARACTERS, CLOSE_BRACE, COERCIONS, COLON, CONSTANT_FIRSTS, CONSTANT_WORDS, COPY,
    DOT, FREE_WORDS, LOCALS, MARKS, MEASURES, MINUS, MINUS_NUMBERS, MOVE, OF, OPEN_BRACE,
    OPERAND_FIRSTS, OPERATORS, PLACE_FIRSTS, PLAIN_KINDS, PLUS_NUMBERS, POINTER_COERCION, RAW,
    SIZES, TEXTS, TRUTHS, TUPLE_SECONDS, UNARIES, VALUE_WORDS,
};
pub use steps::{
    to_back, to_deref, to_downcast, to_field, to_front, to_index, to_local_place, with_step,
};
pub use tokens::{local_number, number_type, same, text_body};
pub use values::{
    to_array_of, to_binary, to_cast, to_measured, to_no_array, to_raw_of, to_ref_of, to_repeat,
    to_sized, to_tuple_of, to_unary, to_used,
};
