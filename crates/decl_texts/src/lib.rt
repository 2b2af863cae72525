//! Reads the texts of a declaration file: types, paths, places, locals, words and numbers.
#![tactic(auto)]

mod decimals;
mod elements;
mod forms;
mod keys;
mod parts;
mod texts;

pub use decimals::{is_decimal, number_word, value_word};
pub use elements::{Locals, Paths, Places, Words};
pub use forms::{Form, Scalar, form_of};
pub use keys::{
    int_type_in, path_at, path_perhaps_at, scalar_type_at, scalar_type_in, type_at, word_at,
};
pub use texts::{decimal_in, local_in, path_in, place_in, told, type_in, word_in};
