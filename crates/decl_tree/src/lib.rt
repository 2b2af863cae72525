//! Reads the keys and lists of a TOML tree: each value, or the first fault with the path that leads to it.
#![tactic(auto)]

mod fault;
mod keys;
mod labels;
mod lists;
mod paths;
mod values;

pub use fault::{DeclKind, KeyFault, Read};
pub use keys::{missing, only_keys};
pub use labels::{Label, Labels, one_label};
pub use lists::{Element, each, list_at};
pub use paths::{here, under, under_item, under_key};
pub use values::{number_at, number_in, small_at, small_in, small_or_at};
