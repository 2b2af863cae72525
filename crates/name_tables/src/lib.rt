//! The names of a program, found by tables: functions, declared types, traits, vtables, constants and aliases, and the locals and
//! labels of a function. What a name stands for is said in `specs/Lookup.antt` of `type_rules`.
#![tactic(auto)]

mod body;
mod declared;
mod numbers;
mod plain;
mod table;

pub use body::{Body, function_called};
pub use declared::{Declared, variant_named};
pub use numbers::{NumberTable, Numbered};
pub use table::{Named, Table};
