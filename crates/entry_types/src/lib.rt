//! Typing of declarations: whether what the entries of a declaration file name exists and fits, or which key or list element is refused
//! first. What is right is said in `specs/Entries.antt` of `type_rules`.
#![tactic(auto)]

mod drops;
mod functions;
mod known;
mod methods;
mod paths;
mod rules;
mod types;
mod units;
mod vtables;
mod whole;

pub use functions::Functions;
pub use whole::declarations_fit;
