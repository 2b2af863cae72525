//! Typing of functions: their heads, statements, terminators and calls, and the first refusal with its site. What is right is said in
//! `specs/` of `type_rules`; each function gives just that.
#![tactic(auto)]

mod arguments;
mod arms;
mod callees;
mod calls;
mod forms;
mod functions;
mod heads;
mod labels;
mod signatures;
mod sites;
mod statements;
mod steps;
mod terminators;

pub use functions::functions_fit;
