//! Reads a declaration file: its types, traits, vtables, constants, aliases, contracts, loop rules and units, or its first
//! fault with the path that leads to it.
#![tactic(auto)]

mod clauses;
mod fault;
mod file;
mod gather;
mod names;
mod traits;
mod units;

pub use decl_tree::DeclKind;
pub use fault::DeclFault;
pub use file::declarations;
