//! What every crate of the verifier names: numbers of functions, blocks and locals, names, places in a text,
//! sites, check classes and the want of memory.
#![tactic(auto)]

mod check;
mod ids;
mod memory;
mod name;
mod text_place;

pub use check::{At, CheckClass, Fault, Site, class_name};
pub use ids::{BlockId, FnId, LocalId, TraitId, TyId, UnitId, VtId};
pub use memory::NoMemory;
pub use name::Name;
pub use text_place::TextPlace;
