//! From functions as they are written to those that they mean: names that stand twice, limits, the targets of calls,
//! blocks that are kept, and the order of locals.
#![tactic(auto)]

mod blocks;
mod copies;
mod doubles;
mod functions;
mod limits;
mod locals;
mod moves;
mod names;
mod places;

pub use doubles::duplicate_of;
pub use functions::functions_of;
pub use limits::{Limit, limit_of};
