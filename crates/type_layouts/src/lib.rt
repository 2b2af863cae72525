//! What values of types take: sizes, alignments, and how many parts they have.
#![tactic(auto)]

mod extent;
mod numbering;
mod outline;
mod parts;
mod row;
mod scope;

pub use extent::{Extent, Form, Held, alignment};
pub use numbering::{
    are_ordered, held_at, is_above_at, is_free, no_marks, parts_table, ranks_tried,
};
pub use outline::{Outline, Spot, outlines_of};
pub use parts::is_too_big;
pub use row::{Row, extent_of, push_inner, push_row, push_type};
pub use scope::Scope;
