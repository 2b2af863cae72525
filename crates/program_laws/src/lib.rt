//! Laws of programs: what is read of a text is well made.
#![tactic(auto)]

mod laws;

pub use laws::each_text_is_well_made;
