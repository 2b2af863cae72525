//! Laws of declarations: what is read of a file is well made.
#![tactic(auto)]

mod laws;

pub use laws::each_file_is_well_made;
