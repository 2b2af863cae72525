//! Laws of the text that is printed: it reads again as what was printed.
#![tactic(auto)]

mod laws;

pub use laws::{
    each_meaning_reads_again, each_path_reads_again, each_place_is_printed, each_text_is_printed,
    each_text_reads_again, each_type_is_printed, each_type_reads_again,
};
