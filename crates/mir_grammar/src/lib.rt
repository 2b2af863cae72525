//! The grammar of the MIR text, over the tokens of `mir_lex`: its productions with the trees that they mean.
#![tactic(auto)]

mod laws;
mod limits;
mod named;
mod trees;

pub use laws::{
    each_answer_is_right, each_path_is_right, each_place_is_right, each_type_is_right, one_reading,
};
pub use limits::{Limited, Passed};
pub use named::{Argument, Head, Named, Step};
pub use trees::{
    ArrayTail, Declared, Ending, PathTail, Placed, RawBlock, RawFunction, Stepped, Target,
};
