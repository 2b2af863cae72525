//! Arithmetic of words of 1 to 128 bits: sums, products, quotients, shifts, comparisons, overflow and casts, each
//! equal to plain arithmetic on whole numbers that is cut to the width.
#![tactic(auto)]

mod bits;
mod casts;
mod division;
mod order;
mod overflow;
mod signs;
mod sums;
mod word;

pub use bits::{and, not, or, shl, shr, xor};
pub use casts::cast;
pub use division::{div, lawful_divisor, rem};
pub use order::less;
pub use overflow::{add_overflows, mul_overflows, sub_overflows};
pub use sums::{add, mul, neg, sub};
pub use word::{Word, are_words, is_word};
