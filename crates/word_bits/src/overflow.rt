ghost use Rattle.std.specs.Prelude.{◌≡◌, ◌*◌, nat_lt};
ghost use Rattle.word_bits.specs.Words.{AreWords, is_sum_over, is_difference_over, is_product_over};

use crate::signs::{is_negative, magnitude};
use crate::sums::{add, sub};
use crate::word::{Word, greatest};

/// Whether the sum of the two numbers is none of the width.
pub fn add_overflows(a: Word, b: Word, signed: bool) -> bool
    requires { AreWords a b }
    ensures { result ≡ is_sum_over a b signed }
{
    let sum = add(a, b);
    if signed {
        let negative = is_negative(a, true);
        negative == is_negative(b, true) && negative != is_negative(sum, true)
    } else {
        sum.value < a.value
    }
}

/// Whether the difference of the two numbers is none of the width.
pub fn sub_overflows(a: Word, b: Word, signed: bool) -> bool
    requires { AreWords a b }
    ensures { result ≡ is_difference_over a b signed }
{
    if signed {
        let negative = is_negative(a, true);
        negative != is_negative(b, true) && negative != is_negative(sub(a, b), true)
    } else {
        a.value < b.value
    }
}

/// Whether the product of the two numbers is above the limit.
fn product_exceeds(a: u128, b: u128, limit: u128) -> bool
    ensures { result ≡ nat_lt limit (a * b) }
{
    match a.checked_mul(b) {
        Some(product) => limit < product,
        None => true,
    }
}

/// Whether the product of the two numbers is none of the width.
pub fn mul_overflows(a: Word, b: Word, signed: bool) -> bool
    requires { AreWords a b }
    ensures { result ≡ is_product_over a b signed }
{
    let greatest = greatest(a.width);
    let limit = if !signed {
        greatest
    } else if is_negative(a, true) == is_negative(b, true) {
        greatest / 2
    } else {
        greatest / 2 + 1
    };
    product_exceeds(magnitude(a, signed), magnitude(b, signed), limit)
}
