ghost use Rattle.std.specs.Prelude.{◌≡◌, ◌≤◌, ◌+◌, ◌*◌, ◌<◌, ◌^◌, ◌-◌, ℕ, Bool, true, false, IfOk, length};
ghost use Rattle.sym_terms.specs.Terms.{truth};
ghost use Rattle.word_bits.specs.Words.{is_sum_over, is_difference_over, is_product_over};
ghost use Rattle.bit_gates.specs.Made.{AreIn, IsWordMade, number};
ghost use Rattle.bit_blast.specs.Blasted.{word_at, IsMadeWord};

use crate::signs::magnitude;
use crate::tests_of_words::truth_word;
use bit_gates::{Net, add, copies, equal, less, multiply, negation, subtract};
use std::alloc::Global;
use vk_core::NoMemory;

/// Whether the sum of two words with a sign is none of the width: they have one sign, and the sum has the other.
pub fn sum_over_signed(
    alloc: Global,
    net: &mut Net,
    xs: &[u64],
    ys: &[u64],
) -> Result<Vec<u64>, NoMemory>
    requires some_bits { 1 ≤ length xs.now }
    requires few_bits { length xs.now ≤ 128 }
    requires one_width { length ys.now ≡ length xs.now }
    requires xs_inside { AreIn net.old xs.now }
    requires ys_inside { AreIn net.old ys.now }
    ensures { IfOk result (λ word. IsMadeWord net.old net.new word.items (λ v. truth (is_sum_over (word_at v xs.now) (word_at v ys.now) true))) }
{
    let top = xs.len() - 1;
    let falsity = net.constant(false);
    let sum = add(alloc, net, xs, ys, falsity)?;
    let apart = net.xor(xs[top], ys[top])?;
    let turned = net.xor(xs[top], sum.literals[top])?;
    let literal = net.and(negation(apart), turned)?;
    Ok(truth_word(alloc, literal)?)
}

/// Whether the difference of two words with a sign is none of the width: they have two signs, and the difference has
/// not that of the first.
pub fn difference_over_signed(
    alloc: Global,
    net: &mut Net,
    xs: &[u64],
    ys: &[u64],
) -> Result<Vec<u64>, NoMemory>
    requires some_bits { 1 ≤ length xs.now }
    requires few_bits { length xs.now ≤ 128 }
    requires one_width { length ys.now ≡ length xs.now }
    requires xs_inside { AreIn net.old xs.now }
    requires ys_inside { AreIn net.old ys.now }
    ensures { IfOk result (λ word. IsMadeWord net.old net.new word.items (λ v. truth (is_difference_over (word_at v xs.now) (word_at v ys.now) true))) }
{
    let top = xs.len() - 1;
    let difference = subtract(alloc, net, xs, ys)?;
    let apart = net.xor(xs[top], ys[top])?;
    let turned = net.xor(xs[top], difference.literals[top])?;
    let literal = net.and(apart, turned)?;
    Ok(truth_word(alloc, literal)?)
}

/// The whole product, at twice the width.
fn wide_product(alloc: Global, net: &mut Net, xs: &[u64], ys: &[u64]) -> Result<Vec<u64>, NoMemory>
    requires one_width { length ys.now ≡ length xs.now }
    requires xs_inside { AreIn net.old xs.now }
    requires ys_inside { AreIn net.old ys.now }
    ensures { IfOk result (λ word. IsWordMade net.old net.new word.items (length xs.now + length xs.now) (λ v. number v xs.now * number v ys.now)) }
{
    let falsity = net.constant(false);
    let zeros = copies(alloc, falsity, xs.len())?;
    let mut wide = Vec::from_slice(alloc, xs)?;
    wide.extend_from_slice(zeros.as_slice())?;
    Ok(multiply(alloc, net, wide.as_slice(), ys)?)
}

/// A power of two at twice the width.
fn power_word(alloc: Global, net: &Net, power: usize, width: usize) -> Result<Vec<u64>, NoMemory>
    requires { power < width }
    ensures { IfOk result (λ word. IsWordMade net.now net.now word.items (width + width) (λ v. 2 ^ power)) }
{
    let falsity = net.constant(false);
    let mut word = copies(alloc, falsity, power)?;
    word.push(net.truth())?;
    let above = copies(alloc, falsity, width - power - 1)?;
    let upper = copies(alloc, falsity, width)?;
    word.extend_from_slice(above.as_slice())?;
    word.extend_from_slice(upper.as_slice())?;
    Ok(word)
}

/// Whether the product of two words without a sign is none of the width.
pub fn product_over_unsigned(
    alloc: Global,
    net: &mut Net,
    xs: &[u64],
    ys: &[u64],
) -> Result<Vec<u64>, NoMemory>
    requires one_width { length ys.now ≡ length xs.now }
    requires xs_inside { AreIn net.old xs.now }
    requires ys_inside { AreIn net.old ys.now }
    ensures { IfOk result (λ word. IsMadeWord net.old net.new word.items (λ v. truth (is_product_over (word_at v xs.now) (word_at v ys.now) false))) }
{
    let product = wide_product(alloc, net, xs, ys)?;
    let falsity = net.constant(false);
    let zeros = copies(alloc, falsity, xs.len())?;
    let fits = equal(net, &product[xs.len()..], zeros.as_slice())?;
    Ok(truth_word(alloc, negation(fits))?)
}

/// Whether the product of two words with a sign is none of the width: its magnitude is above that of the least
/// number, or of the greatest where the signs are equal.
pub fn product_over_signed(
    alloc: Global,
    net: &mut Net,
    xs: &[u64],
    ys: &[u64],
) -> Result<Vec<u64>, NoMemory>
    requires some_bits { 1 ≤ length xs.now }
    requires one_width { length ys.now ≡ length xs.now }
    requires xs_inside { AreIn net.old xs.now }
    requires ys_inside { AreIn net.old ys.now }
    ensures { IfOk result (λ word. IsMadeWord net.old net.new word.items (λ v. truth (is_product_over (word_at v xs.now) (word_at v ys.now) true))) }
{
    let top = xs.len() - 1;
    let left = magnitude(alloc, net, xs)?;
    let right = magnitude(alloc, net, ys)?;
    let product = wide_product(alloc, net, left.as_slice(), right.as_slice())?;
    let half = power_word(alloc, net, top, xs.len())?;
    let whole = product.as_slice();
    let limit = half.as_slice();
    let above = less(net, limit, whole)?;
    let below = less(net, whole, limit)?;
    let negative = net.xor(xs[top], ys[top])?;
    let literal = net.choose(negative, above, negation(below))?;
    Ok(truth_word(alloc, literal)?)
}
