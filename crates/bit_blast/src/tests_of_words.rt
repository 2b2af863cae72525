ghost use Rattle.std.specs.Prelude.{◌≡◌, ◌≤◌, ◌+◌, ◌*◌, ◌<◌, ◌∷◌, [], ◌==◌, ◌-◌, ◌++◌, ℕ, Bool, true, false, IfOk, length, take};
ghost use Rattle.word_bits.specs.Words.{is_less, is_sum_over, is_difference_over, is_product_over, is_lawful};
ghost use Rattle.sym_terms.specs.Terms.{truth};
ghost use Rattle.bit_gates.specs.Circuit.{size};
ghost use Rattle.bit_gates.specs.Made.{AreIn, IsMade, number};
ghost use Rattle.bit_blast.specs.Blasted.{word_at, IsMadeWord};

use bit_gates::{Net, add, copies, equal, less, multiply, negation, subtract};
use std::alloc::Global;
use vk_core::NoMemory;

/// The literal as a word of one bit.
pub fn truth_word(alloc: Global, literal: u64) -> Result<Vec<u64>, NoMemory>
    ensures { IfOk result (λ word. word.items ≡ literal ∷ []) }
{
    Ok(copies(alloc, literal, 1)?)
}

/// Whether the words are equal.
pub fn equal_words(
    alloc: Global,
    net: &mut Net,
    xs: &[u64],
    ys: &[u64],
) -> Result<Vec<u64>, NoMemory>
    requires one_width { length ys.now ≡ length xs.now }
    requires xs_inside { AreIn net.old xs.now }
    requires ys_inside { AreIn net.old ys.now }
    ensures { IfOk result (λ word. IsMadeWord net.old net.new word.items (λ v. truth ((word_at v xs.now).value == (word_at v ys.now).value))) }
{
    let literal = equal(net, xs, ys)?;
    Ok(truth_word(alloc, literal)?)
}

/// Whether the first word is less, both without a sign.
pub fn less_unsigned(
    alloc: Global,
    net: &mut Net,
    xs: &[u64],
    ys: &[u64],
) -> Result<Vec<u64>, NoMemory>
    requires one_width { length ys.now ≡ length xs.now }
    requires xs_inside { AreIn net.old xs.now }
    requires ys_inside { AreIn net.old ys.now }
    ensures { IfOk result (λ word. IsMadeWord net.old net.new word.items (λ v. truth (is_less (word_at v xs.now) (word_at v ys.now) false))) }
{
    let literal = less(net, xs, ys)?;
    Ok(truth_word(alloc, literal)?)
}

/// The word with another highest bit.
fn with_top(alloc: Global, xs: &[u64], top: u64) -> Result<Vec<u64>, NoMemory>
    requires { 1 ≤ length xs.now }
    ensures { IfOk result (λ word. word.items ≡ take (length xs.now - 1) xs.now ++ top ∷ []) }
{
    let mut word = Vec::from_slice(alloc, &xs[..xs.len() - 1])?;
    word.push(top)?;
    Ok(word)
}

/// Whether the first word is less, both with a sign. The signs count the other way round than the other bits, so each
/// word is taken with the highest bit of the other.
pub fn less_signed(
    alloc: Global,
    net: &mut Net,
    xs: &[u64],
    ys: &[u64],
) -> Result<Vec<u64>, NoMemory>
    requires some_bits { 1 ≤ length xs.now }
    requires one_width { length ys.now ≡ length xs.now }
    requires xs_inside { AreIn net.old xs.now }
    requires ys_inside { AreIn net.old ys.now }
    ensures { IfOk result (λ word. IsMadeWord net.old net.new word.items (λ v. truth (is_less (word_at v xs.now) (word_at v ys.now) true))) }
{
    let top = xs.len() - 1;
    let left = with_top(alloc, xs, ys[top])?;
    let right = with_top(alloc, ys, xs[top])?;
    let literal = less(net, left.as_slice(), right.as_slice())?;
    Ok(truth_word(alloc, literal)?)
}

/// Whether the sum of two words without a sign is none of the width.
pub fn sum_over_unsigned(
    alloc: Global,
    net: &mut Net,
    xs: &[u64],
    ys: &[u64],
) -> Result<Vec<u64>, NoMemory>
    requires one_width { length ys.now ≡ length xs.now }
    requires xs_inside { AreIn net.old xs.now }
    requires ys_inside { AreIn net.old ys.now }
    ensures { IfOk result (λ word. IsMadeWord net.old net.new word.items (λ v. truth (is_sum_over (word_at v xs.now) (word_at v ys.now) false))) }
{
    let falsity = net.constant(false);
    let sum = add(alloc, net, xs, ys, falsity)?;
    Ok(truth_word(alloc, sum.carry)?)
}

/// Whether the difference of two words without a sign is none of the width.
pub fn difference_over_unsigned(
    alloc: Global,
    net: &mut Net,
    xs: &[u64],
    ys: &[u64],
) -> Result<Vec<u64>, NoMemory>
    requires one_width { length ys.now ≡ length xs.now }
    requires xs_inside { AreIn net.old xs.now }
    requires ys_inside { AreIn net.old ys.now }
    ensures { IfOk result (λ word. IsMadeWord net.old net.new word.items (λ v. truth (is_difference_over (word_at v xs.now) (word_at v ys.now) false))) }
{
    let literal = less(net, xs, ys)?;
    Ok(truth_word(alloc, literal)?)
}
