ghost use Rattle.std.specs.Prelude.{◌≡◌, ◌≤◌, ◌+◌, ◌*◌, ◌<◌, ℕ, Bool, true, false, IfOk, length};
ghost use Rattle.sym_terms.specs.Terms.{truth, divided, left_over};
ghost use Rattle.word_bits.specs.Words.{is_lawful};
ghost use Rattle.bit_gates.specs.Made.{AreIn};
ghost use Rattle.bit_blast.specs.Blasted.{word_at, IsMadeWord};

use crate::signs::{lawful_signed, lawful_unsigned, magnitude, signed_word};
use crate::tests_of_words::truth_word;
use bit_gates::{Net, divide, mask};
use std::alloc::Global;
use vk_core::NoMemory;

/// Whether the divisor is lawful without a sign.
pub fn lawful_unsigned_word(
    alloc: Global,
    net: &mut Net,
    xs: &[u64],
    ys: &[u64],
) -> Result<Vec<u64>, NoMemory>
    requires one_width { length ys.now ≡ length xs.now }
    requires ys_inside { AreIn net.old ys.now }
    ensures { IfOk result (λ word. IsMadeWord net.old net.new word.items (λ v. truth (is_lawful (word_at v xs.now) (word_at v ys.now) false))) }
{
    let literal = lawful_unsigned(alloc, net, xs, ys)?;
    Ok(truth_word(alloc, literal)?)
}

/// Whether the divisor is lawful with a sign.
pub fn lawful_signed_word(
    alloc: Global,
    net: &mut Net,
    xs: &[u64],
    ys: &[u64],
) -> Result<Vec<u64>, NoMemory>
    requires some_bits { 1 ≤ length xs.now }
    requires one_width { length ys.now ≡ length xs.now }
    requires xs_inside { AreIn net.old xs.now }
    requires ys_inside { AreIn net.old ys.now }
    ensures { IfOk result (λ word. IsMadeWord net.old net.new word.items (λ v. truth (is_lawful (word_at v xs.now) (word_at v ys.now) true))) }
{
    let literal = lawful_signed(alloc, net, xs, ys)?;
    Ok(truth_word(alloc, literal)?)
}

/// The quotient without a sign, 0 where the divisor is not lawful.
pub fn quotient_unsigned(
    alloc: Global,
    net: &mut Net,
    xs: &[u64],
    ys: &[u64],
) -> Result<Vec<u64>, NoMemory>
    requires some_bits { 1 ≤ length xs.now }
    requires one_width { length ys.now ≡ length xs.now }
    requires xs_inside { AreIn net.old xs.now }
    requires ys_inside { AreIn net.old ys.now }
    ensures { IfOk result (λ word. IsMadeWord net.old net.new word.items (λ v. divided (word_at v xs.now) (word_at v ys.now) false)) }
{
    let division = divide(alloc, net, xs, ys)?;
    let lawful = lawful_unsigned(alloc, net, xs, ys)?;
    Ok(mask(alloc, net, lawful, division.quotient.as_slice())?)
}

/// The remainder without a sign, 0 where the divisor is not lawful.
pub fn remainder_unsigned(
    alloc: Global,
    net: &mut Net,
    xs: &[u64],
    ys: &[u64],
) -> Result<Vec<u64>, NoMemory>
    requires some_bits { 1 ≤ length xs.now }
    requires one_width { length ys.now ≡ length xs.now }
    requires xs_inside { AreIn net.old xs.now }
    requires ys_inside { AreIn net.old ys.now }
    ensures { IfOk result (λ word. IsMadeWord net.old net.new word.items (λ v. left_over (word_at v xs.now) (word_at v ys.now) false)) }
{
    let division = divide(alloc, net, xs, ys)?;
    let lawful = lawful_unsigned(alloc, net, xs, ys)?;
    Ok(mask(alloc, net, lawful, division.remainder.as_slice())?)
}

/// The quotient with a sign, rounded towards 0, and 0 where the divisor is not lawful.
pub fn quotient_signed(
    alloc: Global,
    net: &mut Net,
    xs: &[u64],
    ys: &[u64],
) -> Result<Vec<u64>, NoMemory>
    requires some_bits { 1 ≤ length xs.now }
    requires one_width { length ys.now ≡ length xs.now }
    requires xs_inside { AreIn net.old xs.now }
    requires ys_inside { AreIn net.old ys.now }
    ensures { IfOk result (λ word. IsMadeWord net.old net.new word.items (λ v. divided (word_at v xs.now) (word_at v ys.now) true)) }
{
    let top = xs.len() - 1;
    let left = magnitude(alloc, net, xs)?;
    let right = magnitude(alloc, net, ys)?;
    let division = divide(alloc, net, left.as_slice(), right.as_slice())?;
    let negative = net.xor(xs[top], ys[top])?;
    let quotient = signed_word(alloc, net, negative, division.quotient.as_slice())?;
    let lawful = lawful_signed(alloc, net, xs, ys)?;
    Ok(mask(alloc, net, lawful, quotient.as_slice())?)
}

/// The remainder with the sign of the dividend, 0 where the divisor is not lawful.
pub fn remainder_signed(
    alloc: Global,
    net: &mut Net,
    xs: &[u64],
    ys: &[u64],
) -> Result<Vec<u64>, NoMemory>
    requires some_bits { 1 ≤ length xs.now }
    requires one_width { length ys.now ≡ length xs.now }
    requires xs_inside { AreIn net.old xs.now }
    requires ys_inside { AreIn net.old ys.now }
    ensures { IfOk result (λ word. IsMadeWord net.old net.new word.items (λ v. left_over (word_at v xs.now) (word_at v ys.now) true)) }
{
    let left = magnitude(alloc, net, xs)?;
    let right = magnitude(alloc, net, ys)?;
    let division = divide(alloc, net, left.as_slice(), right.as_slice())?;
    let remainder = signed_word(alloc, net, xs[xs.len() - 1], division.remainder.as_slice())?;
    let lawful = lawful_signed(alloc, net, xs, ys)?;
    Ok(mask(alloc, net, lawful, remainder.as_slice())?)
}
