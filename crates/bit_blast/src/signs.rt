ghost use Rattle.std.specs.Prelude.{◌≡◌, ◌≤◌, ◌+◌, ◌*◌, ◌<◌, ◌^◌, ℕ, Bool, true, false, IfOk, length, unsigned_abs, if◌then◌else◌};
ghost use Rattle.word_bits.specs.Words.{signed_value, is_lawful};
ghost use Rattle.bit_gates.specs.Circuit.{size};
ghost use Rattle.bit_gates.specs.Made.{AreIn, IsMade, IsWordMade, number};
ghost use Rattle.bit_blast.specs.Blasted.{word_at, signed_number};

use bit_gates::{Net, choose_words, copies, equal, negate, negation};
use std::alloc::Global;
use vk_core::NoMemory;

/// The number without its sign.
pub fn magnitude(alloc: Global, net: &mut Net, xs: &[u64]) -> Result<Vec<u64>, NoMemory>
    requires some_bits { 1 ≤ length xs.now }
    requires xs_inside { AreIn net.old xs.now }
    ensures { IfOk result (λ word. IsWordMade net.old net.new word.items (length xs.now) (λ v. unsigned_abs (signed_value (word_at v xs.now)))) }
{
    let sign = xs[xs.len() - 1];
    let negated = negate(alloc, net, xs)?;
    Ok(choose_words(alloc, net, sign, negated.as_slice(), xs)?)
}

/// The word of the number with this sign and magnitude.
pub fn signed_word(
    alloc: Global,
    net: &mut Net,
    negative: u64,
    xs: &[u64],
) -> Result<Vec<u64>, NoMemory>
    requires negative_inside { negative < 2 * size net.old }
    requires xs_inside { AreIn net.old xs.now }
    ensures { IfOk result (λ word. IsWordMade net.old net.new word.items (length xs.now) (λ v. signed_number (length xs.now) (v negative) (number v xs.now))) }
{
    let negated = negate(alloc, net, xs)?;
    Ok(choose_words(alloc, net, negative, negated.as_slice(), xs)?)
}

/// Whether the divisor is lawful without a sign: it is not 0.
pub fn lawful_unsigned(
    alloc: Global,
    net: &mut Net,
    xs: &[u64],
    ys: &[u64],
) -> Result<u64, NoMemory>
    requires one_width { length ys.now ≡ length xs.now }
    requires ys_inside { AreIn net.old ys.now }
    ensures { IfOk result (λ literal. IsMade net.old net.new literal (λ v. is_lawful (word_at v xs.now) (word_at v ys.now) false)) }
{
    let falsity = net.constant(false);
    let zeros = copies(alloc, falsity, ys.len())?;
    let none = equal(net, ys, zeros.as_slice())?;
    Ok(negation(none))
}

/// Whether the divisor is lawful with a sign: it is not 0, and the division is not that of the least value by -1.
pub fn lawful_signed(alloc: Global, net: &mut Net, xs: &[u64], ys: &[u64]) -> Result<u64, NoMemory>
    requires some_bits { 1 ≤ length xs.now }
    requires one_width { length ys.now ≡ length xs.now }
    requires xs_inside { AreIn net.old xs.now }
    requires ys_inside { AreIn net.old ys.now }
    ensures { IfOk result (λ literal. IsMade net.old net.new literal (λ v. is_lawful (word_at v xs.now) (word_at v ys.now) true)) }
{
    let falsity = net.constant(false);
    let truth = net.truth();
    let mut least = copies(alloc, falsity, xs.len() - 1)?;
    least.push(truth)?;
    let ones = copies(alloc, truth, ys.len())?;
    let nonzero = lawful_unsigned(alloc, net, xs, ys)?;
    let is_least = equal(net, xs, least.as_slice())?;
    let is_ones = equal(net, ys, ones.as_slice())?;
    let both = net.and(is_least, is_ones)?;
    Ok(net.and(nonzero, negation(both))?)
}
