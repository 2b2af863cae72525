ghost use Rattle.std.specs.Prelude.{◌≡◌, ◌+◌, ◌*◌, ◌<◌, ℕ, Bool, IfOk, length};
ghost use Rattle.word_bits.specs.Words.{added, subtracted, multiplied, negated, complement, both_bits, either_bit, different_bits};
ghost use Rattle.bit_gates.specs.Made.{AreIn};
ghost use Rattle.bit_blast.specs.Blasted.{word_at, IsMadeWord};

use bit_gates::{BitOp, Net, add, bitwise, multiply, negate, subtract};
use std::alloc::Global;
use vk_core::NoMemory;

/// The sum, cut to the width.
#[tactic(auto, using(crate::proofs::Arithmetical::added_made))]
pub fn add_words(alloc: Global, net: &mut Net, xs: &[u64], ys: &[u64]) -> Result<Vec<u64>, NoMemory>
    requires one_width { length ys.now ≡ length xs.now }
    requires xs_inside { AreIn net.old xs.now }
    requires ys_inside { AreIn net.old ys.now }
    ensures { IfOk result (λ word. IsMadeWord net.old net.new word.items (λ v. added (word_at v xs.now) (word_at v ys.now))) }
{
    let falsity = net.constant(false);
    let sum = add(alloc, net, xs, ys, falsity)?;
    Ok(sum.literals)
}

/// The difference, cut to the width.
#[tactic(auto, using(crate::proofs::Arithmetical::subtracted_made))]
pub fn subtract_words(
    alloc: Global,
    net: &mut Net,
    xs: &[u64],
    ys: &[u64],
) -> Result<Vec<u64>, NoMemory>
    requires one_width { length ys.now ≡ length xs.now }
    requires xs_inside { AreIn net.old xs.now }
    requires ys_inside { AreIn net.old ys.now }
    ensures { IfOk result (λ word. IsMadeWord net.old net.new word.items (λ v. subtracted (word_at v xs.now) (word_at v ys.now))) }
{
    let difference = subtract(alloc, net, xs, ys)?;
    Ok(difference.literals)
}

/// The product, cut to the width.
#[tactic(auto, using(crate::proofs::Arithmetical::multiplied_made))]
pub fn multiply_words(
    alloc: Global,
    net: &mut Net,
    xs: &[u64],
    ys: &[u64],
) -> Result<Vec<u64>, NoMemory>
    requires xs_inside { AreIn net.old xs.now }
    requires ys_inside { AreIn net.old ys.now }
    ensures { IfOk result (λ word. IsMadeWord net.old net.new word.items (λ v. multiplied (word_at v xs.now) (word_at v ys.now))) }
{
    Ok(multiply(alloc, net, xs, ys)?)
}

/// 0 less the word.
#[tactic(auto, using(crate::proofs::Arithmetical::negated_made))]
pub fn negate_word(alloc: Global, net: &mut Net, xs: &[u64]) -> Result<Vec<u64>, NoMemory>
    requires { AreIn net.old xs.now }
    ensures { IfOk result (λ word. IsMadeWord net.old net.new word.items (λ v. negated (word_at v xs.now))) }
{
    Ok(negate(alloc, net, xs)?)
}

/// Every bit turned.
#[tactic(auto, using(crate::proofs::Arithmetical::complement_made))]
pub fn complement_word(alloc: Global, net: &Net, xs: &[u64]) -> Result<Vec<u64>, NoMemory>
    requires { AreIn net.now xs.now }
    ensures { IfOk result (λ word. IsMadeWord net.now net.now word.items (λ v. complement (word_at v xs.now))) }
{
    Ok(bit_gates::complement(alloc, xs)?)
}

/// The bits that both words have.
#[tactic(auto, using(crate::proofs::Arithmetical::both_made))]
pub fn and_words(alloc: Global, net: &mut Net, xs: &[u64], ys: &[u64]) -> Result<Vec<u64>, NoMemory>
    requires one_width { length ys.now ≡ length xs.now }
    requires xs_inside { AreIn net.old xs.now }
    requires ys_inside { AreIn net.old ys.now }
    ensures { IfOk result (λ word. IsMadeWord net.old net.new word.items (λ v. both_bits (word_at v xs.now) (word_at v ys.now))) }
{
    Ok(bitwise(alloc, net, BitOp::And, xs, ys)?)
}

/// The bits that one of the words has.
#[tactic(auto, using(crate::proofs::Arithmetical::either_made))]
pub fn or_words(alloc: Global, net: &mut Net, xs: &[u64], ys: &[u64]) -> Result<Vec<u64>, NoMemory>
    requires one_width { length ys.now ≡ length xs.now }
    requires xs_inside { AreIn net.old xs.now }
    requires ys_inside { AreIn net.old ys.now }
    ensures { IfOk result (λ word. IsMadeWord net.old net.new word.items (λ v. either_bit (word_at v xs.now) (word_at v ys.now))) }
{
    Ok(bitwise(alloc, net, BitOp::Or, xs, ys)?)
}

/// The bits that one of the words alone has.
#[tactic(auto, using(crate::proofs::Arithmetical::different_made))]
pub fn xor_words(alloc: Global, net: &mut Net, xs: &[u64], ys: &[u64]) -> Result<Vec<u64>, NoMemory>
    requires one_width { length ys.now ≡ length xs.now }
    requires xs_inside { AreIn net.old xs.now }
    requires ys_inside { AreIn net.old ys.now }
    ensures { IfOk result (λ word. IsMadeWord net.old net.new word.items (λ v. different_bits (word_at v xs.now) (word_at v ys.now))) }
{
    Ok(bitwise(alloc, net, BitOp::Xor, xs, ys)?)
}
