ghost use Rattle.std.specs.Prelude.{◌≡◌, ◌+◌, ◌*◌, ◌<◌, ℕ, Bool, not, ◌&&◌, ◌==◌, nat_lt, IfOk, length, map, replicate, if◌then◌else◌};
ghost use Rattle.region_pool.specs.Literals.{negation};
ghost use Rattle.bit_gates.specs.Values.{differ};
ghost use Rattle.bit_gates.specs.Circuit.{size, value};
ghost use Rattle.bit_gates.specs.BitOps.{bit_result, word_result};
ghost use Rattle.bit_gates.specs.Made.{IsMade, IsWordMade, AreIn, number};

use crate::gate::negation;
use crate::net::Net;
use std::alloc::Global;
use vk_core::NoMemory;

/// An operation on two words bit by bit.
#[derive(Clone, Copy, Debug, PartialEq, Eq)]
pub enum BitOp {
    And,
    Or,
    Xor,
}

/// One literal again and again.
pub fn copies(alloc: Global, literal: u64, count: usize) -> Result<Vec<u64>, NoMemory>
    ensures { IfOk result (λ literals. literals.items ≡ replicate count literal) }
{
    Ok(vec![in alloc; literal; count]?)
}

/// The negated literals, whose word is that of ones less the other.
pub fn complement(alloc: Global, xs: &[u64]) -> Result<Vec<u64>, NoMemory>
    ensures { IfOk result (λ literals. literals.items ≡ map negation xs.now) }
{
    let mut literals = Vec::with_capacity(alloc, xs.len())?;
    for x in xs {
        literals.push(negation(*x))?;
    }
    Ok(literals)
}

fn bit_of(net: &mut Net, op: BitOp, x: u64, y: u64) -> Result<u64, NoMemory>
    requires x_inside { x < 2 * size net.old }
    requires y_inside { y < 2 * size net.old }
    ensures { IfOk result (λ literal. IsMade net.old net.new literal (λ v. bit_result op (v x) (v y))) }
{
    match op {
        BitOp::And => Ok(net.and(x, y)?),
        BitOp::Or => Ok(net.or(x, y)?),
        BitOp::Xor => Ok(net.xor(x, y)?),
    }
}

/// The operation on two words.
pub fn bitwise(
    alloc: Global,
    net: &mut Net,
    op: BitOp,
    xs: &[u64],
    ys: &[u64],
) -> Result<Vec<u64>, NoMemory>
    requires one_width { length ys.now ≡ length xs.now }
    requires xs_inside { AreIn net.old xs.now }
    requires ys_inside { AreIn net.old ys.now }
    ensures { IfOk result (λ word. IsWordMade net.old net.new word.items (length xs.now) (λ v. word_result op (number v xs.now) (number v ys.now))) }
{
    let mut literals = Vec::with_capacity(alloc, xs.len())?;
    for i in 0..xs.len() {
        let literal = bit_of(net, op, xs[i], ys[i])?;
        literals.push(literal)?;
    }
    Ok(literals)
}

/// The first word where the test is true, and else the second.
pub fn choose_words(
    alloc: Global,
    net: &mut Net,
    test: u64,
    xs: &[u64],
    ys: &[u64],
) -> Result<Vec<u64>, NoMemory>
    requires one_width { length ys.now ≡ length xs.now }
    requires test_inside { test < 2 * size net.old }
    requires xs_inside { AreIn net.old xs.now }
    requires ys_inside { AreIn net.old ys.now }
    ensures { IfOk result (λ word. IsWordMade net.old net.new word.items (length xs.now) (λ v. if v test then number v xs.now else number v ys.now)) }
{
    let mut literals = Vec::with_capacity(alloc, xs.len())?;
    for i in 0..xs.len() {
        let literal = net.choose(test, xs[i], ys[i])?;
        literals.push(literal)?;
    }
    Ok(literals)
}

/// Whether two bits below are in order, or these are: two gates.
#[tactic(auto, using(crate::proofs::TestLaws::less_gates))]
fn less_bit(net: &mut Net, x: u64, y: u64, below: u64) -> Result<u64, NoMemory>
    requires x_inside { x < 2 * size net.old }
    requires y_inside { y < 2 * size net.old }
    requires below_inside { below < 2 * size net.old }
    ensures { IfOk result (λ literal. IsMade net.old net.new literal (λ v. if differ (v x) (v y) then v y else v below)) }
{
    let differ = net.xor(x, y)?;
    Ok(net.choose(differ, y, below)?)
}

/// Whether the first word is below the second, both without a sign.
pub fn less(net: &mut Net, xs: &[u64], ys: &[u64]) -> Result<u64, NoMemory>
    requires one_width { length ys.now ≡ length xs.now }
    requires xs_inside { AreIn net.old xs.now }
    requires ys_inside { AreIn net.old ys.now }
    ensures { IfOk result (λ literal. IsMade net.old net.new literal (λ v. nat_lt (number v xs.now) (number v ys.now))) }
{
    let mut below = net.constant(false);
    for i in 0..xs.len() {
        below = less_bit(net, xs[i], ys[i], below)?;
    }
    Ok(below)
}

/// Whether two bits are equal, and those below are: two gates.
#[tactic(auto, using(crate::proofs::TestLaws::equal_gates))]
fn equal_bit(net: &mut Net, x: u64, y: u64, below: u64) -> Result<u64, NoMemory>
    requires x_inside { x < 2 * size net.old }
    requires y_inside { y < 2 * size net.old }
    requires below_inside { below < 2 * size net.old }
    ensures { IfOk result (λ literal. IsMade net.old net.new literal (λ v. v below && not (differ (v x) (v y)))) }
{
    let differ = net.xor(x, y)?;
    Ok(net.and(below, negation(differ))?)
}

/// Whether two words are equal.
pub fn equal(net: &mut Net, xs: &[u64], ys: &[u64]) -> Result<u64, NoMemory>
    requires one_width { length ys.now ≡ length xs.now }
    requires xs_inside { AreIn net.old xs.now }
    requires ys_inside { AreIn net.old ys.now }
    ensures { IfOk result (λ literal. IsMade net.old net.new literal (λ v. number v xs.now == number v ys.now)) }
{
    let mut same = net.constant(true);
    for i in 0..xs.len() {
        same = equal_bit(net, xs[i], ys[i], same)?;
    }
    Ok(same)
}
