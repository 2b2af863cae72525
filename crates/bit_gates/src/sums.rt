ghost use Rattle.std.specs.Prelude.{◌≡◌, ◌+◌, ◌-◌, ◌*◌, ◌%◌, ◌^◌, ◌<◌, ℕ, Bool, IfOk, length};
ghost use Rattle.bit_gates.specs.Circuit.{size, value};
ghost use Rattle.bit_gates.specs.Made.{IsBitSum, IsSum, IsDifference, IsWordMade, AreIn, number};

use crate::net::Net;
use crate::words::{complement, copies};
use std::alloc::Global;
use vk_core::NoMemory;

/// The bits of a sum, the lowest first, and the carry above them.
#[derive(Drop)]
pub struct Sum {
    pub literals: Vec<u64>,
    pub carry: u64,
}

/// The sum of three bits and its carry: three gates.
#[tactic(auto, using(crate::proofs::SumLaws::full_adder))]
fn full_adder(net: &mut Net, x: u64, y: u64, carry: u64) -> Result<(u64, u64), NoMemory>
    requires x_inside { x < 2 * size net.old }
    requires y_inside { y < 2 * size net.old }
    requires carry_inside { carry < 2 * size net.old }
    ensures { IfOk result (λ r. IsBitSum net.old net.new x y carry r.0 r.1) }
{
    let differ = net.xor(x, y)?;
    let sum = net.xor(differ, carry)?;
    let next = net.choose(differ, carry, x)?;
    Ok((sum, next))
}

/// The sum of two words and a carry.
pub fn add(
    alloc: Global,
    net: &mut Net,
    xs: &[u64],
    ys: &[u64],
    carry: u64,
) -> Result<Sum, NoMemory>
    requires one_width { length ys.now ≡ length xs.now }
    requires xs_inside { AreIn net.old xs.now }
    requires ys_inside { AreIn net.old ys.now }
    requires carry_inside { carry < 2 * size net.old }
    ensures { IfOk result (λ sum. IsSum net.old net.new xs.now ys.now carry sum.literals.items sum.carry) }
{
    let mut literals = Vec::with_capacity(alloc, xs.len())?;
    let mut next = carry;
    for i in 0..xs.len() {
        let (sum, above) = full_adder(net, xs[i], ys[i], next)?;
        literals.push(sum)?;
        next = above;
    }
    Ok(Sum {
        literals,
        carry: next,
    })
}

/// The first word less the second.
pub fn subtract(alloc: Global, net: &mut Net, xs: &[u64], ys: &[u64]) -> Result<Sum, NoMemory>
    requires one_width { length ys.now ≡ length xs.now }
    requires xs_inside { AreIn net.old xs.now }
    requires ys_inside { AreIn net.old ys.now }
    ensures { IfOk result (λ sum. IsDifference net.old net.new xs.now ys.now sum.literals.items sum.carry) }
{
    let others = complement(alloc, ys)?;
    let truth = net.truth();
    Ok(add(alloc, net, xs, others.as_slice(), truth)?)
}

/// 0 less the word.
pub fn negate(alloc: Global, net: &mut Net, xs: &[u64]) -> Result<Vec<u64>, NoMemory>
    requires xs_inside { AreIn net.old xs.now }
    ensures { IfOk result (λ word. IsWordMade net.old net.new word.items (length xs.now) (λ v. (2 ^ length xs.now - number v xs.now) % 2 ^ length xs.now)) }
{
    let others = complement(alloc, xs)?;
    let falsity = net.constant(false);
    let zeros = copies(alloc, falsity, xs.len())?;
    let truth = net.truth();
    let sum = add(alloc, net, others.as_slice(), zeros.as_slice(), truth)?;
    Ok(sum.literals)
}
