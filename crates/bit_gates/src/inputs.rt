ghost use Rattle.std.specs.Prelude.{◌≡◌, ◌≤◌, ◌+◌, ◌*◌, ◌^◌, ◌<◌, ℕ, Bool, IfOk, length};
ghost use Rattle.bit_gates.specs.Made.{IsWordMade, IsInputWord};

use crate::net::Net;
use std::alloc::Global;
use vk_core::NoMemory;

/// The literals of a constant.
pub fn constant_word(
    alloc: Global,
    net: &Net,
    width: u32,
    value: u128,
) -> Result<Vec<u64>, NoMemory>
    requires few_bits { width ≤ 128 }
    requires below { value < 2 ^ width }
    ensures { IfOk result (λ word. IsWordMade net.now net.now word.items width (λ v. value)) }
{
    let mut literals = Vec::with_capacity(alloc, width as usize)?;
    for k in 0..width {
        literals.push(net.constant((value >> k) % 2 == 1))?;
    }
    Ok(literals)
}

/// The literals of the input bits from this one on.
pub fn input_word(alloc: Global, net: &Net, first: usize, width: u32) -> Result<Vec<u64>, NoMemory>
    requires { first + width ≤ net.now.inputs }
    ensures { IfOk result (λ word. IsInputWord net.now word.items first width) }
{
    let inputs = net.inputs();
    prove!(first <= inputs);
    let mut literals = Vec::with_capacity(alloc, width as usize)?;
    for k in 0..width {
        literals.push(net.input(first + k as usize))?;
    }
    Ok(literals)
}
