ghost use Rattle.std.specs.Prelude.{◌≡◌, ◌≤◌, ◌+◌, ◌-◌, ◌*◌, ◌%◌, ◌^◌, ◌<◌, ℕ, Bool, IfOk, length, take, drop, replicate, ◌++◌};
ghost use Rattle.bit_gates.specs.Circuit.{size, value};
ghost use Rattle.bit_gates.specs.Shifts.{shifted_up, shifted_down};
ghost use Rattle.bit_gates.specs.Made.{IsWordMade, AreIn, number};

use crate::net::Net;
use crate::words::{choose_words, copies};
use std::alloc::Global;
use vk_core::NoMemory;

/// The word moved by so many places towards its high bits, with `fill` coming in below.
fn moved_up(alloc: Global, xs: &[u64], places: usize, fill: u64) -> Result<Vec<u64>, NoMemory>
    requires { places ≤ length xs.now }
    ensures { IfOk result (λ word. word.items ≡ replicate places fill ++ take (length xs.now - places) xs.now) }
{
    let mut literals = copies(alloc, fill, places)?;
    literals.extend_from_slice(&xs[..xs.len() - places])?;
    Ok(literals)
}

/// The word moved by so many places towards its low bits, with `fill` coming in above.
fn moved_down(alloc: Global, xs: &[u64], places: usize, fill: u64) -> Result<Vec<u64>, NoMemory>
    requires { places ≤ length xs.now }
    ensures { IfOk result (λ word. word.items ≡ drop places xs.now ++ replicate places fill) }
{
    let mut literals = Vec::from_slice(alloc, &xs[places..])?;
    let above = copies(alloc, fill, places)?;
    literals.extend_from_slice(above.as_slice())?;
    Ok(literals)
}

/// A power of two.
fn power(k: usize) -> usize
    requires { k < 64 }
    ensures { result ≡ 2 ^ k }
{
    1 << k
}

/// The word shifted towards its high bits, by the amount modulo the width, which is 2^`steps`.
pub fn shift_up(
    alloc: Global,
    net: &mut Net,
    xs: &[u64],
    by: &[u64],
    steps: usize,
) -> Result<Vec<u64>, NoMemory>
    requires steps_fit { length xs.now ≡ 2 ^ steps }
    requires few_steps { steps < 64 }
    requires xs_inside { AreIn net.old xs.now }
    requires by_inside { AreIn net.old by.now }
    ensures { IfOk result (λ word. IsWordMade net.old net.new word.items (length xs.now) (λ v. shifted_up (length xs.now) (number v xs.now) (number v by.now % length xs.now))) }
{
    let fill = net.constant(false);
    let mut word = Vec::from_slice(alloc, xs)?;
    for k in 0..steps.min(by.len()) {
        let moved = moved_up(alloc, word.as_slice(), power(k), fill)?;
        word = choose_words(alloc, net, by[k], moved.as_slice(), word.as_slice())?;
    }
    Ok(word)
}

/// The word shifted towards its low bits, by the amount modulo the width, which is 2^`steps`, with `fill` coming in.
pub fn shift_down(
    alloc: Global,
    net: &mut Net,
    xs: &[u64],
    by: &[u64],
    steps: usize,
    fill: u64,
) -> Result<Vec<u64>, NoMemory>
    requires steps_fit { length xs.now ≡ 2 ^ steps }
    requires few_steps { steps < 64 }
    requires xs_inside { AreIn net.old xs.now }
    requires by_inside { AreIn net.old by.now }
    requires fill_inside { fill < 2 * size net.old }
    ensures { IfOk result (λ word. IsWordMade net.old net.new word.items (length xs.now) (λ v. shifted_down (v fill) (length xs.now) (number v xs.now) (number v by.now % length xs.now))) }
{
    let mut word = Vec::from_slice(alloc, xs)?;
    for k in 0..steps.min(by.len()) {
        let moved = moved_down(alloc, word.as_slice(), power(k), fill)?;
        word = choose_words(alloc, net, by[k], moved.as_slice(), word.as_slice())?;
    }
    Ok(word)
}
