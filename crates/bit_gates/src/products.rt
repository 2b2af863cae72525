ghost use Rattle.std.specs.Prelude.{◌≡◌, ◌≤◌, ◌+◌, ◌-◌, ◌*◌, ◌%◌, ◌^◌, ◌<◌, ℕ, Bool, IfOk, length, if◌then◌else◌};
ghost use Rattle.bit_gates.specs.Circuit.{size, value};
ghost use Rattle.bit_gates.specs.Made.{IsWordMade, IsDivision, IsNextDivision, AreIn, number};

use crate::net::Net;
use crate::sums::{add, subtract};
use crate::words::{choose_words, copies};
use std::alloc::Global;
use vk_core::NoMemory;

/// A word of zeros.
fn zeros(alloc: Global, net: &Net, width: usize) -> Result<Vec<u64>, NoMemory>
    ensures { IfOk result (λ word. IsWordMade net.now net.now word.items width (λ v. 0)) }
{
    let falsity = net.constant(false);
    Ok(copies(alloc, falsity, width)?)
}

/// The word where the test is true, and else 0.
pub fn mask(alloc: Global, net: &mut Net, test: u64, xs: &[u64]) -> Result<Vec<u64>, NoMemory>
    requires test_inside { test < 2 * size net.old }
    requires xs_inside { AreIn net.old xs.now }
    ensures { IfOk result (λ word. IsWordMade net.old net.new word.items (length xs.now) (λ v. if v test then number v xs.now else 0)) }
{
    let none = zeros(alloc, net, xs.len())?;
    Ok(choose_words(alloc, net, test, xs, none.as_slice())?)
}

/// The product, cut to the width of the first word.
pub fn multiply(alloc: Global, net: &mut Net, xs: &[u64], ys: &[u64]) -> Result<Vec<u64>, NoMemory>
    requires xs_inside { AreIn net.old xs.now }
    requires ys_inside { AreIn net.old ys.now }
    ensures { IfOk result (λ word. IsWordMade net.old net.new word.items (length xs.now) (λ v. number v xs.now * number v ys.now % 2 ^ length xs.now)) }
{
    match ys {
        [] => Ok(zeros(alloc, net, xs.len())?),
        [y, rest @ ..] => {
            if xs.is_empty() {
                return Ok(Vec::new(alloc));
            }
            let above = multiply(alloc, net, &xs[..xs.len() - 1], rest)?;
            Ok(add_row(alloc, net, xs, *y, above.as_slice())?)
        }
    }
}

/// The word where the bit is true, and twice the other word, which is shorter by a bit.
fn add_row(
    alloc: Global,
    net: &mut Net,
    xs: &[u64],
    bit: u64,
    above: &[u64],
) -> Result<Vec<u64>, NoMemory>
    requires widths { length xs.now ≡ length above.now + 1 }
    requires bit_inside { bit < 2 * size net.old }
    requires xs_inside { AreIn net.old xs.now }
    requires above_inside { AreIn net.old above.now }
    ensures { IfOk result (λ word. IsWordMade net.old net.new word.items (length xs.now) (λ v. ((if v bit then number v xs.now else 0) + 2 * number v above.now) % 2 ^ length xs.now)) }
{
    let row = mask(alloc, net, bit, xs)?;
    let falsity = net.constant(false);
    let sum = add(alloc, net, &row[1..], above, falsity)?;
    let mut word = Vec::from_slice(alloc, &row[..1])?;
    word.extend_from_slice(sum.literals.as_slice())?;
    Ok(word)
}

/// A quotient and its remainder.
#[derive(Drop)]
pub struct Division {
    pub quotient: Vec<u64>,
    pub remainder: Vec<u64>,
}

/// One more bit of a dividend, below a division of those above it.
fn take_away(
    alloc: Global,
    net: &mut Net,
    x: u64,
    above: Division,
    ys: &[u64],
) -> Result<Division, NoMemory>
    requires some_bits { 1 ≤ length ys.now }
    requires one_width { length above.remainder.items ≡ length ys.now }
    requires x_inside { x < 2 * size net.old }
    requires quotient_inside { AreIn net.old above.quotient.items }
    requires remainder_inside { AreIn net.old above.remainder.items }
    requires ys_inside { AreIn net.old ys.now }
    ensures { IfOk result (λ r. IsNextDivision net.old net.new x above.quotient.items above.remainder.items ys.now r.quotient.items r.remainder.items) }
{
    let width = ys.len();
    let top = above.remainder[width - 1];
    let mut low = copies(alloc, x, 1)?;
    low.extend_from_slice(&above.remainder[..width - 1])?;
    let difference = subtract(alloc, net, low.as_slice(), ys)?;
    let fits = net.or(top, difference.carry)?;
    let remainder = choose_words(
        alloc,
        net,
        fits,
        difference.literals.as_slice(),
        low.as_slice(),
    )?;
    let mut quotient = copies(alloc, fits, 1)?;
    quotient.extend_from_slice(above.quotient.as_slice())?;
    Ok(Division {
        quotient,
        remainder,
    })
}

/// The quotient and the remainder of two words, wherever the second is not 0. Bit by bit from the highest one:
/// the divisor is taken away where it fits.
pub fn divide(alloc: Global, net: &mut Net, xs: &[u64], ys: &[u64]) -> Result<Division, NoMemory>
    requires some_bits { 1 ≤ length ys.now }
    requires xs_inside { AreIn net.old xs.now }
    requires ys_inside { AreIn net.old ys.now }
    ensures { IfOk result (λ r. IsDivision net.old net.new xs.now ys.now r.quotient.items r.remainder.items) }
{
    match xs {
        [] => {
            let remainder = zeros(alloc, net, ys.len())?;
            Ok(Division {
                quotient: Vec::new(alloc),
                remainder,
            })
        }
        [x, rest @ ..] => {
            let above = divide(alloc, net, rest, ys)?;
            Ok(take_away(alloc, net, *x, above, ys)?)
        }
    }
}
