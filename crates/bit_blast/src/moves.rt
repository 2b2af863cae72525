ghost use Rattle.std.specs.Prelude.{◌≡◌, ◌≤◌, ◌+◌, ◌-◌, ◌*◌, ◌%◌, ◌^◌, ◌<◌, ◌++◌, ◌==◌, ℕ, Bool, true, false, IfOk, IsTrue, length, take, drop, replicate, min, if◌then◌else◌};
ghost use Rattle.word_bits.specs.Words.{shifted_left, shifted_right, recast, IsWidth};
ghost use Rattle.sym_terms.specs.Terms.{sliced, is_shift_width};
ghost use Rattle.bit_gates.specs.Circuit.{size};
ghost use Rattle.bit_gates.specs.Made.{AreIn, number};
ghost use Rattle.bit_blast.specs.Blasted.{word_at, IsMadeWord};

use bit_gates::{Net, choose_words, copies, shift_down, shift_up};
use std::alloc::Global;
use vk_core::NoMemory;

/// How often the width halves to 1.
fn steps_of(width: usize) -> usize
    requires { IsTrue (is_shift_width width) }
    ensures power { width ≡ 2 ^ result }
    ensures few { result < 64 }
{
    match width {
        1 => 0,
        2 => 1,
        4 => 2,
        8 => 3,
        16 => 4,
        32 => 5,
        64 => 6,
        _ => 7,
    }
}

/// The word shifted towards its high bits.
pub fn shift_left(
    alloc: Global,
    net: &mut Net,
    xs: &[u64],
    by: &[u64],
) -> Result<Vec<u64>, NoMemory>
    requires power { IsTrue (is_shift_width (length xs.now)) }
    requires xs_inside { AreIn net.old xs.now }
    requires by_inside { AreIn net.old by.now }
    ensures { IfOk result (λ word. IsMadeWord net.old net.new word.items (λ v. shifted_left (word_at v xs.now) (word_at v by.now))) }
{
    let steps = steps_of(xs.len());
    Ok(shift_up(alloc, net, xs, by, steps)?)
}

/// The word without a sign shifted towards its low bits.
pub fn shift_right_unsigned(
    alloc: Global,
    net: &mut Net,
    xs: &[u64],
    by: &[u64],
) -> Result<Vec<u64>, NoMemory>
    requires power { IsTrue (is_shift_width (length xs.now)) }
    requires xs_inside { AreIn net.old xs.now }
    requires by_inside { AreIn net.old by.now }
    ensures { IfOk result (λ word. IsMadeWord net.old net.new word.items (λ v. shifted_right (word_at v xs.now) (word_at v by.now) false)) }
{
    let steps = steps_of(xs.len());
    let falsity = net.constant(false);
    Ok(shift_down(alloc, net, xs, by, steps, falsity)?)
}

/// The word with a sign shifted towards its low bits.
pub fn shift_right_signed(
    alloc: Global,
    net: &mut Net,
    xs: &[u64],
    by: &[u64],
) -> Result<Vec<u64>, NoMemory>
    requires some_bits { 1 ≤ length xs.now }
    requires few_bits { length xs.now ≤ 128 }
    requires power { IsTrue (is_shift_width (length xs.now)) }
    requires xs_inside { AreIn net.old xs.now }
    requires by_inside { AreIn net.old by.now }
    ensures { IfOk result (λ word. IsMadeWord net.old net.new word.items (λ v. shifted_right (word_at v xs.now) (word_at v by.now) true)) }
{
    let steps = steps_of(xs.len());
    let sign = xs[xs.len() - 1];
    Ok(shift_down(alloc, net, xs, by, steps, sign)?)
}

/// The lowest bits of the word, with as many fills above as are wanted.
fn resized(alloc: Global, xs: &[u64], width: usize, fill: u64) -> Result<Vec<u64>, NoMemory>
    ensures { IfOk result (λ word. word.items ≡ take (min width (length xs.now)) xs.now ++ replicate (width - length xs.now) fill) }
{
    let mut word = Vec::from_slice(alloc, &xs[..width.min(xs.len())])?;
    let above = copies(alloc, fill, width.saturating_sub(xs.len()))?;
    word.extend_from_slice(above.as_slice())?;
    Ok(word)
}

/// The word extended or cut, without a sign.
pub fn cast_unsigned(alloc: Global, net: &Net, xs: &[u64], width: u32) -> Result<Vec<u64>, NoMemory>
    requires { AreIn net.now xs.now }
    ensures { IfOk result (λ word. IsMadeWord net.now net.now word.items (λ v. recast (word_at v xs.now) false width)) }
{
    let falsity = net.constant(false);
    Ok(resized(alloc, xs, width as usize, falsity)?)
}

/// The word extended by its sign or cut.
pub fn cast_signed(alloc: Global, net: &Net, xs: &[u64], width: u32) -> Result<Vec<u64>, NoMemory>
    requires some_bits { 1 ≤ length xs.now }
    requires xs_inside { AreIn net.now xs.now }
    ensures { IfOk result (λ word. IsMadeWord net.now net.now word.items (λ v. recast (word_at v xs.now) true width)) }
{
    let sign = xs[xs.len() - 1];
    Ok(resized(alloc, xs, width as usize, sign)?)
}

/// Bits of the word.
pub fn slice_word(
    alloc: Global,
    net: &Net,
    xs: &[u64],
    from: u32,
    width: u32,
) -> Result<Vec<u64>, NoMemory>
    requires within { from + width ≤ length xs.now }
    requires xs_inside { AreIn net.now xs.now }
    ensures { IfOk result (λ word. IsMadeWord net.now net.now word.items (λ v. sliced (word_at v xs.now) from width)) }
{
    let above = &xs[from as usize..];
    Ok(Vec::from_slice(alloc, &above[..width as usize])?)
}

/// The first word where the test, which has one bit, is 1, and else the second.
pub fn choose_word(
    alloc: Global,
    net: &mut Net,
    test: &[u64],
    xs: &[u64],
    ys: &[u64],
) -> Result<Vec<u64>, NoMemory>
    requires one_bit { length test.now ≡ 1 }
    requires one_width { length ys.now ≡ length xs.now }
    requires test_inside { AreIn net.old test.now }
    requires xs_inside { AreIn net.old xs.now }
    requires ys_inside { AreIn net.old ys.now }
    ensures { IfOk result (λ word. IsMadeWord net.old net.new word.items (λ v. if (word_at v test.now).value == 1 then word_at v xs.now else word_at v ys.now)) }
{
    Ok(choose_words(alloc, net, test[0], xs, ys)?)
}
