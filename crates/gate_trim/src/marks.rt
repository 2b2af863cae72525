ghost use Rattle.std.specs.Prelude.{◌≡◌, ◌+◌, ◌<◌, ℕ, IfOk, map, length};
ghost use Rattle.std.specs.List.{list_any};
ghost use Rattle.bit_gates.specs.Values.{AreInOrder};
ghost use Rattle.gate_trim.specs.Reading.{is_of, reads, stands_in, gate_reads};
ghost use Rattle.gate_trim.specs.Marks.{AreMarked, AreWanted};

use bit_gates::Gate;
use std::alloc::Global;
use vk_core::NoMemory;

/// Marks the gate of the literal, where it is one of a gate.
#[tactic(auto, using(crate::proofs::MarkLaws::marked_low, crate::proofs::MarkLaws::marked_high, crate::proofs::MarkLaws::marked_one))]
fn mark(marks: &mut [bool], inputs: usize, literal: u64)
    ensures { AreMarked marks.old marks.new (λ k. is_of (inputs + k) literal) }
{
    let variable = literal / 2;
    if variable < inputs as u64 {
        return;
    }
    let at = (variable - inputs as u64) as usize;
    if at < marks.len() {
        marks[at] = true;
    }
}

/// Marks the gates that the gate reads.
#[tactic(auto, using(crate::proofs::MarkLaws::marked_nowhere, crate::proofs::MarkLaws::marked_twice, crate::proofs::MarkLaws::marked_thrice))]
fn mark_reads(marks: &mut [bool], inputs: usize, gate: Gate)
    ensures { AreMarked marks.old marks.new (λ k. reads (inputs + k) gate) }
{
    match gate {
        Gate::True => {}
        Gate::And { a, b } => {
            mark(marks, inputs, a);
            mark(marks, inputs, b);
        }
        Gate::Xor { a, b } => {
            mark(marks, inputs, a);
            mark(marks, inputs, b);
        }
        Gate::Choose { test, a, b } => {
            mark(marks, inputs, test);
            mark(marks, inputs, a);
            mark(marks, inputs, b);
        }
    }
}

/// Marks the gates that stand in the word.
fn mark_word(marks: &mut [bool], inputs: usize, word: &[u64])
    ensures { AreMarked marks.old marks.new (λ k. list_any (is_of (inputs + k)) word.now) }
{
    for i in 0..word.len() {
        mark(marks, inputs, word[i]);
    }
}

/// Marks the gates that stand in the words.
fn mark_words(marks: &mut [bool], inputs: usize, words: &[Vec<u64>])
    ensures { AreMarked marks.old marks.new (λ k. stands_in (inputs + k) (map (λ word. word.items) words.now)) }
{
    for i in 0..words.len() {
        mark_word(marks, inputs, words[i].as_slice());
    }
}

/// The gates that stand in the roots, and those that they read.
pub fn wanted_gates(
    alloc: Global,
    inputs: usize,
    gates: &[Gate],
    roots: &[Vec<u64>],
) -> Result<Vec<bool>, NoMemory>
    requires { AreInOrder inputs gates.now }
    ensures one_each { IfOk result (λ marks. length marks.items ≡ length gates.now) }
    ensures wanted { IfOk result (λ marks. AreWanted (λ k. stands_in (inputs + k) (map (λ word. word.items) roots.now)) (gate_reads inputs gates.now) 0 marks.items) }
{
    let mut marks = vec![in alloc; false; gates.len()]?;
    mark_words(marks.as_mut_slice(), inputs, roots);
    let mut k = gates.len();
    while k > 0 {
        k -= 1;
        if marks[k] {
            mark_reads(marks.as_mut_slice(), inputs, gates[k]);
        }
    }
    Ok(marks)
}
