ghost use Rattle.std.specs.Prelude.{◌≡◌, ◌≢◌, ◌+◌, ◌*◌, ◌<◌, ◌≤◌, ℕ, IfOk, All, map, length, take};
ghost use Rattle.bit_gates.specs.Values.{IsGateOf, AreInOrder};
ghost use Rattle.bit_gates.specs.Made.{AreIn};
ghost use Rattle.gate_trim.specs.Reading.{gate_reads};
ghost use Rattle.gate_trim.specs.Marks.{AreClosed};
ghost use Rattle.gate_trim.specs.Trimmed.{circuit, IsCircuit};
ghost use Rattle.gate_trim.specs.Moves.{moved, moved_gate, IsMovedGate, IsPutBehind, AreMoved};

use bit_gates::{Gate, negation};
use std::alloc::Global;
use vk_core::NoMemory;

/// The literal where its gate has moved to.
fn moved(places: &[u64], inputs: usize, literal: u64) -> u64
    requires { literal < 2 * (inputs + length places.now) }
    ensures { result ≡ moved places.now inputs literal }
{
    let variable = literal / 2;
    if variable < inputs as u64 {
        return literal;
    }
    let place = places[(variable - inputs as u64) as usize];
    if literal % 2 == 1 {
        negation(place)
    } else {
        place
    }
}

/// The gate that reads the moved literals.
fn moved_gate(places: &[u64], inputs: usize, gate: Gate) -> Gate
    requires { IsGateOf (inputs + length places.now) gate }
    ensures { result ≡ moved_gate places.now inputs gate }
{
    match gate {
        Gate::True => Gate::True,
        Gate::And { a, b } => Gate::And {
            a: moved(places, inputs, a),
            b: moved(places, inputs, b),
        },
        Gate::Xor { a, b } => Gate::Xor {
            a: moved(places, inputs, a),
            b: moved(places, inputs, b),
        },
        Gate::Choose { test, a, b } => Gate::Choose {
            test: moved(places, inputs, test),
            a: moved(places, inputs, a),
            b: moved(places, inputs, b),
        },
    }
}

/// No circuit has this many variables.
const LIMIT: usize = 1 << 60;

/// The literal that stands for a gate among the first `kept` gates, and how many they are then: where the gate is
/// wanted it is put behind them.
fn move_gate(
    inputs: usize,
    gates: &mut [Gate],
    kept: usize,
    places: &[u64],
    wanted: bool,
    gate: Gate,
) -> Result<(u64, usize), NoMemory>
    requires kept_gates { IsCircuit (circuit inputs (take kept gates.old)) }
    requires behind { kept ≤ length gates.old }
    requires room { gate ≢ Gate.True → kept < length gates.old }
    requires reads_inside { IsGateOf (inputs + length places.now) gate }
    requires places_inside { AreIn (circuit inputs (take kept gates.old)) places.now }
    ensures moved { IfOk result (λ r. IsMovedGate (circuit inputs (take kept gates.old)) (circuit inputs (take r.1 gates.new)) places.now wanted gate r.0) }
    ensures rest { IfOk result (λ r. IsPutBehind gates.old gates.new kept r.1 gate) }
    ensures long { length gates.new ≡ length gates.old }
{
    if !wanted {
        return Ok((2 * inputs as u64, kept));
    }
    if gate == Gate::True {
        return Ok((2 * inputs as u64, kept));
    }
    let variable = inputs + kept;
    if variable + 1 >= LIMIT {
        return Err(NoMemory);
    }
    gates[kept] = moved_gate(places, inputs, gate);
    Ok((2 * variable as u64, kept + 1))
}

/// How many gates are kept, and the literals that stand for all gates among them.
#[derive(Drop)]
pub struct Remade {
    pub kept: usize,
    pub places: Vec<u64>,
}

/// Puts the marked gates to the front.
pub fn move_gates(
    alloc: Global,
    inputs: usize,
    gates: &mut [Gate],
    marks: &[bool],
) -> Result<Remade, NoMemory>
    requires old_gates { IsCircuit (circuit inputs gates.old) }
    requires one_each { length marks.now ≡ length gates.old }
    requires closed { AreClosed (gate_reads inputs gates.old) 0 marks.now }
    ensures moved { IfOk result (λ r. AreMoved (circuit inputs gates.old) marks.now (length gates.old) (circuit inputs (take r.kept gates.new)) r.places.items) }
    ensures long { length gates.new ≡ length gates.old }
{
    let mut kept = 1;
    let mut places = Vec::with_capacity(alloc, gates.len())?;
    for k in 0..gates.len() {
        let gate = gates[k];
        let (literal, count) = move_gate(inputs, gates, kept, places.as_slice(), marks[k], gate)?;
        places.push(literal)?;
        kept = count;
    }
    Ok(Remade { kept, places })
}

/// The word of the moved literals.
fn moved_word(
    alloc: Global,
    places: &[u64],
    inputs: usize,
    word: &[u64],
) -> Result<Vec<u64>, NoMemory>
    requires { All (λ literal. literal < 2 * (inputs + length places.now)) word.now }
    ensures { IfOk result (λ r. r.items ≡ map (moved places.now inputs) word.now) }
{
    let mut literals = Vec::with_capacity(alloc, word.len())?;
    for i in 0..word.len() {
        literals.push(moved(places, inputs, word[i]))?;
    }
    Ok(literals)
}

/// The words of the moved literals.
pub fn moved_words(
    alloc: Global,
    places: &[u64],
    inputs: usize,
    words: &[Vec<u64>],
) -> Result<Vec<Vec<u64>>, NoMemory>
    requires { All (λ word. All (λ literal. literal < 2 * (inputs + length places.now)) word.items) words.now }
    ensures { IfOk result (λ r. map (λ word. word.items) r.items ≡ map (map (moved places.now inputs)) (map (λ word. word.items) words.now)) }
{
    let mut all = Vec::with_capacity(alloc, words.len())?;
    for i in 0..words.len() {
        let word = moved_word(alloc, places, inputs, words[i].as_slice())?;
        all.push(word)?;
    }
    Ok(all)
}
