ghost use Rattle.std.specs.Prelude.{◌≡◌, ◌≤◌, ◌<◌, ℕ, Bool, true, false, IfOk, IsTrue, length, map, All};
ghost use Rattle.sym_terms.specs.Ops.{is_binary};
ghost use Rattle.region_pool.specs.Blocks.{block_at};
ghost use Rattle.bit_gates.specs.Made.{Extends};
ghost use Rattle.gate_trim.specs.Marks.{AreClosed};
ghost use Rattle.bit_blast.specs.Reached.{is_part};
ghost use Rattle.bit_blast.specs.Inputs.{HavePlaces};
ghost use Rattle.bit_blast.specs.Blasted.{IsBlasted, IsTable, HaveParts, IsReachedWord, AreGatesOf};

use crate::apply::{apply, takes_two};
use crate::inputs::{Inputs, input_widths, place_inputs};
use crate::moves::{cast_signed, cast_unsigned, choose_word, slice_word};
use crate::reached::reached_terms;
use bit_gates::{Gates, Net, constant_word, input_word};
use gate_trim::{Trimmed, trim};
use region_pool::{BlockRef, Region};
use std::alloc::Global;
use sym_terms::{Term, TermId, TermOp, Terms};
use vk_core::NoMemory;

/// The literals of a term.
fn word_of(table: &Region, id: TermId) -> &[u64]
    requires { id.0 < length table.now.blocks }
    ensures { result.now ≡ block_at table.now.blocks id.0 }
{
    table.get(BlockRef { number: id.0 })
}

/// The literals of the second operand, or of the first where the operation has one.
fn second_word(table: &Region, op: TermOp, a: TermId, b: TermId) -> &[u64]
    requires first { a.0 < length table.now.blocks }
    requires second { IsTrue (is_binary op) → b.0 < length table.now.blocks }
    ensures binary { IsTrue (is_binary op) → result.now ≡ block_at table.now.blocks b.0 }
    ensures unary { is_binary op ≡ false → result.now ≡ block_at table.now.blocks a.0 }
{
    if takes_two(op) {
        word_of(table, b)
    } else {
        word_of(table, a)
    }
}

/// The literals of the term with this number, by those of the terms before it.
fn blast_term(
    alloc: Global,
    net: &mut Net,
    terms: &Terms,
    places: &[usize],
    table: &Region,
    n: usize,
) -> Result<Vec<u64>, NoMemory>
    requires inside { n < length terms.now }
    requires placed { HavePlaces terms.now places.now net.old.inputs }
    requires table { HaveParts net.old terms.now places.now n table.now.blocks }
    ensures { IfOk result (λ word. Extends net.old net.new × IsBlasted net.new terms.now places.now n word.items) }
{
    let _count = terms.len();
    match terms.term(TermId(n)) {
        Term::Constant(word) => Ok(constant_word(alloc, net, word.width, word.value)?),
        Term::Input { number, width } => Ok(input_word(alloc, net, places[number], width)?),
        Term::Apply { op, a, b } => {
            let xs = word_of(table, a);
            let ys = second_word(table, op, a, b);
            Ok(apply(alloc, net, op, xs, ys)?)
        }
        Term::Cast { a, signed, width } => {
            let xs = word_of(table, a);
            if signed {
                Ok(cast_signed(alloc, net, xs, width)?)
            } else {
                Ok(cast_unsigned(alloc, net, xs, width)?)
            }
        }
        Term::Choose { test, a, b } => {
            let bit = word_of(table, test);
            let xs = word_of(table, a);
            let ys = word_of(table, b);
            Ok(choose_word(alloc, net, bit, xs, ys)?)
        }
        Term::Slice { a, from, width } => {
            let xs = word_of(table, a);
            Ok(slice_word(alloc, net, xs, from, width)?)
        }
    }
}

/// The literals of the term with this number if a root reaches it, and else none.
fn reached_word(
    alloc: Global,
    net: &mut Net,
    terms: &Terms,
    places: &[usize],
    table: &Region,
    reached: bool,
    n: usize,
) -> Result<Vec<u64>, NoMemory>
    requires inside { n < length terms.now }
    requires placed { HavePlaces terms.now places.now net.old.inputs }
    requires table { reached ≡ true → HaveParts net.old terms.now places.now n table.now.blocks }
    ensures { IfOk result (λ word. IsReachedWord net.old net.new terms.now places.now reached n word.items) }
{
    if reached {
        Ok(blast_term(alloc, net, terms, places, table, n)?)
    } else {
        Ok(Vec::new(alloc))
    }
}

/// The literals of all terms that are reached, as blocks.
fn blast_terms(
    alloc: Global,
    net: &mut Net,
    terms: &Terms,
    places: &[usize],
    marks: &[bool],
) -> Result<Region, NoMemory>
    requires places { HavePlaces terms.now places.now net.old.inputs }
    requires one_each { length marks.now ≡ length terms.now }
    requires closed { AreClosed (is_part terms.now) 0 marks.now }
    ensures { IfOk result (λ table. (net.new.inputs ≡ net.old.inputs) × IsTable net.new terms.now places.now marks.now (length terms.now) table.blocks) }
{
    let mut table = Region::new(alloc);
    for n in 0..terms.len() {
        let word = reached_word(alloc, net, terms, places, &table, marks[n], n)?;
        table.put(word.as_slice())?;
    }
    Ok(table)
}

/// Copies of the blocks of the roots.
fn root_words(alloc: Global, table: &Region, roots: &[TermId]) -> Result<Vec<Vec<u64>>, NoMemory>
    requires { All (λ root. root.0 < length table.now.blocks) roots.now }
    ensures { IfOk result (λ words. map (λ word. word.items) words.items ≡ map (λ root. block_at table.now.blocks root.0) roots.now) }
{
    let mut words = Vec::new(alloc);
    for k in 0..roots.len() {
        let word = Vec::from_slice(alloc, word_of(table, roots[k]))?;
        words.push(word)?;
    }
    Ok(words)
}

/// Gates that equal terms: for each root one literal a bit, the lowest first. The numbers of the inputs are given by
/// their bits, none of which stands twice. Only what the roots reach is made, and each gate is read.
pub fn blast(alloc: Global, terms: &Terms, roots: &[TermId]) -> Result<Gates, NoMemory>
    requires { All (λ root. root.0 < length terms.now) roots.now }
    ensures { IfOk result (λ gates. AreGatesOf terms.now roots.now gates) }
{
    let _count = terms.len();
    let widths = input_widths(alloc, terms)?;
    let Inputs { bits, places } = place_inputs(alloc, widths.as_slice())?;
    let marks = reached_terms(alloc, terms, roots)?;
    let mut net = Net::new(alloc, bits.len())?;
    let table = blast_terms(alloc, &mut net, terms, places.as_slice(), marks.as_slice())?;
    let words = root_words(alloc, &table, roots)?;
    let count = net.inputs();
    let whole = net.into_gates();
    let Trimmed {
        gates,
        roots: literals,
    } = trim(alloc, count, whole, words.as_slice())?;
    Ok(Gates {
        inputs: bits,
        gates,
        roots: literals,
    })
}
