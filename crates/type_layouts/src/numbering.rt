ghost use Rattle.std.specs.Prelude.{◌≡◌, ◌≤◌, IfOk, false, replicate, slice_index};
ghost use Rattle.std.specs.Bool.{OnTrue};
ghost use Rattle.type_layouts.specs.Parts.{one_level, parts_table};
ghost use Rattle.type_layouts.specs.Recursion.{held_at};
ghost use Rattle.type_layouts.specs.Marks.{IsFree, IsMarking, unmarked};
ghost use Rattle.type_layouts.specs.Ranks.{IsOrdered, IsRanked, are_below, is_above_at, is_ordered_at, is_ranked_at};

use crate::extent::Held;
use crate::outline::Outline;
use crate::parts::{counted, is_same, levelled_parts, one_level};
use sqlite_items::at;
use std::alloc::Global;
use vk_core::NoMemory;

/// A try at numbers for the declared types: types that hold one another get one number, which is above those of the other types
/// that they hold; and at how many parts each type has. Nothing is known of it: whoever takes it tests it. It is Tarjan's search
/// for strongly connected components.
#[derive(Drop)]
struct Numbering {
    /// The number of a type, or 0 as long as it has none.
    ranks: Vec<usize>,
    /// How many types had a number before the last one.
    ranked: usize,
    /// The turn at which a type was reached, from 1 on.
    turns: Vec<usize>,
    last_turn: usize,
    /// The least turn of a type without a number that a type was seen to reach.
    least: Vec<usize>,
    /// The types that were reached and have no number, as they were reached.
    waiting: Vec<usize>,
    waiting_count: usize,
    parts: Vec<u64>,
}

/// What the declared type at a place holds.
pub fn held_at<'a>(outlines: &'a [Outline], place: usize) -> &'a [Held]
    ensures { result.now ≡ held_at outlines.now place }
{
    match at(outlines, place) {
        None => &[],
        Some(outline) => outline.held.as_slice(),
    }
}

/// Whether there is such a place, without a mark.
pub fn is_free(marks: &[bool], place: usize) -> bool
    ensures { IsFree marks.now place result }
{
    if place < marks.len() {
        if marks[place] { false } else { true }
    } else {
        false
    }
}

/// No mark for each of so many.
pub fn no_marks(alloc: Global, count: usize) -> Result<Vec<bool>, NoMemory>
    ensures { IfOk result (λ v. v.items ≡ replicate count false) }
{
    let marks = vec![in alloc; false; count]?;
    Ok(marks)
}

/// Marks a place that is there and has no mark, and answers whether it was one.
fn mark(marks: &mut [bool], place: usize) -> bool
    ensures { IsMarking result marks.old marks.new }
{
    if !is_free(marks, place) {
        return false;
    }
    marks[place] = true;
    true
}

fn no_numbers(alloc: Global, count: usize) -> Result<Numbering, NoMemory> {
    let ranks = vec![in alloc; 0; count]?;
    let turns = vec![in alloc; 0; count]?;
    let least = vec![in alloc; 0; count]?;
    let waiting = vec![in alloc; 0; count]?;
    let parts = vec![in alloc; 0; count]?;
    Ok(Numbering {
        ranks,
        ranked: 0,
        turns,
        last_turn: 0,
        least,
        waiting,
        waiting_count: 0,
        parts,
    })
}

/// Writes a number to a place that is there.
fn put(numbers: &mut [usize], place: usize, number: usize) {
    if place < numbers.len() {
        numbers[place] = number;
    }
}

/// Takes a type up that was just reached.
fn begin(tried: &mut Numbering, place: usize) {
    let turn = tried.last_turn.saturating_add(1);
    tried.last_turn = turn;
    put(tried.turns.as_mut_slice(), place, turn);
    put(tried.least.as_mut_slice(), place, turn);
    let count = tried.waiting_count;
    put(tried.waiting.as_mut_slice(), count, place);
    tried.waiting_count = count.saturating_add(1);
}

/// Notes that a type reaches what another without a number reaches.
fn note_held(tried: &mut Numbering, place: usize, other: usize) {
    if rank_at(tried.ranks.as_slice(), other) == 0 {
        let least = rank_at(tried.least.as_slice(), place).min(rank_at(
            tried.least.as_slice(),
            other,
        ));
        put(tried.least.as_mut_slice(), place, least);
    }
}

/// Gives a number to the types that wait, from the last one back to a place, and says how many wait then.
fn number_waiting(
    ranks: &mut [usize],
    waiting: &[usize],
    count: usize,
    place: usize,
    rank: usize,
) -> usize {
    let mut left = count;
    while left > 0 {
        left -= 1;
        let last = rank_at(waiting, left);
        put(ranks, last, rank);
        if last == place {
            return left;
        }
    }
    left
}

/// Gives a type the next number, and those that it holds and that reach it, unless it reaches one that was reached before it.
fn finish(tried: &mut Numbering, place: usize) {
    if rank_at(tried.least.as_slice(), place) == rank_at(tried.turns.as_slice(), place) {
        let rank = tried.ranked.saturating_add(1);
        tried.ranked = rank;
        let left = number_waiting(
            tried.ranks.as_mut_slice(),
            tried.waiting.as_slice(),
            tried.waiting_count,
            place,
            rank,
        );
        tried.waiting_count = left;
    }
}

/// Counts the parts of a type from those of the types that it holds.
fn count_parts(outlines: &[Outline], parts: &mut [u64], place: usize) {
    if place < parts.len() && place < outlines.len() {
        let outline = &outlines[place];
        let count = counted(parts, outline.parts, outline.held.as_slice());
        parts[place] = count;
    }
}

/// Numbers what the type at a place holds.
#[cycle(numbering)]
fn number_held(outlines: &[Outline], marks: &mut [bool], tried: &mut Numbering, place: usize)
    ensures { unmarked marks.new ≤ unmarked marks.old }
{
    let held = held_at(outlines, place);
    for h in held {
        number(outlines, marks, tried, h.entry);
        note_held(tried, place, h.entry);
    }
}

/// Numbers what the type at a place holds, and then the type, unless it was reached before.
#[cycle(numbering)]
fn number(outlines: &[Outline], marks: &mut [bool], tried: &mut Numbering, place: usize)
    ensures { unmarked marks.new ≤ unmarked marks.old }
{
    if !mark(marks, place) {
        return;
    }
    begin(tried, place);
    number_held(outlines, marks, tried, place);
    finish(tried, place);
    count_parts(outlines, tried.parts.as_mut_slice(), place);
}

fn numbered(alloc: Global, outlines: &[Outline]) -> Result<Numbering, NoMemory> {
    let mut marks = no_marks(alloc, outlines.len())?;
    let mut tried = no_numbers(alloc, outlines.len())?;
    for place in 0..outlines.len() {
        number(outlines, marks.as_mut_slice(), &mut tried, place);
    }
    Ok(tried)
}

/// Numbers for the declared types, of which nothing is known.
pub fn ranks_tried(alloc: Global, outlines: &[Outline]) -> Result<Vec<usize>, NoMemory> {
    let Numbering { ranks, .. } = numbered(alloc, outlines)?;
    Ok(ranks)
}

fn rank_at(ranks: &[usize], place: usize) -> usize
    ensures { result ≡ slice_index ranks.now place }
{
    match ranks.get(place) {
        Some(rank) => *rank,
        None => 0,
    }
}

fn are_below(ranks: &[usize], limit: u128, held: &[Held]) -> bool
    ensures { result ≡ are_below ranks.now limit held.now }
{
    for h in held {
        if rank_at(ranks, h.entry) as u128 >= limit {
            return false;
        }
    }
    true
}

/// Whether the number of the type at a place is above those of all that it holds.
pub fn is_above_at(outlines: &[Outline], ranks: &[usize], place: usize) -> bool
    ensures { result ≡ is_above_at outlines.now ranks.now place }
{
    are_below(
        ranks,
        rank_at(ranks, place) as u128,
        held_at(outlines, place),
    )
}

fn is_ordered_at(outlines: &[Outline], ranks: &[usize], place: usize) -> bool
    ensures { result ≡ is_ordered_at outlines.now ranks.now place }
{
    are_below(
        ranks,
        rank_at(ranks, place) as u128 + 1,
        held_at(outlines, place),
    )
}

fn is_ranked_at(outlines: &[Outline], ranks: &[usize], place: usize) -> bool
    ensures { result ≡ is_ranked_at outlines.now ranks.now place }
{
    let rank = rank_at(ranks, place);
    0 < rank && rank <= outlines.len() && is_above_at(outlines, ranks, place)
}

/// Whether no type has a number below that of a type that it holds.
#[tactic(auto, using(crate::proofs::RankLaws::passes_first, crate::proofs::RankLaws::passes_more))]
pub fn are_ordered(outlines: &[Outline], ranks: &[usize]) -> bool
    ensures { OnTrue result (IsOrdered outlines.now ranks.now) }
{
    for place in 0..outlines.len() {
        if !is_ordered_at(outlines, ranks, place) {
            return false;
        }
    }
    true
}

/// Whether each type has a number above those of the types that it holds, from 1 up to the count of types.
#[tactic(auto, using(crate::proofs::RankLaws::passes_first, crate::proofs::RankLaws::passes_more))]
fn are_ranked(outlines: &[Outline], ranks: &[usize]) -> bool
    ensures { OnTrue result (IsRanked outlines.now ranks.now) }
{
    for place in 0..outlines.len() {
        if !is_ranked_at(outlines, ranks, place) {
            return false;
        }
    }
    true
}

/// Whether the numbers fit, and one level more changes no count of parts: then these are the parts.
#[tactic(auto, using(crate::proofs::RankLaws::settled_when))]
fn are_settled(outlines: &[Outline], ranks: &[usize], parts: &[u64], next: &[u64]) -> bool
    requires { next.now ≡ one_level outlines.now parts.now }
    ensures { OnTrue result (next.now ≡ parts_table outlines.now) }
{
    if !are_ranked(outlines, ranks) {
        return false;
    }
    is_same(next, parts)
}

/// The parts of each declared type, each counted once, behind those that it holds.
pub fn parts_table(alloc: Global, outlines: &[Outline]) -> Result<Vec<u64>, NoMemory>
    ensures { IfOk result (λ table. table.items ≡ parts_table outlines.now) }
{
    let tried = numbered(alloc, outlines)?;
    let next = one_level(alloc, outlines, tried.parts.as_slice())?;
    if are_settled(
        outlines,
        tried.ranks.as_slice(),
        tried.parts.as_slice(),
        next.as_slice(),
    ) {
        return Ok(next);
    }
    let table = levelled_parts(alloc, outlines)?;
    Ok(table)
}
