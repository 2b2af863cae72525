ghost use Rattle.std.specs.Prelude.{◌≡◌, ◌<◌, IfOk, false, length, replicate, Decides};
ghost use Rattle.std.specs.Bool.{OnTrue};
ghost use Rattle.type_layouts.specs.Ranks.{IsOrdered};
ghost use Rattle.type_layouts.specs.Recursion.{IsRecursive};
ghost use Rattle.layout_rules.specs.Search.{Entered, IsFirstPlace, Visited};

use std::alloc::Global;
use type_layouts::{Outline, are_ordered, held_at, is_above_at, is_free, no_marks, ranks_tried};
use vk_core::NoMemory;

/// Marks what the type at a place holds, what that holds, and so on, past what is marked already.
#[cycle(search)]
#[tactic(auto, using(crate::proofs::SearchLaws::visit_first, crate::proofs::SearchLaws::visit_done))]
fn visit(outlines: &[Outline], marks: &mut [bool], place: usize)
    ensures { Visited outlines.now place marks.old marks.new }
{
    let held = held_at(outlines, place);
    for h in held {
        enter(outlines, marks, h.entry);
    }
}

/// Marks a place and what the type there reaches, unless it is marked.
#[cycle(search)]
#[tactic(auto, using(crate::proofs::SearchLaws::entered_none))]
fn enter(outlines: &[Outline], marks: &mut [bool], place: usize)
    ensures { Entered outlines.now place marks.old marks.new }
{
    if !is_free(marks, place) {
        return;
    }
    marks[place] = true;
    visit(outlines, marks, place);
}

/// Whether what is marked is told by a search from the place.
#[tactic(auto, using(crate::proofs::SearchLaws::search_tells))]
fn is_reached(outlines: &[Outline], marks: &mut [bool], place: usize) -> bool
    requires none { marks.old ≡ replicate (length outlines.now) false }
    requires within { place < length outlines.now }
    ensures { Decides result (IsRecursive outlines.now place) }
{
    visit(outlines, marks, place);
    marks[place]
}

/// Whether a search from the place comes back to it.
fn is_found(alloc: Global, outlines: &[Outline], place: usize) -> Result<bool, NoMemory>
    requires { place < length outlines.now }
    ensures { IfOk result (λ r. Decides r (IsRecursive outlines.now place)) }
{
    let mut marks = no_marks(alloc, outlines.len())?;
    let found = is_reached(outlines, marks.as_mut_slice(), place);
    Ok(found)
}

/// Whether the declared type at a place holds itself. Numbers that are in order show of most types that they do not.
#[tactic(auto, using(type_layouts::proofs::RankLaws::not_recursive))]
fn is_recursive(
    alloc: Global,
    outlines: &[Outline],
    ranks: &[usize],
    ordered: bool,
    place: usize,
) -> Result<bool, NoMemory>
    requires within { place < length outlines.now }
    requires tested { OnTrue ordered (IsOrdered outlines.now ranks.now) }
    ensures { IfOk result (λ r. Decides r (IsRecursive outlines.now place)) }
{
    if ordered && is_above_at(outlines, ranks, place) {
        return Ok(false);
    }
    let found = is_found(alloc, outlines, place)?;
    Ok(found)
}

/// The first declared type that holds itself.
#[tactic(auto, using(crate::proofs::SearchLaws::none_first, crate::proofs::SearchLaws::first_found, crate::proofs::SearchLaws::none_more, crate::proofs::SearchLaws::first_none))]
pub fn first_recursive(alloc: Global, outlines: &[Outline]) -> Result<Option<usize>, NoMemory>
    ensures { IfOk result (IsFirstPlace outlines.now) }
{
    let ranks = ranks_tried(alloc, outlines)?;
    let ordered = are_ordered(outlines, ranks.as_slice());
    for place in 0..outlines.len() {
        if is_recursive(alloc, outlines, ranks.as_slice(), ordered, place)? {
            return Ok(Some(place));
        }
    }
    Ok(None)
}
