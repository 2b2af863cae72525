ghost use Rattle.std.specs.Prelude.{◌≡◌, ◌<◌, IfOk, None, OnOk, Some, length, slice_set};
ghost use Rattle.value_terms.specs.Made.{IsBit};
ghost use Rattle.value_terms.specs.Slots.{AreSlots};
ghost use Rattle.scalar_terms.specs.Joins.{AreWays, IsEntry, IsJoined, way_at};
ghost use Rattle.scalar_terms.specs.Ways.{IsWay};

use crate::merge::merge;
use crate::ways::Way;
use mir_ir::Function;
use std::alloc::Global;
use sym_terms::{TermId, Terms};
use value_terms::Slot;
use vk_core::{BlockId, NoMemory};

/// Takes the way to the block with this number out, where there is one.
pub fn take_way(ways: &mut [Option<Way>], at: usize) -> Option<Way>
    ensures taken { result ≡ way_at ways.old at }
    ensures left { ways.new ≡ slice_set ways.old at None }
{
    if at < ways.len() {
        std::mem::replace(&mut ways[at], None)
    } else {
        None
    }
}

/// Puts a way to the block with this number.
pub fn put_way(ways: &mut [Option<Way>], at: usize, way: Way)
    requires { at < length ways.old }
    ensures { ways.new ≡ slice_set ways.old at (Some way) }
{
    ways[at] = Some(way);
}

/// The way that was there, if one was, and the guard and the slots, as one way.
fn enter(
    alloc: Global,
    terms: &mut Terms,
    function: &Function,
    was: Option<Way>,
    guard: TermId,
    slots: &[Slot],
) -> Result<Way, NoMemory>
    requires guard { IsBit terms.old guard.0 }
    requires slots { AreSlots function.now terms.old slots.now }
    requires was { (x : Way) → was ≡ Some x → IsWay function.now terms.old x }
    ensures { IfOk result (λ way. IsEntry function.now terms.old terms.new was guard.0 slots.now way) }
{
    match was {
        None => {
            let copied = Vec::from_slice(alloc, slots)?;
            Ok(Way {
                guard,
                slots: copied,
            })
        }
        Some(way) => {
            let merged = merge(alloc, terms, function, guard, slots, &way)?;
            Ok(merged)
        }
    }
}

/// Lets runs come to the block with these slots where the guard is 1.
pub fn join(
    alloc: Global,
    terms: &mut Terms,
    function: &Function,
    ways: &mut [Option<Way>],
    target: BlockId,
    guard: TermId,
    slots: &[Slot],
) -> Result<(), NoMemory>
    requires inside { target.0 < length ways.old }
    requires guard { IsBit terms.old guard.0 }
    requires slots { AreSlots function.now terms.old slots.now }
    requires ways { AreWays function.now terms.old ways.old }
    ensures { OnOk result (IsJoined function.now terms.old terms.new ways.old ways.new target.0 guard.0 slots.now) }
{
    let at = target.0 as usize;
    let was = take_way(ways, at);
    let way = enter(alloc, terms, function, was, guard, slots)?;
    put_way(ways, at, way);
    Ok(())
}
