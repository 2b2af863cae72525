ghost use Rattle.std.specs.Prelude.{◌≡◌, ◌≤◌, ◌<◌, ◌^◌, IfOk, None, OnOk, Some, length, replicate, slice_set};
ghost use Rattle.word_bits.specs.Words.{IsWidth};
ghost use Rattle.scalar_runs.specs.Look.{blocks_end, local_kind, locals_end};
ghost use Rattle.value_terms.specs.Slots.{slot_width};
ghost use Rattle.scalar_terms.specs.Starts.{AreUnset, IsStart, IsUnset};

use crate::ways::Way;
use mir_ir::Function;
use scalar_runs::{local_kind, locals_end};
use std::alloc::Global;
use sym_terms::{Term, Terms};
use value_terms::{Slot, bit};
use vk_core::{LocalId, NoMemory};
use word_bits::Word;

/// The bits of a local of a scalar type, 1 where it is none.
fn local_width(function: &Function, local: LocalId) -> u32
    ensures width { result ≡ slot_width (local_kind function.now local.0) }
    ensures some { IsWidth result }
{
    match local_kind(function, local) {
        None => 1,
        Some(kind) => kind.width(),
    }
}

/// A local that was never stored to.
fn unset(terms: &mut Terms, width: u32) -> Result<Slot, NoMemory>
    requires { IsWidth width }
    ensures { IfOk result (λ slot. IsUnset terms.old terms.new width slot) }
{
    let set = bit(terms, false)?;
    let word = terms.insert(Term::Constant(Word { width, value: 0 }))?;
    Ok(Slot { set, word })
}

/// The locals of a function before its first step.
fn unset_slots(alloc: Global, terms: &mut Terms, function: &Function) -> Result<Vec<Slot>, NoMemory>
    requires { locals_end function.now.locals ≤ 2 ^ 32 }
    ensures { IfOk result (λ slots. AreUnset function.now terms.old terms.new slots.items (locals_end function.now.locals)) }
{
    let mut slots = Vec::new(alloc);
    for number in 0..locals_end(function.locals.as_slice()) {
        let local = number as u32;
        let slot = unset(terms, local_width(function, LocalId(local)))?;
        slots.push(slot)?;
    }
    Ok(slots)
}

/// The way on which runs come to bb0: all of them, with nothing in the locals.
pub fn start_way(alloc: Global, terms: &mut Terms, function: &Function) -> Result<Way, NoMemory>
    requires { locals_end function.now.locals ≤ 2 ^ 32 }
    ensures { IfOk result (λ way. IsStart function.now terms.old terms.new way) }
{
    let guard = bit(terms, true)?;
    let slots = unset_slots(alloc, terms, function)?;
    Ok(Way { guard, slots })
}

/// No way to any of so many blocks.
pub fn no_ways(alloc: Global, count: usize) -> Result<Vec<Option<Way>>, NoMemory>
    ensures { IfOk result (λ ways. ways.items ≡ replicate count None) }
{
    let mut ways = Vec::new(alloc);
    for _ in 0..count {
        ways.push(None)?;
    }
    Ok(ways)
}
