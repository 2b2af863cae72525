ghost use Rattle.std.specs.Prelude.{◌≡◌, IfOk, OnOk};
ghost use Rattle.value_terms.specs.Made.{Grown, IsBit};
ghost use Rattle.value_terms.specs.Slots.{AreSlots};
ghost use Rattle.scalar_terms.specs.Picks.{ArePairs, ArePicked, IsMerged, IsPair, IsPicked};
ghost use Rattle.scalar_terms.specs.Ways.{IsWay};

use crate::ways::Way;
use mir_ir::Function;
use std::alloc::Global;
use sym_terms::{TermId, Terms};
use value_terms::{Slot, choose, either};
use vk_core::NoMemory;

/// The first slot where the test is 1, else the second.
fn pick(terms: &mut Terms, test: TermId, a: Slot, b: Slot) -> Result<Slot, NoMemory>
    requires test { IsBit terms.old test.0 }
    requires pair { IsPair terms.old a b }
    ensures grown { IfOk result (λ slot. Grown terms.old terms.new) }
    ensures picked { IfOk result (λ slot. IsPicked terms.new test.0 a b slot) }
{
    let set = choose(terms, test, a.set, b.set)?;
    let word = choose(terms, test, a.word, b.word)?;
    Ok(Slot { set, word })
}

/// Picks each slot from one of two lists.
fn pick_slots(
    terms: &mut Terms,
    test: TermId,
    first: &[Slot],
    second: &[Slot],
    picked: &mut Vec<Slot>,
) -> Result<(), NoMemory>
    requires test { IsBit terms.old test.0 }
    requires pairs { ArePairs terms.old first.now second.now }
    ensures { OnOk result (ArePicked terms.old terms.new test.0 first.now second.now picked.old.items picked.new.items) }
{
    match first {
        [] => match second {
            [] => Ok(()),
            _ => unreachable!(),
        },
        [a, rest @ ..] => match second {
            [] => unreachable!(),
            [b, others @ ..] => {
                let slot = pick(terms, test, *a, *b)?;
                picked.push(slot)?;
                pick_slots(terms, test, rest, others, picked)?;
                Ok(())
            }
        },
    }
}

/// Two ways to one point as one: the slots are the first's where its guard is 1.
pub fn merge(
    alloc: Global,
    terms: &mut Terms,
    function: &Function,
    guard: TermId,
    slots: &[Slot],
    way: &Way,
) -> Result<Way, NoMemory>
    requires guard { IsBit terms.old guard.0 }
    requires slots { AreSlots function.now terms.old slots.now }
    requires way { IsWay function.now terms.old way.now }
    ensures { IfOk result (λ merged. IsMerged function.now terms.old terms.new guard.0 slots.now way.now merged) }
{
    let both = either(terms, guard, way.guard)?;
    let mut picked = Vec::new(alloc);
    pick_slots(terms, guard, slots, way.slots.as_slice(), &mut picked)?;
    Ok(Way {
        guard: both,
        slots: picked,
    })
}
