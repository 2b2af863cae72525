ghost use Rattle.std.specs.Prelude.{◌≡◌, ◌<◌, IfOk, length};
ghost use Rattle.value_terms.specs.Made.{IsBit};
ghost use Rattle.scalar_terms.specs.Ways.{IsSplit};

use sym_terms::{TermId, Terms};
use value_terms::{Slot, bit, both, but_not};
use vk_core::NoMemory;

/// A point that runs come to: those whose choices make the guard 1, with what the locals then hold.
#[derive(Debug, Drop)]
pub struct Way {
    pub guard: TermId,
    pub slots: Vec<Slot>,
}

/// A guard that is split by two tests: the first fails, only the second fails, both hold. `always` is 1.
#[derive(Clone, Copy, Debug)]
pub struct Split {
    pub unset: TermId,
    pub unlawful: TermId,
    pub guard: TermId,
    pub always: TermId,
}

/// Splits a guard by two tests.
pub fn split_guard(
    terms: &mut Terms,
    guard: TermId,
    first: TermId,
    second: TermId,
) -> Result<Split, NoMemory>
    requires guard { IsBit terms.old guard.0 }
    requires first { IsBit terms.old first.0 }
    requires second { IsBit terms.old second.0 }
    ensures { IfOk result (λ t. IsSplit terms.old terms.new guard.0 first.0 second.0 t) }
{
    let unset = but_not(terms, guard, first)?;
    let ready = both(terms, guard, first)?;
    let unlawful = but_not(terms, ready, second)?;
    let goes = both(terms, ready, second)?;
    let always = bit(terms, true)?;
    Ok(Split {
        unset,
        unlawful,
        guard: goes,
        always,
    })
}
