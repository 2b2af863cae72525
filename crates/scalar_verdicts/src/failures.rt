ghost use Rattle.std.specs.Prelude.{◌≡◌, ◌++◌, IfOk, OnOk};
ghost use Rattle.value_terms.specs.Made.{IsTest};
ghost use Rattle.scalar_terms.specs.Ways.{AreFailures};
ghost use Rattle.scalar_verdicts.specs.Failures.{AreOthers, AreOwn, IsOtherPut, IsOwnPut, any_holds};

use scalar_runs::Breach;
use scalar_terms::Failure;
use std::alloc::Global;
use sym_terms::{TermId, Terms};
use value_terms::{bit, either};
use vk_core::NoMemory;

/// Whether the term of one of the failures is 1: a term of one bit.
pub fn any_of(terms: &mut Terms, failures: &[Failure]) -> Result<TermId, NoMemory>
    requires { AreFailures terms.old failures.now }
    ensures { IfOk result (λ root. IsTest terms.old terms.new root.0 (λ inputs. any_holds terms.old inputs failures.now)) }
{
    let mut root = bit(terms, false)?;
    for failure in failures {
        root = either(terms, root, failure.term)?;
    }
    Ok(root)
}

fn put_other(kept: &mut Vec<Failure>, failure: Failure, breach: Breach) -> Result<(), NoMemory>
    ensures { OnOk result (IsOtherPut breach failure kept.old.items kept.new.items) }
{
    if failure.breach != breach {
        kept.push(failure)?;
    }
    Ok(())
}

/// The failures of other faults than this one.
pub fn others_of(
    alloc: Global,
    failures: &[Failure],
    breach: Breach,
) -> Result<Vec<Failure>, NoMemory>
    ensures { IfOk result (λ kept. AreOthers breach failures.now kept.items) }
{
    let mut kept = Vec::new(alloc);
    for failure in failures {
        put_other(&mut kept, *failure, breach)?;
    }
    Ok(kept)
}

fn put_own(kept: &mut Vec<Failure>, failure: Failure, breach: Breach) -> Result<(), NoMemory>
    ensures { OnOk result (IsOwnPut breach failure kept.old.items kept.new.items) }
{
    if failure.breach == breach {
        kept.push(failure)?;
    }
    Ok(())
}

/// The failures of this fault.
pub fn own_of(alloc: Global, failures: &[Failure], breach: Breach) -> Result<Vec<Failure>, NoMemory>
    ensures { IfOk result (λ kept. AreOwn breach failures.now kept.items) }
{
    let mut kept = Vec::new(alloc);
    for failure in failures {
        put_own(&mut kept, *failure, breach)?;
    }
    Ok(kept)
}
