ghost use Rattle.std.specs.Prelude.{◌≡◌, ℕ, IfOk, MatchOption, OnOk, false, get_or, true};
ghost use Rattle.scalar_form.specs.Form.{is_scalar};
ghost use Rattle.scalar_terms.specs.Replays.{IsFaultRun};
ghost use Rattle.scalar_verdicts.specs.Runs.{FaultsSomehow, HasRun, IsNoted, IsReplayed, IsRunTo};

use mir_ir::Function;
use scalar_runs::Breach;
use scalar_terms::{FaultRun, replay};
use std::alloc::Global;
use vk_core::NoMemory;

/// Whether the faults are one.
fn is_same(a: &Breach, b: &Breach) -> bool
    ensures same { result ≡ true → a.now ≡ b.now }
    ensures other { result ≡ false → a.now ≡ b.now → ⊥ }
{
    *a == *b
}

/// The first of the runs that end in this fault.
pub fn run_of<'a>(runs: &'a [FaultRun], breach: &Breach) -> Option<&'a FaultRun>
    ensures { MatchOption result (HasRun runs.now breach.now → ⊥) (λ run. IsRunTo runs.now breach.now run.now × HasRun runs.now breach.now) }
{
    for run in runs {
        if is_same(&run.breach, breach) {
            return Some(run);
        }
    }
    None
}

/// Keeps the run, where no run to its fault was kept before.
pub fn note(runs: &mut Vec<FaultRun>, run: FaultRun) -> Result<(), NoMemory>
    ensures { OnOk result (IsNoted runs.old.items runs.new.items run) }
{
    if run_of(runs.as_slice(), &run.breach).is_none() {
        runs.push(run)?;
    }
    Ok(())
}

/// Keeps the run that takes its choices from the inputs, where it ends in a fault.
pub fn note_replay(
    alloc: Global,
    function: &Function,
    inputs: &[u128],
    runs: &mut Vec<FaultRun>,
) -> Result<(), NoMemory>
    requires { is_scalar function.now ≡ true }
    ensures { OnOk result (IsReplayed function.now (λ n. get_or inputs.now n 0) runs.old.items runs.new.items) }
{
    match replay(alloc, function, inputs)? {
        Some(run) => note(runs, run)?,
        None => {}
    }
    Ok(())
}

/// The run that takes its choices from inputs with which it ends in a fault.
pub fn run_with(alloc: Global, function: &Function, inputs: &[u128]) -> Result<FaultRun, NoMemory>
    requires form { is_scalar function.now ≡ true }
    requires faults { FaultsSomehow function.now (λ n. get_or inputs.now n 0) }
    ensures { IfOk result (IsFaultRun function.now (λ n. get_or inputs.now n 0)) }
{
    match replay(alloc, function, inputs)? {
        Some(run) => Ok(run),
        None => unreachable!(),
    }
}
