ghost use Rattle.std.specs.Prelude.{◌≡◌, IfOk};
ghost use Rattle.scalar_verdicts.specs.Rounds.{AreKnown, IsFailureOf, IsKnownOf};

use crate::runs::run_of;
use scalar_checks::Check;
use scalar_runs::Breach;
use scalar_terms::FaultRun;
use std::alloc::Global;
use unit_reports::{CheckStatus, Outcome};
use vk_core::NoMemory;

/// The failure that the run shows.
pub fn failure_of(alloc: Global, run: &FaultRun) -> Result<Outcome, NoMemory>
    ensures { IfOk result (IsFailureOf run.now) }
{
    let choices = Vec::from_slice(alloc, run.choices.as_slice())?;
    Ok(Outcome::Failure {
        choices,
        steps: run.steps,
    })
}

/// What is told of the check with this fault, where these runs are all that there are.
fn outcome_of(alloc: Global, runs: &[FaultRun], breach: &Breach) -> Result<Outcome, NoMemory>
    ensures { IfOk result (IsKnownOf runs.now breach.now) }
{
    match run_of(runs, breach) {
        None => Ok(Outcome::Success),
        Some(run) => {
            let outcome = failure_of(alloc, run)?;
            Ok(outcome)
        }
    }
}

/// The status of each check, where these runs are all that there are.
pub fn known_statuses(
    alloc: Global,
    checks: Vec<Check>,
    runs: &[FaultRun],
) -> Result<Vec<CheckStatus>, NoMemory>
    ensures { IfOk result (λ statuses. AreKnown runs.now checks.items statuses.items) }
{
    let mut statuses = Vec::new(alloc);
    for check in checks {
        let outcome = outcome_of(alloc, runs, &check.breach)?;
        statuses.push(CheckStatus { check, outcome })?;
    }
    Ok(statuses)
}
