ghost use Rattle.std.specs.Prelude.{◌≡◌, ◌≤◌, ◌<◌, ◌^◌, ◌+◌, ◌*◌, IfOk, true};
ghost use Rattle.scalar_form.specs.Form.{is_scalar};
ghost use Rattle.scalar_runs.specs.Run.{start};
ghost use Rattle.scalar_verdicts.specs.Runs.{Covers, EachReached};
ghost use Rattle.scalar_verdicts.specs.Statuses.{FitStatuses, IsPaid, NeverFaults, NoneIsSpent, spent_count};
ghost use Rattle.unit_reports.specs.Verdicts.{verdict_of};
ghost use Rattle.unit_reports.specs.declared.verdict.Verdict.TheVariants.{Successful};

use crate::alone::asked_statuses;
use crate::choices::{MANY, are_few};
use crate::outcomes::known_statuses;
use crate::rounds::{Found, find_runs};
use crate::trying::try_all;
use mir_ir::Function;
use sat_core::Effort;
use scalar_checks::checks_of;
use scalar_terms::{FaultRun, FaultTerms, faults_of};
use std::alloc::Global;
use unit_reports::CheckStatus;
use vk_core::NoMemory;

/// The statuses where all runs were found.
fn found_statuses(
    alloc: Global,
    function: &Function,
    budget: u64,
    runs: &[FaultRun],
) -> Result<Vec<CheckStatus>, NoMemory>
    requires form { is_scalar function.now ≡ true }
    requires reached { EachReached function.now runs.now }
    requires covers { Covers function.now (start function.now) runs.now }
    ensures fit { IfOk result (λ statuses. FitStatuses function.now budget statuses.items) }
    ensures none { IfOk result (λ statuses. spent_count statuses.items ≡ 0) }
{
    let _budget = budget;
    let checks = checks_of(alloc, function)?;
    let statuses = known_statuses(alloc, checks, runs)?;
    Ok(statuses)
}

/// The status of each check of a function of the scalar form, in their order: a Success is refuted by the solver, or tried; a
/// Failure has the choices and the steps of a run that ends in it; a spent budget is told only where there are more ways to
/// choose than it, and never where it is 2^60 or more.
#[tactic(auto, using(crate::proofs::Safe::never_faults))]
pub fn verify_scalar(
    alloc: Global,
    function: &Function,
    budget: u64,
    effort: &mut Effort,
) -> Result<Vec<CheckStatus>, NoMemory>
    requires { is_scalar function.now ≡ true }
    ensures fit { IfOk result (λ statuses. FitStatuses function.now budget statuses.items) }
    // Where the verdict of the statuses is SUCCESSFUL, no choices and no number of steps lead to a fault.
    ensures safe { IfOk result (λ statuses. verdict_of statuses.items ≡ Successful → NeverFaults function.now) }
    // The effort has risen by the budget for each spent status, or stands at the greatest u64.
    ensures paid { IfOk result (λ statuses. IsPaid effort.old effort.new budget statuses.items) }
    ensures rises { effort.old ≤ effort.new }
    ensures unlimited { 2 ^ 60 ≤ budget → IfOk result (λ statuses. NoneIsSpent statuses.items) }
{
    let FaultTerms {
        mut terms,
        failures,
    } = faults_of(alloc, function)?;
    let Found { mut runs, left } = find_runs(
        alloc, function, &mut terms, failures, budget, effort,
    )?;
    match left {
        None => {
            let statuses = found_statuses(alloc, function, budget, runs.as_slice())?;
            Ok(statuses)
        }
        Some(left) => {
            if budget < MANY && are_few(function, budget) {
                try_all(alloc, function, &mut runs)?;
                let statuses = found_statuses(alloc, function, budget, runs.as_slice())?;
                Ok(statuses)
            } else {
                let checks = checks_of(alloc, function)?;
                let statuses = asked_statuses(
                    alloc,
                    function,
                    &mut terms,
                    left.as_slice(),
                    runs.as_slice(),
                    checks,
                    budget,
                    effort,
                )?;
                Ok(statuses)
            }
        }
    }
}
