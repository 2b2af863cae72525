ghost use Rattle.std.specs.Prelude.{◌≡◌, ◌≤◌, ◌<◌, ◌^◌, IfOk, OnOk, true};
ghost use Rattle.value_terms.specs.Made.{Grown};
ghost use Rattle.scalar_form.specs.Form.{is_scalar};
ghost use Rattle.scalar_verdicts.specs.Choices.{choices_of};
ghost use Rattle.scalar_verdicts.specs.Rounds.{AreAsked, AreLeft, AreLeftFor, AreOf, IsPaidOnce, RunsHaveInputs};
ghost use Rattle.scalar_verdicts.specs.Runs.{EachReached};
ghost use Rattle.scalar_verdicts.specs.Statuses.{IsTrueOf};

use crate::failures::{any_of, own_of};
use crate::outcomes::failure_of;
use crate::runs::{run_of, run_with};
use mir_ir::Function;
use sat_core::Effort;
use scalar_checks::Check;
use scalar_runs::Breach;
use scalar_terms::{Failure, FaultRun};
use std::alloc::Global;
use sym_terms::Terms;
use term_queries::{TermAnswer, ask};
use unit_reports::{CheckStatus, Outcome};
use vk_core::NoMemory;

/// Asks whether one of the failures, which are all of one fault, can be so.
fn ask_own(
    alloc: Global,
    function: &Function,
    terms: &mut Terms,
    own: &[Failure],
    breach: Breach,
    budget: u64,
    effort: &mut Effort,
) -> Result<Outcome, NoMemory>
    requires form { is_scalar function.now ≡ true }
    requires own { AreOf function.now terms.old own.now breach }
    requires inputs { RunsHaveInputs function.now }
    requires many { budget < 2 ^ 60 → budget < choices_of function.now }
    ensures grown { OnOk result (Grown terms.old terms.new) }
    ensures told { IfOk result (IsTrueOf function.now budget breach) }
    ensures paid { IfOk result (IsPaidOnce effort.old effort.new budget) }
    ensures rises { effort.old ≤ effort.new }
{
    let _spent = effort.spent();
    let root = any_of(terms, own)?;
    match ask(alloc, terms, root, budget, effort)? {
        TermAnswer::Never => Ok(Outcome::Success),
        TermAnswer::Spent => Ok(Outcome::BudgetSpent { lines: budget }),
        TermAnswer::Can(numbers) => {
            let run = run_with(alloc, function, numbers.as_slice())?;
            Ok(Outcome::Failure {
                choices: run.choices,
                steps: run.steps,
            })
        }
    }
}

/// What is told of the check with this fault, to which no run was found: no query is asked where it has no failure.
fn ask_alone(
    alloc: Global,
    function: &Function,
    terms: &mut Terms,
    left: &[Failure],
    breach: Breach,
    budget: u64,
    effort: &mut Effort,
) -> Result<Outcome, NoMemory>
    requires form { is_scalar function.now ≡ true }
    requires left { AreLeftFor function.now terms.old left.now breach }
    requires inputs { RunsHaveInputs function.now }
    requires many { budget < 2 ^ 60 → budget < choices_of function.now }
    ensures grown { OnOk result (Grown terms.old terms.new) }
    ensures told { IfOk result (IsTrueOf function.now budget breach) }
    ensures paid { IfOk result (IsPaidOnce effort.old effort.new budget) }
    ensures rises { effort.old ≤ effort.new }
{
    let own = own_of(alloc, left, breach)?;
    if own.as_slice().is_empty() {
        Ok(Outcome::Success)
    } else {
        let outcome = ask_own(
            alloc,
            function,
            terms,
            own.as_slice(),
            breach,
            budget,
            effort,
        )?;
        Ok(outcome)
    }
}

/// What is told of the check with this fault.
fn outcome_alone(
    alloc: Global,
    function: &Function,
    terms: &mut Terms,
    left: &[Failure],
    runs: &[FaultRun],
    breach: Breach,
    budget: u64,
    effort: &mut Effort,
) -> Result<Outcome, NoMemory>
    requires form { is_scalar function.now ≡ true }
    requires left { AreLeft function.now terms.old left.now runs.now }
    requires reached { EachReached function.now runs.now }
    requires inputs { RunsHaveInputs function.now }
    requires many { budget < 2 ^ 60 → budget < choices_of function.now }
    ensures grown { OnOk result (Grown terms.old terms.new) }
    ensures told { IfOk result (IsTrueOf function.now budget breach) }
    ensures paid { IfOk result (IsPaidOnce effort.old effort.new budget) }
    ensures rises { effort.old ≤ effort.new }
{
    match run_of(runs, &breach) {
        Some(run) => {
            let outcome = failure_of(alloc, run)?;
            Ok(outcome)
        }
        None => {
            let outcome = ask_alone(alloc, function, terms, left, breach, budget, effort)?;
            Ok(outcome)
        }
    }
}

/// The status of each check, where each that has no run yet is asked of on its own.
pub fn asked_statuses(
    alloc: Global,
    function: &Function,
    terms: &mut Terms,
    left: &[Failure],
    runs: &[FaultRun],
    checks: Vec<Check>,
    budget: u64,
    effort: &mut Effort,
) -> Result<Vec<CheckStatus>, NoMemory>
    requires form { is_scalar function.now ≡ true }
    requires left { AreLeft function.now terms.old left.now runs.now }
    requires reached { EachReached function.now runs.now }
    requires inputs { RunsHaveInputs function.now }
    requires many { budget < 2 ^ 60 → budget < choices_of function.now }
    ensures asked { IfOk result (λ statuses. AreAsked function.now budget effort.old effort.new checks.items statuses.items) }
    ensures rises { effort.old ≤ effort.new }
{
    let mut statuses = Vec::new(alloc);
    for check in checks {
        let outcome = outcome_alone(
            alloc,
            function,
            terms,
            left,
            runs,
            check.breach,
            budget,
            effort,
        )?;
        statuses.push(CheckStatus { check, outcome })?;
    }
    Ok(statuses)
}
