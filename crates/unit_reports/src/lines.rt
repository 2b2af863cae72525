ghost use Rattle.std.specs.Prelude.{◌≡◌, ◌++◌, OnOk, codes};
ghost use Rattle.unit_reports.specs.Report.{check_text, choices_line, failure_lines, outcome_lines, site_text, spent_line, status_lines, steps_line};

use crate::pushes::{push_class, push_decimal, push_name, push_text};
use crate::status::{CheckStatus, Outcome};
use crate::values::push_choices;
use scalar_checks::Check;
use scalar_runs::{Breach, Choice};
use vk_core::{Name, NoMemory};

fn push_site(out: &mut Vec<u8>, function: &Name, breach: &Breach) -> Result<(), NoMemory>
    ensures { OnOk result (out.new.items ≡ out.old.items ++ site_text function.now breach.now) }
{
    push_name(out, function)?;
    push_text(out, " bb")?;
    push_decimal(out, u128::from(breach.block.0))?;
    push_text(out, "[")?;
    push_decimal(out, u128::from(breach.index))?;
    push_text(out, "]")?;
    Ok(())
}

/// A check, with the word that tells its outcome.
fn push_check(out: &mut Vec<u8>, function: &Name, check: &Check, word: &str) -> Result<(), NoMemory>
    ensures { OnOk result (out.new.items ≡ out.old.items ++ check_text function.now check.now word.now) }
{
    push_text(out, "Check ")?;
    push_class(out, check.breach.class)?;
    push_text(out, " at ")?;
    push_site(out, function, &check.breach)?;
    push_text(out, ": ")?;
    push_text(out, word)?;
    push_text(out, " \"")?;
    push_name(out, &check.description)?;
    push_text(out, "\"")?;
    Ok(())
}

fn push_choices_line(out: &mut Vec<u8>, choices: &[Choice]) -> Result<(), NoMemory>
    ensures { OnOk result (out.new.items ≡ out.old.items ++ choices_line choices.now) }
{
    push_text(out, "  choices: ")?;
    push_choices(out, choices)?;
    push_text(out, "\n")?;
    Ok(())
}

fn push_steps(out: &mut Vec<u8>, steps: u64) -> Result<(), NoMemory>
    ensures { OnOk result (out.new.items ≡ out.old.items ++ steps_line steps) }
{
    push_text(out, "  steps: ")?;
    push_decimal(out, u128::from(steps))?;
    push_text(out, "\n")?;
    Ok(())
}

fn push_failure(
    out: &mut Vec<u8>,
    function: &Name,
    check: &Check,
    choices: &[Choice],
    steps: u64,
) -> Result<(), NoMemory>
    ensures { OnOk result (out.new.items ≡ out.old.items ++ failure_lines function.now check.now choices.now steps) }
{
    push_check(out, function, check, "FAILURE")?;
    push_text(out, "\n")?;
    push_choices_line(out, choices)?;
    push_steps(out, steps)?;
    Ok(())
}

fn push_spent(out: &mut Vec<u8>, function: &Name, check: &Check, lines: u64) -> Result<(), NoMemory>
    ensures { OnOk result (out.new.items ≡ out.old.items ++ spent_line function.now check.now lines) }
{
    push_check(out, function, check, "UNDETERMINED")?;
    push_text(out, " after ")?;
    push_decimal(out, u128::from(lines))?;
    push_text(out, " conflicts\n")?;
    Ok(())
}

fn push_outcome(
    out: &mut Vec<u8>,
    function: &Name,
    check: &Check,
    outcome: &Outcome,
) -> Result<(), NoMemory>
    ensures { OnOk result (out.new.items ≡ out.old.items ++ outcome_lines function.now check.now outcome.now) }
{
    match outcome {
        Outcome::Success => Ok(()),
        Outcome::Failure { choices, steps } => {
            push_failure(out, function, check, choices.as_slice(), *steps)?;
            Ok(())
        }
        Outcome::BudgetSpent { lines } => {
            push_spent(out, function, check, *lines)?;
            Ok(())
        }
    }
}

/// Adds the lines of statuses.
pub fn push_statuses(
    out: &mut Vec<u8>,
    function: &Name,
    statuses: &[CheckStatus],
) -> Result<(), NoMemory>
    ensures { OnOk result (out.new.items ≡ out.old.items ++ status_lines function.now statuses.now) }
{
    for status in statuses {
        push_outcome(out, function, &status.check, &status.outcome)?;
    }
    Ok(())
}
