ghost use Rattle.std.specs.Prelude.{◌≡◌, ◌≤◌, length};
ghost use Rattle.std.specs.List.{list_any};
ghost use Rattle.unit_reports.specs.Verdicts.{count_of_verdict, is_failure, is_spent, same_verdict, verdict_of};

use crate::status::{CheckStatus, Outcome, UnitReport};

/// What is told of a unit as a whole.
#[derive(Clone, Copy, Debug, PartialEq, Eq)]
pub enum Verdict {
    /// Each of its checks is a success.
    Successful,
    /// Some check is a failure.
    Failed,
    /// No check is a failure, and of some it is not known.
    Undetermined,
}

/// The verdict of a unit with these statuses.
#[tactic(auto, unfolding(crate::specs::Verdicts::verdict_of))]
pub fn verdict_of(statuses: &[CheckStatus]) -> Verdict
    ensures { result ≡ verdict_of statuses.now }
{
    if some_fail(statuses) {
        Verdict::Failed
    } else if some_are_spent(statuses) {
        Verdict::Undetermined
    } else {
        Verdict::Successful
    }
}

fn is_failure(status: &CheckStatus) -> bool
    ensures { result ≡ is_failure status.now }
{
    matches!(status.outcome, Outcome::Failure { .. })
}

fn is_spent(status: &CheckStatus) -> bool
    ensures { result ≡ is_spent status.now }
{
    matches!(status.outcome, Outcome::BudgetSpent { .. })
}

fn some_fail(statuses: &[CheckStatus]) -> bool
    ensures { result ≡ list_any is_failure statuses.now }
{
    let mut left = statuses;
    while let [status, rest @ ..] = left {
        if is_failure(status) {
            return true;
        }
        left = rest;
    }
    false
}

fn some_are_spent(statuses: &[CheckStatus]) -> bool
    ensures { result ≡ list_any is_spent statuses.now }
{
    let mut left = statuses;
    while let [status, rest @ ..] = left {
        if is_spent(status) {
            return true;
        }
        left = rest;
    }
    false
}

fn same_verdict(a: Verdict, b: Verdict) -> bool
    ensures { result ≡ same_verdict a b }
{
    match a {
        Verdict::Successful => matches!(b, Verdict::Successful),
        Verdict::Failed => matches!(b, Verdict::Failed),
        Verdict::Undetermined => matches!(b, Verdict::Undetermined),
    }
}

/// How many of the units have this verdict.
pub fn count_of_verdict(verdict: Verdict, reports: &[UnitReport]) -> usize
    ensures value { result ≡ count_of_verdict verdict reports.now }
    ensures within { result ≤ length reports.now }
{
    let mut count = 0;
    for report in reports {
        if same_verdict(verdict_of(report.statuses.as_slice()), verdict) {
            count += 1;
        }
    }
    count
}
