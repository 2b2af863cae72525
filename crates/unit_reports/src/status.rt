use scalar_checks::Check;
use scalar_runs::Choice;
use vk_core::Name;

/// What is told of a check.
#[derive(Debug, Drop)]
pub enum Outcome {
    /// No run ends in the check.
    Success,
    /// The run with just these choices ends in the check, with this step, the first being step 1.
    Failure { choices: Vec<Choice>, steps: u64 },
    /// The solver was stopped behind so many lines.
    BudgetSpent { lines: u64 },
}

#[derive(Debug, Drop)]
pub struct CheckStatus {
    pub check: Check,
    pub outcome: Outcome,
}

/// What is told of a proof harness: the status of each of its checks, in their order.
#[derive(Debug, Drop)]
pub struct UnitReport {
    pub harness: Name,
    pub statuses: Vec<CheckStatus>,
}
