ghost use Rattle.std.specs.Prelude.{◌≡◌, ◌+◌, ◌-◌, ◌^◌, ◌≤◌, min, IfOk, OnErr};
ghost use Rattle.sat_core.specs.Answer.{AnswerIs, RefutesSoundly, effort_after, IsNotSpent};
ghost use Rattle.sat_core.specs.Values.{ValuesAre};

use crate::search::{Search, Turn, begin, take_turn};
use crate::trail::Trail;
use region_pool::{Clauses, Log};
use std::alloc::Global;
use std::marker::Model;
use vk_core::NoMemory;

/// How many lines were made for budgets that were spent.
#[derive(Debug, Drop)]
pub struct Effort {
    spent: u64,
}

impl Model for Effort {
    ghost use Rattle.std.specs.Prelude.{ℕ};

    ghost Value = { ℕ };

    ghost view = { λ e. e.spent };
}

impl Effort {
    pub fn new() -> Effort
        ensures { result ≡ 0 }
    {
        Effort { spent: 0 }
    }

    /// The count of the lines of all spent logs that were answered with it, up to the greatest u64.
    pub fn spent(&self) -> u64
        ensures { result ≡ self.now }
    {
        self.spent
    }

    fn raise(&mut self, lines: u64)
        ensures { self.new ≡ min (self.old + lines) (2 ^ 64 - 1) }
    {
        self.spent = self.spent.saturating_add(lines);
    }
}

/// What the solver answers.
#[derive(Drop)]
pub enum SatAnswer {
    /// A value for each variable that satisfies all clauses.
    Sat(Vec<bool>),
    /// A refutation of the clauses.
    Unsat(Log),
    /// The lines that were learned before the budget was spent.
    Spent(Log),
}

/// The values that the steps give to the variables; a variable without a step is false.
fn values_of(alloc: Global, trail: &Trail) -> Result<Vec<bool>, NoMemory>
    ensures { IfOk result (λ values. ValuesAre trail.now values.items) }
{
    let mut values = Vec::new(alloc);
    for variable in 0..trail.variables() {
        values.push(trail.is_true(2 * variable as u64))?;
    }
    Ok(values)
}

/// Looks for values of the variables that satisfy all clauses, and for a refutation.
///
/// It is conflict-driven: each conflict teaches a clause with one literal of the last decision's level. It answers `Spent`
/// where one more line than the budget would be wanted; the empty line that ends a refutation is not counted.
pub fn solve(
    alloc: Global,
    clauses: &Clauses,
    budget: u64,
    effort: &mut Effort,
) -> Result<SatAnswer, NoMemory>
    ensures answer { IfOk result (AnswerIs clauses.now budget) }
    ensures effort { IfOk result (λ answer. effort.new ≡ effort_after effort.old budget answer) }
    ensures sound { IfOk result (RefutesSoundly clauses.now) }
    // There are fewer than 3^V different lines in V variables.
    ensures ample { 3 ^ clauses.now.variables ≤ budget → IfOk result IsNotSpent }
    ensures unlimited { 2 ^ 60 ≤ budget → IfOk result IsNotSpent }
    ensures err { OnErr result (effort.new ≡ effort.old) }
{
    let mut search = Search::new(alloc, clauses)?;
    if begin(clauses, &mut search)? {
        return Ok(SatAnswer::Unsat(search.into_log()));
    }
    loop {
        match take_turn(clauses, budget, &mut search)? {
            Turn::Going => {}
            Turn::Satisfied => return Ok(SatAnswer::Sat(values_of(alloc, &search.trail)?)),
            Turn::Refuted => return Ok(SatAnswer::Unsat(search.into_log())),
            Turn::OutOfBudget => {
                effort.raise(budget);
                return Ok(SatAnswer::Spent(search.into_log()));
            }
        }
    }
}
