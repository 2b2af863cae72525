ghost use Rattle.std.specs.Prelude.{◌≡◌, ◌↔◌, ◌+◌, ◌*◌, ◌<◌, ◌≤◌, length, IsTrue, All};
ghost use Rattle.region_pool.specs.Blocks.{block_at};
ghost use Rattle.region_pool.specs.Clauses.{AreLiterals};
ghost use Rattle.region_pool.specs.Refutation.{Reaches};
ghost use Rattle.refute_check.specs.Marks.{true_literals, HaveMarks, ArePast};
ghost use Rattle.refute_check.specs.Propagation.{StandingIs, TurnIs, all_clauses};

use crate::marks::{is_true, negation_of};
use region_pool::{Clauses, Log};

// How a clause stands under the literals that are true.
#[derive(Clone, Copy, Debug, PartialEq, Eq)]
pub(crate) enum Standing {
    Falsified,
    Forces(u64),
    Neither,
}

// What a hint does.
#[derive(Clone, Copy, Debug, PartialEq, Eq)]
pub(crate) enum Turn {
    Conflict,
    Propagated,
    Stuck,
}

// Looks at the clause once. A literal that stands twice counts once.
pub(crate) fn standing_of(marks: &[u64], stamp: u64, clause: &[u64]) -> Standing
    requires { HaveMarks marks.now clause.now }
    ensures { StandingIs (true_literals stamp marks.now) clause.now result }
{
    let mut forced = None;
    for literal in clause {
        if is_true(marks, stamp, negation_of(*literal)) {
            continue;
        }
        if is_true(marks, stamp, *literal) {
            return Standing::Neither;
        }
        match forced {
            None => forced = Some(*literal),
            Some(other) => {
                if other != *literal {
                    return Standing::Neither;
                }
            }
        }
    }
    match forced {
        Some(literal) => Standing::Forces(literal),
        None => Standing::Falsified,
    }
}

// Makes the literal true that the clause forces, if it does.
pub(crate) fn take_hint(marks: &mut [u64], stamp: u64, clause: &[u64]) -> Turn
    requires marks { HaveMarks marks.old clause.now }
    requires past { ArePast stamp marks.old }
    ensures past { ArePast stamp marks.new }
    ensures turn { TurnIs (true_literals stamp marks.old) (true_literals stamp marks.new) clause.now result }
{
    match standing_of(marks, stamp, clause) {
        Standing::Falsified => Turn::Conflict,
        Standing::Forces(literal) => {
            marks[literal as usize] = stamp;
            Turn::Propagated
        }
        Standing::Neither => Turn::Stuck,
    }
}

// Lends an input clause or the literals of a line.
pub(crate) fn known_clause<'a>(clauses: &'a Clauses, log: &'a Log, number: usize) -> &'a [u64]
    requires { number < length clauses.now.clauses + length log.now }
    ensures { result.now ≡ block_at (all_clauses clauses.now log.now) number }
{
    let inputs = clauses.len();
    if number < inputs {
        clauses.clause(number)
    } else {
        log.literals(number - inputs)
    }
}

// Whether the hinted clauses, taken in order, each make one literal true until one is falsified.
pub(crate) fn reaches(
    marks: &mut [u64],
    stamp: u64,
    clauses: &Clauses,
    log: &Log,
    hints: &[u64],
) -> bool
    requires hints { All (λ hint. hint < length clauses.now.clauses + length log.now) hints.now }
    requires marks { 2 * clauses.now.variables ≤ length marks.old }
    requires literals { All (λ hint. AreLiterals clauses.now.variables (block_at (all_clauses clauses.now log.now) hint)) hints.now }
    requires past { ArePast stamp marks.old }
    ensures past { ArePast stamp marks.new }
    ensures conflict { IsTrue result ↔ Reaches (all_clauses clauses.now log.now) (true_literals stamp marks.old) hints.now }
{
    for hint in hints {
        let clause = known_clause(clauses, log, *hint as usize);
        match take_hint(marks, stamp, clause) {
            Turn::Conflict => return true,
            Turn::Propagated => {}
            Turn::Stuck => return false,
        }
    }
    false
}
