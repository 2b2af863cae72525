//! The analysis of a conflict: which steps of the trail the conflict follows from.

ghost use Rattle.std.specs.Prelude.{◌≡◌, ◌≢◌, ℕ, ◌+◌, ◌<◌, ◌≤◌, length, MatchOption};
ghost use Rattle.region_pool.specs.Blocks.{block_at};
ghost use Rattle.region_pool.specs.Clauses.{AreLiterals};
ghost use Rattle.region_pool.specs.Refutation.{IsFalsified};
ghost use Rattle.sat_core.specs.Known.{known_clauses};
ghost use Rattle.sat_core.specs.Roles.{role_at, Marks, Blames, Resolves, Keeps, SameFrom, IsLastKept, NoneKept, NoneDecided, IsDecision, IsLastDecision, IsFirstDecision};
ghost use Rattle.sat_core.specs.Search.{IsSearch};
ghost use Rattle.sat_core.specs.Steps.{literals_of_steps, step_at};

use crate::known::known_clause;
use crate::shorten::shorten;
use crate::trail::{Cause, Trail, negation_of};
use region_pool::{Clauses, Log};

/// What a step has to do with the line that is learned.
#[derive(Clone, Copy, Debug, PartialEq, Eq)]
pub enum Role {
    /// Nothing.
    Unused,
    /// The line has its negation.
    Kept,
    /// The clause that forced it is a hint of the line.
    Resolved,
}

/// Keeps a step that had no role.
fn mark(roles: &mut [Role], at: usize)
    requires { at < length roles.old }
    ensures { Marks at roles.old roles.new }
{
    if let Role::Unused = roles[at] {
        roles[at] = Role::Kept;
    }
}

/// Gives the steps that make literals of the clause false a role.
pub fn blame(trail: &Trail, roles: &mut [Role], clause: &[u64])
    requires literals { AreLiterals trail.now.variables clause.now }
    requires long { length roles.old ≡ length trail.now.steps }
    ensures { Blames trail.now.steps clause.now roles.old roles.new }
{
    for literal in clause {
        let place = trail.place(negation_of(*literal));
        if place != 0 {
            mark(roles, place - 1);
        }
    }
}

/// The last kept step from one place to another.
pub fn last_kept(roles: &[Role], low: usize, high: usize) -> Option<usize>
    requires { high ≤ length roles.now }
    ensures { MatchOption result (NoneKept roles.now low high) (λ at. IsLastKept roles.now low high at) }
{
    let mut at = high;
    while at > low {
        at -= 1;
        if matches!(roles[at], Role::Kept) {
            return Some(at);
        }
    }
    None
}

/// Resolves a step that was forced.
pub fn resolve(clauses: &Clauses, log: &Log, trail: &Trail, roles: &mut [Role], at: usize)
    requires search { IsSearch clauses.now log.now trail.now }
    requires long { length roles.old ≡ length trail.now.steps }
    requires at { at < length trail.now.steps }
    requires forced { ¬ IsDecision (step_at trail.now.steps at).cause }
    ensures { Resolves (known_clauses clauses.now log.now) trail.now.steps at roles.old roles.new }
{
    roles[at] = Role::Resolved;
    match trail.step(at).cause {
        Cause::Decision => unreachable!(),
        Cause::Clause(number) => blame(trail, roles, known_clause(clauses, log, number)),
    }
}

/// Resolves a step where it is kept.
fn resolve_kept(clauses: &Clauses, log: &Log, trail: &Trail, roles: &mut [Role], at: usize)
    requires search { IsSearch clauses.now log.now trail.now }
    requires long { length roles.old ≡ length trail.now.steps }
    requires at { at < length trail.now.steps }
    requires forced { ¬ IsDecision (step_at trail.now.steps at).cause }
    ensures derives { Keeps (known_clauses clauses.now log.now) trail.now.steps roles.old roles.new }
    ensures here { role_at roles.new at ≢ Role.Kept }
    ensures later { SameFrom (at + 1) roles.old roles.new }
{
    if let Role::Kept = roles[at] {
        resolve(clauses, log, trail, roles, at);
    }
}

/// Resolves the kept steps before a place, before which no step is a decision.
pub fn resolve_below(clauses: &Clauses, log: &Log, trail: &Trail, roles: &mut [Role], high: usize)
    requires search { IsSearch clauses.now log.now trail.now }
    requires long { length roles.old ≡ length trail.now.steps }
    requires high { high ≤ length trail.now.steps }
    requires forced { NoneDecided trail.now.steps 0 high }
    ensures derives { Keeps (known_clauses clauses.now log.now) trail.now.steps roles.old roles.new }
    ensures none { NoneKept roles.new 0 high }
    ensures later { SameFrom high roles.old roles.new }
{
    let mut at = high;
    while at > 0 {
        at -= 1;
        resolve_kept(clauses, log, trail, roles, at);
    }
}

/// Resolves a kept step, for which an earlier one from the place `low` on is kept, and answers the last that is then kept.
fn resolve_last(
    clauses: &Clauses,
    log: &Log,
    trail: &Trail,
    roles: &mut [Role],
    low: usize,
    at: usize,
) -> usize
    requires search { IsSearch clauses.now log.now trail.now }
    requires long { length roles.old ≡ length trail.now.steps }
    requires at { at < length trail.now.steps }
    requires last { IsLastKept roles.old low (length trail.now.steps) at }
    requires forced { ¬ IsDecision (step_at trail.now.steps at).cause }
    requires more { ¬ NoneKept roles.old low at }
    ensures derives { Keeps (known_clauses clauses.now log.now) trail.now.steps roles.old roles.new }
    ensures last { IsLastKept roles.new low (length trail.now.steps) result }
    ensures falls { result < at }
{
    resolve(clauses, log, trail, roles, at);
    match last_kept(roles, low, at) {
        Some(last) => last,
        None => unreachable!(),
    }
}

/// Resolves kept steps, the last first, until only one from the last decision on is kept, and answers it.
fn resolve_to_one(
    clauses: &Clauses,
    log: &Log,
    trail: &Trail,
    roles: &mut [Role],
    decision: usize,
) -> usize
    requires search { IsSearch clauses.now log.now trail.now }
    requires long { length roles.old ≡ length trail.now.steps }
    requires decision { NoneDecided trail.now.steps (decision + 1) (length trail.now.steps) }
    requires kept { ¬ NoneKept roles.old decision (length trail.now.steps) }
    ensures derives { Keeps (known_clauses clauses.now log.now) trail.now.steps roles.old roles.new }
    ensures last { IsLastKept roles.new decision (length trail.now.steps) result }
    ensures only { NoneKept roles.new decision result }
{
    let mut at = match last_kept(roles, decision, trail.len()) {
        Some(last) => last,
        None => unreachable!(),
    };
    while last_kept(roles, decision, at).is_some() {
        at = resolve_last(clauses, log, trail, roles, decision, at);
    }
    at
}

/// The last decision of the trail.
pub fn last_decision(trail: &Trail) -> Option<usize>
    ensures { MatchOption result (NoneDecided trail.now.steps 0 (length trail.now.steps)) (λ at. IsLastDecision trail.now.steps at) }
{
    let mut at = trail.len();
    while at > 0 {
        at -= 1;
        if let Cause::Decision = trail.step(at).cause {
            return Some(at);
        }
    }
    None
}

/// The first decision from a place on, where the step `last` is one.
pub fn first_decision(trail: &Trail, low: usize, last: usize) -> usize
    requires low { low ≤ last }
    requires last { IsLastDecision trail.now.steps last }
    ensures { IsFirstDecision trail.now.steps low last result }
{
    let mut at = low;
    while at < last {
        if let Cause::Decision = trail.step(at).cause {
            return at;
        }
        at += 1;
    }
    at
}

/// Resolves steps until one alone from the last decision on is kept, which it answers, and none before the first decision
/// or that the others imply.
pub fn analyze(
    clauses: &Clauses,
    log: &Log,
    trail: &Trail,
    roles: &mut [Role],
    decision: usize,
) -> usize
    requires search { IsSearch clauses.now log.now trail.now }
    requires long { length roles.old ≡ length trail.now.steps }
    requires decision { IsLastDecision trail.now.steps decision }
    requires kept { ¬ NoneKept roles.old decision (length trail.now.steps) }
    ensures derives { Keeps (known_clauses clauses.now log.now) trail.now.steps roles.old roles.new }
    ensures last { IsLastKept roles.new decision (length trail.now.steps) result }
    ensures only { NoneKept roles.new decision result }
{
    let asserted = resolve_to_one(clauses, log, trail, roles, decision);
    let first = first_decision(trail, 0, decision);
    shorten(clauses, log, trail, roles, first, decision);
    resolve_below(clauses, log, trail, roles, first);
    asserted
}
