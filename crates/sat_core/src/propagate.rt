//! Unit propagation: of the clauses that watch a literal which became false, each watches another one, forces one, or is
//! falsified.

ghost use Rattle.std.specs.Prelude.{◌≡◌, ◌≢◌, ◌⊎◌, ◌+◌, ◌<◌, length, All, Contains, MatchOption, IfOk};
ghost use Rattle.region_pool.specs.Clauses.{AreLiterals};
ghost use Rattle.region_pool.specs.Refutation.{IsFalse};
ghost use Rattle.sat_core.specs.Known.{known_clauses};
ghost use Rattle.sat_core.specs.Passing.{IsRunning, IsAt, IsOtherOf, IsLookedAt, VisitIs, PropagationIs, IsWatching};
ghost use Rattle.sat_core.specs.Progress.{progress};
ghost use Rattle.sat_core.specs.Steps.{literals_of_steps};
ghost use Rattle.watch_lists.specs.Lists.{list_at};

use crate::known::known_clause;
use crate::trail::{Cause, Trail, negation_of};
use crate::watching::{Pair, Watching};
use region_pool::{Clauses, Log};
use vk_core::NoMemory;
use watch_lists::Watch;

/// The watch that is looked at: that with the number `at` among those of the literal, which the step with the number
/// `front` makes false.
#[derive(Clone, Copy, Debug, PartialEq, Eq)]
pub struct Place {
    pub front: usize,
    pub literal: u64,
    pub at: usize,
}

/// What comes of a watch that was looked at.
#[derive(Clone, Copy, Debug, PartialEq, Eq)]
pub enum Visit {
    /// It stays.
    Stays,
    /// The clause waits for another literal, and another watch took the place.
    Moves,
    /// The clause with this number is falsified.
    Conflict(usize),
}

/// A literal of the clause other than this one that is not false.
fn free_literal(trail: &Trail, clause: &[u64], other: u64) -> Option<u64>
    requires { AreLiterals trail.now.variables clause.now }
    ensures { MatchOption result (All (λ x. (x ≡ other) ⊎ IsFalse (literals_of_steps trail.now.steps) x) clause.now)
        (λ free. Contains clause.now free × (other ≢ free) × (¬ IsFalse (literals_of_steps trail.now.steps) free)) }
{
    for literal in clause {
        if *literal != other && !trail.is_false(*literal) {
            return Some(*literal);
        }
    }
    None
}

/// The watched literal beside this one.
fn other_of(pair: Pair, literal: u64) -> u64
    ensures { IsOtherOf pair literal result }
{
    if pair.first == literal {
        pair.second
    } else {
        pair.first
    }
}

/// Looks at the literals of a clause.
fn look_into(
    clauses: &Clauses,
    log: &Log,
    trail: &mut Trail,
    watching: &mut Watching,
    place: Place,
    number: usize,
    other: u64,
) -> Result<Visit, NoMemory>
    requires running { IsRunning clauses.now log.now trail.old watching.old.pairs.items watching.old.lists place }
    requires at { IsAt watching.old.lists place }
    requires clause { IsLookedAt trail.old watching.old.pairs.items watching.old.lists place number other }
    ensures { IfOk result (VisitIs clauses.now log.now (progress clauses.now.variables trail.old.steps)
        (length (list_at watching.old.lists place.literal)) trail.new watching.new.pairs.items watching.new.lists place) }
{
    match free_literal(trail, known_clause(clauses, log, number), other) {
        Some(free) => {
            let pair = Pair {
                first: other,
                second: free,
            };
            watching.rewatch(place.literal, place.at, number, pair)?;
            Ok(Visit::Moves)
        }
        None => {
            if trail.is_false(other) {
                return Ok(Visit::Conflict(number));
            }
            trail.push(other, Cause::Clause(number))?;
            Ok(Visit::Stays)
        }
    }
}

/// Looks at a watch, and at its clause where neither the blocker nor the other watched literal is true.
fn look_at(
    clauses: &Clauses,
    log: &Log,
    trail: &mut Trail,
    watching: &mut Watching,
    place: Place,
) -> Result<Visit, NoMemory>
    requires running { IsRunning clauses.now log.now trail.old watching.old.pairs.items watching.old.lists place }
    requires at { IsAt watching.old.lists place }
    ensures { IfOk result (VisitIs clauses.now log.now (progress clauses.now.variables trail.old.steps)
        (length (list_at watching.old.lists place.literal)) trail.new watching.new.pairs.items watching.new.lists place) }
{
    let watch = watching.lists.get(place.literal as usize, place.at);
    if trail.is_true(watch.blocker) {
        return Ok(Visit::Stays);
    }
    let other = other_of(watching.pairs[watch.clause], place.literal);
    // a clause of one literal
    if other == place.literal {
        return Ok(Visit::Stays);
    }
    if trail.is_true(other) {
        let blocked = Watch {
            clause: watch.clause,
            blocker: other,
        };
        watching
            .lists
            .set(place.literal as usize, place.at, blocked);
        return Ok(Visit::Stays);
    }
    look_into(clauses, log, trail, watching, place, watch.clause, other)
}

/// Looks at the watches of the literal that the step with this number makes false.
fn pass(
    clauses: &Clauses,
    log: &Log,
    trail: &mut Trail,
    watching: &mut Watching,
    front: usize,
) -> Result<Option<usize>, NoMemory>
    requires watching { IsWatching clauses.now log.now trail.old watching.old.pairs.items watching.old.lists front }
    requires front { front < length trail.old.steps }
    ensures { IfOk result (PropagationIs clauses.now log.now (progress clauses.now.variables trail.old.steps)
        trail.new watching.new.pairs.items watching.new.lists (front + 1)) }
{
    let literal = negation_of(trail.step(front).literal);
    let mut at = 0;
    while at < watching.lists.len(literal as usize) {
        let place = Place { front, literal, at };
        match look_at(clauses, log, trail, watching, place)? {
            Visit::Stays => at += 1,
            Visit::Moves => {}
            Visit::Conflict(number) => return Ok(Some(number)),
        }
    }
    Ok(None)
}

/// Propagates until each clause rests, or answers the number of one that is falsified.
pub fn propagate(
    clauses: &Clauses,
    log: &Log,
    trail: &mut Trail,
    watching: &mut Watching,
    mut front: usize,
) -> Result<Option<usize>, NoMemory>
    requires { IsWatching clauses.now log.now trail.old watching.old.pairs.items watching.old.lists front }
    ensures { IfOk result (PropagationIs clauses.now log.now (progress clauses.now.variables trail.old.steps)
        trail.new watching.new.pairs.items watching.new.lists (length trail.new.steps)) }
{
    while front < trail.len() {
        if let Some(number) = pass(clauses, log, trail, watching, front)? {
            return Ok(Some(number));
        }
        front += 1;
    }
    Ok(None)
}
