//! What is done before the search: each clause is watched, and a clause of one literal forces it.

ghost use Rattle.std.specs.Prelude.{◌≡◌, ◌+◌, ◌<◌, [], length, MatchOption, IfOk};
ghost use Rattle.region_pool.specs.Blocks.{block_at};
ghost use Rattle.sat_core.specs.Preparing.{IsPreparing, IsFirstPair, SettlesIs, PreparesIs};
ghost use Rattle.sat_core.specs.Roles.{NoneDecided};
ghost use Rattle.sat_core.specs.Search.{IsSearch};

use crate::trail::{Cause, Trail, Truth};
use crate::watching::{Pair, Watching};
use region_pool::{Clauses, Log};
use vk_core::NoMemory;

/// The first literal of a clause, and the first that differs from it.
fn first_pair(clause: &[u64]) -> Option<Pair>
    ensures { MatchOption result (clause.now ≡ []) (IsFirstPair clause.now) }
{
    if clause.is_empty() {
        return None;
    }
    let first = clause[0];
    for literal in clause {
        if *literal != first {
            return Some(Pair {
                first,
                second: *literal,
            });
        }
    }
    Some(Pair {
        first,
        second: first,
    })
}

/// Forces the literal of a clause that has one. It answers the clause's number where that is false.
fn settle(
    clauses: &Clauses,
    log: &Log,
    trail: &mut Trail,
    pair: Pair,
    number: usize,
) -> Result<Option<usize>, NoMemory>
    requires search { IsSearch clauses.now log.now trail.old }
    requires forced { NoneDecided trail.old.steps 0 (length trail.old.steps) }
    requires number { number < length clauses.now.clauses }
    requires pair { IsFirstPair (block_at clauses.now.clauses number) pair }
    ensures { IfOk result (SettlesIs clauses.now log.now trail.old trail.new number pair) }
{
    if pair.first != pair.second {
        return Ok(None);
    }
    match trail.truth(pair.first) {
        Truth::True => Ok(None),
        Truth::False => Ok(Some(number)),
        Truth::Open => {
            trail.push(pair.first, Cause::Clause(number))?;
            Ok(None)
        }
    }
}

/// Watches the clause with this number.
fn prepare_clause(
    clauses: &Clauses,
    log: &Log,
    trail: &mut Trail,
    watching: &mut Watching,
    number: usize,
) -> Result<Option<usize>, NoMemory>
    requires prepared { IsPreparing clauses.now log.now trail.old watching.old.pairs.items watching.old.lists number }
    requires number { number < length clauses.now.clauses }
    ensures { IfOk result (PreparesIs clauses.now log.now trail.new watching.new.pairs.items watching.new.lists (number + 1)) }
{
    let Some(pair) = first_pair(clauses.clause(number)) else {
        return Ok(Some(number));
    };
    match settle(clauses, log, trail, pair, number)? {
        Some(conflict) => Ok(Some(conflict)),
        None => {
            watching.add(pair)?;
            Ok(None)
        }
    }
}

/// Watches each clause. It answers the number of one that is falsified already.
pub fn prepare(
    clauses: &Clauses,
    log: &Log,
    trail: &mut Trail,
    watching: &mut Watching,
) -> Result<Option<usize>, NoMemory>
    requires { IsPreparing clauses.now log.now trail.old watching.old.pairs.items watching.old.lists 0 }
    ensures { IfOk result (PreparesIs clauses.now log.now trail.new watching.new.pairs.items watching.new.lists (length clauses.now.clauses)) }
{
    for number in 0..clauses.len() {
        if let Some(conflict) = prepare_clause(clauses, log, trail, watching, number)? {
            return Ok(Some(conflict));
        }
    }
    Ok(None)
}
