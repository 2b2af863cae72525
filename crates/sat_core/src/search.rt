//! The search: each turn adds a step, learns a line, or has the answer.

ghost use Rattle.std.specs.Prelude.{◌≡◌, ℕ, ◌<◌, length, OnOk, IfOk, MatchBool};
ghost use Rattle.region_pool.specs.Blocks.{block_at};
ghost use Rattle.region_pool.specs.Refutation.{Refutes};
ghost use Rattle.sat_core.specs.Known.{known_clauses};
ghost use Rattle.sat_core.specs.Preparing.{IsPreparing};
ghost use Rattle.sat_core.specs.Progress.{progress};
ghost use Rattle.sat_core.specs.Roles.{Derives, NoneKept, IsLastDecision, NoneDecided};
ghost use Rattle.sat_core.specs.Search.{IsSearch};
ghost use Rattle.sat_core.specs.Passing.{IsConflict};
ghost use Rattle.sat_core.specs.Turn.{Goes, TurnIs, AreAllWatched, IsWatchingAll};

use crate::choice::choice_of;
use crate::learn::{blame_conflict, cut_of, write_hints, write_literals};
use crate::order::{Order, put_steps_back, raise_steps};
use crate::prepare::prepare;
use crate::propagate::propagate;
use crate::roles::{Role, analyze, last_decision, resolve_below};
use crate::trail::{Cause, Trail};
use crate::watching::Watching;
use region_pool::{Clauses, Log};
use std::alloc::Global;
use vk_core::NoMemory;

/// What a turn of the search says.
#[derive(Clone, Copy, Debug, PartialEq, Eq)]
pub enum Turn {
    /// The search goes on.
    Going,
    /// Each clause is satisfied.
    Satisfied,
    /// The last line is empty.
    Refuted,
    /// One more line would pass the budget.
    OutOfBudget,
}

/// The state of a search.
#[derive(Drop)]
pub struct Search {
    pub log: Log,
    pub trail: Trail,
    pub watching: Watching,
    // How many steps propagation has seen.
    pub front: usize,
    pub order: Order,
    // What an analysis of a conflict writes.
    pub roles: Vec<Role>,
    pub literals: Vec<u64>,
    pub hints: Vec<u64>,
}

impl Search {
    /// A search that has learned nothing yet.
    pub fn new(alloc: Global, clauses: &Clauses) -> Result<Search, NoMemory>
        ensures prepared { IfOk result (λ search. IsPreparing clauses.now search.log search.trail search.watching.pairs.items search.watching.lists 0) }
        ensures front { IfOk result (λ search. search.front ≡ 0) }
    {
        let trail = Trail::new(alloc, clauses.variables())?;
        let watching = Watching::new(alloc, 2 * trail.variables())?;
        let order = Order::new(alloc, trail.variables())?;
        Ok(Search {
            log: Log::new(alloc),
            trail,
            watching,
            front: 0,
            order,
            roles: Vec::new(alloc),
            literals: Vec::new(alloc),
            hints: Vec::new(alloc),
        })
    }

    /// The log that the search ends with.
    pub fn into_log(self) -> Log
        ensures { result ≡ self.log }
    {
        let Search {
            log,
            trail: _,
            watching: _,
            front: _,
            order: _,
            roles: _,
            literals: _,
            hints: _,
        } = self;
        log
    }
}

/// Adds the empty line, where no step is a decision.
fn refute(clauses: &Clauses, search: &mut Search, conflict: usize) -> Result<(), NoMemory>
    requires search { IsSearch clauses.now search.old.log search.old.trail }
    requires conflict { conflict < length (known_clauses clauses.now search.old.log) }
    requires derives { Derives (known_clauses clauses.now search.old.log) (block_at (known_clauses clauses.now search.old.log) conflict)
        search.old.trail.steps search.old.roles.items }
    requires forced { NoneDecided search.old.trail.steps 0 (length search.old.trail.steps) }
    ensures { OnOk result (Refutes clauses.now search.new.log) }
{
    let count = search.trail.len();
    resolve_below(
        clauses,
        &search.log,
        &search.trail,
        &mut search.roles,
        count,
    );
    write_literals(&search.trail, &search.roles, &mut search.literals)?;
    write_hints(&search.trail, &search.roles, conflict, &mut search.hints)?;
    search.log.add(&search.literals, &search.hints)?;
    Ok(())
}

/// Watches the clauses. It answers whether they are refuted already.
pub fn begin(clauses: &Clauses, search: &mut Search) -> Result<bool, NoMemory>
    requires prepared { IsPreparing clauses.now search.old.log search.old.trail search.old.watching.pairs.items search.old.watching.lists 0 }
    requires front { search.old.front ≡ 0 }
    ensures { IfOk result (λ refuted. MatchBool refuted (Refutes clauses.now search.new.log) (IsWatchingAll clauses.now search.new)) }
{
    let found = prepare(
        clauses,
        &search.log,
        &mut search.trail,
        &mut search.watching,
    )?;
    match found {
        None => Ok(false),
        Some(conflict) => {
            blame_conflict(
                clauses,
                &search.log,
                &search.trail,
                &mut search.roles,
                conflict,
            )?;
            refute(clauses, search, conflict)?;
            Ok(true)
        }
    }
}

/// Learns a line, and goes back to where it forces a literal.
fn learn(
    clauses: &Clauses,
    search: &mut Search,
    conflict: usize,
    decision: usize,
) -> Result<(), NoMemory>
    requires search { IsSearch clauses.now search.old.log search.old.trail }
    requires watches { AreAllWatched clauses.now search.old }
    requires conflict { conflict < length (known_clauses clauses.now search.old.log) }
    requires derives { Derives (known_clauses clauses.now search.old.log) (block_at (known_clauses clauses.now search.old.log) conflict)
        search.old.trail.steps search.old.roles.items }
    requires decision { IsLastDecision search.old.trail.steps decision }
    requires kept { ¬ NoneKept search.old.roles.items decision (length search.old.trail.steps) }
    ensures { OnOk result (Goes clauses.now (progress clauses.now.variables search.old.trail.steps) search.new) }
{
    let asserted = analyze(
        clauses,
        &search.log,
        &search.trail,
        &mut search.roles,
        decision,
    );
    write_literals(&search.trail, &search.roles, &mut search.literals)?;
    write_hints(&search.trail, &search.roles, conflict, &mut search.hints)?;
    let cut = cut_of(&search.trail, &search.roles, decision, asserted);
    let number = clauses.len() + search.log.len();
    search.log.add(&search.literals, &search.hints)?;
    raise_steps(&mut search.order, &search.trail, &search.roles);
    put_steps_back(&mut search.order, &search.trail, cut.at)?;
    search.trail.cut(cut.at);
    search.trail.push(cut.pair.first, Cause::Clause(number))?;
    search.watching.add(cut.pair)?;
    search.front = cut.at;
    Ok(())
}

/// Learns from a conflict, or ends the search.
fn meet_conflict(
    clauses: &Clauses,
    budget: u64,
    search: &mut Search,
    conflict: usize,
) -> Result<Turn, NoMemory>
    requires search { IsSearch clauses.now search.old.log search.old.trail }
    requires watches { AreAllWatched clauses.now search.old }
    requires conflict { IsConflict clauses.now search.old.log search.old.trail conflict }
    ensures { IfOk result (TurnIs clauses.now budget (progress clauses.now.variables search.old.trail.steps) search.new) }
{
    blame_conflict(
        clauses,
        &search.log,
        &search.trail,
        &mut search.roles,
        conflict,
    )?;
    match last_decision(&search.trail) {
        None => {
            refute(clauses, search, conflict)?;
            Ok(Turn::Refuted)
        }
        Some(decision) => {
            if search.log.len() as u64 == budget {
                return Ok(Turn::OutOfBudget);
            }
            learn(clauses, search, conflict, decision)?;
            Ok(Turn::Going)
        }
    }
}

/// Decides an open literal of a clause that is not satisfied, or finds that there is none.
fn decide_by_scan(clauses: &Clauses, search: &mut Search) -> Result<Turn, NoMemory>
    requires watching { IsWatchingAll clauses.now search.old }
    requires complete { search.old.front ≡ length search.old.trail.steps }
    ensures { (budget : ℕ) → IfOk result (TurnIs clauses.now budget (progress clauses.now.variables search.old.trail.steps) search.new) }
{
    match choice_of(clauses, &search.trail) {
        Some(literal) => {
            search.trail.push(literal, Cause::Decision)?;
            Ok(Turn::Going)
        }
        None => Ok(Turn::Satisfied),
    }
}

/// Decides a literal, where propagation is complete.
fn decide(clauses: &Clauses, search: &mut Search) -> Result<Turn, NoMemory>
    requires watching { IsWatchingAll clauses.now search.old }
    requires complete { search.old.front ≡ length search.old.trail.steps }
    ensures { (budget : ℕ) → IfOk result (TurnIs clauses.now budget (progress clauses.now.variables search.old.trail.steps) search.new) }
{
    match search.order.suggest(&search.trail) {
        Some(literal) => {
            search.trail.push(literal, Cause::Decision)?;
            Ok(Turn::Going)
        }
        None => {
            let turn = decide_by_scan(clauses, search)?;
            Ok(turn)
        }
    }
}

/// Propagates, and decides a literal or meets a conflict.
pub fn take_turn(clauses: &Clauses, budget: u64, search: &mut Search) -> Result<Turn, NoMemory>
    requires { IsWatchingAll clauses.now search.old }
    ensures { IfOk result (TurnIs clauses.now budget (progress clauses.now.variables search.old.trail.steps) search.new) }
{
    let found = propagate(
        clauses,
        &search.log,
        &mut search.trail,
        &mut search.watching,
        search.front,
    )?;
    match found {
        Some(conflict) => {
            let turn = meet_conflict(clauses, budget, search, conflict)?;
            Ok(turn)
        }
        None => {
            search.front = search.trail.len();
            let turn = decide(clauses, search)?;
            Ok(turn)
        }
    }
}
