//! What is learned at a conflict.

ghost use Rattle.std.specs.Prelude.{◌≡◌, ℕ, ◌+◌, ◌<◌, ◌≤◌, ◌++◌, ◌∷◌, [], length, OnOk};
ghost use Rattle.region_pool.specs.Blocks.{block_at};
ghost use Rattle.region_pool.specs.Refutation.{IsFalsified};
ghost use Rattle.sat_core.specs.Known.{known_clauses};
ghost use Rattle.sat_core.specs.Learned.{gather, literals_of_role, hints_of_role, IsAsserting, IsLinePair};
ghost use Rattle.sat_core.specs.Roles.{role_at, Derives, NoneKept, IsLastKept, IsLastDecision};
ghost use Rattle.sat_core.specs.Search.{IsSearch};
ghost use Rattle.sat_core.specs.Steps.{literals_of_steps, EachStep, Fits};

use crate::known::known_clause;
use crate::roles::{Role, blame, first_decision, last_kept};
use crate::trail::{Cause, Trail, negation_of};
use crate::watching::Pair;
use region_pool::{Clauses, Log};
use vk_core::NoMemory;

/// Takes a step's role away, for each step of the trail.
fn clear_roles(trail: &Trail, roles: &mut Vec<Role>) -> Result<(), NoMemory>
    ensures long { OnOk result (length roles.new.items ≡ length trail.now.steps) }
    ensures unused { OnOk result ((at : ℕ) → role_at roles.new.items at ≡ Role.Unused) }
{
    roles.clear();
    for _ in 0..trail.len() {
        roles.push(Role::Unused)?;
    }
    Ok(())
}

/// Keeps the steps that falsify a clause.
pub fn blame_conflict(
    clauses: &Clauses,
    log: &Log,
    trail: &Trail,
    roles: &mut Vec<Role>,
    conflict: usize,
) -> Result<(), NoMemory>
    requires search { IsSearch clauses.now log.now trail.now }
    requires conflict { conflict < length (known_clauses clauses.now log.now) }
    requires falsified { IsFalsified (literals_of_steps trail.now.steps) (block_at (known_clauses clauses.now log.now) conflict) }
    ensures derives { OnOk result
        (Derives (known_clauses clauses.now log.now) (block_at (known_clauses clauses.now log.now) conflict) trail.now.steps roles.new.items) }
    ensures kept { OnOk result ((decision : ℕ) → IsLastDecision trail.now.steps decision
        → ¬ NoneKept roles.new.items decision (length trail.now.steps)) }
{
    clear_roles(trail, roles)?;
    blame(trail, roles, known_clause(clauses, log, conflict));
    Ok(())
}

/// Writes the literals of the learned line.
pub fn write_literals(
    trail: &Trail,
    roles: &[Role],
    literals: &mut Vec<u64>,
) -> Result<(), NoMemory>
    requires { length roles.now ≡ length trail.now.steps }
    ensures { OnOk result (literals.new.items ≡ gather literals_of_role trail.now.steps roles.now) }
{
    literals.clear();
    for at in 0..trail.len() {
        if let Role::Kept = roles[at] {
            literals.push(negation_of(trail.step(at).literal))?;
        }
    }
    Ok(())
}

/// Appends the hint of one step to the hints of the learned line.
fn write_hint(cause: Cause, role: Role, hints: &mut Vec<u64>) -> Result<(), NoMemory>
    ensures { OnOk result ((literal : ℕ) → hints.new.items ≡ hints.old.items ++ hints_of_role role (record { literal = literal; cause = cause })) }
{
    if let Role::Resolved = role
        && let Cause::Clause(number) = cause
    {
        hints.push(number as u64)?;
    }
    Ok(())
}

/// Writes the hints of the learned line.
pub fn write_hints(
    trail: &Trail,
    roles: &[Role],
    conflict: usize,
    hints: &mut Vec<u64>,
) -> Result<(), NoMemory>
    requires { length roles.now ≡ length trail.now.steps }
    ensures { OnOk result (hints.new.items ≡ gather hints_of_role trail.now.steps roles.now ++ conflict ∷ []) }
{
    hints.clear();
    for at in 0..trail.len() {
        write_hint(trail.step(at).cause, roles[at], hints)?;
    }
    hints.push(conflict as u64)?;
    Ok(())
}

/// Where the steps are cut, and the literals of the learned line that are watched.
#[derive(Clone, Copy, Debug, PartialEq, Eq)]
pub struct Cut {
    pub at: usize,
    pub pair: Pair,
}

/// The place where the steps are cut: the first decision after the last kept step before the last decision. The line watches
/// the literals of the asserted step and of that one.
pub fn cut_of(trail: &Trail, roles: &[Role], decision: usize, asserted: usize) -> Cut
    requires fit { EachStep (Fits trail.now.variables) trail.now.steps }
    requires long { length roles.now ≡ length trail.now.steps }
    requires decision { IsLastDecision trail.now.steps decision }
    requires asserted { IsLastKept roles.now decision (length trail.now.steps) asserted }
    requires only { NoneKept roles.now decision asserted }
    ensures asserting { IsAsserting trail.now.steps roles.now asserted result.at }
    ensures pair { IsLinePair trail.now.steps roles.now asserted result.at result.pair }
{
    let first = negation_of(trail.step(asserted).literal);
    match last_kept(roles, 0, decision) {
        Some(top) => Cut {
            at: first_decision(trail, top + 1, decision),
            pair: Pair {
                first,
                second: negation_of(trail.step(top).literal),
            },
        },
        None => Cut {
            at: first_decision(trail, 0, decision),
            pair: Pair {
                first,
                second: first,
            },
        },
    }
}
