//! A line is made shorter: a literal is left out where the others imply it.

ghost use Rattle.std.specs.Prelude.{◌≡◌, ◌+◌, ◌<◌, ◌≤◌, length};
ghost use Rattle.region_pool.specs.Clauses.{AreLiterals};
ghost use Rattle.sat_core.specs.Known.{known_clauses};
ghost use Rattle.sat_core.specs.Roles.{Keeps, SameFrom};
ghost use Rattle.sat_core.specs.Search.{IsSearch};

use crate::known::known_clause;
use crate::roles::{Role, resolve};
use crate::trail::{Cause, Trail, negation_of};
use region_pool::{Clauses, Log};

/// Whether each false literal of the clause is so by a step that has a role, or by one before the first decision.
fn is_covered(trail: &Trail, roles: &[Role], clause: &[u64], first: usize) -> bool
    requires literals { AreLiterals trail.now.variables clause.now }
    requires long { length roles.now ≡ length trail.now.steps }
{
    for literal in clause {
        let place = trail.place(negation_of(*literal));
        if place > first && matches!(roles[place - 1], Role::Unused) {
            return false;
        }
    }
    true
}

/// Resolves a kept step where the clause that forced it asks for no other step to be kept.
fn shorten_at(
    clauses: &Clauses,
    log: &Log,
    trail: &Trail,
    roles: &mut [Role],
    first: usize,
    at: usize,
)
    requires search { IsSearch clauses.now log.now trail.now }
    requires long { length roles.old ≡ length trail.now.steps }
    requires at { at < length trail.now.steps }
    ensures derives { Keeps (known_clauses clauses.now log.now) trail.now.steps roles.old roles.new }
    ensures later { SameFrom (at + 1) roles.old roles.new }
{
    if let Role::Kept = roles[at]
        && let Cause::Clause(number) = trail.step(at).cause
        && is_covered(trail, roles, known_clause(clauses, log, number), first)
    {
        resolve(clauses, log, trail, roles, at);
    }
}

/// Resolves kept steps from the first decision to the last that the others imply.
pub fn shorten(
    clauses: &Clauses,
    log: &Log,
    trail: &Trail,
    roles: &mut [Role],
    first: usize,
    decision: usize,
)
    requires search { IsSearch clauses.now log.now trail.now }
    requires long { length roles.old ≡ length trail.now.steps }
    requires decision { decision ≤ length trail.now.steps }
    ensures derives { Keeps (known_clauses clauses.now log.now) trail.now.steps roles.old roles.new }
    ensures later { SameFrom decision roles.old roles.new }
{
    let mut at = decision;
    while at > first {
        at -= 1;
        shorten_at(clauses, log, trail, roles, first, at);
    }
}
