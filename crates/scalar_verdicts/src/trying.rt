ghost use Rattle.std.specs.Prelude.{◌≡◌, ◌-◌, ◌^◌, ◌≤◌, ◌<◌, OnOk, true};
ghost use Rattle.scalar_runs.specs.Engine.{configuration};
ghost use Rattle.scalar_form.specs.Form.{is_scalar};
ghost use Rattle.scalar_runs.specs.Kinds.{width_of_kind};
ghost use Rattle.scalar_runs.specs.Run.{Chooses, start, step};
ghost use Rattle.scalar_verdicts.specs.Walks.{Explored, IsGreatest, IsWalk, Tried, TriedOne};

use crate::runs::note_replay;
use crate::walks::{Walk, branch_of, first_walk, go_on};
use mir_ir::Function;
use scalar_runs::{Step, ValueKind};
use scalar_terms::FaultRun;
use std::alloc::Global;
use vk_core::{BlockId, LocalId, NoMemory};
use word_bits::Word;

/// The greatest number of a word of so many bits.
fn greatest(width: u32) -> u128
    requires some { 1 ≤ width }
    requires few { width ≤ 128 }
    ensures { result ≡ 2 ^ width - 1 }
{
    if width == 128 {
        u128::MAX
    } else {
        (1 << width) - 1
    }
}

/// The greatest number of a value of the kind.
fn greatest_value(kind: ValueKind) -> u128
    ensures { IsGreatest kind result }
{
    match kind {
        ValueKind::Char => 0x10FFFF,
        _ => greatest(kind.width()),
    }
}

/// Finds each fault in which a run that goes on from the walk can end.
#[cycle(explore)]
fn explore(
    alloc: Global,
    function: &Function,
    walk: Walk,
    runs: &mut Vec<FaultRun>,
) -> Result<(), NoMemory>
    requires form { is_scalar function.now ≡ true }
    requires walk { IsWalk function.now walk }
    ensures { OnOk result (Explored function.now (configuration walk.state) runs.old.items runs.new.items) }
{
    let mut here = walk;
    match go_on(function, &mut here) {
        Step::Went => {}
        Step::Ended => {}
        Step::Cut => {}
        Step::Stuck => {}
        Step::Faulted(_class) => note_replay(alloc, function, here.numbers.as_slice(), runs)?,
        Step::Chooses {
            kind,
            destination,
            next,
        } => try_values(alloc, function, &here, kind, destination, next, runs)?,
    }
    Ok(())
}

/// Goes on with each value of the kind.
#[cycle(explore)]
fn try_values(
    alloc: Global,
    function: &Function,
    walk: &Walk,
    kind: ValueKind,
    destination: LocalId,
    next: BlockId,
    runs: &mut Vec<FaultRun>,
) -> Result<(), NoMemory>
    requires form { is_scalar function.now ≡ true }
    requires walk { IsWalk function.now walk.now }
    requires chooses { step function.now (configuration walk.now.state) ≡ Chooses kind destination.0 next.0 }
    ensures { OnOk result (Explored function.now (configuration walk.now.state) runs.old.items runs.new.items) }
{
    let last = greatest_value(kind);
    for number in 0..last {
        try_value(alloc, function, walk, kind, destination, next, number, runs)?;
    }
    try_value(alloc, function, walk, kind, destination, next, last, runs)?;
    Ok(())
}

/// Goes on with the word of this number, if it is a value of the kind.
#[cycle(explore)]
fn try_value(
    alloc: Global,
    function: &Function,
    walk: &Walk,
    kind: ValueKind,
    destination: LocalId,
    next: BlockId,
    number: u128,
    runs: &mut Vec<FaultRun>,
) -> Result<(), NoMemory>
    requires form { is_scalar function.now ≡ true }
    requires walk { IsWalk function.now walk.now }
    requires chooses { step function.now (configuration walk.now.state) ≡ Chooses kind destination.0 next.0 }
    ensures { OnOk result (TriedOne function.now (configuration walk.now.state) kind destination.0 next.0 number runs.old.items runs.new.items) }
{
    let word = Word {
        width: kind.width(),
        value: number,
    };
    if kind.has(word) {
        let branch = branch_of(alloc, function, walk, kind, destination, next, word)?;
        explore(alloc, function, branch, runs)?;
    }
    Ok(())
}

/// Finds each fault in which a run of the function can end, by trying all choices.
pub fn try_all(alloc: Global, function: &Function, runs: &mut Vec<FaultRun>) -> Result<(), NoMemory>
    requires { is_scalar function.now ≡ true }
    ensures { OnOk result (Explored function.now (start function.now) runs.old.items runs.new.items) }
{
    let walk = first_walk(alloc, function)?;
    explore(alloc, function, walk, runs)?;
    Ok(())
}
