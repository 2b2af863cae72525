ghost use Rattle.std.specs.Prelude.{◌≡◌, ◌<◌, ◌≤◌, ◌^◌, ℕ, IfOk, OnOk, true, vec_len};
ghost use Rattle.scalar_runs.specs.Engine.{configuration};
ghost use Rattle.scalar_form.specs.Form.{is_scalar};
ghost use Rattle.scalar_runs.specs.Kinds.{is_value};
ghost use Rattle.scalar_runs.specs.Run.{Chooses, start, step};
ghost use Rattle.scalar_verdicts.specs.Walks.{HasGone, IsBranch, IsPut, IsStop, IsWalk};

use mir_ir::Function;
use scalar_runs::{State, Step, ValueKind, begin, store, take_step};
use std::alloc::Global;
use vk_core::{BlockId, LocalId, NoMemory};
use word_bits::Word;

/// A run so far: where it stands, the choices that it took, by the numbers of their blocks, and how many steps it made.
#[derive(Drop)]
pub struct Walk {
    pub state: State,
    pub numbers: Vec<u128>,
    pub steps: u64,
}

/// A run before its first step.
pub fn first_walk(alloc: Global, function: &Function) -> Result<Walk, NoMemory>
    ensures state { IfOk result (λ walk. configuration walk.state ≡ start function.now) }
    ensures walk { IfOk result (IsWalk function.now) }
{
    let state = begin(alloc, function)?;
    Ok(Walk {
        state,
        numbers: Vec::new(alloc),
        steps: 0,
    })
}

/// Goes on to the next choice, to a fault or to the end.
pub fn go_on(function: &Function, walk: &mut Walk) -> Step
    requires form { is_scalar function.now ≡ true }
    requires walk { IsWalk function.now walk.old }
    ensures gone { HasGone function.now walk.old walk.new }
    ensures stop { IsStop (step function.now (configuration walk.new.state)) result }
{
    for _ in 0..50_000_u64 {
        match take_step(function, &mut walk.state) {
            Step::Went => {
                walk.steps += 1;
            }
            stop => return stop,
        }
    }
    unreachable!()
}

/// The list with a number at a place.
fn put(numbers: &mut Vec<u128>, place: usize, number: u128) -> Result<(), NoMemory>
    ensures { OnOk result (IsPut numbers.old.items numbers.new.items place number) }
{
    while numbers.len() <= place {
        numbers.push(0)?;
    }
    numbers[place] = number;
    Ok(())
}

/// The walk behind a choice.
pub fn branch_of(
    alloc: Global,
    function: &Function,
    walk: &Walk,
    kind: ValueKind,
    destination: LocalId,
    next: BlockId,
    word: Word,
) -> Result<Walk, NoMemory>
    requires form { is_scalar function.now ≡ true }
    requires walk { IsWalk function.now walk.now }
    requires chooses { step function.now (configuration walk.now.state) ≡ Chooses kind destination.0 next.0 }
    requires word { is_value kind word ≡ true }
    ensures { IfOk result (λ branch. IsBranch function.now walk.now branch destination.0 next.0 word) }
{
    let mut values = Vec::from_slice(alloc, walk.state.values.as_slice())?;
    store(&mut values, destination, word);
    let mut numbers = Vec::from_slice(alloc, walk.numbers.as_slice())?;
    put(&mut numbers, walk.state.block.0 as usize, word.value)?;
    Ok(Walk {
        state: State {
            block: next,
            index: 0,
            values,
        },
        numbers,
        steps: walk.steps + 1,
    })
}
