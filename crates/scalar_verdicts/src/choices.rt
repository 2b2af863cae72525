ghost use Rattle.std.specs.Prelude.{◌≡◌, ◌*◌, ◌<◌, ◌≤◌, ◌^◌, false, get_or, min, nat_le};
ghost use Rattle.scalar_runs.specs.Look.{block_of};
ghost use Rattle.scalar_form.specs.Size.{marked_block};
ghost use Rattle.scalar_verdicts.specs.Choices.{block_choices, called_choices, choices_of, terminator_choices, values_of};

use mir_ir::{Function, Terminator};
use scalar_form::{first_reached, reach};
use scalar_runs::{Builtin, ValueKind, blocks_end, builtin_of};

/// No budget that can be spent is so large.
pub const MANY: u64 = 1 << 60;

/// How many words of so many bits there are, or `MANY` where there are more.
fn words(width: u32) -> u64
    ensures { result ≡ min (2 ^ width) (2 ^ 60) }
{
    if width < 60 { 1 << width } else { MANY }
}

/// How many values the kind has, or `MANY`.
fn values(kind: ValueKind) -> u64
    ensures { result ≡ min (values_of kind) (2 ^ 60) }
{
    match kind {
        ValueKind::Bool => words(1),
        ValueKind::Char => 1_112_064,
        ValueKind::Int(int) => words(int.width()),
        ValueKind::Unit => words(1),
        ValueKind::Never => words(1),
    }
}

fn called_choices(called: Option<Builtin>) -> u64
    ensures { result ≡ min (called_choices called) (2 ^ 60) }
{
    match called {
        None => 1,
        Some(builtin) => match builtin {
            Builtin::Any(kind) => values(kind),
            Builtin::Assume => 1,
            Builtin::Assert => 1,
            Builtin::Panic => 1,
        },
    }
}

fn terminator_choices(last: &Terminator) -> u64
    ensures { result ≡ min (terminator_choices last.now) (2 ^ 60) }
{
    match last {
        Terminator::Goto { .. } => 1,
        Terminator::Switch { .. } => 1,
        Terminator::Return => 1,
        Terminator::Unreachable => 1,
        Terminator::Drop { .. } => 1,
        Terminator::Assert { .. } => 1,
        Terminator::Call { callee, .. } => called_choices(builtin_of(callee)),
    }
}

/// In how many ways the block with this number chooses, and marks the blocks that it goes to, where it is reached.
fn visit(function: &Function, marks: &mut [bool], number: usize) -> u64
    requires { number < 2 ^ 32 }
    ensures ways { result ≡ min (block_choices (get_or marks.old number false) (block_of function.now number)) (2 ^ 60) }
    ensures marks { marks.new ≡ marked_block marks.old number (block_of function.now number) }
{
    match reach(function, marks, number) {
        Some(block) => terminator_choices(&block.terminator),
        None => 1,
    }
}

/// The product, or `MANY`.
fn times(a: u64, b: u64) -> u64
    requires first { a ≤ 2 ^ 60 }
    requires second { b ≤ 2 ^ 60 }
    ensures { result ≡ min (a * b) (2 ^ 60) }
{
    (a as u128 * b as u128).min(MANY as u128) as u64
}

/// Whether there are at most as many ways to give each choice a value as the budget.
#[tactic(auto, unfolding(crate::specs::Choices::choices_of))]
pub fn are_few(function: &Function, budget: u64) -> bool
    requires { budget < 2 ^ 60 }
    ensures { result ≡ nat_le (choices_of function.now) budget }
{
    let mut marks = first_reached();
    let mut ways: u64 = 1;
    for number in 0..blocks_end(function.blocks.as_slice()) {
        ways = times(ways, visit(function, &mut marks, number));
    }
    ways <= budget
}
