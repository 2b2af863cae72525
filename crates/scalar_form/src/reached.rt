ghost use Rattle.std.specs.Prelude.{◌≡◌, ◌<◌, ◌^◌, false, get_or};
ghost use Rattle.std.specs.Option.{option_copied};
ghost use Rattle.scalar_runs.specs.Look.{block_of};
ghost use Rattle.scalar_form.specs.Size.{first_reached, marked, marked_arms, marked_block, marked_by, marked_next, reached_block};

use mir_ir::{Arm, Block, Function, Terminator};
use scalar_runs::block_of;
use vk_core::BlockId;

/// The blocks that a function can have: a number of a block is at most 4095.
pub const BLOCKS: usize = 4096;

fn mark(marks: &mut [bool], target: BlockId)
    ensures { marks.new ≡ marked marks.old target }
{
    let at = target.0 as usize;
    if at < marks.len() {
        marks[at] = true;
    }
}

fn mark_arms(marks: &mut [bool], arms: &[Arm])
    ensures { marks.new ≡ marked_arms marks.old arms.now }
{
    let mut left = arms;
    while let [arm, rest @ ..] = left {
        mark(marks, arm.target);
        left = rest;
    }
}

fn mark_next(marks: &mut [bool], next: Option<BlockId>)
    ensures { marks.new ≡ marked_next marks.old next }
{
    match next {
        None => {}
        Some(next) => mark(marks, next),
    }
}

/// Marks the blocks that the terminator goes to.
fn mark_targets(marks: &mut [bool], last: &Terminator)
    ensures { marks.new ≡ marked_by marks.old last.now }
{
    match last {
        Terminator::Goto { target } => mark(marks, *target),
        Terminator::Switch {
            arms,
            otherwise,
            ..
        } => {
            mark_arms(marks, arms.as_slice());
            mark(marks, *otherwise);
        }
        Terminator::Return | Terminator::Unreachable => {}
        Terminator::Drop { next, .. } => mark(marks, *next),
        Terminator::Assert { next, .. } => mark(marks, *next),
        Terminator::Call { next, .. } => mark_next(marks, *next),
    }
}

/// The marks at the beginning: bb0 alone is reached.
#[tactic(auto, unfolding(crate::specs::Size::first_reached))]
pub fn first_reached() -> [bool; BLOCKS]
    ensures { result ≡ first_reached }
{
    let mut marks = [false; BLOCKS];
    marks[0] = true;
    marks
}

/// The block with this number, where it is marked as reached; then the blocks that it goes to are marked too.
pub fn reach<'a>(function: &'a Function, marks: &mut [bool], number: usize) -> Option<&'a Block>
    requires { number < 2 ^ 32 }
    ensures block { option_copied result ≡ reached_block (get_or marks.old number false) (block_of function.now number) }
    ensures marks { marks.new ≡ marked_block marks.old number (block_of function.now number) }
{
    let is_reached = match marks.get(number) {
        Some(mark) => *mark,
        None => false,
    };
    if !is_reached {
        return None;
    }
    let block = block_of(function, BlockId(number as u32))?;
    mark_targets(marks, &block.terminator);
    Some(block)
}
