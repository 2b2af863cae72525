ghost use Rattle.std.specs.Prelude.{◌≡◌, ◌<◌, ◌≤◌, ◌^◌, false, get_or, nat_le};
ghost use Rattle.scalar_runs.specs.Look.{block_of};
ghost use Rattle.scalar_form.specs.Size.{marked_block, size_of, size_of_block};

use crate::reached::{first_reached, reach};
use mir_ir::Function;
use scalar_runs::blocks_end;

/// What the block with this number adds to the size, where it is reached.
fn visit(function: &Function, marks: &mut [bool], number: usize) -> u128
    requires { number < 2 ^ 32 }
    ensures few { result ≤ 2 ^ 64 }
    ensures size { result ≡ size_of_block (get_or marks.old number false) (block_of function.now number) }
    ensures marks { marks.new ≡ marked_block marks.old number (block_of function.now number) }
{
    match reach(function, marks, number) {
        Some(block) => block.statements.len() as u128 + 1,
        None => 0,
    }
}

/// Whether at most 50,000 statements and terminators are reached.
#[tactic(auto, unfolding(crate::specs::Size::size_of))]
pub fn is_small(function: &Function) -> bool
    ensures { result ≡ nat_le (size_of function.now) 50000 }
{
    let mut marks = first_reached();
    let mut size: u128 = 0;
    for number in 0..blocks_end(function.blocks.as_slice()) {
        size += visit(function, &mut marks, number);
    }
    size <= 50_000
}
