ghost use Rattle.std.specs.Prelude.{◌≡◌, ◌+◌, ◌≤◌, ◌<◌, ◌^◌, OnOk, length, true};
ghost use Rattle.value_terms.specs.Made.{IsFree};
ghost use Rattle.scalar_form.specs.Form.{is_scalar};
ghost use Rattle.scalar_form.specs.Typing.{is_block};
ghost use Rattle.scalar_terms.specs.Ends.{IsPassed};
ghost use Rattle.scalar_terms.specs.Joins.{AreWays};
ghost use Rattle.scalar_terms.specs.Sweeps.{AreSwept, HaveRoom};
ghost use Rattle.scalar_terms.specs.Ways.{AreFailures, IsWay};

use crate::failures::Failure;
use crate::join::take_way;
use crate::steps::run_statements;
use crate::terminators::finish;
use crate::ways::Way;
use mir_ir::{Block, Function};
use scalar_runs::{block_of, blocks_end};
use std::alloc::Global;
use sym_terms::Terms;
use vk_core::{BlockId, NoMemory};

/// Goes on behind a block, to which runs come by this way.
fn pass(
    alloc: Global,
    terms: &mut Terms,
    failures: &mut Vec<Failure>,
    function: &Function,
    way: &mut Way,
    ways: &mut [Option<Way>],
    block: &Block,
) -> Result<(), NoMemory>
    requires room { HaveRoom function.now (length ways.old) }
    requires free { IsFree terms.old block.now.id.0 }
    requires way { IsWay function.now terms.old way.old }
    requires ways { AreWays function.now terms.old ways.old }
    requires failures { AreFailures terms.old failures.old.items }
    requires form { is_block function.now block.now ≡ true }
    ensures { OnOk result (IsPassed function.now terms.old terms.new way.old ways.old ways.new failures.old.items failures.new.items block.now) }
{
    let count = block.statements.len() as u32;
    run_statements(
        terms,
        failures,
        function,
        way,
        block.id,
        block.statements.as_slice(),
    )?;
    finish(
        alloc,
        terms,
        failures,
        function,
        way,
        ways,
        block.id,
        count,
        &block.terminator,
    )?;
    Ok(())
}

/// Goes on behind the block with this number, if there is one and runs come to it.
fn pass_number(
    alloc: Global,
    terms: &mut Terms,
    failures: &mut Vec<Failure>,
    function: &Function,
    ways: &mut [Option<Way>],
    number: usize,
) -> Result<(), NoMemory>
    requires number { number < 2 ^ 32 }
    requires room { HaveRoom function.now (length ways.old) }
    requires form { is_scalar function.now ≡ true }
    requires swept { AreSwept function.now terms.old ways.old failures.old.items number }
    ensures same { OnOk result (length ways.new ≡ length ways.old) }
    ensures swept { OnOk result (AreSwept function.now terms.new ways.new failures.new.items (number + 1)) }
{
    match block_of(function, BlockId(number as u32)) {
        None => Ok(()),
        Some(block) => match take_way(ways, number) {
            None => Ok(()),
            Some(mut way) => {
                pass(alloc, terms, failures, function, &mut way, ways, block)?;
                Ok(())
            }
        },
    }
}

/// Goes on behind all blocks, in the order of their numbers.
pub fn pass_all(
    alloc: Global,
    terms: &mut Terms,
    failures: &mut Vec<Failure>,
    function: &Function,
    ways: &mut [Option<Way>],
) -> Result<(), NoMemory>
    requires room { HaveRoom function.now (length ways.old) }
    requires few { length ways.old ≤ 2 ^ 32 }
    requires form { is_scalar function.now ≡ true }
    requires swept { AreSwept function.now terms.old ways.old failures.old.items 0 }
    ensures { OnOk result (AreSwept function.now terms.new ways.new failures.new.items (length ways.old)) }
{
    for number in 0..ways.len() {
        pass_number(alloc, terms, failures, function, ways, number)?;
    }
    Ok(())
}
