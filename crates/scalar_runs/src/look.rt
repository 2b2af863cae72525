ghost use Rattle.std.specs.Prelude.{◌≡◌, ◌≤◌, ◌^◌, ◌==◌, find};
ghost use Rattle.std.specs.Option.{option_copied};
ghost use Rattle.scalar_runs.specs.Look.{block_of, blocks_end, local_kind, locals_end};

use crate::kinds::{ValueKind, kind_of};
use mir_ir::{Block, Function, Local};
use vk_core::{BlockId, LocalId};

/// The block with this label.
pub fn block_of(function: &Function, id: BlockId) -> Option<&Block>
    ensures { option_copied result ≡ block_of function.now id.0 }
{
    function
        .blocks
        .as_slice()
        .iter()
        .find(|block| block.id.0 == id.0)
}

/// What the local holds: None where there is no such local, and for a type that is no scalar.
pub fn local_kind(function: &Function, id: LocalId) -> Option<ValueKind>
    ensures { result ≡ local_kind function.now id.0 }
{
    match local(function, id) {
        None => None,
        Some(local) => kind_of(&local.ty),
    }
}

fn local(function: &Function, id: LocalId) -> Option<&Local>
    ensures { option_copied result ≡ find (λ l. l.id.0 == id.0) function.now.locals }
{
    function
        .locals
        .as_slice()
        .iter()
        .find(|local| local.id.0 == id.0)
}

/// One more than the greatest number of a local, 0 where there is none.
pub fn locals_end(locals: &[Local]) -> usize
    ensures { result ≡ locals_end locals.now }
{
    match locals {
        [] => 0,
        [local, rest @ ..] => (local.id.0 as usize + 1).max(locals_end(rest)),
    }
}

/// One more than the greatest number of a block, 0 where there is none.
pub fn blocks_end(blocks: &[Block]) -> usize
    ensures end { result ≡ blocks_end blocks.now }
    ensures few { result ≤ 2 ^ 32 }
{
    match blocks {
        [] => 0,
        [block, rest @ ..] => (block.id.0 as usize + 1).max(blocks_end(rest)),
    }
}
