ghost use Rattle.std.specs.Prelude.{◌≡◌, ◌==◌};
ghost use Rattle.std.specs.List.{list_any};
ghost use Rattle.scalar_form.specs.Form.{are_locals, are_numbered, is_scalar, returns_unit};

use crate::size::is_small;
use crate::typing::{agree, are_blocks};
use mir_ir::{Block, Function, Local};
use scalar_runs::{ValueKind, block_of, kind_of, local_kind};
use vk_core::{BlockId, LocalId};

fn has_local(locals: &[Local], id: LocalId) -> bool
    ensures { result ≡ list_any (λ other. other.id.0 == id.0) locals.now }
{
    locals.iter().any(|other| other.id.0 == id.0)
}

fn are_locals(locals: &[Local]) -> bool
    ensures { result ≡ are_locals locals.now }
{
    match locals {
        [] => true,
        [local, rest @ ..] => {
            local.id.0 < 4096
                && kind_of(&local.ty).is_some()
                && !has_local(rest, local.id)
                && are_locals(rest)
        }
    }
}

fn has_block(blocks: &[Block], id: BlockId) -> bool
    ensures { result ≡ list_any (λ other. other.id.0 == id.0) blocks.now }
{
    blocks.iter().any(|other| other.id.0 == id.0)
}

fn are_numbered(blocks: &[Block]) -> bool
    ensures { result ≡ are_numbered blocks.now }
{
    match blocks {
        [] => true,
        [block, rest @ ..] => {
            block.id.0 < 4096 && !has_block(rest, block.id) && are_numbered(rest)
        }
    }
}

fn returns_unit(kind: Option<ValueKind>) -> bool
    ensures { result ≡ returns_unit kind }
{
    match kind {
        None => true,
        Some(kind) => kind.same(ValueKind::Unit),
    }
}

/// Whether the function is of the scalar form: without parameters and result, on locals that hold integers, `bool`,
/// `char`, `()` or `!`, with jumps to greater numbers, and of at most 50,000 statements and terminators.
#[tactic(auto, unfolding(crate::specs::Form::is_scalar))]
pub fn is_scalar(function: &Function) -> bool
    ensures { result ≡ is_scalar function.now }
{
    function.parameters == 0
        && agree(kind_of(&function.result), Some(ValueKind::Unit))
        && are_locals(function.locals.as_slice())
        && returns_unit(local_kind(function, LocalId(0)))
        && are_numbered(function.blocks.as_slice())
        && block_of(function, BlockId(0)).is_some()
        && are_blocks(function, function.blocks.as_slice())
        && is_small(function)
}
