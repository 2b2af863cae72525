ghost use Rattle.std.specs.Prelude.{◌≡◌, ◌++◌, [], IfOk, OnOk};
ghost use Rattle.raw_functions.specs.Meant.{block_of, blocks_among, blocks_of, kept_before, kept_of, next_of, terminator_of};
ghost use Rattle.raw_functions.specs.Steps.{HasNumbers, is_number, kept_block};

use crate::moves::{both, ended, into_vec, push_made, with};
use indexmap::IndexSet;
use mir_grammar::{Ending, Limited, RawBlock, Target};
use mir_ir::{Block, Statement, Terminator};
use sqlite_items::Items;
use std::alloc::Global;
use vk_core::{BlockId, NoMemory};

/// The numbers of the cleanup blocks.
fn cleanup_numbers(alloc: Global, blocks: &[RawBlock]) -> Result<IndexSet<u32>, NoMemory>
    ensures { IfOk result (λ numbers. HasNumbers numbers.keys blocks.now) }
{
    let mut numbers = IndexSet::new(alloc);
    let mut left = blocks;
    while let [block, rest @ ..] = left {
        if block.is_cleanup {
            numbers.insert(block.id.0)?;
        }
        left = rest;
    }
    Ok(numbers)
}

/// Where a call goes on.
fn next_of(edges: &IndexSet<u32>, target: Target) -> Option<BlockId>
    ensures { result ≡ next_of (is_number edges.now.keys) target }
{
    match target {
        Target::ToBlock(block) => Some(block),
        Target::ToLabel(block) => {
            if edges.contains(&block.0) {
                None
            } else {
                Some(block)
            }
        }
        Target::ToNone => None,
    }
}

fn terminator_of(edges: &IndexSet<u32>, ending: Ending) -> Terminator
    ensures { result ≡ terminator_of (is_number edges.now.keys) ending }
{
    match ending {
        Ending::Settled(terminator) => terminator,
        Ending::Calling(destination, callee, arguments, target) => Terminator::Call {
            destination,
            callee,
            arguments,
            next: next_of(edges, target),
        },
    }
}

fn ending_of(limited: Limited<Ending>) -> Ending
    ensures { result ≡ limited.value }
{
    let Limited { value, .. } = limited;
    value
}

/// Adds a statement that is kept.
fn push_kept(
    kept: &mut Vec<Statement>,
    statement: Limited<Option<Statement>>,
) -> Result<(), NoMemory>
    ensures { OnOk result (kept.new.items ≡ kept.old.items ++ kept_before statement.value []) }
{
    let Limited { value, .. } = statement;
    match value {
        Some(value) => {
            kept.push(value)?;
            Ok(())
        }
        None => Ok(()),
    }
}

/// The statements that are kept.
fn kept_of(
    alloc: Global,
    statements: Vec<Limited<Option<Statement>>>,
) -> Result<Items<Statement>, NoMemory>
    ensures { IfOk result (λ kept. kept ≡ kept_of statements.items) }
{
    let mut kept = Vec::new(alloc);
    for statement in statements {
        push_kept(&mut kept, statement)?;
    }
    Ok(Items::from_vec(kept))
}

/// The statements of a block.
fn statements_of(
    alloc: Global,
    statements: Items<Limited<Option<Statement>>>,
) -> Result<Items<Statement>, NoMemory>
    ensures { IfOk result (λ kept. kept ≡ kept_of statements) }
{
    let statements = into_vec(alloc, statements)?;
    let kept = kept_of(alloc, statements)?;
    Ok(kept)
}

/// What a block has that is meant: its number, its statements as they are written, and what ends it.
fn parts_of(block: RawBlock) -> (BlockId, Items<Limited<Option<Statement>>>, Ending)
    ensures { result ≡ (block.id, block.statements, block.ending.value) }
{
    let RawBlock {
        id,
        statements,
        ending,
        ..
    } = block;
    (id, statements, ending_of(ending))
}

fn block_of(alloc: Global, edges: &IndexSet<u32>, block: RawBlock) -> Result<Block, NoMemory>
    ensures { IfOk result (λ made. made ≡ block_of (is_number edges.now.keys) block) }
{
    let (id, statements, ending) = parts_of(block);
    let statements = statements_of(alloc, statements);
    let (terminator, statements) = with(terminator_of(edges, ending), statements)?;
    Ok(Block {
        id,
        statements,
        terminator,
    })
}

/// Adds a block, unless it is a cleanup block.
fn push_block(
    made: &mut Vec<Block>,
    alloc: Global,
    edges: &IndexSet<u32>,
    block: RawBlock,
) -> Result<(), NoMemory>
    ensures { OnOk result (made.new.items ≡ made.old.items ++ kept_block (is_number edges.now.keys) block) }
{
    if block.is_cleanup {
        ended(block);
        return Ok(());
    }
    push_made(made, block_of(alloc, edges, block))?;
    Ok(())
}

/// Without cleanup blocks.
fn blocks_among(
    alloc: Global,
    edges: &IndexSet<u32>,
    blocks: Vec<RawBlock>,
) -> Result<Vec<Block>, NoMemory>
    ensures { IfOk result (λ made. made.items ≡ blocks_among (is_number edges.now.keys) blocks.items) }
{
    let mut made = Vec::new(alloc);
    for block in blocks {
        push_block(&mut made, alloc, edges, block)?;
    }
    Ok(made)
}

/// The blocks of a function.
pub fn blocks_of(alloc: Global, blocks: Items<RawBlock>) -> Result<Items<Block>, NoMemory>
    ensures { IfOk result (λ made. made ≡ blocks_of blocks) }
{
    let edges = cleanup_numbers(alloc, blocks.as_slice());
    let (edges, blocks) = both(edges, into_vec(alloc, blocks))?;
    let made = blocks_among(alloc, &edges, blocks)?;
    Ok(Items::from_vec(made))
}
