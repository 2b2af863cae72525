ghost use Rattle.std.specs.Prelude.{◌≡◌, ◌^◌, ◌≤◌, IfOk, option_copied};
ghost use Rattle.type_rules.specs.Code.{block_fits, blocks_end, blocks_fit, steps_fit};

use crate::sites::refused_at;
use crate::statements::statement_fits;
use crate::terminators::terminator_fits;
use mir_ir::{Block, Function};
use name_tables::{Body, Declared, Table};
use std::alloc::Global;
use type_rules::Refusal;
use vk_core::{BlockId, NoMemory};

/// The statements of a block, and then its terminator.
fn steps_fit<'a>(
    alloc: Global,
    functions: &Table<'a, Function>,
    declared: &Declared<'a>,
    number: usize,
    body: &Body<'a>,
    block: &'a Block,
) -> Result<Result<(), Refusal>, NoMemory>
    ensures { IfOk result (λ refused. refused ≡ steps_fit functions.now declared.now number body.now block.now.id 0 block.now.statements block.now.terminator) }
{
    let statements = block.statements.as_slice();
    let mut index = 0;
    while index < statements.len() {
        match statement_fits(declared, body, &statements[index]) {
            Ok(()) => index += 1,
            Err(kind) => return refused_at(number, block.id, index, Err(kind)),
        }
    }
    let fits = terminator_fits(alloc, functions, declared, body, &block.terminator)?;
    refused_at(number, block.id, index, fits)
}

/// The block with this label, where there is one.
fn block_fits<'a>(
    alloc: Global,
    functions: &Table<'a, Function>,
    declared: &Declared<'a>,
    number: usize,
    body: &Body<'a>,
    block: Option<&'a Block>,
) -> Result<Result<(), Refusal>, NoMemory>
    ensures { IfOk result (λ refused. refused ≡ block_fits functions.now declared.now number body.now (option_copied block.entry)) }
{
    match block {
        None => Ok(Ok(())),
        Some(block) => steps_fit(alloc, functions, declared, number, body, block),
    }
}

/// One more than the greatest number of a block, and 0 where there is none.
fn blocks_end(blocks: &[Block]) -> usize
    ensures end { result ≡ blocks_end blocks.now }
    ensures few { result ≤ 2 ^ 32 }
{
    let mut end = 0;
    let mut place = 0;
    while place < blocks.len() {
        end = (blocks[place].id.0 as usize + 1).max(end);
        place += 1;
    }
    end
}

/// The blocks of a function by their numbers.
#[tactic(auto, using(crate::proofs::Visits::blocks_off))]
pub fn blocks_fit<'a>(
    alloc: Global,
    functions: &Table<'a, Function>,
    declared: &Declared<'a>,
    number: usize,
    body: &Body<'a>,
) -> Result<Result<(), Refusal>, NoMemory>
    ensures { IfOk result (λ refused. refused ≡ blocks_fit functions.now declared.now number body.now (blocks_end body.now.blocks)) }
{
    let end = blocks_end(body.function().blocks.as_slice());
    let mut label = 0;
    while label < end {
        let block = body.block_at(BlockId(label as u32));
        let fitted = block_fits(alloc, functions, declared, number, body, block)?;
        match fitted {
            Ok(()) => label += 1,
            Err(refusal) => return Ok(Err(refusal)),
        }
    }
    Ok(Ok(()))
}
