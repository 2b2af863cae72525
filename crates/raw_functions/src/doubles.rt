ghost use Rattle.std.specs.Prelude.{◌≡◌, ◌++◌, IfOk, OnOk};
ghost use Rattle.raw_functions.specs.Doubles.{duplicate_of, function_spots, label_spots, local_spots, second_in, second_inside, second_of};
ghost use Rattle.raw_functions.specs.Noted.{all_noted};

use crate::names::{Names, earlier};
use mir_grammar::{Declared, RawBlock, RawFunction};
use std::alloc::Global;
use vk_core::NoMemory;

/// Where the earliest function's name starts that stands before.
#[tactic(auto, using(crate::proofs::Noting::second_is))]
fn second_function(alloc: Global, functions: &[RawFunction]) -> Result<Option<usize>, NoMemory>
    ensures { IfOk result (λ start. start ≡ second_of (function_spots functions.now)) }
{
    let mut names = Names::new(alloc);
    let mut left = functions;
    while let [function, rest @ ..] = left {
        names.note(function.name.text.as_slice(), function.name.start)?;
        left = rest;
    }
    Ok(names.second())
}

#[tactic(auto, using(crate::proofs::Noting::second_is))]
fn second_label(alloc: Global, blocks: &[RawBlock]) -> Result<Option<usize>, NoMemory>
    ensures { IfOk result (λ start. start ≡ second_of (label_spots blocks.now)) }
{
    let mut names = Names::new(alloc);
    let mut left = blocks;
    while let [block, rest @ ..] = left {
        names.note(block.word.as_slice(), block.start)?;
        left = rest;
    }
    Ok(names.second())
}

fn note_locals<'a>(names: &mut Names<'a>, locals: &'a [Declared]) -> Result<(), NoMemory>
    ensures { OnOk result (names.new ≡ all_noted names.old (local_spots locals.now)) }
{
    let mut left = locals;
    while let [local, rest @ ..] = left {
        names.note(local.word.as_slice(), local.start)?;
        left = rest;
    }
    Ok(())
}

#[tactic(auto, using(crate::proofs::Noting::second_is, crate::proofs::Noting::noted_on))]
fn second_local(
    alloc: Global,
    parameters: &[Declared],
    items: &[Declared],
) -> Result<Option<usize>, NoMemory>
    ensures { IfOk result (λ start. start ≡ second_of (local_spots parameters.now ++ local_spots items.now)) }
{
    let mut names = Names::new(alloc);
    note_locals(&mut names, parameters)?;
    note_locals(&mut names, items)?;
    Ok(names.second())
}

/// Where the earliest label or local of a function starts that stands before.
#[tactic(auto, unfolding(crate::specs::Doubles::second_in))]
fn second_in(alloc: Global, function: &RawFunction) -> Result<Option<usize>, NoMemory>
    ensures { IfOk result (λ start. start ≡ second_in function.now) }
{
    let label = second_label(alloc, function.blocks.as_slice())?;
    let local = second_local(
        alloc,
        function.parameters.as_slice(),
        function.items.as_slice(),
    )?;
    Ok(earlier(label, local))
}

#[tactic(auto, using(crate::proofs::Noting::earlier_none, crate::proofs::Noting::earlier_assoc))]
fn second_inside(alloc: Global, functions: &[RawFunction]) -> Result<Option<usize>, NoMemory>
    ensures { IfOk result (λ start. start ≡ second_inside functions.now) }
{
    let mut second = None;
    let mut left = functions;
    while let [function, rest @ ..] = left {
        let inside = second_in(alloc, function)?;
        second = earlier(second, inside);
        left = rest;
    }
    Ok(second)
}

/// Where the earliest name starts that stands before: that of a function, or a label or a local in one.
#[tactic(auto, unfolding(crate::specs::Doubles::duplicate_of))]
pub fn duplicate_of(alloc: Global, functions: &[RawFunction]) -> Result<Option<usize>, NoMemory>
    ensures { IfOk result (λ start. start ≡ duplicate_of functions.now) }
{
    let function = second_function(alloc, functions)?;
    let inside = second_inside(alloc, functions)?;
    Ok(earlier(function, inside))
}
