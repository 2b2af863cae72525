ghost use Rattle.std.specs.Prelude.{◌≡◌, ◌+◌, ◌*◌, IfOk, bytes_eq, replicate, slice_index};
ghost use Rattle.type_layouts.specs.Extents.{within_parts};
ghost use Rattle.type_layouts.specs.Parts.{counted, is_too_big, one_level, outline_parts, parts_table};

use crate::extent::{Extent, Held, PARTS_ABOVE, within_parts};
use crate::outline::Outline;
use std::alloc::Global;
use vk_core::NoMemory;

/// No type is larger than so many bytes.
const LARGEST: u64 = 4096;

/// No type has more parts.
const MOST_PARTS: u64 = 16384;

/// So many parts and so often those of another.
fn with_repeated(parts: u64, times: u64, each: u64) -> u64
    ensures { result ≡ within_parts (parts + times * each) }
{
    match times.checked_mul(each) {
        Some(product) => within_parts(parts as u128 + product as u128),
        None => PARTS_ABOVE,
    }
}

fn parts_at(table: &[u64], entry: usize) -> u64
    ensures { result ≡ slice_index table.now entry }
{
    match table.get(entry) {
        Some(parts) => *parts,
        None => 0,
    }
}

/// The parts of a type, where the table has those of the declared types.
pub fn counted(table: &[u64], parts: u64, held: &[Held]) -> u64
    ensures { result ≡ counted table.now parts held.now }
{
    let mut count = parts;
    for h in held {
        count = with_repeated(count, h.times, parts_at(table, h.entry));
    }
    count
}

pub fn one_level(alloc: Global, outlines: &[Outline], table: &[u64]) -> Result<Vec<u64>, NoMemory>
    ensures { IfOk result (λ next. next.items ≡ one_level outlines.now table.now) }
{
    let mut next = Vec::new(alloc);
    for outline in outlines {
        next.push(counted(table, outline.parts, outline.held.as_slice()))?;
    }
    Ok(next)
}

fn zeros(alloc: Global, count: usize) -> Result<Vec<u64>, NoMemory>
    ensures { IfOk result (λ v. v.items ≡ replicate count 0) }
{
    let zeros = vec![in alloc; 0; count]?;
    Ok(zeros)
}

pub fn is_same(a: &[u64], b: &[u64]) -> bool
    ensures { result ≡ bytes_eq a.now b.now }
{
    a == b
}

/// The parts of each declared type, level by level. It ends early where one level more changes nothing.
#[tactic(auto, unfolding(crate::specs::Parts::parts_table), using(crate::proofs::PartLaws::level_left, crate::proofs::PartLaws::stable_at))]
pub fn levelled_parts(alloc: Global, outlines: &[Outline]) -> Result<Vec<u64>, NoMemory>
    ensures { IfOk result (λ table. table.items ≡ parts_table outlines.now) }
{
    let mut table = zeros(alloc, outlines.len())?;
    let mut left = outlines.len();
    while left > 0 {
        let next = one_level(alloc, outlines, table.as_slice())?;
        if is_same(next.as_slice(), table.as_slice()) {
            return Ok(table);
        }
        table = next;
        left -= 1;
    }
    Ok(table)
}

/// Whether a type is larger than the limit, or has more parts.
#[tactic(auto, unfolding(crate::specs::Parts::is_too_big))]
pub fn is_too_big(table: &[u64], extent: &Extent) -> bool
    ensures { result ≡ is_too_big table.now extent.now }
{
    LARGEST < extent.size || MOST_PARTS < counted(table, extent.parts, extent.held.as_slice())
}
