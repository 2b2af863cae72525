ghost use Rattle.std.specs.Prelude.{◌≡◌, IfOk};
ghost use Rattle.mir_grammar.specs.Values.{values_of, all_passed};

use mir_grammar::{Limited, Passed};
use sqlite_items::Items;
use std::alloc::Global;
use vk_core::NoMemory;

/// The limits that any of these passes.
pub fn all_passed<A: Drop>(parts: &[Limited<A>]) -> Passed
    ensures { result ≡ all_passed parts.now }
{
    let mut passed = Passed::none();
    let mut left = parts;
    while let [part, rest @ ..] = left {
        passed = passed.both(part.passed);
        left = rest;
    }
    passed
}

fn value_of<A: Drop>(part: Limited<A>) -> A
    ensures { result ≡ part.value }
{
    let Limited { value, .. } = part;
    value
}

/// The values alone, in their order.
pub fn values_of<A: Drop>(alloc: Global, parts: Items<Limited<A>>) -> Result<Items<A>, NoMemory>
    ensures { IfOk result (λ values. values ≡ values_of parts) }
{
    let mut values = Vec::new(alloc);
    let mut left = parts;
    while let Some(part) = left.pop() {
        values.push(value_of(part))?;
    }
    values.reverse();
    Ok(Items::from_vec(values))
}
