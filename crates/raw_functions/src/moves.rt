ghost use Rattle.std.specs.Prelude.{◌≡◌, ◌++◌, ◌∷◌, [], IfOk, IsOkAnd, Ok, OnOk};

use sqlite_items::Items;
use std::alloc::Global;
use vk_core::NoMemory;

/// The items, in their order.
pub fn into_vec<T: Drop>(alloc: Global, items: Items<T>) -> Result<Vec<T>, NoMemory>
    ensures { IfOk result (λ moved. moved.items ≡ items) }
{
    let mut items = items;
    let mut moved = Vec::with_capacity(alloc, items.len())?;
    while let Some(item) = items.pop() {
        moved.push(item)?;
    }
    moved.reverse();
    Ok(moved)
}

/// Two values that were made, or want of memory. Made first and joined by this, no value is let go of on its own.
pub fn both<A: Drop, B: Drop>(
    first: Result<A, NoMemory>,
    second: Result<B, NoMemory>,
) -> Result<(A, B), NoMemory>
    ensures { IfOk result (λ pair. (first ≡ Ok pair.0) × (second ≡ Ok pair.1)) }
{
    match first {
        Err(none) => Err(none),
        Ok(first) => match second {
            Err(none) => Err(none),
            Ok(second) => Ok((first, second)),
        },
    }
}

/// A value and one that was made, or want of memory.
pub fn with<A: Drop, B: Drop>(first: A, second: Result<B, NoMemory>) -> Result<(A, B), NoMemory>
    ensures { IfOk result (λ pair. (pair.0 ≡ first) × (second ≡ Ok pair.1)) }
{
    match second {
        Err(none) => Err(none),
        Ok(second) => Ok((first, second)),
    }
}

/// Adds what was made, or tells of want of memory.
pub fn push_made<T: Drop>(list: &mut Vec<T>, made: Result<T, NoMemory>) -> Result<(), NoMemory>
    ensures { OnOk result (IsOkAnd made (λ one. list.new.items ≡ list.old.items ++ one ∷ [])) }
{
    let one = made?;
    list.push(one)?;
    Ok(())
}

/// Lets go of a value.
pub fn ended<T: Drop>(_value: T) {}
