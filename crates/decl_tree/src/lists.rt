ghost use Rattle.std.specs.Prelude.{◌≡◌, ℕ, [], List, Result, Ok, Err, IfOk, IfErr};
ghost use Rattle.toml.specs.Data.{Data};
ghost use Rattle.toml.specs.View.{view, items_view};
ghost use Rattle.decl_tree.specs.declared.fault.KeyFault.{KeyFault};
ghost use Rattle.decl_tree.specs.declared.labels.Label.{Label};
ghost use Rattle.decl_tree.specs.Faults.{under, item_step};
ghost use Rattle.decl_tree.specs.Lists.{fresh, each, list_at};

use crate::fault::{DeclKind, KeyFault, Read};
use crate::labels::{Labels, Seen};
use crate::paths::{here, under_item, under_key};
use sqlite_items::Items;
use std::alloc::Global;
use toml::Value;

/// A way to read an element of a list.
pub trait Element {
    type Out;

    /// What the element at a place means, and the labels that no other element of its list may have.
    ghost meaning: { Self → ℕ → Data → Result (Self.Out × List Label) KeyFault };

    fn read(&self, alloc: Global, at: usize, value: &Value) -> Read<(Self::Out, Labels)>
        ensures { IfOk result (λ read. read ≡ meaning self.now at (view value.now)) };
}

/// An element whose labels are new, or a duplicate.
fn fresh<A: Drop>(alloc: Global, seen: &mut Seen, read: Result<(A, Labels), KeyFault>) -> Read<A>
    ensures ok { IfOk result (λ told. IfOk told (λ entry. fresh seen.old read ≡ Ok (entry, seen.new))) }
    ensures err { IfOk result (λ told. IfErr told (λ fault. fresh seen.old read ≡ Err fault)) }
{
    match read {
        Ok((entry, labels)) => {
            if seen.add_all(alloc, labels.as_slice())? {
                Ok(Ok(entry))
            } else {
                here(alloc, DeclKind::Duplicate)
            }
        }
        Err(fault) => Ok(Err(fault)),
    }
}

/// The element at a place, whose labels are seen from here on; its faults are told with the step that leads to it.
fn one<R: Element>(
    alloc: Global,
    reader: &R,
    seen: &mut Seen,
    at: usize,
    value: &Value,
) -> Read<R::Out>
where
    R::Out: Drop,
    ensures ok { IfOk result (λ told. IfOk told (λ entry. under (item_step at) (fresh seen.old (R.meaning reader.now at (view value.now))) ≡ Ok (entry, seen.new))) }
    ensures err { IfOk result (λ told. IfErr told (λ fault. under (item_step at) (fresh seen.old (R.meaning reader.now at (view value.now))) ≡ Err fault)) }
{
    let read = reader.read(alloc, at, value)?;
    let read = fresh(alloc, seen, read)?;
    under_item(alloc, at, read)
}

/// The elements of a list, up to the first fault.
pub fn each<R: Element>(alloc: Global, reader: &R, items: &[Value]) -> Read<Items<R::Out>>
where
    R::Out: Drop,
    ensures { IfOk result (λ read. read ≡ each (R.meaning reader.now) 0 [] (items_view items.now)) }
{
    let mut out = Vec::new(alloc);
    let mut seen = Seen::new(alloc);
    let mut at = 0;
    let mut left = items;
    while let [value, rest @ ..] = left {
        match one(alloc, reader, &mut seen, at, value)? {
            Ok(entry) => out.push(entry)?,
            Err(fault) => return Ok(Err(fault)),
        }
        left = rest;
        at += 1;
    }
    Ok(Ok(Items::from_vec(out)))
}

/// The list that a key holds; an absent list is empty.
pub fn list_at<R: Element>(
    alloc: Global,
    reader: &R,
    key: &str,
    value: &Value,
) -> Read<Items<R::Out>>
where
    R::Out: Drop,
    ensures { IfOk result (λ read. read ≡ list_at (R.meaning reader.now) key.now (view value.now)) }
{
    let read = match value.get(key) {
        None => Ok(Items::new(alloc)),
        Some(held) => match held.as_array() {
            None => here(alloc, DeclKind::WrongKind)?,
            Some(items) => each(alloc, reader, items.as_slice())?,
        },
    };
    under_key(alloc, key, read)
}
