ghost use Rattle.std.specs.Prelude.{◌≡◌, IfOk};
ghost use Rattle.std.specs.Option.{option_copied};
ghost use Rattle.toml.specs.View.{view, table_view};
ghost use Rattle.decl_tree.specs.Faults.{here, under, key_step};
ghost use Rattle.decl_tree.specs.Keys.{texts_now, is_among, first_other, only_keys};
ghost use Rattle.decl_tree.specs.declared.fault.DeclKind.TheVariants as kind;

use crate::fault::{DeclKind, Read};
use crate::paths::{here, under_key};
use std::alloc::Global;
use toml::{Table, Value};

fn is_among(keys: &[&str], key: &str) -> bool
    ensures { result ≡ is_among (texts_now keys.now) key.now }
{
    let mut left = keys;
    while let [first, rest @ ..] = left {
        if key == *first {
            return true;
        }
        left = rest;
    }
    false
}

/// The first key that is none of these.
fn first_other<'a>(keys: &[&str], table: &'a Table) -> Option<&'a str>
    ensures { option_copied result ≡ first_other (texts_now keys.now) (table_view table.now) }
{
    'members: for (key, _member) in table.iter() {
        if !is_among(keys, key.as_str()) {
            return Some(key.as_str());
        }
    }
    None
}

/// Asks for a table that has no key but these.
pub fn only_keys(alloc: Global, keys: &[&str], value: &Value) -> Read<()>
    ensures { IfOk result (λ read. read ≡ only_keys (texts_now keys.now) (view value.now)) }
{
    match value.as_table() {
        None => here(alloc, DeclKind::WrongKind),
        Some(table) => match first_other(keys, table) {
            None => Ok(Ok(())),
            Some(key) => {
                let fault = here(alloc, DeclKind::UnknownKey)?;
                under_key(alloc, key, fault)
            }
        },
    }
}

/// A missing key.
pub fn missing<A>(alloc: Global, key: &str) -> Read<A>
    ensures { IfOk result (λ read. read ≡ under (key_step key.now) (here kind.MissingKey)) }
{
    let fault = here(alloc, DeclKind::MissingKey)?;
    under_key(alloc, key, fault)
}
