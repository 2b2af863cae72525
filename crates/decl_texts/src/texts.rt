ghost use Rattle.std.specs.Prelude.{◌≡◌, IfOk};
ghost use Rattle.toml.specs.View.{view};
ghost use Rattle.decl_tree.specs.Faults.{there};
ghost use Rattle.decl_tree.specs.declared.fault.DeclKind.TheVariants as kind;
ghost use Rattle.decl_texts.specs.Texts.{path_in, type_in, place_in, local_in, word_in, decimal_in};

use crate::decimals::{is_decimal, is_word};
use crate::parts::local_of;
use decl_tree::{DeclKind, Read, here};
use mir_ir::{PlaceExpr, Ty};
use part_texts::{path_of, place_of, type_of};
use std::alloc::Global;
use toml::Value;
use vk_core::{LocalId, Name};

/// A value that is there, or a wrong kind.
pub fn told<A>(alloc: Global, read: Option<A>) -> Read<A>
    ensures { IfOk result (λ told. told ≡ there kind.WrongKind read) }
{
    match read {
        Some(value) => Ok(Ok(value)),
        None => here(alloc, DeclKind::WrongKind),
    }
}

/// A path, by its canonical text.
pub fn path_in(alloc: Global, value: &Value) -> Read<Name>
    ensures { IfOk result (λ read. read ≡ path_in (view value.now)) }
{
    match value.as_str() {
        None => here(alloc, DeclKind::WrongKind),
        Some(text) => {
            let read = path_of(alloc, text.as_bytes())?;
            told(alloc, read)
        }
    }
}

/// A type.
pub fn type_in(alloc: Global, value: &Value) -> Read<Ty>
    ensures { IfOk result (λ read. read ≡ type_in (view value.now)) }
{
    match value.as_str() {
        None => here(alloc, DeclKind::WrongKind),
        Some(text) => {
            let read = type_of(alloc, text.as_bytes())?;
            told(alloc, read)
        }
    }
}

/// A place, perhaps with steps.
pub fn place_in(alloc: Global, value: &Value) -> Read<PlaceExpr>
    ensures { IfOk result (λ read. read ≡ place_in (view value.now)) }
{
    match value.as_str() {
        None => here(alloc, DeclKind::WrongKind),
        Some(text) => {
            let read = place_of(alloc, text.as_bytes())?;
            told(alloc, read)
        }
    }
}

/// A place without steps.
pub fn local_in(alloc: Global, value: &Value) -> Read<LocalId>
    ensures { IfOk result (λ read. read ≡ local_in (view value.now)) }
{
    match value.as_str() {
        None => here(alloc, DeclKind::WrongKind),
        Some(text) => {
            let read = local_of(alloc, text.as_bytes())?;
            told(alloc, read)
        }
    }
}

/// A word that is no local and no label.
pub fn word_in(alloc: Global, value: &Value) -> Read<Name>
    ensures { IfOk result (λ read. read ≡ word_in (view value.now)) }
{
    match value.as_str() {
        None => here(alloc, DeclKind::WrongKind),
        Some(text) => {
            if is_word(text.as_bytes()) {
                let word = Name::from_bytes(alloc, text.as_bytes())?;
                Ok(Ok(word))
            } else {
                here(alloc, DeclKind::WrongKind)
            }
        }
    }
}

/// A decimal integer, as it is written.
pub fn decimal_in(alloc: Global, value: &Value) -> Read<Name>
    ensures { IfOk result (λ read. read ≡ decimal_in (view value.now)) }
{
    match value.as_str() {
        None => here(alloc, DeclKind::WrongKind),
        Some(text) => {
            if is_decimal(text.as_bytes()) {
                let decimal = Name::from_bytes(alloc, text.as_bytes())?;
                Ok(Ok(decimal))
            } else {
                here(alloc, DeclKind::WrongKind)
            }
        }
    }
}
