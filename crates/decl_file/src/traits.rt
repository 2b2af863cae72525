ghost use Rattle.std.specs.Prelude.{◌≡◌, IfOk};
ghost use Rattle.toml.specs.View.{view};
ghost use Rattle.decl_file.specs.Traits.{trait_entry, trait_in, trait_labels, trait_of, vtable_entry, vtable_in, vtable_labels, vtable_of};

use crate::gather::{both, with_list, with_path};
use canonical_text::type_text;
use decl_texts::{Paths, Words, type_at};
use decl_tree::{Element, KeyFault, Labels, Read, one_label, only_keys};
use mir_ir::{TraitDecl, Ty, VtableDecl};
use sqlite_items::Items;
use std::alloc::Global;
use toml::Value;
use vk_core::{Name, NoMemory};

const TRAIT_KEYS: [&str; 2] = ["name", "methods"];

const VTABLE_KEYS: [&str; 3] = ["type", "trait", "methods"];

type TraitParts = (((), Name), Items<Name>);

/// The trait of these parts, or their first fault.
fn trait_of(parts: Result<TraitParts, KeyFault>) -> Result<TraitDecl, KeyFault>
    ensures { result ≡ trait_of parts }
{
    let ((_known, name), methods) = parts?;
    Ok(TraitDecl { name, methods })
}

/// The trait that a table declares.
fn trait_in(alloc: Global, value: &Value) -> Read<TraitDecl>
    ensures { IfOk result (λ read. read ≡ trait_in (view value.now)) }
{
    let known = only_keys(alloc, &TRAIT_KEYS, value)?;
    let name = with_path(alloc, known, "name", value)?;
    let methods = with_list(alloc, name, &Words, "methods", value)?;
    Ok(trait_of(methods))
}

/// The name of a trait, which no other trait has.
fn trait_labels(alloc: Global, declared: &TraitDecl) -> Result<Labels, NoMemory>
    ensures { IfOk result (λ labels. labels ≡ trait_labels declared.now) }
{
    let labels = one_label(alloc, declared.name.as_bytes(), b"")?;
    Ok(labels)
}

/// Traits, no two of them with one name.
#[derive(Clone, Copy, Debug)]
pub struct Traits;

impl Element for Traits {
    type Out = TraitDecl;

    ghost meaning = { λ _. trait_entry };

    fn read(&self, alloc: Global, _at: usize, value: &Value) -> Read<(TraitDecl, Labels)> {
        match trait_in(alloc, value)? {
            Err(fault) => Ok(Err(fault)),
            Ok(declared) => {
                let labels = trait_labels(alloc, &declared)?;
                Ok(Ok((declared, labels)))
            }
        }
    }
}

type VtableParts = ((((), Ty), Name), Items<Name>);

/// The vtable of these parts, or their first fault.
fn vtable_of(parts: Result<VtableParts, KeyFault>) -> Result<VtableDecl, KeyFault>
    ensures { result ≡ vtable_of parts }
{
    let (((_known, ty), trait_name), methods) = parts?;
    Ok(VtableDecl {
        ty,
        trait_name,
        methods,
    })
}

/// The vtable that a table declares.
fn vtable_in(alloc: Global, value: &Value) -> Read<VtableDecl>
    ensures { IfOk result (λ read. read ≡ vtable_in (view value.now)) }
{
    let known = only_keys(alloc, &VTABLE_KEYS, value)?;
    let ty = type_at(alloc, "type", value)?;
    let trait_name = with_path(alloc, both(known, ty), "trait", value)?;
    let methods = with_list(alloc, trait_name, &Paths, "methods", value)?;
    Ok(vtable_of(methods))
}

/// The type and the trait of a vtable, which no other vtable has both of.
fn vtable_labels(alloc: Global, declared: &VtableDecl) -> Result<Labels, NoMemory>
    ensures { IfOk result (λ labels. labels ≡ vtable_labels declared.now) }
{
    let text = type_text(alloc, &declared.ty)?;
    let labels = one_label(alloc, text.as_bytes(), declared.trait_name.as_bytes())?;
    Ok(labels)
}

/// Vtables, no two of them with one type and one trait.
#[derive(Clone, Copy, Debug)]
pub struct Vtables;

impl Element for Vtables {
    type Out = VtableDecl;

    ghost meaning = { λ _. vtable_entry };

    fn read(&self, alloc: Global, _at: usize, value: &Value) -> Read<(VtableDecl, Labels)> {
        match vtable_in(alloc, value)? {
            Err(fault) => Ok(Err(fault)),
            Ok(declared) => {
                let labels = vtable_labels(alloc, &declared)?;
                Ok(Ok((declared, labels)))
            }
        }
    }
}
