ghost use Rattle.std.specs.Prelude.{◌≡◌, IfOk};
ghost use Rattle.toml.specs.View.{view};
ghost use Rattle.decl_tree.specs.Keys.{needed};
ghost use Rattle.decl_texts.specs.Texts.{read_as};
ghost use Rattle.decl_file.specs.Units.{unit_entry, unit_in, unit_labels, unit_of, unit_word, word_of_unit};

use crate::gather::{both, with_list, with_path};
use decl_texts::{Paths, told};
use decl_tree::{
    DeclKind, Element, KeyFault, Labels, Read, here, missing, one_label, only_keys, small_or_at,
    under_key,
};
use mir_ir::{Unit, UnitKind};
use sqlite_items::Items;
use std::alloc::Global;
use toml::Value;
use vk_core::{Name, NoMemory};

const UNIT_KEYS: [&str; 4] = ["kind", "function", "unwind", "stubs"];

/// How often a loop is unwound where nothing is said.
const DEFAULT_UNWIND: u32 = 20;

/// The least and the greatest number of `unwind`.
const MIN_UNWIND: u32 = 1;

const MAX_UNWIND: u32 = 1000;

/// The kind of unit that a word names.
fn unit_word(text: &str) -> Option<UnitKind>
    ensures { result ≡ unit_word text.now }
{
    if text == "proof" {
        Some(UnitKind::Proof)
    } else if text == "contract" {
        Some(UnitKind::Contract)
    } else {
        None
    }
}

/// The word that names a kind of unit.
fn word_of_unit(kind: UnitKind) -> &'static str
    ensures { result.now ≡ word_of_unit kind }
{
    match kind {
        UnitKind::Proof => "proof",
        UnitKind::Contract => "contract",
    }
}

/// The kind of unit that a key holds.
fn kind_at(alloc: Global, key: &str, value: &Value) -> Read<UnitKind>
    ensures { IfOk result (λ read. read ≡ needed key.now (read_as unit_word) (view value.now)) }
{
    match value.get(key) {
        None => missing(alloc, key),
        Some(held) => {
            let read = match held.as_str() {
                None => here(alloc, DeclKind::WrongKind)?,
                Some(text) => told(alloc, unit_word(text))?,
            };
            under_key(alloc, key, read)
        }
    }
}

type UnitParts = (((((), UnitKind), Name), u32), Items<Name>);

/// The unit of these parts, or their first fault.
fn unit_of(parts: Result<UnitParts, KeyFault>) -> Result<Unit, KeyFault>
    ensures { result ≡ unit_of parts }
{
    let ((((_known, kind), name), unwind), stubs) = parts?;
    Ok(Unit {
        name,
        kind,
        unwind,
        stubs,
    })
}

/// The unit that a table declares.
fn unit_in(alloc: Global, value: &Value) -> Read<Unit>
    ensures { IfOk result (λ read. read ≡ unit_in (view value.now)) }
{
    let known = only_keys(alloc, &UNIT_KEYS, value)?;
    let kind = kind_at(alloc, "kind", value)?;
    let function = with_path(alloc, both(known, kind), "function", value)?;
    let unwind = small_or_at(
        alloc,
        DEFAULT_UNWIND,
        MIN_UNWIND,
        MAX_UNWIND,
        "unwind",
        value,
    )?;
    let stubs = with_list(alloc, both(function, unwind), &Paths, "stubs", value)?;
    Ok(unit_of(stubs))
}

/// The kind and the function of a unit, which no other unit has both of.
fn unit_labels(alloc: Global, declared: &Unit) -> Result<Labels, NoMemory>
    ensures { IfOk result (λ labels. labels ≡ unit_labels declared.now) }
{
    let word = word_of_unit(declared.kind);
    let labels = one_label(alloc, word.as_bytes(), declared.name.as_bytes())?;
    Ok(labels)
}

/// Units, no two of them of one kind and function.
#[derive(Clone, Copy, Debug)]
pub struct Units;

impl Element for Units {
    type Out = Unit;

    ghost meaning = { λ _. unit_entry };

    fn read(&self, alloc: Global, _at: usize, value: &Value) -> Read<(Unit, Labels)> {
        match unit_in(alloc, value)? {
            Err(fault) => Ok(Err(fault)),
            Ok(declared) => {
                let labels = unit_labels(alloc, &declared)?;
                Ok(Ok((declared, labels)))
            }
        }
    }
}
