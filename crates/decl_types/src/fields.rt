ghost use Rattle.std.specs.Prelude.{◌≡◌, IfOk};
ghost use Rattle.std.specs.Fmt.{decimal};
ghost use Rattle.toml.specs.View.{view};
ghost use Rattle.decl_tree.specs.Keys.{defaulted};
ghost use Rattle.decl_texts.specs.Texts.{word_in};
ghost use Rattle.decl_types.specs.Fields.{field_entry, field_of, fields_at};

use decl_texts::{type_at, word_in};
use decl_tree::{Element, KeyFault, Labels, Read, list_at, number_at, only_keys, under_key};
use itoa::Buffer;
use mir_ir::{FieldDecl, Ty};
use sqlite_items::Items;
use std::alloc::Global;
use toml::Value;
use vk_core::{Name, NoMemory};

/// The greatest offset, size and alignment.
pub const MAX_SIZE: u64 = 4096;

const FIELD_KEYS: [&str; 3] = ["name", "type", "offset"];

/// A number in decimal.
pub fn decimal_name(alloc: Global, number: usize) -> Result<Name, NoMemory>
    ensures { IfOk result (λ name. name ≡ decimal number) }
{
    let mut buffer = Buffer::new();
    let name = Name::from_bytes(alloc, buffer.format(number).as_bytes())?;
    Ok(name)
}

/// The word that a key holds, else the position.
fn word_or_position_at(alloc: Global, at: usize, key: &str, value: &Value) -> Read<Name>
    ensures { IfOk result (λ read. read ≡ defaulted (decimal at) key.now word_in (view value.now)) }
{
    match value.get(key) {
        None => {
            let position = decimal_name(alloc, at)?;
            Ok(Ok(position))
        }
        Some(held) => {
            let read = word_in(alloc, held)?;
            under_key(alloc, key, read)
        }
    }
}

fn field_of(
    alloc: Global,
    known: Result<(), KeyFault>,
    name: Result<Name, KeyFault>,
    ty: Result<Ty, KeyFault>,
    offset: Result<u64, KeyFault>,
) -> Result<(FieldDecl, Labels), KeyFault>
    ensures { result ≡ field_of known name ty offset }
{
    known?;
    let name = name?;
    let ty = ty?;
    let offset = offset?;
    Ok((FieldDecl { name, ty, offset }, Items::new(alloc)))
}

/// Fields, each with its position.
#[derive(Clone, Copy, Debug)]
pub struct Fields;

impl Element for Fields {
    type Out = FieldDecl;

    ghost meaning = { λ _. field_entry };

    fn read(&self, alloc: Global, at: usize, value: &Value) -> Read<(FieldDecl, Labels)> {
        let known = only_keys(alloc, &FIELD_KEYS, value)?;
        let name = word_or_position_at(alloc, at, "name", value)?;
        let ty = type_at(alloc, "type", value)?;
        let offset = number_at(alloc, 0, MAX_SIZE, "offset", value)?;
        Ok(field_of(alloc, known, name, ty, offset))
    }
}

/// The fields of an entry.
pub fn fields_at(alloc: Global, value: &Value) -> Read<Items<FieldDecl>>
    ensures { IfOk result (λ read. read ≡ fields_at (view value.now)) }
{
    list_at(alloc, &Fields, "fields", value)
}
