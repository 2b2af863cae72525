ghost use Rattle.std.specs.Prelude.{◌≡◌, ◌==◌, IfOk};
ghost use Rattle.std.specs.List.{list_any};
ghost use Rattle.toml.specs.View.{view};
ghost use Rattle.decl_tree.specs.Keys.{needed, only_keys};
ghost use Rattle.decl_types.specs.Types.{align_in, body_of, drop_at, enum_body, fits, is_named, is_tuple_of, kind_at, kind_fault, keys_of, kind_word, name_of, powers, struct_of, tuple_of, type_by, type_entry, type_labels, type_of, type_of_kind};

use crate::enums::enum_at;
use crate::fields::{MAX_SIZE, fields_at};
use canonical_text::type_text;
use decl_texts::{Form, form_of, path_perhaps_at, told, type_at};
use decl_tree::{
    DeclKind, Element, KeyFault, Labels, Read, here, missing, number_at, number_in, one_label,
    only_keys, under_key,
};
use mir_ir::{FieldDecl, Ty, TypeDecl, TypeShape};
use sqlite_items::Items;
use std::alloc::Global;
use toml::Value;
use vk_core::{Name, NoMemory};

/// What kind of type an entry declares.
#[derive(Clone, Copy, Debug, PartialEq, Eq)]
pub enum TypeKind {
    Struct,
    Tuple,
    Enum,
}

type Body = (TypeShape, Option<Name>);

const TYPE_KEYS: [&str; 9] = [
    "name",
    "kind",
    "size",
    "align",
    "fields",
    "drop",
    "variants",
    "tag",
    "discriminant",
];

const STRUCT_KEYS: [&str; 6] = ["name", "kind", "size", "align", "fields", "drop"];

const TUPLE_KEYS: [&str; 5] = ["name", "kind", "size", "align", "fields"];

const ENUM_KEYS: [&str; 8] = [
    "name",
    "kind",
    "size",
    "align",
    "drop",
    "variants",
    "tag",
    "discriminant",
];

fn kind_word(text: &str) -> Option<TypeKind>
    ensures { result ≡ kind_word text.now }
{
    if text == "struct" {
        Some(TypeKind::Struct)
    } else if text == "tuple" {
        Some(TypeKind::Tuple)
    } else if text == "enum" {
        Some(TypeKind::Enum)
    } else {
        None
    }
}

fn kind_at(alloc: Global, value: &Value) -> Read<TypeKind>
    ensures { IfOk result (λ read. read ≡ kind_at (view value.now)) }
{
    match value.get("kind") {
        None => missing(alloc, "kind"),
        Some(held) => {
            let read = match held.as_str() {
                None => here(alloc, DeclKind::WrongKind)?,
                Some(text) => told(alloc, kind_word(text))?,
            };
            under_key(alloc, "kind", read)
        }
    }
}

fn known_keys(alloc: Global, kind: TypeKind, value: &Value) -> Read<()>
    ensures { IfOk result (λ read. read ≡ only_keys (keys_of kind) (view value.now)) }
{
    match kind {
        TypeKind::Struct => only_keys(alloc, &STRUCT_KEYS, value),
        TypeKind::Tuple => only_keys(alloc, &TUPLE_KEYS, value),
        TypeKind::Enum => only_keys(alloc, &ENUM_KEYS, value),
    }
}

fn is_named(form: Form) -> bool
    ensures { result ≡ is_named form }
{
    match form {
        Form::Named => true,
        _ => false,
    }
}

fn is_tuple_of(count: usize, form: Form) -> bool
    ensures { result ≡ is_tuple_of count form }
{
    match form {
        Form::Tuple(items) => 1 <= items && items == count,
        _ => false,
    }
}

/// Whether a name of this form fits what is known of the type.
fn fits(kind: TypeKind, fields: &Result<Items<FieldDecl>, KeyFault>, form: Form) -> bool
    ensures { result ≡ fits kind fields.now form }
{
    match kind {
        TypeKind::Enum => is_named(form),
        TypeKind::Struct => match fields {
            Ok(_fields) => is_named(form),
            Err(_fault) => true,
        },
        TypeKind::Tuple => match fields {
            Ok(fields) => is_tuple_of(fields.len(), form),
            Err(_fault) => true,
        },
    }
}

/// The name of a type, where it fits.
fn name_of(
    alloc: Global,
    kind: TypeKind,
    fields: &Result<Items<FieldDecl>, KeyFault>,
    name: Result<Ty, KeyFault>,
) -> Read<Ty>
    ensures { IfOk result (λ read. read ≡ name_of kind fields.now name) }
{
    match name {
        Err(fault) => Ok(Err(fault)),
        Ok(ty) => {
            if fits(kind, fields, form_of(&ty)) {
                Ok(Ok(ty))
            } else {
                let fault = here(alloc, DeclKind::WrongKind)?;
                under_key(alloc, "name", fault)
            }
        }
    }
}

fn is_power(number: u64) -> bool
    ensures { result ≡ list_any (λ p. number == p) powers }
{
    number == 1
        || number == 2
        || number == 4
        || number == 8
        || number == 16
        || number == 32
        || number == 64
        || number == 128
        || number == 256
        || number == 512
        || number == 1024
        || number == 2048
        || number == 4096
}

/// A power of two up to 4,096.
fn align_in(alloc: Global, value: &Value) -> Read<u64>
    ensures { IfOk result (λ read. read ≡ align_in (view value.now)) }
{
    match number_in(alloc, 1, MAX_SIZE, value)? {
        Err(fault) => Ok(Err(fault)),
        Ok(number) => {
            if is_power(number) {
                Ok(Ok(number))
            } else {
                here(alloc, DeclKind::OutOfRange)
            }
        }
    }
}

fn align_at(alloc: Global, key: &str, value: &Value) -> Read<u64>
    ensures { IfOk result (λ read. read ≡ needed key.now align_in (view value.now)) }
{
    match value.get(key) {
        None => missing(alloc, key),
        Some(held) => {
            let read = align_in(alloc, held)?;
            under_key(alloc, key, read)
        }
    }
}

fn drop_at(alloc: Global, value: &Value) -> Read<Option<Name>>
    ensures { IfOk result (λ read. read ≡ drop_at (view value.now)) }
{
    path_perhaps_at(alloc, "drop", value)
}

fn struct_of(
    fields: Result<Items<FieldDecl>, KeyFault>,
    drop: Result<Option<Name>, KeyFault>,
) -> Result<Body, KeyFault>
    ensures { result ≡ struct_of fields drop }
{
    let fields = fields?;
    let drop = drop?;
    Ok((TypeShape::Struct(fields), drop))
}

fn tuple_of(fields: Result<Items<FieldDecl>, KeyFault>) -> Result<Body, KeyFault>
    ensures { result ≡ tuple_of fields }
{
    let fields = fields?;
    Ok((TypeShape::Tuple(fields), None))
}

fn enum_body(
    drop: Result<Option<Name>, KeyFault>,
    shape: Result<TypeShape, KeyFault>,
) -> Result<Body, KeyFault>
    ensures { result ≡ enum_body drop shape }
{
    let drop = drop?;
    let shape = shape?;
    Ok((shape, drop))
}

/// What is behind the alignment: the shape, and the drop function.
fn body_of(
    alloc: Global,
    kind: TypeKind,
    fields: Result<Items<FieldDecl>, KeyFault>,
    value: &Value,
) -> Read<Body>
    ensures { IfOk result (λ read. read ≡ body_of kind fields (view value.now)) }
{
    match kind {
        TypeKind::Struct => {
            let drop = drop_at(alloc, value)?;
            Ok(struct_of(fields, drop))
        }
        TypeKind::Tuple => Ok(tuple_of(fields)),
        TypeKind::Enum => {
            let drop = drop_at(alloc, value)?;
            let shape = enum_at(alloc, value)?;
            Ok(enum_body(drop, shape))
        }
    }
}

fn type_of(
    known: Result<(), KeyFault>,
    name: Result<Ty, KeyFault>,
    size: Result<u64, KeyFault>,
    align: Result<u64, KeyFault>,
    body: Result<Body, KeyFault>,
) -> Result<TypeDecl, KeyFault>
    ensures { result ≡ type_of known name size align body }
{
    known?;
    let name = name?;
    let size = size?;
    let align = align?;
    let (shape, drop) = body?;
    Ok(TypeDecl {
        name,
        shape,
        size,
        align,
        drop,
    })
}

/// An entry whose kind has no fault.
fn type_of_kind(alloc: Global, kind: TypeKind, value: &Value) -> Read<TypeDecl>
    ensures { IfOk result (λ read. read ≡ type_of_kind kind (view value.now)) }
{
    let known = known_keys(alloc, kind, value)?;
    let name = type_at(alloc, "name", value)?;
    let fields = fields_at(alloc, value)?;
    let name = name_of(alloc, kind, &fields, name)?;
    let size = number_at(alloc, 0, MAX_SIZE, "size", value)?;
    let align = align_at(alloc, "align", value)?;
    let body = body_of(alloc, kind, fields, value)?;
    Ok(type_of(known, name, size, align, body))
}

fn kind_fault(
    known: Result<(), KeyFault>,
    name: Result<Ty, KeyFault>,
    fault: KeyFault,
) -> Result<TypeDecl, KeyFault>
    ensures { result ≡ kind_fault known name fault }
{
    known?;
    let _name = name?;
    Err(fault)
}

fn type_by(alloc: Global, kind: Result<TypeKind, KeyFault>, value: &Value) -> Read<TypeDecl>
    ensures { IfOk result (λ read. read ≡ type_by kind (view value.now)) }
{
    match kind {
        Ok(kind) => type_of_kind(alloc, kind, value),
        Err(fault) => {
            let known = only_keys(alloc, &TYPE_KEYS, value)?;
            let name = type_at(alloc, "name", value)?;
            Ok(kind_fault(known, name, fault))
        }
    }
}

fn type_labels(alloc: Global, ty: &TypeDecl) -> Result<Labels, NoMemory>
    ensures { IfOk result (λ labels. labels ≡ type_labels ty.now) }
{
    let text = type_text(alloc, &ty.name)?;
    let labels = one_label(alloc, text.as_bytes(), b"")?;
    Ok(labels)
}

/// Types, no two of them with one name.
#[derive(Clone, Copy, Debug)]
pub struct Types;

impl Element for Types {
    type Out = TypeDecl;

    ghost meaning = { λ _. type_entry };

    fn read(&self, alloc: Global, _at: usize, value: &Value) -> Read<(TypeDecl, Labels)> {
        let kind = kind_at(alloc, value)?;
        match type_by(alloc, kind, value)? {
            Err(fault) => Ok(Err(fault)),
            Ok(ty) => {
                let labels = type_labels(alloc, &ty)?;
                Ok(Ok((ty, labels)))
            }
        }
    }
}
