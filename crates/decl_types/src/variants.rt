ghost use Rattle.std.specs.Prelude.{◌≡◌, Option, IfOk};
ghost use Rattle.std.specs.Fmt.{decimal};
ghost use Rattle.toml.specs.View.{view};
ghost use Rattle.decl_types.specs.Variants.{number_at, number_of, numbers_at, variant_entry, variant_labels, variant_made, variant_parts, word_or_zero};
ghost use Rattle.decl_tree.specs.Keys.{defaulted};
ghost use Rattle.decl_texts.specs.Texts.{decimal_in};

use crate::fields::{decimal_name, fields_at};
use decl_texts::{Scalar, decimal_in, number_word, word_at};
use decl_tree::{DeclKind, Element, KeyFault, Labels, Read, here, one_label, only_keys, under_key};
use mir_ir::{FieldDecl, VariantDecl};
use sqlite_items::Items;
use std::alloc::Global;
use toml::Value;
use vk_core::{Name, NoMemory};
use word_bits::Word;

const VARIANT_KEYS: [&str; 4] = ["name", "value", "tag", "fields"];

/// The value and the tag of a variant as they are written, and as numbers where their types are known.
#[derive(Debug, Drop)]
pub struct Numbers {
    pub value: Option<Word>,
    pub value_text: Name,
    pub tag: Option<Word>,
    pub tag_text: Name,
}

/// The decimal text that a key holds, else a copy of `other`.
fn decimal_or_at(alloc: Global, other: &Name, key: &str, value: &Value) -> Read<Name>
    ensures { IfOk result (λ read. read ≡ defaulted other.now key.now decimal_in (view value.now)) }
{
    match value.get(key) {
        None => {
            let other = Name::from_bytes(alloc, other.as_bytes())?;
            Ok(Ok(other))
        }
        Some(held) => {
            let read = decimal_in(alloc, held)?;
            under_key(alloc, key, read)
        }
    }
}

/// The number that a decimal text writes, where its type is known.
fn number_of(alloc: Global, key: &str, ty: Option<Scalar>, text: &Name) -> Read<Option<Word>>
    ensures { IfOk result (λ read. read ≡ number_of key.now ty text.now) }
{
    match ty {
        None => Ok(Ok(None)),
        Some(scalar) => match number_word(scalar, text.as_bytes()) {
            Some(word) => Ok(Ok(Some(word))),
            None => {
                let fault = here(alloc, DeclKind::OutOfRange)?;
                under_key(alloc, key, fault)
            }
        },
    }
}

/// What a key holds, else a default, as a number of the type and as it is written.
fn number_at(
    alloc: Global,
    key: &str,
    ty: Option<Scalar>,
    other: &Name,
    value: &Value,
) -> Read<(Option<Word>, Name)>
    ensures { IfOk result (λ read. read ≡ number_at key.now ty other.now (view value.now)) }
{
    match decimal_or_at(alloc, other, key, value)? {
        Err(fault) => Ok(Err(fault)),
        Ok(text) => match number_of(alloc, key, ty, &text)? {
            Err(fault) => Ok(Err(fault)),
            Ok(word) => Ok(Ok((word, text))),
        },
    }
}

/// The value, then the tag.
fn numbers_at(
    alloc: Global,
    value_type: Option<Scalar>,
    tag_type: Option<Scalar>,
    at: usize,
    value: &Value,
) -> Read<Numbers>
    ensures { IfOk result (λ read. read ≡ numbers_at value_type tag_type at (view value.now)) }
{
    let position = decimal_name(alloc, at)?;
    match number_at(alloc, "value", value_type, &position, value)? {
        Err(fault) => Ok(Err(fault)),
        Ok((number, value_text)) => match number_at(alloc, "tag", tag_type, &value_text, value)? {
            Err(fault) => Ok(Err(fault)),
            Ok((tag, tag_text)) => Ok(Ok(Numbers {
                value: number,
                value_text,
                tag,
                tag_text,
            })),
        },
    }
}

fn word_or_zero(word: Option<Word>) -> Word
    ensures { result ≡ word_or_zero word }
{
    match word {
        Some(word) => word,
        None => Word { width: 1, value: 0 },
    }
}

/// No two variants have one name, one value or one tag.
fn variant_labels(alloc: Global, name: &Name, numbers: &Numbers) -> Result<Labels, NoMemory>
    ensures { IfOk result (λ labels. labels ≡ variant_labels name.now numbers.now) }
{
    let mut labels = one_label(alloc, b"name", name.as_bytes())?;
    let values = one_label(alloc, b"value", numbers.value_text.as_bytes())?;
    labels.append(values)?;
    let tags = one_label(alloc, b"tag", numbers.tag_text.as_bytes())?;
    labels.append(tags)?;
    Ok(labels)
}

type Parts = (Name, Numbers, Items<FieldDecl>);

fn variant_parts(
    known: Result<(), KeyFault>,
    name: Result<Name, KeyFault>,
    numbers: Result<Numbers, KeyFault>,
    fields: Result<Items<FieldDecl>, KeyFault>,
) -> Result<Parts, KeyFault>
    ensures { result ≡ variant_parts known name numbers fields }
{
    known?;
    let name = name?;
    let numbers = numbers?;
    let fields = fields?;
    Ok((name, numbers, fields))
}

fn variant_made(alloc: Global, parts: Parts) -> Result<(VariantDecl, Labels), NoMemory>
    ensures { IfOk result (λ made. made ≡ variant_made parts.0 parts.1 parts.2) }
{
    let (name, numbers, fields) = parts;
    let labels = variant_labels(alloc, &name, &numbers)?;
    let value = word_or_zero(numbers.value);
    let tag = numbers.tag;
    let variant = VariantDecl {
        name,
        value,
        tag,
        fields,
    };
    Ok((variant, labels))
}

/// Variants, with the types of their values and tags where these are known.
#[derive(Clone, Copy, Debug)]
pub struct Variants {
    pub value_type: Option<Scalar>,
    pub tag_type: Option<Scalar>,
}

impl Element for Variants {
    type Out = VariantDecl;

    ghost meaning = { λ s. variant_entry s.value_type s.tag_type };

    fn read(&self, alloc: Global, at: usize, value: &Value) -> Read<(VariantDecl, Labels)> {
        let known = only_keys(alloc, &VARIANT_KEYS, value)?;
        let name = word_at(alloc, "name", value)?;
        let numbers = numbers_at(alloc, self.value_type, self.tag_type, at, value)?;
        let fields = fields_at(alloc, value)?;
        match variant_parts(known, name, numbers, fields) {
            Err(fault) => Ok(Err(fault)),
            Ok(parts) => {
                let made = variant_made(alloc, parts)?;
                Ok(Ok(made))
            }
        }
    }
}
