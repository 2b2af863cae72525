ghost use Rattle.std.specs.Prelude.{◌≡◌, IfOk};
ghost use Rattle.toml.specs.View.{view};
ghost use Rattle.decl_tree.specs.Keys.{needed};
ghost use Rattle.decl_texts.specs.Texts.{read_as};
ghost use Rattle.decl_texts.specs.Decimals.{value_word};
ghost use Rattle.decl_file.specs.Names.{alias_entry, alias_in, alias_labels, alias_of, constant_entry, constant_in, constant_labels, constant_of, typed_word};

use crate::gather::{both, with_path};
use decl_texts::{Scalar, scalar_type_at, told, value_word};
use decl_tree::{
    DeclKind, Element, KeyFault, Labels, Read, here, missing, one_label, only_keys, under_key,
};
use mir_ir::{AliasDecl, ConstantDecl, Ty};
use std::alloc::Global;
use toml::Value;
use vk_core::{Name, NoMemory};
use word_bits::Word;

const CONSTANT_KEYS: [&str; 3] = ["name", "type", "value"];

const ALIAS_KEYS: [&str; 2] = ["call", "function"];

/// The value text of this type that a key holds.
fn value_at(alloc: Global, scalar: Scalar, key: &str, value: &Value) -> Read<Word>
    ensures { IfOk result (λ read. read ≡ needed key.now (read_as (value_word scalar)) (view value.now)) }
{
    match value.get(key) {
        None => missing(alloc, key),
        Some(held) => {
            let read = match held.as_str() {
                None => here(alloc, DeclKind::WrongKind)?,
                Some(text) => told(alloc, value_word(scalar, text.as_bytes()))?,
            };
            under_key(alloc, key, read)
        }
    }
}

/// The type of a constant, and its value.
#[derive(Debug, Drop)]
pub struct TypedWord {
    pub ty: Ty,
    pub word: Word,
}

/// The type of a constant, then its value.
fn typed_word(alloc: Global, value: &Value) -> Read<TypedWord>
    ensures { IfOk result (λ read. read ≡ typed_word (view value.now)) }
{
    match scalar_type_at(alloc, "type", value)? {
        Err(fault) => Ok(Err(fault)),
        Ok((ty, scalar)) => match value_at(alloc, scalar, "value", value)? {
            Err(fault) => Ok(Err(fault)),
            Ok(word) => Ok(Ok(TypedWord { ty, word })),
        },
    }
}

type ConstantParts = (((), Name), TypedWord);

/// The constant of these parts, or their first fault.
fn constant_of(parts: Result<ConstantParts, KeyFault>) -> Result<ConstantDecl, KeyFault>
    ensures { result ≡ constant_of parts }
{
    let ((_known, name), typed) = parts?;
    let TypedWord { ty, word } = typed;
    Ok(ConstantDecl {
        name,
        ty,
        value: word,
    })
}

/// The constant that a table declares.
fn constant_in(alloc: Global, value: &Value) -> Read<ConstantDecl>
    ensures { IfOk result (λ read. read ≡ constant_in (view value.now)) }
{
    let known = only_keys(alloc, &CONSTANT_KEYS, value)?;
    let name = with_path(alloc, known, "name", value)?;
    let typed = typed_word(alloc, value)?;
    Ok(constant_of(both(name, typed)))
}

/// The name of a constant, which no other constant has.
fn constant_labels(alloc: Global, declared: &ConstantDecl) -> Result<Labels, NoMemory>
    ensures { IfOk result (λ labels. labels ≡ constant_labels declared.now) }
{
    let labels = one_label(alloc, declared.name.as_bytes(), b"")?;
    Ok(labels)
}

/// Constants, no two of them with one name.
#[derive(Clone, Copy, Debug)]
pub struct Constants;

impl Element for Constants {
    type Out = ConstantDecl;

    ghost meaning = { λ _. constant_entry };

    fn read(&self, alloc: Global, _at: usize, value: &Value) -> Read<(ConstantDecl, Labels)> {
        match constant_in(alloc, value)? {
            Err(fault) => Ok(Err(fault)),
            Ok(declared) => {
                let labels = constant_labels(alloc, &declared)?;
                Ok(Ok((declared, labels)))
            }
        }
    }
}

type AliasParts = (((), Name), Name);

/// The alias of these parts, or their first fault.
fn alias_of(parts: Result<AliasParts, KeyFault>) -> Result<AliasDecl, KeyFault>
    ensures { result ≡ alias_of parts }
{
    let ((_known, call), function) = parts?;
    Ok(AliasDecl { call, function })
}

/// The alias that a table declares.
fn alias_in(alloc: Global, value: &Value) -> Read<AliasDecl>
    ensures { IfOk result (λ read. read ≡ alias_in (view value.now)) }
{
    let known = only_keys(alloc, &ALIAS_KEYS, value)?;
    let call = with_path(alloc, known, "call", value)?;
    let function = with_path(alloc, call, "function", value)?;
    Ok(alias_of(function))
}

/// The call of an alias, which no other alias stands for.
fn alias_labels(alloc: Global, declared: &AliasDecl) -> Result<Labels, NoMemory>
    ensures { IfOk result (λ labels. labels ≡ alias_labels declared.now) }
{
    let labels = one_label(alloc, declared.call.as_bytes(), b"")?;
    Ok(labels)
}

/// Aliases, no two of them for one call.
#[derive(Clone, Copy, Debug)]
pub struct Aliases;

impl Element for Aliases {
    type Out = AliasDecl;

    ghost meaning = { λ _. alias_entry };

    fn read(&self, alloc: Global, _at: usize, value: &Value) -> Read<(AliasDecl, Labels)> {
        match alias_in(alloc, value)? {
            Err(fault) => Ok(Err(fault)),
            Ok(declared) => {
                let labels = alias_labels(alloc, &declared)?;
                Ok(Ok((declared, labels)))
            }
        }
    }
}
