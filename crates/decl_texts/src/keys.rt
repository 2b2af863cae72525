ghost use Rattle.std.specs.Prelude.{◌≡◌, IfOk};
ghost use Rattle.toml.specs.View.{view};
ghost use Rattle.decl_tree.specs.Keys.{needed, perhaps};
ghost use Rattle.decl_texts.specs.Texts.{path_in, type_in, word_in, scalar_type_in, int_type_in};

use crate::forms::{Scalar, form_of, int_in, scalar_in};
use crate::texts::{path_in, told, type_in, word_in};
use decl_tree::{DeclKind, Read, here, missing, under_key};
use mir_ir::{IntTy, Ty};
use std::alloc::Global;
use toml::Value;
use vk_core::Name;

/// The path that a key holds, which must be there.
pub fn path_at(alloc: Global, key: &str, value: &Value) -> Read<Name>
    ensures { IfOk result (λ read. read ≡ needed key.now path_in (view value.now)) }
{
    match value.get(key) {
        None => missing(alloc, key),
        Some(held) => {
            let read = path_in(alloc, held)?;
            under_key(alloc, key, read)
        }
    }
}

/// The word that a key holds, which must be there.
pub fn word_at(alloc: Global, key: &str, value: &Value) -> Read<Name>
    ensures { IfOk result (λ read. read ≡ needed key.now word_in (view value.now)) }
{
    match value.get(key) {
        None => missing(alloc, key),
        Some(held) => {
            let read = word_in(alloc, held)?;
            under_key(alloc, key, read)
        }
    }
}

/// The path that a key holds, where it is there.
pub fn path_perhaps_at(alloc: Global, key: &str, value: &Value) -> Read<Option<Name>>
    ensures { IfOk result (λ read. read ≡ perhaps key.now path_in (view value.now)) }
{
    match value.get(key) {
        None => Ok(Ok(None)),
        Some(held) => {
            let read = match path_in(alloc, held)? {
                Ok(path) => Ok(Some(path)),
                Err(fault) => Err(fault),
            };
            under_key(alloc, key, read)
        }
    }
}

/// The type that a key holds, which must be there.
pub fn type_at(alloc: Global, key: &str, value: &Value) -> Read<Ty>
    ensures { IfOk result (λ read. read ≡ needed key.now type_in (view value.now)) }
{
    match value.get(key) {
        None => missing(alloc, key),
        Some(held) => {
            let read = type_in(alloc, held)?;
            under_key(alloc, key, read)
        }
    }
}

/// An integer type, `bool` or `char`.
pub fn scalar_type_in(alloc: Global, value: &Value) -> Read<(Ty, Scalar)>
    ensures { IfOk result (λ read. read ≡ scalar_type_in (view value.now)) }
{
    match type_in(alloc, value)? {
        Err(fault) => Ok(Err(fault)),
        Ok(ty) => match scalar_in(form_of(&ty)) {
            None => here(alloc, DeclKind::WrongKind),
            Some(scalar) => Ok(Ok((ty, scalar))),
        },
    }
}

/// The integer type, `bool` or `char` that a key holds, which must be there.
pub fn scalar_type_at(alloc: Global, key: &str, value: &Value) -> Read<(Ty, Scalar)>
    ensures { IfOk result (λ read. read ≡ needed key.now scalar_type_in (view value.now)) }
{
    match value.get(key) {
        None => missing(alloc, key),
        Some(held) => {
            let read = scalar_type_in(alloc, held)?;
            under_key(alloc, key, read)
        }
    }
}

/// An integer type.
pub fn int_type_in(alloc: Global, value: &Value) -> Read<IntTy>
    ensures { IfOk result (λ read. read ≡ int_type_in (view value.now)) }
{
    match type_in(alloc, value)? {
        Err(fault) => Ok(Err(fault)),
        Ok(ty) => told(alloc, int_in(form_of(&ty))),
    }
}
