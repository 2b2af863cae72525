ghost use Rattle.std.specs.Prelude.{◌≡◌, IfOk};
ghost use Rattle.toml.specs.View.{view};
ghost use Rattle.toml.specs.Data.{get};
ghost use Rattle.std.specs.Prelude.{codes};
ghost use Rattle.decl_tree.specs.Keys.{perhaps};
ghost use Rattle.decl_types.specs.Enums.{discriminant_at, enum_at, enum_of, enum_with, known_int, known_scalar, some_variants, tag_for, tag_in, tag_of, tag_type_in};

use crate::fields::MAX_SIZE;
use crate::variants::Variants;
use decl_texts::{Scalar, int_type_in, scalar_type_at};
use decl_tree::{DeclKind, KeyFault, Read, here, list_at, number_at, only_keys, under_key};
use mir_ir::{IntTy, TagDecl, Ty, TypeShape, VariantDecl};
use sqlite_items::Items;
use std::alloc::Global;
use toml::Value;
use vk_core::NoMemory;

const TAG_KEYS: [&str; 2] = ["type", "offset"];

fn tag_of(
    known: Result<(), KeyFault>,
    ty: Result<(Ty, Scalar), KeyFault>,
    offset: Result<u64, KeyFault>,
) -> Result<TagDecl, KeyFault>
    ensures { result ≡ tag_of known ty offset }
{
    known?;
    let (ty, _scalar) = ty?;
    let offset = offset?;
    Ok(TagDecl { ty, offset })
}

fn tag_in(alloc: Global, value: &Value) -> Read<TagDecl>
    ensures { IfOk result (λ read. read ≡ tag_in (view value.now)) }
{
    let known = only_keys(alloc, &TAG_KEYS, value)?;
    let ty = scalar_type_at(alloc, "type", value)?;
    let offset = number_at(alloc, 0, MAX_SIZE, "offset", value)?;
    Ok(tag_of(known, ty, offset))
}

/// The tag of an enum, where it has one.
fn tag_perhaps_at(alloc: Global, key: &str, value: &Value) -> Read<Option<TagDecl>>
    ensures { IfOk result (λ read. read ≡ perhaps key.now tag_in (view value.now)) }
{
    match value.get(key) {
        None => Ok(Ok(None)),
        Some(held) => {
            let read = match tag_in(alloc, held)? {
                Ok(tag) => Ok(Some(tag)),
                Err(fault) => Err(fault),
            };
            under_key(alloc, key, read)
        }
    }
}

fn known_scalar(read: Result<(Ty, Scalar), KeyFault>) -> Option<Scalar>
    ensures { result ≡ known_scalar read }
{
    match read {
        Ok((_ty, scalar)) => Some(scalar),
        Err(_fault) => None,
    }
}

/// The type of the tag, where its key has no fault.
fn tag_type_of(alloc: Global, value: &Value) -> Result<Option<Scalar>, NoMemory>
    ensures { IfOk result (λ ty. ty ≡ tag_type_in (get (codes "tag") (view value.now))) }
{
    match value.get("tag") {
        None => Ok(None),
        Some(held) => {
            let read = scalar_type_at(alloc, "type", held)?;
            Ok(known_scalar(read))
        }
    }
}

fn known_int(read: &Result<IntTy, KeyFault>) -> Option<Scalar>
    ensures { result ≡ known_int read.now }
{
    match read {
        Ok(int) => Some(Scalar::Int(*int)),
        Err(_fault) => None,
    }
}

/// The type of the variants' values.
fn discriminant_at(alloc: Global, value: &Value) -> Read<IntTy>
    ensures { IfOk result (λ read. read ≡ discriminant_at (view value.now)) }
{
    match value.get("discriminant") {
        None => Ok(Ok(IntTy::Isize)),
        Some(held) => {
            let read = int_type_in(alloc, held)?;
            under_key(alloc, "discriminant", read)
        }
    }
}

/// An enum has at least one variant.
#[tactic(auto, using(crate::proofs::EnumLaws::some_kept))]
fn some_variants(alloc: Global, variants: Items<VariantDecl>) -> Read<Items<VariantDecl>>
    ensures { IfOk result (λ read. read ≡ some_variants variants) }
{
    if variants.is_empty() {
        let fault = here(alloc, DeclKind::OutOfRange)?;
        under_key(alloc, "variants", fault)
    } else {
        Ok(Ok(variants))
    }
}

/// A tag may be absent with one variant.
fn tag_for(alloc: Global, count: usize, tag: Option<TagDecl>) -> Read<Option<TagDecl>>
    ensures { IfOk result (λ read. read ≡ tag_for count tag) }
{
    match tag {
        Some(tag) => Ok(Ok(Some(tag))),
        None => {
            if count == 1 {
                Ok(Ok(None))
            } else {
                let fault = here(alloc, DeclKind::MissingKey)?;
                under_key(alloc, "tag", fault)
            }
        }
    }
}

/// An enum of these variants, behind the faults of its tag and of the type of its values.
fn enum_with(
    alloc: Global,
    variants: Items<VariantDecl>,
    tag: Result<Option<TagDecl>, KeyFault>,
    discriminant: Result<IntTy, KeyFault>,
) -> Read<TypeShape>
    ensures { IfOk result (λ read. read ≡ enum_with variants tag discriminant) }
{
    match tag {
        Err(fault) => Ok(Err(fault)),
        Ok(tag) => match tag_for(alloc, variants.len(), tag)? {
            Err(fault) => Ok(Err(fault)),
            Ok(tag) => match discriminant {
                Err(fault) => Ok(Err(fault)),
                Ok(discriminant) => Ok(Ok(TypeShape::Enum {
                    variants,
                    tag,
                    discriminant,
                })),
            },
        },
    }
}

fn enum_of(
    alloc: Global,
    variants: Result<Items<VariantDecl>, KeyFault>,
    tag: Result<Option<TagDecl>, KeyFault>,
    discriminant: Result<IntTy, KeyFault>,
) -> Read<TypeShape>
    ensures { IfOk result (λ read. read ≡ enum_of variants tag discriminant) }
{
    match variants {
        Err(fault) => Ok(Err(fault)),
        Ok(variants) => match some_variants(alloc, variants)? {
            Err(fault) => Ok(Err(fault)),
            Ok(variants) => enum_with(alloc, variants, tag, discriminant),
        },
    }
}

/// The keys of an enum alone.
pub fn enum_at(alloc: Global, value: &Value) -> Read<TypeShape>
    ensures { IfOk result (λ read. read ≡ enum_at (view value.now)) }
{
    let discriminant = discriminant_at(alloc, value)?;
    let tag_type = tag_type_of(alloc, value)?;
    let variants_read = Variants {
        value_type: known_int(&discriminant),
        tag_type,
    };
    let variants = list_at(alloc, &variants_read, "variants", value)?;
    let tag = tag_perhaps_at(alloc, "tag", value)?;
    enum_of(alloc, variants, tag, discriminant)
}
