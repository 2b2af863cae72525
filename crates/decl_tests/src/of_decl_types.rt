use crate::trees::{is_fault, is_read, tree_of};
use decl_texts::Scalar;
use decl_tree::{DeclKind, Read, list_at};
use decl_types::{Fields, Types, Variants, decimal_name, fields_at};
use mir_ir::{FieldDecl, IntTy, VariantDecl};
use sqlite_items::Items;
use std::alloc::Global;
use toml::Value;
use vk_core::{Name, NoMemory};

/// Whether a name is this text.
fn is_name(read: Result<Name, NoMemory>, text: &[u8]) -> bool {
    match read {
        Ok(name) => name.as_bytes() == text,
        Err(_memory) => false,
    }
}

#[test]
fn numbers_are_written(rt: HostRuntime) {
    assert!(rt; is_name(decimal_name(rt.alloc(), 0), b"0"));
    assert!(rt; is_name(decimal_name(rt.alloc(), 4095), b"4095"));
}

/// The offset of the second field, and whether its name is this.
fn second_offset(read: Read<Items<FieldDecl>>, name: &[u8]) -> Option<u64> {
    match read {
        Ok(Ok(fields)) => match fields.as_slice() {
            [_first, second] => {
                if second.name.as_bytes() == name {
                    Some(second.offset)
                } else {
                    None
                }
            }
            _ => None,
        },
        _ => None,
    }
}

/// A struct with two fields, the second without a name.
const TWO_FIELDS: &str =
    "fields = [ { name = \"a\", type = \"u8\", offset = 0 }, { type = \"u8\", offset = 4096 } ]";

#[test]
fn a_field_has_its_position_as_name(rt: HostRuntime) {
    let tree = tree_of(rt.alloc(), TWO_FIELDS);
    assert_eq!(rt;
        second_offset(fields_at(rt.alloc(), &tree), b"1"),
        Some(4096)
    );
    let read = list_at(rt.alloc(), &Fields, "fields", &tree);
    assert_eq!(rt; second_offset(read, b"1"), Some(4096));
}

/// The value and the tag of the second variant.
fn second_words(read: Read<Items<VariantDecl>>) -> Option<(u128, Option<u128>)> {
    match read {
        Ok(Ok(variants)) => match variants.as_slice() {
            [_first, second] => Some((second.value.value, second.tag.map(|tag| tag.value))),
            _ => None,
        },
        _ => None,
    }
}

/// The same of variants whose values are of `i8`, with tags of this type.
fn words_of(alloc: Global, tag_type: Option<Scalar>, tree: &Value) -> Option<(u128, Option<u128>)> {
    let value_type = Some(Scalar::Int(IntTy::I8));
    let variants = Variants {
        value_type,
        tag_type,
    };
    second_words(list_at(alloc, &variants, "variants", tree))
}

#[test]
fn variants_have_values_and_tags(rt: HostRuntime) {
    for (text, tag_type, words) in [
        (
            "variants = [ { name = \"A\" }, { name = \"B\" } ]",
            Some(Scalar::Bool),
            Some((1, Some(1))),
        ),
        (
            "variants = [ { name = \"A\" }, { name = \"B\" } ]",
            None,
            Some((1, None)),
        ),
        (
            "variants = [ { name = \"A\" }, { name = \"B\", value = \"-1\", tag = \"9\" } ]",
            Some(Scalar::Int(IntTy::U8)),
            Some((255, Some(9))),
        ),
        (
            "variants = [ { name = \"A\" }, { name = \"B\", value = \"-1\" } ]",
            Some(Scalar::Int(IntTy::U8)),
            None,
        ),
    ] {
        let tree = tree_of(rt.alloc(), text);
        assert_eq!(rt; words_of(rt.alloc(), tag_type, &tree), words, "{text}");
    }
}

#[test]
fn types_are_read(rt: HostRuntime) {
    let text = "type = [ { name = \"A\", kind = \"struct\", size = 0, align = 4096 } ]";
    let tree = tree_of(rt.alloc(), text);
    assert!(rt; is_read(list_at(rt.alloc(), &Types, "type", &tree)));
    let text = "type = [ { name = \"A\", kind = \"struct\", size = 0, align = 8192 } ]";
    let tree = tree_of(rt.alloc(), text);
    let read = list_at(rt.alloc(), &Types, "type", &tree);
    assert!(rt; is_fault(read, DeclKind::OutOfRange, ".type[0].align"));
}
