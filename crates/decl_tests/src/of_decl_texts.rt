use crate::trees::{is_fault, is_read, plain, tree_of};
use decl_texts::{
    Form, Locals, Paths, Places, Scalar, Words, decimal_in, form_of, int_type_in, is_decimal,
    local_in, number_word, path_at, path_in, path_perhaps_at, place_in, scalar_type_at,
    scalar_type_in, told, type_at, type_in, value_word, word_at, word_in,
};
use decl_tree::{DeclKind, Read, list_at};
use mir_ir::{IntTy, Ty};
use std::alloc::Global;
use toml::Value;

/// Whether a value is a word, a path, a type, a place, a local and a decimal text.
fn texts_of(alloc: Global, value: &Value) -> [bool; 6] {
    [
        is_read(word_in(alloc, value)),
        is_read(path_in(alloc, value)),
        is_read(type_in(alloc, value)),
        is_read(place_in(alloc, value)),
        is_read(local_in(alloc, value)),
        is_read(decimal_in(alloc, value)),
    ]
}

/// The same of what a key holds.
fn texts_at(alloc: Global, tree: &Value) -> [bool; 6] {
    match tree.get("key") {
        None => [false; 6],
        Some(value) => texts_of(alloc, value),
    }
}

#[test]
fn texts_as_what_they_are(rt: HostRuntime) {
    for (text, found) in [
        ("key = \"a_1\"", [true, true, true, false, false, false]),
        ("key = \"a::b\"", [false, true, true, false, false, false]),
        ("key = \"&u8\"", [false, false, true, false, false, false]),
        ("key = \"_1\"", [false, false, false, true, true, false]),
        ("key = \"(*_1)\"", [false, false, false, true, false, false]),
        ("key = \"bb1\"", [false, false, false, false, false, false]),
        ("key = \"-17\"", [false, false, false, false, false, true]),
        ("key = \"-0\"", [false, false, false, false, false, false]),
        ("key = 1", [false, false, false, false, false, false]),
    ] {
        let tree = tree_of(rt.alloc(), text);
        assert_eq!(rt; texts_at(rt.alloc(), &tree), found, "{text}");
    }
}

/// Whether a key holds a word, a path, perhaps a path, a type, and a scalar type.
fn keys_of(alloc: Global, tree: &Value) -> [bool; 5] {
    [
        is_read(word_at(alloc, "key", tree)),
        is_read(path_at(alloc, "key", tree)),
        is_read(path_perhaps_at(alloc, "key", tree)),
        is_read(type_at(alloc, "key", tree)),
        is_read(scalar_type_at(alloc, "key", tree)),
    ]
}

#[test]
fn keys_hold_texts(rt: HostRuntime) {
    for (text, found) in [
        ("key = \"a\"", [true, true, true, true, false]),
        ("key = \"char\"", [true, true, true, true, true]),
        ("key = \"[u8]\"", [false, false, false, true, false]),
        ("key = 1", [false, false, false, false, false]),
        ("", [false, false, true, false, false]),
    ] {
        let tree = tree_of(rt.alloc(), text);
        assert_eq!(rt; keys_of(rt.alloc(), &tree), found, "{text}");
    }
}

#[test]
fn faults_of_texts(rt: HostRuntime) {
    let tree = tree_of(rt.alloc(), "");
    assert!(rt;
        is_fault(
            path_at(rt.alloc(), "key", &tree),
            DeclKind::MissingKey,
            ".key"
        )
    );
    let absent: Read<u64> = told(rt.alloc(), None);
    assert!(rt; is_fault(absent, DeclKind::WrongKind, ""));
    assert_eq!(rt; plain(told(rt.alloc(), Some(3))), Some(3));
}

/// The scalar of a type that was read.
fn scalar_of(read: Read<(Ty, Scalar)>) -> Option<Scalar> {
    match read {
        Ok(Ok((_ty, scalar))) => Some(scalar),
        _ => None,
    }
}

/// The scalar and the integer type that a key holds.
fn numbers_of(alloc: Global, tree: &Value) -> (Option<Scalar>, Option<IntTy>) {
    match tree.get("key") {
        None => (None, None),
        Some(value) => (
            scalar_of(scalar_type_in(alloc, value)),
            plain(int_type_in(alloc, value)),
        ),
    }
}

#[test]
fn types_of_numbers(rt: HostRuntime) {
    for (text, scalar, int) in [
        (
            "key = \"i8\"",
            Some(Scalar::Int(IntTy::I8)),
            Some(IntTy::I8),
        ),
        ("key = \"bool\"", Some(Scalar::Bool), None),
        ("key = \"()\"", None, None),
    ] {
        let tree = tree_of(rt.alloc(), text);
        assert_eq!(rt; numbers_of(rt.alloc(), &tree), (scalar, int), "{text}");
    }
    assert_eq!(rt; form_of(&Ty::Char), Form::Scalar(Scalar::Char));
}

/// The number of a decimal text and of a value text.
fn words_of(scalar: Scalar, text: &[u8]) -> (Option<u128>, Option<u128>) {
    (
        number_word(scalar, text).map(|word| word.value),
        value_word(scalar, text).map(|word| word.value),
    )
}

#[test]
fn decimal_texts_and_value_texts(rt: HostRuntime) {
    for (scalar, text, number, value) in [
        (
            Scalar::Int(IntTy::I8),
            b"-128".as_slice(),
            Some(128),
            Some(128),
        ),
        (Scalar::Int(IntTy::I8), b"128", None, None),
        (Scalar::Bool, b"1", Some(1), None),
        (Scalar::Bool, b"true", None, Some(1)),
        (Scalar::Char, b"65", Some(65), Some(65)),
        (Scalar::Char, b"55296", None, None),
    ] {
        assert_eq!(rt; words_of(scalar, text), (number, value));
    }
    assert!(rt; is_decimal(b"10"));
}

/// Whether a list of paths, of words, of places and of locals is read.
fn lists_of(alloc: Global, tree: &Value) -> [bool; 4] {
    [
        is_read(list_at(alloc, &Paths, "key", tree)),
        is_read(list_at(alloc, &Words, "key", tree)),
        is_read(list_at(alloc, &Places, "key", tree)),
        is_read(list_at(alloc, &Locals, "key", tree)),
    ]
}

#[test]
fn lists_of_texts(rt: HostRuntime) {
    for (text, found) in [
        ("key = [ \"a\", \"b\" ]", [true, true, false, false]),
        ("key = [ \"a\", \"a\" ]", [true, false, false, false]),
        ("key = [ \"_1\", \"_1\" ]", [false, false, true, true]),
        ("key = [ \"(*_1)\" ]", [false, false, true, false]),
    ] {
        let tree = tree_of(rt.alloc(), text);
        assert_eq!(rt; lists_of(rt.alloc(), &tree), found, "{text}");
    }
}
