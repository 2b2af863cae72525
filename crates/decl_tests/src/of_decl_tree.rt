use crate::trees::{is_fault, plain, tree_of};
use decl_texts::{Paths, Words};
use decl_tree::{
    DeclKind, Element, Read, each, here, list_at, missing, number_at, number_in, one_label,
    only_keys, small_at, small_in, small_or_at, under, under_item, under_key,
};
use sqlite_items::Items;
use std::alloc::Global;
use toml::Value;

/// How a number that a key holds is read, from 1 to 9: with 64 bits, with 32, and with 32 and 5 where the key is absent.
fn numbers_at(alloc: Global, tree: &Value) -> (Option<u64>, Option<u32>, Option<u32>) {
    (
        plain(number_at(alloc, 1, 9, "key", tree)),
        plain(small_at(alloc, 1, 9, "key", tree)),
        plain(small_or_at(alloc, 5, 1, 9, "key", tree)),
    )
}

#[test]
fn numbers_in_their_range(rt: HostRuntime) {
    for (text, wide, small, other) in [
        ("key = 1", Some(1), Some(1), Some(1)),
        ("key = 9", Some(9), Some(9), Some(9)),
        ("key = 0", None, None, None),
        ("key = 10", None, None, None),
        ("key = -1", None, None, None),
        ("key = 4294967297", None, None, None),
        ("key = \"1\"", None, None, None),
        ("", None, None, Some(5)),
    ] {
        let tree = tree_of(rt.alloc(), text);
        assert_eq!(rt;
            numbers_at(rt.alloc(), &tree),
            (wide, small, other),
            "{text}"
        );
    }
}

#[test]
fn numbers_by_themselves(rt: HostRuntime) {
    assert_eq!(rt;
        plain(number_in(rt.alloc(), 0, 9, &Value::Integer(9))),
        Some(9)
    );
    assert_eq!(rt;
        plain(small_in(rt.alloc(), 0, 9, &Value::Integer(9))),
        Some(9)
    );
}

/// How many elements a list has that was read.
fn count<A: Drop>(read: Read<Items<A>>) -> Option<usize> {
    match read {
        Ok(Ok(items)) => Some(items.len()),
        _ => None,
    }
}

/// How many elements the list at a key has, each by itself.
fn count_of_each<R: Element>(alloc: Global, reader: &R, tree: &Value) -> Option<usize>
where
    R::Out: Drop,
{
    match tree.get("key") {
        None => None,
        Some(held) => match held.as_array() {
            None => None,
            Some(items) => count(each(alloc, reader, items.as_slice())),
        },
    }
}

#[test]
fn lists_are_read(rt: HostRuntime) {
    for (text, paths, words) in [
        ("key = [ \"a\", \"b\" ]", Some(2), Some(2)),
        ("key = [ \"a\", \"a\" ]", Some(2), None),
        ("key = [ \"a\", 1 ]", None, None),
        ("key = []", Some(0), Some(0)),
        ("key = 1", None, None),
        ("", Some(0), Some(0)),
    ] {
        let tree = tree_of(rt.alloc(), text);
        assert_eq!(rt;
            count(list_at(rt.alloc(), &Paths, "key", &tree)),
            paths,
            "{text}"
        );
        assert_eq!(rt;
            count(list_at(rt.alloc(), &Words, "key", &tree)),
            words,
            "{text}"
        );
    }
}

#[test]
fn elements_are_read(rt: HostRuntime) {
    let tree = tree_of(rt.alloc(), "key = [ \"a\", \"b\", \"c\" ]");
    assert_eq!(rt; count_of_each(rt.alloc(), &Words, &tree), Some(3));
}

#[test]
fn faults_of_lists(rt: HostRuntime) {
    for (text, kind, path) in [
        (
            "key = [ \"a\", \"b\", \"a\" ]",
            DeclKind::Duplicate,
            ".key[2]",
        ),
        (
            "key = [ \"a\", \"\", \"a\" ]",
            DeclKind::WrongKind,
            ".key[1]",
        ),
        ("key = { }", DeclKind::WrongKind, ".key"),
    ] {
        let tree = tree_of(rt.alloc(), text);
        assert!(rt;
            is_fault(list_at(rt.alloc(), &Words, "key", &tree), kind, path),
            "{text}"
        );
    }
}

#[test]
fn keys_that_may_stand(rt: HostRuntime) {
    let tree = tree_of(rt.alloc(), "size = 1\nalign = 2");
    let alloc = rt.alloc();
    assert_eq!(rt;
        plain(only_keys(alloc, &["size", "align"], &tree)),
        Some(())
    );
    assert!(rt;
        is_fault(
            only_keys(alloc, &["sizes", "siz"], &tree),
            DeclKind::UnknownKey,
            ".align"
        )
    );
    assert!(rt;
        is_fault(
            only_keys(alloc, &[], &Value::Integer(1)),
            DeclKind::WrongKind,
            ""
        )
    );
}

/// A fault at the thing itself, told by one step.
fn fault_below(alloc: Global, step: usize) -> Read<u64> {
    let read = here(alloc, DeclKind::OutOfRange)?;
    match step {
        0 => under(alloc, b".a", read),
        1 => under_key(alloc, "b", read),
        2 => under_item(alloc, 30, read),
        _ => Ok(read),
    }
}

#[test]
fn faults_with_their_paths(rt: HostRuntime) {
    for (step, path) in [(0, ".a"), (1, ".b"), (2, "[30]"), (3, "")] {
        let fault = fault_below(rt.alloc(), step);
        assert!(rt; is_fault(fault, DeclKind::OutOfRange, path), "{path}");
    }
    let absent: Read<u64> = missing(rt.alloc(), "key");
    assert!(rt; is_fault(absent, DeclKind::MissingKey, ".key"));
}

/// The lengths of the texts of one label.
fn lengths_of_label(alloc: Global, first: &[u8], second: &[u8]) -> Option<(usize, usize)> {
    match one_label(alloc, first, second) {
        Ok(labels) => match labels.as_slice() {
            [label] => Some((label.first.as_bytes().len(), label.second.as_bytes().len())),
            _ => None,
        },
        Err(_memory) => None,
    }
}

#[test]
fn labels_have_two_texts(rt: HostRuntime) {
    assert_eq!(rt; lengths_of_label(rt.alloc(), b"u8", b"Queue"), Some((2, 5)));
}
