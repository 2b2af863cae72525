use part_texts::{path_of, place_of, texts_are_read, type_of};
use std::alloc::Global;
use vk_core::{Name, NoMemory};

fn is_there<A: Drop>(read: Result<Option<A>, NoMemory>) -> bool {
    match read {
        Ok(Some(_value)) => true,
        _ => false,
    }
}

/// Whether a text is a type, a path and a place.
fn parts_of(alloc: Global, text: &[u8]) -> [bool; 3] {
    [
        is_there(type_of(alloc, text)),
        is_there(path_of(alloc, text)),
        is_there(place_of(alloc, text)),
    ]
}

#[test]
fn texts_by_themselves(rt: HostRuntime) {
    for (text, found) in [
        (b"u8".as_slice(), [true, true, false]),
        (b"&mut [u8]", [true, false, false]),
        (b" Vec < u8 > // a comment", [true, true, false]),
        (b"_1", [false, false, true]),
        (b"((*_1).0: u8)", [false, false, true]),
        (b"u8;", [false, false, false]),
        (b"", [false, false, false]),
        (b"_4096", [false, false, false]),
    ] {
        assert_eq!(rt; parts_of(rt.alloc(), text), found);
    }
}

/// Whether a path is read as this text.
fn is_path(read: Result<Option<Name>, NoMemory>, text: &[u8]) -> bool {
    match read {
        Ok(Some(path)) => path.as_bytes() == text,
        _ => false,
    }
}

#[test]
fn a_path_is_its_canonical_text(rt: HostRuntime) {
    texts_are_read(b"Map::<u8,u16>");
    assert!(rt; is_path(path_of(rt.alloc(), b"Map::<u8,u16>"), b"Map<u8, u16>"));
}
