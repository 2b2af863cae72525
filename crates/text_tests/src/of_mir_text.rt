use mir_ir::{Function, Projection, Terminator, Ty};
use mir_text::{LexFault, Limit, PartFault, TextFault, parse, read_path, read_place, read_type};
use sqlite_items::Items;
use std::test::Fail;
use vk_core::{BlockId, TextPlace};

/// An answer by a word and its place.
fn summary(answer: Result<Items<Function>, TextFault>) -> (&'static str, TextPlace) {
    let nowhere = TextPlace { line: 0, column: 0 };
    match answer {
        Ok(_functions) => ("ok", nowhere),
        Err(TextFault::Lex(LexFault::BadByte { place })) => ("bad byte", place),
        Err(TextFault::Lex(LexFault::OpenText { place })) => ("open text", place),
        Err(TextFault::Lex(_fault)) => ("other token", nowhere),
        Err(TextFault::Unexpected { place }) => ("unexpected", place),
        Err(TextFault::Unsupported { place, form: _form }) => ("unsupported", place),
        Err(TextFault::TooDeep { place }) => ("too deep", place),
        Err(TextFault::Duplicate { place }) => ("duplicate", place),
        Err(
            TextFault::TooMany {
                what: Limit::Blocks,
            },
        ) => ("blocks", nowhere),
        Err(
            TextFault::TooMany {
                what: Limit::Locals,
            },
        ) => ("locals", nowhere),
        Err(TextFault::TooMany { what: _what }) => ("other limit", nowhere),
        Err(TextFault::Memory) => ("memory", nowhere),
    }
}

#[test]
fn each_text_has_its_answer(rt: HostRuntime) {
    for (text, word, line, column) in [
        (b"".as_slice(), "ok", 0, 0),
        (b"fn f() -> () { bb0: { return; } }".as_slice(), "ok", 0, 0),
        (b"fn f() -> () { # }".as_slice(), "bad byte", 1, 16),
        (b"fn f() -> () {\n'".as_slice(), "open text", 2, 1),
        (
            b"fn f() -> () { bb0: { return } # }".as_slice(),
            "bad byte",
            1,
            32,
        ),
        (
            b"fn f() -> () { bb0: { return } }".as_slice(),
            "unexpected",
            1,
            30,
        ),
        (b"fn f() -> () {\n".as_slice(), "unexpected", 2, 1),
        (
            b"fn f() -> () { bb0: { FakeRead(_1); return; } }".as_slice(),
            "unsupported",
            1,
            23,
        ),
        (b"const F: () = {};".as_slice(), "unsupported", 1, 1),
        (
            b"fn f(_1: &&&&&&&&&&&&&&&&&&&&&&&&&&&&&&&&&&&&&&&&&&&&&&&&&&&&&&&&&&&&&&&u8) -> () {}".as_slice(),
            "ok",
            0,
            0,
        ),
        (
            b"fn f(_1: &&&&&&&&&&&&&&&&&&&&&&&&&&&&&&&&&&&&&&&&&&&&&&&&&&&&&&&&&&&&&&&&u8) -> () {}".as_slice(),
            "too deep",
            1,
            74,
        ),
        (
            b"fn f() -> () {}\nfn f() -> () {}".as_slice(),
            "duplicate",
            2,
            4,
        ),
        (
            b"fn f() -> () { bb0: { return; } bb0 (cleanup): { resume; } }".as_slice(),
            "duplicate",
            1,
            33,
        ),
        (
            b"fn f() -> () { let _4096: u8; bb4096: { return; } }".as_slice(),
            "blocks",
            0,
            0,
        ),
        (
            b"fn f() -> () { let _4096: u8; bb4095: { return; } }".as_slice(),
            "locals",
            0,
            0,
        ),
    ] {
        let (told, place) = summary(parse(rt.alloc(), text));
        assert_eq!(rt; told, word);
        assert_eq!(rt; place, TextPlace { line, column });
    }
}

/// Whether a block ends in a call, and its next block.
fn next_of(terminator: &Terminator) -> Option<Option<BlockId>> {
    match terminator {
        Terminator::Call { next, .. } => Some(*next),
        _ => None,
    }
}

#[test]
fn a_function_is_what_it_means(rt: HostRuntime) -> Result<(), Fail> {
    let text =
        b"// first\nfn a::f(_1: u8, _2: bool) -> u8 { let mut _4: u8; let _3: (); scope 1 { let _5: u8; }\n\
        bb0: { nop; _4 = copy _1; _3 = g(move _4) -> bb2; }\n\
        bb1: { _3 = h::<u8>() -> bb3; }\n\
        bb3: { return; }\n\
        bb2 (cleanup): { resume; } }";
    let functions = parse(rt.alloc(), text.as_slice()).map_err(|_fault| "refused")?;
    let function = functions.get(0).ok_or("no function")?;
    assert_eq!(rt; function.name.as_bytes(), b"a::f".as_slice());
    assert_eq!(rt; function.place, TextPlace { line: 2, column: 4 });
    assert_eq!(rt; function.parameters, 2);
    let numbers = [1, 2, 0, 3, 4, 5];
    let mut at = 0;
    for local in function.locals.as_slice() {
        assert_eq!(rt; Some(local.id.0), numbers.get(at).copied());
        at += 1;
    }
    assert_eq!(rt; at, 6);
    assert_eq!(rt; function.blocks.len(), 3);
    let first = function.blocks.get(0).ok_or("no bb0")?;
    assert_eq!(rt; first.statements.len(), 1);
    assert_eq!(rt; next_of(&first.terminator), Some(None));
    let second = function.blocks.get(1).ok_or("no bb1")?;
    assert_eq!(rt; next_of(&second.terminator), Some(Some(BlockId(3))));
    Ok(())
}

#[test]
fn parts_are_read_alone(rt: HostRuntime) {
    let ty = read_type(rt.alloc(), b"std::boxed::Box<u8>");
    assert!(rt; matches!(&ty, Ok(Ty::BoxOf(_))));
    let ty = read_type(rt.alloc(), b"u8;");
    assert!(rt; matches!(&ty, Err(PartFault::NotOne)));
    let path = read_path(rt.alloc(), b"a::<u8>::b");
    assert!(rt; matches!(&path, Ok(name) if name.as_bytes() == b"a<u8>::b".as_slice()));
    let path = read_path(rt.alloc(), b"'");
    assert!(rt; matches!(&path, Err(PartFault::NotOne)));
    let place = read_place(rt.alloc(), b"(*_3)");
    assert!(rt;
        matches!(&place, Ok(place) if place.local.0 == 3 && matches!(place.steps.as_slice(), [Projection::Deref]))
    );
    let place = read_place(rt.alloc(), b"_4096");
    assert!(rt; matches!(&place, Err(PartFault::NotOne)));
}
