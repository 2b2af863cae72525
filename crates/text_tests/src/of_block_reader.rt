use crate::texts::lexed;
use block_reader::text_at;
use grammar_words::{Stop, Why};
use mir_grammar::{Ending, RawBlock, RawFunction, Target};
use mir_ir::Terminator;
use mir_pieces::Piece;
use sqlite_items::Items;
use std::alloc::Global;
use std::test::Fail;

/// A name for a terminator, and a block that it goes to.
fn settled(terminator: &Terminator) -> (&'static str, u32) {
    match terminator {
        Terminator::Goto { target } => ("goto", target.0),
        Terminator::Switch { otherwise, .. } => ("switch", otherwise.0),
        Terminator::Return => ("return", 0),
        Terminator::Unreachable => ("unreachable", 0),
        Terminator::Drop { next, .. } => ("drop", next.0),
        Terminator::Assert { expected, next, .. } => {
            if *expected {
                ("assert", next.0)
            } else {
                ("assert not", next.0)
            }
        }
        Terminator::Call { .. } => ("settled call", 0),
    }
}

/// The same of a block's end.
fn end_of(ending: &Ending) -> (&'static str, u32) {
    match ending {
        Ending::Settled(terminator) => settled(terminator),
        Ending::Calling(_place, _callee, _arguments, target) => match target {
            Target::ToBlock(block) => ("call to a block", block.0),
            Target::ToLabel(block) => ("call to a label", block.0),
            Target::ToNone => ("call", 0),
        },
    }
}

/// A block's number, whether it is a cleanup block, how many statements it has, and how it ends.
fn seen(block: &RawBlock) -> (u32, bool, usize, &'static str, u32) {
    let (name, target) = end_of(&block.ending.value);
    (
        block.id.0,
        block.is_cleanup,
        block.statements.len(),
        name,
        target,
    )
}

#[test]
fn a_function_has_its_blocks_in_order(rt: HostRuntime) -> Result<(), Fail> {
    let text = b"fn a::b(_1: u8, _2: &T) -> u8 {
    debug x => _1;
    let mut _0: u8;
    scope 1 (inlined c) { let _3: bool; scope 2 { let _4: char; } }
    bb0: {
        StorageLive(_3);
        nop;
        _3 = Lt(copy _1, const 3_u8);
        switchInt(move _3) -> [0: bb2, otherwise: bb1];
    }
    bb1: { assert(!copy _3, \"no {}\", copy _1) -> [success: bb2, unwind: bb6]; }
    bb2: { _0 = f(copy _1) -> [return: bb3, unwind continue]; }
    bb3: { _0 = f::<u8>() -> bb4; }
    bb4: { discriminant(_2) = 1; drop(_2) -> [return: bb5, unwind terminate(abi)]; }
    bb5: { _0 = f(move _1) -> unwind unreachable; }
    bb6 (cleanup): { _0 = S { x: copy _1 }; resume; }
}"
        .as_slice();
    let lexed = lexed(rt.alloc(), text)?;
    let turns = lexed.len();
    let Ok((functions, rest)) = text_at(rt.alloc(), turns, 3, lexed.as_slice())? else {
        return Err("refused".into());
    };
    assert_eq!(rt; rest.len(), 0);
    let function = functions.get(0).ok_or("no function")?;
    assert_eq!(rt; function.name.text.as_slice(), b"a::b".as_slice());
    assert_eq!(rt; function.parameters.len(), 2);
    assert_eq!(rt; function.items.len(), 3);
    let mut at = 0;
    for expected in [
        (0, false, 3, "switch", 1),
        (1, false, 0, "assert not", 2),
        (2, false, 0, "call to a block", 3),
        (3, false, 0, "call to a label", 4),
        (4, false, 1, "drop", 5),
        (5, false, 0, "call", 0),
        (6, true, 1, "unreachable", 0),
    ] {
        let block = function.blocks.as_slice().get(at).ok_or("too few blocks")?;
        assert_eq!(rt; seen(block), expected);
        at += 1;
    }
    assert_eq!(rt; function.blocks.len(), at);
    Ok(())
}

/// Why reading stops, and how many tokens are left there.
fn told(read: Result<(Items<RawFunction>, &[Piece<'_>]), Stop>) -> (&'static str, usize) {
    match read {
        Ok((_functions, rest)) => ("read", rest.len()),
        Err(stop) => match stop.why {
            Why::Wrong => ("wrong", stop.left),
            Why::Deep => ("deep", stop.left),
            Why::Spent => ("spent", stop.left),
        },
    }
}

#[test]
fn reading_stops_at_the_first_fault(rt: HostRuntime) -> Result<(), Fail> {
    for (text, why, left) in [
        (b"".as_slice(), "read", 0),
        (b"fn f() -> () { } fn g() -> u8 { }".as_slice(), "read", 0),
        (b"fn f() -> () { } x".as_slice(), "read", 1),
        (b"fn f(_0: u8) -> u8 { }".as_slice(), "wrong", 8),
        (b"fn f() -> u8 { bb0: { nop; } }".as_slice(), "wrong", 2),
        (b"fn f() -> u8 { bb0: { resume; } }".as_slice(), "wrong", 4),
        (
            b"fn f() -> u8 { bb0 (cleanup): { return } }".as_slice(),
            "wrong",
            2,
        ),
        (b"fn f() -> u8 { let _1: u8 }".as_slice(), "wrong", 1),
        (
            b"fn f() -> u8 { scope 1 { scope 2 { scope 3 { } } } }".as_slice(),
            "deep",
            7,
        ),
    ] {
        let lexed = lexed(rt.alloc(), text)?;
        let turns = lexed.len();
        let read = text_at(rt.alloc(), turns, 1, lexed.as_slice())?;
        assert_eq!(rt; told(read), (why, left));
    }
    Ok(())
}
