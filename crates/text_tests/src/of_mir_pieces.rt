use crate::texts::lexed;
use mir_grammar::{Argument, Head, Named, Step};
use mir_ir::{IntTy, Ty};
use mir_pieces::to_path;
use sqlite_items::Items;
use std::test::Fail;

#[test]
fn tokens_have_their_classes(rt: HostRuntime) -> Result<(), Fail> {
    let source = b"&mut _0 _12 bb3 u8 name 7 7_u8 200_i8 'a'".as_slice();
    let pieces = lexed(rt.alloc(), source)?;
    let mut at = 0;
    for class in [15, 117, 30, 31, 32, 108, 33, 35, 37, 39, 41] {
        let piece = pieces.get(at).ok_or("too few tokens")?;
        assert_eq!(rt; piece.class(), class);
        at += 1;
    }
    assert_eq!(rt; pieces.len(), at);
    Ok(())
}

#[test]
fn a_box_is_known_by_its_path(rt: HostRuntime) -> Result<(), Fail> {
    let named = Named {
        ty: Ty::Int(IntTy::U8),
        text: Items::from_slice(rt.alloc(), b"u8")?,
        is_long: false,
        argument: None,
        start: 4,
    };
    let mut arguments = Items::new(rt.alloc());
    arguments.push(Argument::TypeArgument(named))?;
    let mut steps = Items::new(rt.alloc());
    steps.push(Step::StepArguments(arguments))?;
    let word = Items::from_slice(rt.alloc(), b"Box")?;
    let path = to_path(rt.alloc(), Head::HeadWord(word, 0), steps)?;
    assert_eq!(rt; path.text.as_slice(), b"Box<u8>".as_slice());
    assert!(rt; matches!(&path.ty, Ty::BoxOf(_)));
    Ok(())
}
