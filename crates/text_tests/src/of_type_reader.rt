use crate::texts::lexed;
use grammar_words::{Stop, Why};
use mir_grammar::Named;
use mir_ir::Ty;
use mir_pieces::{ANY_WORD, PATH_WORDS, Piece, TYPE_WORDS, Want};
use std::alloc::Global;
use std::test::Fail;
use type_reader::{free_path_at, path_from_at, type_at};

/// A name for what a type is made of, and a number in it.
fn kind_of(ty: &Ty) -> (&'static str, u128) {
    match ty {
        Ty::Bool => ("bool", 0),
        Ty::Char => ("char", 0),
        Ty::Int(_int) => ("integer", 0),
        Ty::Never => ("never", 0),
        Ty::Str => ("str", 0),
        Ty::Tuple(items) => ("tuple", u128::from(items.len() as u64)),
        Ty::Array { count, .. } => ("array", *count),
        Ty::Slice(_item) => ("slice", 0),
        Ty::Ref { mutable, .. } => ("reference", u128::from(*mutable)),
        Ty::Raw { mutable, .. } => ("pointer", u128::from(*mutable)),
        Ty::BoxOf(_target) => ("box", 0),
        Ty::Dyn(_path) => ("dyn", 0),
        Ty::Named(_path) => ("name", 0),
    }
}

/// Whether a whole text was read as a type with this canonical text, and what the type is made of.
fn seen(read: Result<(Named, &[Piece<'_>]), Stop>, canonical: &[u8]) -> (bool, &'static str, u128) {
    match read {
        Ok((named, rest)) => {
            let (kind, number) = kind_of(&named.ty);
            let is_whole = rest.is_empty() && named.text.as_slice() == canonical;
            (is_whole, kind, number)
        }
        Err(_stop) => (false, "refused", 0),
    }
}

#[test]
fn each_type_has_its_canonical_text(rt: HostRuntime) -> Result<(), Fail> {
    for (text, canonical, kind, number) in [
        (b"u8".as_slice(), b"u8".as_slice(), "integer", 0),
        (b"!".as_slice(), b"!".as_slice(), "never", 0),
        (b"( )".as_slice(), b"()".as_slice(), "tuple", 0),
        (b"(char)".as_slice(), b"(char)".as_slice(), "char", 0),
        (b"(bool ,)".as_slice(), b"(bool,)".as_slice(), "tuple", 1),
        (b"[str;12]".as_slice(), b"[str; 12]".as_slice(), "array", 12),
        (b"[ a :: b ]".as_slice(), b"[a::b]".as_slice(), "slice", 0),
        (
            b"&'a mut(u8,!)".as_slice(),
            b"&mut (u8, !)".as_slice(),
            "reference",
            1,
        ),
        (b"&mut::x".as_slice(), b"&mut::x".as_slice(), "reference", 0),
        (
            b"*const*mut T".as_slice(),
            b"*const *mut T".as_slice(),
            "pointer",
            0,
        ),
        (
            b"dyn a::B::<'c>+'d".as_slice(),
            b"dyn a::B<'c>".as_slice(),
            "dyn",
            0,
        ),
        (
            b"std::boxed::Box::<[u8]>".as_slice(),
            b"std::boxed::Box<[u8]>".as_slice(),
            "box",
            0,
        ),
        (
            b"<T as a::B>::c::<2,u8>".as_slice(),
            b"<T as a::B>::c<2, u8>".as_slice(),
            "name",
            0,
        ),
        (
            b"a::<impl B>::c".as_slice(),
            b"a::<impl B>::c".as_slice(),
            "name",
            0,
        ),
    ] {
        let lexed = lexed(rt.alloc(), text)?;
        let turns = lexed.len();
        let read = type_at(rt.alloc(), turns, 4, Want::AnyType, lexed.as_slice())?;
        assert_eq!(rt; seen(read, canonical), (true, kind, number));
    }
    Ok(())
}

/// Why reading stops, and how many tokens are left there.
fn told(read: Result<(Named, &[Piece<'_>]), Stop>) -> (&'static str, usize) {
    match read {
        Ok((_named, rest)) => ("read", rest.len()),
        Err(stop) => match stop.why {
            Why::Wrong => ("wrong", stop.left),
            Why::Deep => ("deep", stop.left),
            Why::Spent => ("spent", stop.left),
        },
    }
}

#[test]
fn reading_stops_at_the_first_fault(rt: HostRuntime) -> Result<(), Fail> {
    for (text, depth, why, left) in [
        (b"&u8 ;".as_slice(), 2, "read", 1),
        (b"&u8".as_slice(), 1, "deep", 1),
        (b"a<b<c>>".as_slice(), 2, "deep", 3),
        (b"<a as b>::c".as_slice(), 2, "deep", 6),
        (b"&".as_slice(), 1, "wrong", 0),
        (b"[u8; x]".as_slice(), 4, "wrong", 2),
        (b"&mut 3".as_slice(), 4, "wrong", 1),
        (b"* u8".as_slice(), 4, "wrong", 1),
        (b"(, u8)".as_slice(), 4, "wrong", 2),
        (b"a::<b".as_slice(), 4, "wrong", 0),
        (b"dyn u8 + a".as_slice(), 4, "wrong", 1),
    ] {
        let lexed = lexed(rt.alloc(), text)?;
        let turns = lexed.len();
        let read = type_at(rt.alloc(), turns, depth, Want::AnyType, lexed.as_slice())?;
        assert_eq!(rt; told(read), (why, left));
    }
    Ok(())
}

#[test]
fn a_word_of_the_types_begins_a_path_before_colons(rt: HostRuntime) -> Result<(), Fail> {
    let lexed = lexed(rt.alloc(), b"u8::MAX")?;
    let turns = lexed.len();
    let tokens = lexed.as_slice();
    let read = path_from_at(rt.alloc(), turns, 1, &TYPE_WORDS, &PATH_WORDS, tokens)?;
    assert_eq!(rt; seen(read, b"u8::MAX"), (true, "name", 0));
    let read = free_path_at(rt.alloc(), turns, 1, &ANY_WORD, tokens)?;
    assert_eq!(rt; seen(read, b"u8::MAX"), (true, "name", 0));
    let read = free_path_at(rt.alloc(), turns, 1, &PATH_WORDS, tokens)?;
    assert_eq!(rt; told(read), ("wrong", 3));
    Ok(())
}
