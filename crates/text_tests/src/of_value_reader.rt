use crate::texts::lexed;
use grammar_words::{Stop, Why};
use mir_grammar::{Limited, Named, Placed};
use mir_ir::{Constant, Operand, PlaceExpr, Projection, Rvalue, Steps};
use mir_pieces::Piece;
use sqlite_items::Items;
use std::alloc::Global;
use std::test::Fail;
use value_reader::{fields_at, formed_value_at, operand_at, operands_at, place, value_path_at};

/// A name for a step, and a number in it.
fn step_of(step: &Projection) -> (&'static str, u128) {
    match step {
        Projection::Field { index, ty: _ } => ("field", *index),
        Projection::Deref => ("deref", 0),
        Projection::Index(local) => ("index", u128::from(local.0)),
        Projection::FromFront { at, least: _ } => ("front", *at),
        Projection::FromBack { at, least: _ } => ("back", *at),
        Projection::Downcast(_name) => ("downcast", 0),
    }
}

/// The steps of a place that was read.
fn steps_read(read: Result<(Placed, &[Piece<'_>]), Stop>) -> Option<Steps> {
    match read {
        Ok((placed, _rest)) => {
            let PlaceExpr { steps, .. } = placed.place;
            Some(steps)
        }
        Err(_stop) => None,
    }
}

#[test]
fn a_place_has_its_steps_in_order(rt: HostRuntime) -> Result<(), Fail> {
    let lexed = lexed(rt.alloc(), b"(((*_5) as Some).3: u8)[_4][7 of 8][-2 of 3]")?;
    let read = place(rt.alloc(), 60, 5, lexed.as_slice())?;
    let steps = steps_read(read).ok_or("refused")?;
    let mut at = 0;
    for expected in [
        ("deref", 0),
        ("downcast", 0),
        ("field", 3),
        ("index", 4),
        ("front", 7),
        ("back", 2),
    ] {
        let step = steps.as_slice().get(at).ok_or("too few steps")?;
        assert_eq!(rt; step_of(step), expected);
        at += 1;
    }
    assert_eq!(rt; steps.as_slice().len(), at);
    Ok(())
}

/// Why reading a place stops, and how many tokens are left there.
fn told(read: Result<(Placed, &[Piece<'_>]), Stop>) -> (&'static str, usize) {
    match read {
        Ok((_placed, rest)) => ("read", rest.len()),
        Err(stop) => match stop.why {
            Why::Wrong => ("wrong", stop.left),
            Why::Deep => ("deep", stop.left),
            Why::Spent => ("spent", stop.left),
        },
    }
}

#[test]
fn a_place_stops_at_the_first_fault(rt: HostRuntime) -> Result<(), Fail> {
    for (text, depth, why, left) in [
        (b"_1 =".as_slice(), 1, "read", 1),
        (b"_1".as_slice(), 0, "deep", 1),
        (b"(*(*_1))".as_slice(), 2, "deep", 3),
        (b"(*(*_1))".as_slice(), 3, "read", 0),
        (b"(_1 . x)".as_slice(), 4, "wrong", 2),
        (b"_1[2 of]".as_slice(), 4, "wrong", 1),
    ] {
        let lexed = lexed(rt.alloc(), text)?;
        let turns = lexed.len();
        let read = place(rt.alloc(), turns, depth, lexed.as_slice())?;
        assert_eq!(rt; told(read), (why, left));
    }
    Ok(())
}

/// A name for a value, and a number in it.
fn kind_of(value: &Rvalue) -> (&'static str, usize) {
    match value {
        Rvalue::Use(_operand) => ("use", 0),
        Rvalue::Cast { .. } => ("cast", 0),
        Rvalue::Binary { .. } => ("binary", 0),
        Rvalue::Not(_operand) => ("not", 0),
        Rvalue::Neg(_operand) => ("neg", 0),
        Rvalue::PtrMetadata(_operand) => ("metadata", 0),
        Rvalue::RefOf { .. } => ("reference", 0),
        Rvalue::RawOf { .. } => ("pointer", 0),
        Rvalue::Discriminant(_place) => ("discriminant", 0),
        Rvalue::Len(_place) => ("len", 0),
        Rvalue::SizeOf(_ty) => ("size", 0),
        Rvalue::AlignOf(_ty) => ("align", 0),
        Rvalue::Array(operands) => ("array", operands.len()),
        Rvalue::Repeat { .. } => ("repeat", 0),
        Rvalue::Tuple(operands) => ("tuple", operands.len()),
        Rvalue::PathUnit(_name) => ("unit", 0),
        Rvalue::PathTuple { .. } => ("path", 0),
        Rvalue::PathFields { .. } => ("fields", 0),
    }
}

/// What a whole text was read as.
fn seen(read: Result<(Limited<Rvalue>, &[Piece<'_>]), Stop>) -> (bool, &'static str, usize) {
    match read {
        Ok((limited, rest)) => {
            let (kind, number) = kind_of(&limited.value);
            (rest.is_empty(), kind, number)
        }
        Err(_stop) => (false, "refused", 0),
    }
}

#[test]
fn each_value_is_read(rt: HostRuntime) -> Result<(), Fail> {
    for (text, kind, number) in [
        (b"copy _1".as_slice(), "use", 0),
        (b"move _1 as u8 (IntToInt)".as_slice(), "cast", 0),
        (
            b"_1 as &[u8] (PointerCoercion(Unsize, Implicit))".as_slice(),
            "cast",
            0,
        ),
        (b"Add(copy _1, const -1_i8)".as_slice(), "binary", 0),
        (b"Not(const true)".as_slice(), "not", 0),
        (b"Len((*_1))".as_slice(), "len", 0),
        (b"AlignOf(u8)".as_slice(), "align", 0),
        (b"&mut _1".as_slice(), "reference", 0),
        (b"&raw const (*_1)".as_slice(), "pointer", 0),
        (b"[]".as_slice(), "array", 0),
        (b"[const 'a', copy _1]".as_slice(), "array", 2),
        (b"[const \"a\"; 3]".as_slice(), "repeat", 0),
        (b"(copy _1, const u8::MAX,)".as_slice(), "tuple", 2),
        (b"()".as_slice(), "tuple", 0),
        (b"[copy _1; _2]".as_slice(), "refused", 0),
    ] {
        let lexed = lexed(rt.alloc(), text)?;
        let turns = lexed.len();
        let read = formed_value_at(rt.alloc(), turns, 4, lexed.as_slice())?;
        let expected = (kind != "refused", kind, number);
        assert_eq!(rt; seen(read), expected);
    }
    Ok(())
}

/// How many parts were read, and how many tokens are left behind them.
fn counted<T: Drop>(read: Result<(Items<T>, &[Piece<'_>]), Stop>) -> Option<(usize, usize)> {
    match read {
        Ok((parts, rest)) => Some((parts.len(), rest.len())),
        Err(_stop) => None,
    }
}

#[test]
fn operands_stand_in_parentheses(rt: HostRuntime) -> Result<(), Fail> {
    let lexed = lexed(rt.alloc(), b"(copy _1, const i8::MIN) ->")?;
    let read = operands_at(rt.alloc(), 9, 4, lexed.as_slice())?;
    assert_eq!(rt; counted(read), Some((2, 1)));
    Ok(())
}

#[test]
fn fields_stand_in_braces(rt: HostRuntime) -> Result<(), Fail> {
    let lexed = lexed(rt.alloc(), b"{ a: copy _1, b: const () }")?;
    let read = fields_at(rt.alloc(), 9, 4, lexed.as_slice())?;
    assert_eq!(rt; counted(read), Some((2, 0)));
    Ok(())
}

/// The text of a path.
fn path_of(read: Result<(Named, &[Piece<'_>]), Stop>) -> Option<Items<u8>> {
    match read {
        Ok((named, _rest)) => {
            let Named { text, .. } = named;
            Some(text)
        }
        Err(_stop) => None,
    }
}

#[test]
fn a_path_begins_a_value(rt: HostRuntime) -> Result<(), Fail> {
    let lexed = lexed(rt.alloc(), b"a::B")?;
    let read = value_path_at(rt.alloc(), 9, 4, lexed.as_slice())?;
    let path = path_of(read).ok_or("refused")?;
    assert_eq!(rt; path.as_slice(), b"a::B".as_slice());
    Ok(())
}

/// The bits of an integer.
fn bits_of(operand: Operand) -> Option<u128> {
    match operand {
        Operand::Const(Constant::Integer { ty: _, word }) => Some(word.value),
        _ => None,
    }
}

/// The bits of an integer that was read.
fn bits_read(read: Result<(Limited<Operand>, &[Piece<'_>]), Stop>) -> Option<u128> {
    match read {
        Ok((limited, _rest)) => {
            let Limited { value, .. } = limited;
            bits_of(value)
        }
        Err(_stop) => None,
    }
}

#[test]
fn a_minus_makes_the_complement(rt: HostRuntime) -> Result<(), Fail> {
    let lexed = lexed(rt.alloc(), b"const -3_i8")?;
    let read = operand_at(rt.alloc(), 9, 4, lexed.as_slice())?;
    assert_eq!(rt; bits_read(read), Some(253));
    Ok(())
}
