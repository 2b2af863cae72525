ghost use Rattle.std.specs.Prelude.{◌≡◌, None, Some, IfOk};
ghost use Rattle.mir_ir.specs.Names.{binary_of_name};
ghost use Rattle.mir_grammar.specs.Values.{to_used, binary_or_add, to_binary, unary_value, to_unary, measured_value, to_measured, sized_value, to_sized, to_ref_of, to_raw_of, to_array_of, to_no_array, to_tuple_of};
ghost use Rattle.mir_grammar.specs.declared.trees.ArrayTail.TheVariants.{Times};
ghost use Rattle.value_pieces.specs.Arrays.{array_of};

use crate::parts::{all_passed, values_of};
use mir_grammar::{Limited, Named, Passed, Placed};
use mir_ir::{BinaryOp, CastKind, Operand, Rvalue};
use mir_pieces::Piece;
use sqlite_items::Items;
use std::alloc::Global;
use vk_core::NoMemory;

/// An operand as a value.
#[tactic(auto, unfolding(mir_grammar::specs::Values::to_used))]
pub fn to_used(operand: Limited<Operand>) -> Limited<Rvalue>
    ensures { result ≡ to_used (operand, None) }
{
    let Limited { value, passed } = operand;
    Limited {
        value: Rvalue::Use(value),
        passed,
    }
}

/// An operand that is cast to a type.
#[tactic(auto, unfolding(mir_grammar::specs::Values::to_used))]
pub fn to_cast(operand: Limited<Operand>, named: Named, kind: CastKind) -> Limited<Rvalue>
    ensures { result ≡ to_used (operand, Some (named, kind)) }
{
    let Limited { value, passed } = operand;
    let Named { ty, is_long, .. } = named;
    Limited {
        value: Rvalue::Cast {
            operand: value,
            ty,
            kind,
        },
        passed: passed.both(Passed::of_name(is_long)),
    }
}

fn binary_op(word: &[u8]) -> BinaryOp
    ensures { result ≡ binary_or_add (binary_of_name word.now) }
{
    match BinaryOp::from_name(word) {
        None => BinaryOp::Add,
        Some(op) => op,
    }
}

/// An operator and its two operands.
#[tactic(auto, unfolding(mir_grammar::specs::Values::to_binary))]
pub fn to_binary(word: &Piece<'_>, a: Limited<Operand>, b: Limited<Operand>) -> Limited<Rvalue>
    ensures { result ≡ to_binary (word.now, (a, b)) }
{
    let op = binary_op(word.text());
    let Limited {
        value: a,
        passed: of_a,
    } = a;
    let Limited {
        value: b,
        passed: of_b,
    } = b;
    Limited {
        value: Rvalue::Binary { op, a, b },
        passed: of_a.both(of_b),
    }
}

fn unary_value(word: &[u8], operand: Operand) -> Rvalue
    ensures { result ≡ unary_value word.now operand }
{
    if b"Not".as_slice() == word {
        Rvalue::Not(operand)
    } else if b"Neg".as_slice() == word {
        Rvalue::Neg(operand)
    } else {
        Rvalue::PtrMetadata(operand)
    }
}

/// `Not`, `Neg` or `PtrMetadata` of an operand.
#[tactic(auto, unfolding(mir_grammar::specs::Values::to_unary))]
pub fn to_unary(word: &Piece<'_>, operand: Limited<Operand>) -> Limited<Rvalue>
    ensures { result ≡ to_unary (word.now, operand) }
{
    let Limited { value, passed } = operand;
    Limited {
        value: unary_value(word.text(), value),
        passed,
    }
}

/// `discriminant` or `Len` of a place.
#[tactic(auto, unfolding(mir_grammar::specs::Values::to_measured))]
pub fn to_measured(word: &Piece<'_>, placed: Placed) -> Limited<Rvalue>
    ensures { result ≡ to_measured (word.now, placed) }
{
    let passed = placed.passed;
    Limited {
        value: measured_value(word.text(), placed),
        passed,
    }
}

fn measured_value(word: &[u8], placed: Placed) -> Rvalue
    ensures { result ≡ measured_value word.now placed }
{
    let Placed { place, .. } = placed;
    if b"Len".as_slice() == word {
        Rvalue::Len(place)
    } else {
        Rvalue::Discriminant(place)
    }
}

fn sized_value(word: &[u8], named: Named) -> Rvalue
    ensures { result ≡ sized_value word.now named }
{
    let Named { ty, .. } = named;
    if b"SizeOf".as_slice() == word {
        Rvalue::SizeOf(ty)
    } else {
        Rvalue::AlignOf(ty)
    }
}

/// `SizeOf` or `AlignOf` of a type.
#[tactic(auto, unfolding(mir_grammar::specs::Values::to_sized))]
pub fn to_sized(word: &Piece<'_>, named: Named) -> Limited<Rvalue>
    ensures { result ≡ to_sized (word.now, named) }
{
    let passed = Passed::of_name(named.is_long);
    Limited {
        value: sized_value(word.text(), named),
        passed,
    }
}

/// `&` or `&mut` of a place.
#[tactic(auto, unfolding(mir_grammar::specs::Values::to_ref_of))]
pub fn to_ref_of(mutable: bool, placed: Placed) -> Limited<Rvalue>
    ensures { result ≡ to_ref_of (mutable, placed) }
{
    let Placed { place, passed } = placed;
    Limited {
        value: Rvalue::RefOf { mutable, place },
        passed,
    }
}

/// `&raw const` or `&raw mut` of a place.
#[tactic(auto, unfolding(mir_grammar::specs::Values::to_raw_of))]
pub fn to_raw_of(mutable: bool, placed: Placed) -> Limited<Rvalue>
    ensures { result ≡ to_raw_of (mutable, placed) }
{
    let Placed { place, passed } = placed;
    Limited {
        value: Rvalue::RawOf { mutable, place },
        passed,
    }
}

/// `[ operand ; number ]`
#[tactic(auto, unfolding(mir_grammar::specs::Values::to_array_of))]
pub fn to_repeat(operand: Limited<Operand>, count: u128) -> Limited<Rvalue>
    ensures { result ≡ to_array_of (operand, Times count) }
{
    let Limited { value, passed } = operand;
    Limited {
        value: Rvalue::Repeat {
            operand: value,
            count,
        },
        passed,
    }
}

/// Any number of operands in brackets.
pub fn to_array_of(
    alloc: Global,
    operands: Items<Limited<Operand>>,
) -> Result<Limited<Rvalue>, NoMemory>
    ensures { IfOk result (λ array. array ≡ array_of operands) }
{
    let passed = all_passed(operands.as_slice());
    let values = values_of(alloc, operands)?;
    Ok(Limited {
        value: Rvalue::Array(values),
        passed,
    })
}

/// Any number of operands in parentheses.
#[tactic(auto, unfolding(mir_grammar::specs::Values::to_tuple_of))]
pub fn to_tuple_of(
    alloc: Global,
    operands: Items<Limited<Operand>>,
    comma: bool,
) -> Result<Limited<Rvalue>, NoMemory>
    ensures { IfOk result (λ tuple. tuple ≡ to_tuple_of (operands, comma)) }
{
    let _comma = comma;
    let passed = all_passed(operands.as_slice());
    let values = values_of(alloc, operands)?;
    Ok(Limited {
        value: Rvalue::Tuple(values),
        passed,
    })
}

/// An array of no operands.
#[tactic(auto, unfolding(mir_grammar::specs::Values::to_no_array))]
pub fn to_no_array(alloc: Global, close: &Piece<'_>) -> Limited<Rvalue>
    ensures { result ≡ to_no_array close.now }
{
    let _close = close;
    Limited {
        value: Rvalue::Array(Items::new(alloc)),
        passed: Passed::none(),
    }
}
