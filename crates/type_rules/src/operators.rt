ghost use Rattle.std.specs.Prelude.{◌≡◌};
ghost use Rattle.type_rules.specs.Operators.{arithmetic_type, binary_type, bits_type, comparison_type, integers, is_distance, is_raw, is_thin_raw, neg_type, not_type, offset_type, points_to_slice, same_pointers, same_raw, same_scalars, shift_type, wrapping_type};
ghost use Rattle.type_rules.specs.Types.{pointer_of, scalar_of};
ghost use Rattle.type_rules.specs.Values.{some_pointer, some_type, type_of};

use crate::types::{PointerKind, PointerTy, Scalar, is_sized, same_bool, same_int, same_type};
use crate::values::ValueTy;
use mir_ir::{BinaryOp, IntTy, Ty};

fn integers(a: Option<Scalar>, b: Option<Scalar>) -> Option<IntTy>
    ensures { result ≡ integers a b }
{
    match a {
        Some(Scalar::Int(first)) => match b {
            Some(Scalar::Int(second)) if same_int(first, second) => Some(first),
            _ => None,
        },
        _ => None,
    }
}

fn arithmetic<'a>(a: Option<Scalar>, b: Option<Scalar>) -> Option<ValueTy<'a>>
    ensures { some_type result ≡ arithmetic_type a b }
{
    match integers(a, b) {
        None => None,
        Some(int) => Some(ValueTy::Int(int)),
    }
}

fn wrapping<'a>(a: Option<Scalar>, b: Option<Scalar>) -> Option<ValueTy<'a>>
    ensures { some_type result ≡ wrapping_type a b }
{
    match integers(a, b) {
        None => None,
        Some(int) => Some(ValueTy::WithFlag(int)),
    }
}

fn bits<'a>(a: Option<Scalar>, b: Option<Scalar>) -> Option<ValueTy<'a>>
    ensures { some_type result ≡ bits_type a b }
{
    match a {
        Some(Scalar::Bool) => match b {
            Some(Scalar::Bool) => Some(ValueTy::Bool),
            _ => None,
        },
        _ => arithmetic(a, b),
    }
}

fn shift<'a>(a: Option<Scalar>, b: Option<Scalar>) -> Option<ValueTy<'a>>
    ensures { some_type result ≡ shift_type a b }
{
    match a {
        Some(Scalar::Int(first)) => match b {
            Some(Scalar::Int(_)) => Some(ValueTy::Int(first)),
            _ => None,
        },
        _ => None,
    }
}

fn is_raw(kind: PointerKind) -> bool
    ensures { result ≡ is_raw kind }
{
    matches!(kind, PointerKind::Raw { .. })
}

fn is_thin_raw(pointer: Option<PointerTy<'_>>) -> bool
    ensures { result ≡ is_thin_raw (some_pointer pointer.entry) }
{
    match pointer {
        None => false,
        Some(pointer) => is_raw(pointer.kind) && is_sized(pointer.target),
    }
}

fn same_raw(a: PointerKind, b: PointerKind) -> bool
    ensures { result ≡ same_raw a b }
{
    match a {
        PointerKind::Raw { mutable } => match b {
            PointerKind::Raw { mutable: other } => same_bool(mutable, other),
            _ => false,
        },
        _ => false,
    }
}

fn same_pointers(a: Option<PointerTy<'_>>, b: Option<PointerTy<'_>>) -> bool
    ensures { result ≡ same_pointers (some_pointer a.entry) (some_pointer b.entry) }
{
    match a {
        None => false,
        Some(first) => match b {
            None => false,
            Some(second) => {
                same_raw(first.kind, second.kind)
                    && is_sized(first.target)
                    && same_type(first.target, second.target)
            }
        },
    }
}

fn same_scalars(a: Option<Scalar>, b: Option<Scalar>) -> bool
    ensures { result ≡ same_scalars a b }
{
    match a {
        None => false,
        Some(Scalar::Bool) => matches!(b, Some(Scalar::Bool)),
        Some(Scalar::Char) => matches!(b, Some(Scalar::Char)),
        Some(Scalar::Int(first)) => match b {
            Some(Scalar::Int(second)) => same_int(first, second),
            _ => false,
        },
    }
}

fn comparison<'a>(a: ValueTy<'_>, b: ValueTy<'_>) -> Option<ValueTy<'a>>
    ensures { some_type result ≡ comparison_type (type_of a.entry) (type_of b.entry) }
{
    if same_scalars(a.scalar(), b.scalar()) || same_pointers(a.pointer(), b.pointer()) {
        Some(ValueTy::Bool)
    } else {
        None
    }
}

fn is_distance(scalar: Option<Scalar>) -> bool
    ensures { result ≡ is_distance scalar }
{
    match scalar {
        Some(Scalar::Int(int)) => same_int(int, IntTy::Usize) || same_int(int, IntTy::Isize),
        _ => false,
    }
}

fn offset<'a>(a: ValueTy<'a>, b: ValueTy<'_>) -> Option<ValueTy<'a>>
    ensures { some_type result ≡ offset_type (type_of a.entry) (type_of b.entry) }
{
    if is_thin_raw(a.pointer()) && is_distance(b.scalar()) {
        Some(a)
    } else {
        None
    }
}

/// What an operator of two operands gives, None where it does not take operands of these types.
pub fn binary_type<'a>(op: BinaryOp, a: ValueTy<'a>, b: ValueTy<'a>) -> Option<ValueTy<'a>>
    ensures { some_type result ≡ binary_type op (type_of a.entry) (type_of b.entry) }
{
    match op {
        BinaryOp::Add | BinaryOp::Sub | BinaryOp::Mul | BinaryOp::Div | BinaryOp::Rem => {
            arithmetic(a.scalar(), b.scalar())
        }
        BinaryOp::BitXor | BinaryOp::BitAnd | BinaryOp::BitOr => bits(a.scalar(), b.scalar()),
        BinaryOp::Shl | BinaryOp::Shr => shift(a.scalar(), b.scalar()),
        BinaryOp::Eq | BinaryOp::Lt | BinaryOp::Le | BinaryOp::Ne | BinaryOp::Ge | BinaryOp::Gt =>
            comparison(a, b),
        BinaryOp::Offset => offset(a, b),
        BinaryOp::AddWithOverflow | BinaryOp::SubWithOverflow | BinaryOp::MulWithOverflow => {
            wrapping(a.scalar(), b.scalar())
        }
    }
}

/// What `Not` gives: it takes an integer or a `bool`.
pub fn not_type<'a>(scalar: Option<Scalar>) -> Option<ValueTy<'a>>
    ensures { some_type result ≡ not_type scalar }
{
    match scalar {
        Some(Scalar::Bool) => Some(ValueTy::Bool),
        Some(Scalar::Int(int)) => Some(ValueTy::Int(int)),
        _ => None,
    }
}

/// What `Neg` gives: it takes an integer with a sign.
pub fn neg_type<'a>(scalar: Option<Scalar>) -> Option<ValueTy<'a>>
    ensures { some_type result ≡ neg_type scalar }
{
    match scalar {
        Some(Scalar::Int(int)) if int.is_signed() => Some(ValueTy::Int(int)),
        _ => None,
    }
}

/// Whether it is a pointer to a slice, of which `PtrMetadata` gives the length.
pub fn points_to_slice(pointer: Option<PointerTy<'_>>) -> bool
    ensures { result ≡ points_to_slice (some_pointer pointer.entry) }
{
    match pointer {
        None => false,
        Some(pointer) => matches!(pointer.target, Ty::Slice(_)),
    }
}
