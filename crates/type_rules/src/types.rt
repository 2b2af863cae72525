ghost use Rattle.std.specs.Prelude.{◌≡◌, bytes_eq, option_copied};
ghost use Rattle.type_rules.specs.Types.{is_sized, item_of, pointer_of, same_bool, same_int, same_type, same_types, scalar_of};
ghost use Rattle.type_rules.specs.Values.{some_pointer};

use mir_ir::{IntTy, Ty};
use vk_core::Name;

/// The types of which one word is a value.
#[derive(Clone, Copy, Debug, PartialEq, Eq)]
pub enum Scalar {
    Bool,
    Char,
    Int(IntTy),
}

/// `&T` and `&mut T`, `*const T` and `*mut T`, and `Box<T>`.
#[derive(Clone, Copy, Debug, PartialEq, Eq)]
pub enum PointerKind {
    Ref { mutable: bool },
    Raw { mutable: bool },
    Owner,
}

/// A pointer type: what kind of pointer it is, and what it points to.
#[derive(Clone, Copy)]
pub struct PointerTy<'a> {
    pub kind: PointerKind,
    pub target: &'a Ty,
}

/// Whether two integer types are one.
pub fn same_int(a: IntTy, b: IntTy) -> bool
    ensures { result ≡ same_int a b }
{
    match a {
        IntTy::I8 => matches!(b, IntTy::I8),
        IntTy::I16 => matches!(b, IntTy::I16),
        IntTy::I32 => matches!(b, IntTy::I32),
        IntTy::I64 => matches!(b, IntTy::I64),
        IntTy::I128 => matches!(b, IntTy::I128),
        IntTy::Isize => matches!(b, IntTy::Isize),
        IntTy::U8 => matches!(b, IntTy::U8),
        IntTy::U16 => matches!(b, IntTy::U16),
        IntTy::U32 => matches!(b, IntTy::U32),
        IntTy::U64 => matches!(b, IntTy::U64),
        IntTy::U128 => matches!(b, IntTy::U128),
        IntTy::Usize => matches!(b, IntTy::Usize),
    }
}

pub fn same_bool(a: bool, b: bool) -> bool
    ensures { result ≡ same_bool a b }
{
    a == b
}

pub fn same_name(a: &Name, b: &Name) -> bool
    ensures { result ≡ bytes_eq a.now b.now }
{
    a.as_bytes() == b.as_bytes()
}

/// Whether two types are one: they have one form, with the same parts, words and numbers.
#[cycle(types)]
#[tactic(auto, using(crate::proofs::SameTypes::same_type_out))]
pub fn same_type(a: &Ty, b: &Ty) -> bool
    ensures { result ≡ same_type a.now b.now }
{
    match a {
        Ty::Bool => matches!(b, Ty::Bool),
        Ty::Char => matches!(b, Ty::Char),
        Ty::Int(int) => match b {
            Ty::Int(other) => same_int(*int, *other),
            _ => false,
        },
        Ty::Never => matches!(b, Ty::Never),
        Ty::Str => matches!(b, Ty::Str),
        Ty::Tuple(items) => match b {
            Ty::Tuple(others) => same_types(items.as_slice(), others.as_slice()),
            _ => false,
        },
        Ty::Array { item, count } => match b {
            Ty::Array {
                item: other,
                count: others,
            } => *count == *others && same_type(item.get(), other.get()),
            _ => false,
        },
        Ty::Slice(item) => match b {
            Ty::Slice(other) => same_type(item.get(), other.get()),
            _ => false,
        },
        Ty::Ref { mutable, target } => match b {
            Ty::Ref {
                mutable: another,
                target: other,
            } => same_bool(*mutable, *another) && same_type(target.get(), other.get()),
            _ => false,
        },
        Ty::Raw { mutable, target } => match b {
            Ty::Raw {
                mutable: another,
                target: other,
            } => same_bool(*mutable, *another) && same_type(target.get(), other.get()),
            _ => false,
        },
        Ty::BoxOf(target) => match b {
            Ty::BoxOf(other) => same_type(target.get(), other.get()),
            _ => false,
        },
        Ty::Dyn(path) => match b {
            Ty::Dyn(other) => same_name(path, other),
            _ => false,
        },
        Ty::Named(path) => match b {
            Ty::Named(other) => same_name(path, other),
            _ => false,
        },
    }
}

#[cycle(types)]
fn same_types(a: &[Ty], b: &[Ty]) -> bool
    ensures { result ≡ same_types a.now b.now }
{
    if a.len() != b.len() {
        return false;
    }
    let mut place = 0;
    while place < a.len() {
        if !same_type(&a[place], &b[place]) {
            return false;
        }
        place += 1;
    }
    true
}

/// Whether values of the type have a size that is known: no slice, `dyn` value or `str` has one.
pub fn is_sized(ty: &Ty) -> bool
    ensures { result ≡ is_sized ty.now }
{
    !matches!(ty, Ty::Slice(_) | Ty::Dyn(_) | Ty::Str)
}

/// The scalar type, where it is one.
pub fn scalar_of(ty: &Ty) -> Option<Scalar>
    ensures { result ≡ scalar_of ty.now }
{
    match ty {
        Ty::Bool => Some(Scalar::Bool),
        Ty::Char => Some(Scalar::Char),
        Ty::Int(int) => Some(Scalar::Int(*int)),
        _ => None,
    }
}

/// What kind of pointer a type is, and to what, where it is one.
pub fn pointer_of(ty: &Ty) -> Option<PointerTy<'_>>
    ensures { some_pointer result ≡ pointer_of ty.now }
{
    match ty {
        Ty::Ref { mutable, target } => Some(PointerTy {
            kind: PointerKind::Ref { mutable: *mutable },
            target: target.get(),
        }),
        Ty::Raw { mutable, target } => Some(PointerTy {
            kind: PointerKind::Raw { mutable: *mutable },
            target: target.get(),
        }),
        Ty::BoxOf(target) => Some(PointerTy {
            kind: PointerKind::Owner,
            target: target.get(),
        }),
        _ => None,
    }
}

/// The type of the items of an array or a slice.
pub fn item_of(ty: &Ty) -> Option<&Ty>
    ensures { option_copied result ≡ item_of ty.now }
{
    match ty {
        Ty::Array { item, .. } => Some(item.get()),
        Ty::Slice(item) => Some(item.get()),
        _ => None,
    }
}
