ghost use Rattle.std.specs.Prelude.{◌≡◌, [], ◌∷◌};
ghost use Rattle.type_rules.specs.Operators.{overflow_type};
ghost use Rattle.type_rules.specs.Types.{all_hold, pointer_of, same_type, scalar_of};
ghost use Rattle.type_rules.specs.Values.{some_pointer, type_of};
ghost use Rattle.mir_ir.specs.declared.types.Ty.TheVariants as form;

use crate::types::{
    PointerKind, PointerTy, Scalar, pointer_of, same_bool, same_int, same_type, scalar_of,
};
use mir_ir::{IntTy, Ty};

/// The type of an operand or an rvalue. `Of` is a type that is written somewhere in the program, and the others are made of such
/// types: `Unit` is `()`, and `WithFlag` is `(integer, bool)`, which the operators give that tell of overflow.
#[derive(Clone, Copy)]
pub enum ValueTy<'a> {
    Of(&'a Ty),
    Bool,
    Char,
    Int(IntTy),
    Unit,
    WithFlag(IntTy),
    Ref { mutable: bool, target: &'a Ty },
    Raw { mutable: bool, target: &'a Ty },
}

#[tactic(auto, using(crate::proofs::SameTypes::same_bool_type))]
fn is_bool(ty: &Ty) -> bool
    ensures { result ≡ same_type form.Bool ty.now }
{
    matches!(ty, Ty::Bool)
}

#[tactic(auto, using(crate::proofs::SameTypes::same_char_type))]
fn is_char(ty: &Ty) -> bool
    ensures { result ≡ same_type form.Char ty.now }
{
    matches!(ty, Ty::Char)
}

#[tactic(auto, using(crate::proofs::SameTypes::same_int_type))]
fn is_int(int: IntTy, ty: &Ty) -> bool
    ensures { result ≡ same_type (form.Int int) ty.now }
{
    match ty {
        Ty::Int(other) => same_int(int, *other),
        _ => false,
    }
}

fn are_none(types: &[Ty]) -> bool
    ensures { result ≡ all_hold [] types.now }
{
    matches!(types, [])
}

/// Whether the type is `()`.
#[tactic(auto, using(crate::proofs::SameTypes::same_tuple_type))]
pub fn is_unit(ty: &Ty) -> bool
    ensures { result ≡ same_type (form.Tuple []) ty.now }
{
    match ty {
        Ty::Tuple(items) => are_none(items.as_slice()),
        _ => false,
    }
}

fn are_flag(types: &[Ty]) -> bool
    ensures { result ≡ all_hold (same_type form.Bool ∷ []) types.now }
{
    match types {
        [] => false,
        [first, rest @ ..] => is_bool(first) && matches!(rest, []),
    }
}

fn are_number_and_flag(int: IntTy, types: &[Ty]) -> bool
    ensures { result ≡ all_hold (same_type (form.Int int) ∷ same_type form.Bool ∷ []) types.now }
{
    match types {
        [] => false,
        [first, rest @ ..] => is_int(int, first) && are_flag(rest),
    }
}

#[tactic(auto, using(crate::proofs::SameTypes::same_tuple_type))]
fn is_with_flag(int: IntTy, ty: &Ty) -> bool
    ensures { result ≡ same_type (overflow_type int) ty.now }
{
    match ty {
        Ty::Tuple(items) => are_number_and_flag(int, items.as_slice()),
        _ => false,
    }
}

#[tactic(auto, using(crate::proofs::SameTypes::same_ref_type))]
fn is_ref(mutable: bool, target: &Ty, ty: &Ty) -> bool
    ensures { result ≡ same_type (form.Ref mutable target.now) ty.now }
{
    match ty {
        Ty::Ref {
            mutable: another,
            target: other,
        } => same_bool(mutable, *another) && same_type(target, other.get()),
        _ => false,
    }
}

#[tactic(auto, using(crate::proofs::SameTypes::same_raw_type))]
fn is_raw(mutable: bool, target: &Ty, ty: &Ty) -> bool
    ensures { result ≡ same_type (form.Raw mutable target.now) ty.now }
{
    match ty {
        Ty::Raw {
            mutable: another,
            target: other,
        } => same_bool(mutable, *another) && same_type(target, other.get()),
        _ => false,
    }
}

impl<'a> ValueTy<'a> {
    /// Whether this is the type.
    pub fn fits(self, ty: &Ty) -> bool
        ensures { result ≡ same_type (type_of self.entry) ty.now }
    {
        match self {
            ValueTy::Of(own) => same_type(own, ty),
            ValueTy::Bool => is_bool(ty),
            ValueTy::Char => is_char(ty),
            ValueTy::Int(int) => is_int(int, ty),
            ValueTy::Unit => is_unit(ty),
            ValueTy::WithFlag(int) => is_with_flag(int, ty),
            ValueTy::Ref { mutable, target } => is_ref(mutable, target, ty),
            ValueTy::Raw { mutable, target } => is_raw(mutable, target, ty),
        }
    }

    /// The scalar type, where it is one.
    #[tactic(auto, using(crate::proofs::SameTypes::forms))]
    pub fn scalar(self) -> Option<Scalar>
        ensures { result ≡ scalar_of (type_of self.entry) }
    {
        match self {
            ValueTy::Of(ty) => scalar_of(ty),
            ValueTy::Bool => Some(Scalar::Bool),
            ValueTy::Char => Some(Scalar::Char),
            ValueTy::Int(int) => Some(Scalar::Int(int)),
            ValueTy::Unit | ValueTy::WithFlag(_) | ValueTy::Ref { .. } | ValueTy::Raw { .. } =>
                None,
        }
    }

    /// What kind of pointer it is, and to what, where it is one.
    #[tactic(auto, using(crate::proofs::SameTypes::forms))]
    pub fn pointer(self) -> Option<PointerTy<'a>>
        ensures { some_pointer result ≡ pointer_of (type_of self.entry) }
    {
        match self {
            ValueTy::Of(ty) => pointer_of(ty),
            ValueTy::Ref { mutable, target } => Some(PointerTy {
                kind: PointerKind::Ref { mutable },
                target,
            }),
            ValueTy::Raw { mutable, target } => Some(PointerTy {
                kind: PointerKind::Raw { mutable },
                target,
            }),
            ValueTy::Bool
            | ValueTy::Char
            | ValueTy::Int(_)
            | ValueTy::Unit
            | ValueTy::WithFlag(_) => None,
        }
    }
}
