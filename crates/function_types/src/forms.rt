ghost use Rattle.std.specs.Prelude.{◌≡◌, bytes_eq};
ghost use Rattle.mir_ir.specs.declared.types.Ty.TheVariants as form;
ghost use Rattle.type_rules.specs.Code.{is_bool};
ghost use Rattle.type_rules.specs.Types.{same_bool, same_type};
ghost use Rattle.type_rules.specs.Values.{some_pointer, type_of};
ghost use Rattle.function_types.specs.Steps.{is_reference};

use mir_ir::Ty;
use type_rules::{PointerKind, PointerTy, Scalar, ValueTy, same_type};

pub fn is_bool(scalar: Option<Scalar>) -> bool
    ensures { result ≡ is_bool scalar }
{
    matches!(scalar, Some(Scalar::Bool))
}

/// Whether a value is a `bool`.
pub fn is_condition(given: ValueTy<'_>) -> bool
    ensures { result ≡ same_type (type_of given.entry) form.Bool }
{
    is_bool(given.scalar())
}

/// Whether two texts are one.
pub fn is_text(text: &[u8], other: &[u8]) -> bool
    ensures { result ≡ bytes_eq text.now other.now }
{
    text == other
}

#[tactic(auto, using(crate::proofs::SameAs::same_as_dyn))]
fn is_dyn_of(ty: &Ty, trait_name: &[u8]) -> bool
    ensures { result ≡ same_type ty.now (form.Dyn trait_name.now) }
{
    match ty {
        Ty::Dyn(own) => is_text(own.as_bytes(), trait_name),
        _ => false,
    }
}

fn same_bool(a: bool, b: bool) -> bool
    ensures { result ≡ same_bool a b }
{
    a == b
}

/// Whether a pointer is a reference to a `dyn` value of this trait.
fn is_reference(pointer: Option<PointerTy<'_>>, mutable: bool, trait_name: &[u8]) -> bool
    ensures { result ≡ is_reference mutable (form.Dyn trait_name.now) (some_pointer pointer.entry) }
{
    match pointer {
        None => false,
        Some(pointer) => match pointer.kind {
            PointerKind::Ref { mutable: own } => {
                same_bool(own, mutable) && is_dyn_of(pointer.target, trait_name)
            }
            PointerKind::Raw { .. } | PointerKind::Owner => false,
        },
    }
}

/// Whether a value is such a reference.
pub fn is_receiver(given: ValueTy<'_>, mutable: bool, trait_name: &[u8]) -> bool
    ensures { result ≡ same_type (type_of given.entry) (form.Ref mutable (form.Dyn trait_name.now)) }
{
    is_reference(given.pointer(), mutable, trait_name)
}

#[tactic(auto, using(type_rules::proofs::SameTypes::same_never_type))]
pub fn is_never(ty: &Ty) -> bool
    ensures { result ≡ same_type form.Never ty.now }
{
    matches!(ty, Ty::Never)
}

#[tactic(auto, using(type_rules::proofs::SameTypes::same_box_type))]
pub fn is_box_of(target: &Ty, ty: &Ty) -> bool
    ensures { result ≡ same_type (form.BoxOf target.now) ty.now }
{
    match ty {
        Ty::BoxOf(other) => same_type(target, other.get()),
        _ => false,
    }
}
