ghost use Rattle.std.specs.Prelude.{◌≡◌, bytes_eq};
ghost use Rattle.type_rules.specs.Casts.{are_raw, has_length, is_array_of, is_borrowed_pair, is_cast, is_const_cast, is_const_pair, is_dyn_of, is_number_cast, is_raw_cast, is_same_pair, is_unsizing, keeps_metadata, unsizes_to};
ghost use Rattle.type_rules.specs.Types.{pointer_of, scalar_of};
ghost use Rattle.type_rules.specs.Values.{pointer_seen, some_pointer, type_of};
ghost use Rattle.mir_ir.specs.declared.types.Ty.{out-Ty};

use crate::types::{
    PointerKind, PointerTy, Scalar, is_sized, pointer_of, same_bool, same_int, same_name,
    same_type, scalar_of,
};
use crate::values::ValueTy;
use mir_ir::{CastKind, IntTy, Ty};
use vk_core::Name;

fn is_number_cast(from: Option<Scalar>, to: Option<Scalar>) -> bool
    ensures { result ≡ is_number_cast from to }
{
    match from {
        None => false,
        Some(source) => match to {
            Some(Scalar::Int(_)) => true,
            Some(Scalar::Char) => match source {
                Scalar::Int(int) => same_int(int, IntTy::U8),
                _ => false,
            },
            _ => false,
        },
    }
}

fn has_length(ty: &Ty) -> bool
    ensures { result ≡ has_length (out-Ty ty.now) }
{
    matches!(ty, Ty::Slice(_) | Ty::Str)
}

fn is_dyn_of(path: &Name, ty: &Ty) -> bool
    ensures { result ≡ is_dyn_of path.now (out-Ty ty.now) }
{
    match ty {
        Ty::Dyn(own) => same_name(path, own),
        _ => false,
    }
}

fn keeps_metadata(from: &Ty, to: &Ty) -> bool
    ensures { result ≡ keeps_metadata (out-Ty from.now) (out-Ty to.now) }
{
    match to {
        Ty::Slice(_) | Ty::Str => has_length(from),
        Ty::Dyn(path) => is_dyn_of(path, from),
        _ => true,
    }
}

fn are_raw(a: PointerKind, b: PointerKind) -> bool
    ensures { result ≡ are_raw a b }
{
    match a {
        PointerKind::Raw { .. } => matches!(b, PointerKind::Raw { .. }),
        _ => false,
    }
}

fn is_const_pair(a: PointerKind, b: PointerKind) -> bool
    ensures { result ≡ is_const_pair a b }
{
    match a {
        PointerKind::Raw { mutable: true } => matches!(b, PointerKind::Raw { mutable: false }),
        _ => false,
    }
}

fn is_borrowed_pair(a: PointerKind, b: PointerKind) -> bool
    ensures { result ≡ is_borrowed_pair a b }
{
    match a {
        PointerKind::Ref { mutable } => match b {
            PointerKind::Ref { mutable: other } => same_bool(mutable, other),
            _ => false,
        },
        PointerKind::Raw { mutable } => match b {
            PointerKind::Raw { mutable: other } => same_bool(mutable, other),
            _ => false,
        },
        PointerKind::Owner => false,
    }
}

fn is_same_pair(a: PointerKind, b: PointerKind) -> bool
    ensures { result ≡ is_same_pair a b }
{
    match a {
        PointerKind::Owner => matches!(b, PointerKind::Owner),
        _ => is_borrowed_pair(a, b),
    }
}

fn is_array_of(item: &Ty, ty: &Ty) -> bool
    ensures { result ≡ is_array_of item.now (out-Ty ty.now) }
{
    match ty {
        Ty::Array { item: own, .. } => same_type(own.get(), item),
        _ => false,
    }
}

fn unsizes_to(from: PointerTy<'_>, to: PointerTy<'_>) -> bool
    ensures { result ≡ unsizes_to (pointer_seen from.entry) (pointer_seen to.entry) (out-Ty to.entry.target.now) }
{
    match to.target {
        Ty::Slice(item) => {
            is_borrowed_pair(from.kind, to.kind) && is_array_of(item.get(), from.target)
        }
        Ty::Dyn(_) => is_same_pair(from.kind, to.kind) && is_sized(from.target),
        _ => false,
    }
}

fn is_raw_cast(from: Option<PointerTy<'_>>, to: Option<PointerTy<'_>>) -> bool
    ensures { result ≡ is_raw_cast (some_pointer from.entry) (some_pointer to.entry) }
{
    match from {
        None => false,
        Some(from) => match to {
            None => false,
            Some(to) => are_raw(from.kind, to.kind) && keeps_metadata(from.target, to.target),
        },
    }
}

fn is_const_cast(from: Option<PointerTy<'_>>, to: Option<PointerTy<'_>>) -> bool
    ensures { result ≡ is_const_cast (some_pointer from.entry) (some_pointer to.entry) }
{
    match from {
        None => false,
        Some(from) => match to {
            None => false,
            Some(to) => is_const_pair(from.kind, to.kind) && same_type(from.target, to.target),
        },
    }
}

fn is_unsizing(from: Option<PointerTy<'_>>, to: Option<PointerTy<'_>>) -> bool
    ensures { result ≡ is_unsizing (some_pointer from.entry) (some_pointer to.entry) }
{
    match from {
        None => false,
        Some(from) => match to {
            None => false,
            Some(to) => unsizes_to(from, to),
        },
    }
}

/// Whether a cast of this kind leads from the one type to the other. Whether a `dyn` type has the vtable that it wants is another
/// question.
pub fn is_cast(how: CastKind, from: ValueTy<'_>, to: &Ty) -> bool
    ensures { result ≡ is_cast how (type_of from.entry) to.now }
{
    match how {
        CastKind::IntToInt => is_number_cast(from.scalar(), scalar_of(to)),
        CastKind::PtrToPtr => is_raw_cast(from.pointer(), pointer_of(to)),
        CastKind::Unsize => is_unsizing(from.pointer(), pointer_of(to)),
        CastKind::MutToConstPointer => is_const_cast(from.pointer(), pointer_of(to)),
    }
}
