ghost use Rattle.std.specs.Prelude.{◌≡◌, ◌&&◌, nat_le, nat_lt, option_copied, slice_get};
ghost use Rattle.mir_ir.specs.declared.types.Ty.{out-Ty};
ghost use Rattle.type_rules.specs.Places.{after_steps, declared_field, deref_step, downcast_step, field_at, field_form, field_step, field_type, index_step, is_field, is_usize, item_step, place_type, shape_field, stepped, value_type};
ghost use Rattle.type_rules.specs.Types.{scalar_of};
ghost use Rattle.code_types.specs.Views.{ok_now, ok_place, place_seen};

use crate::rules::{check, required};
use mir_ir::{FieldDecl, IntTy, PlaceExpr, Projection, Ty, TypeDecl, TypeShape, VariantDecl};
use name_tables::{Body, Declared, variant_named};
use type_rules::{Scalar, TypeKind, is_sized, item_of, pointer_of, same_int, same_type, scalar_of};
use vk_core::{LocalId, Name};

/// The type of a place, and the variant that its last step has chosen.
#[derive(Clone, Copy)]
pub struct PlaceTy<'a> {
    pub ty: &'a Ty,
    pub variant: Option<&'a VariantDecl>,
}

fn whole<'a>(ty: &'a Ty) -> PlaceTy<'a>
    ensures { place_seen result ≡ record { ty = ty.now; variant = None } }
{
    PlaceTy { ty, variant: None }
}

fn item_at(items: &[Ty], number: u128) -> Option<&Ty>
    ensures { option_copied result ≡ slice_get items.now number }
{
    match usize::try_from(number) {
        Ok(at) => items.get(at),
        Err(_) => None,
    }
}

fn field_at(fields: &[FieldDecl], number: u128) -> Option<&Ty>
    ensures { option_copied result ≡ field_at fields.now number }
{
    match usize::try_from(number) {
        Ok(at) => match fields.get(at) {
            Some(field) => Some(&field.ty),
            None => None,
        },
        Err(_) => None,
    }
}

fn declared_field<'a>(
    own: &'a TypeDecl,
    variant: Option<&'a VariantDecl>,
    number: u128,
) -> Option<&'a Ty>
    ensures { option_copied result ≡ shape_field own.now.shape (option_copied variant.entry) number }
{
    match &own.shape {
        TypeShape::Struct(fields) => field_at(fields.as_slice(), number),
        TypeShape::Tuple(fields) => field_at(fields.as_slice(), number),
        TypeShape::Enum { .. } => match variant {
            Some(variant) => field_at(variant.fields.as_slice(), number),
            None => None,
        },
    }
}

fn field_type<'a>(declared: &Declared<'a>, place: PlaceTy<'a>, number: u128) -> Option<&'a Ty>
    ensures { option_copied result ≡ field_type declared.now (place_seen place.entry) number }
{
    match place.ty {
        Ty::Tuple(items) => item_at(items.as_slice(), number),
        Ty::Named(path) => match declared.type_named(path.as_bytes()) {
            Some(own) => declared_field(own, place.variant, number),
            None => None,
        },
        _ => None,
    }
}

fn is_field(own: Option<&Ty>, ty: &Ty) -> bool
    ensures { result ≡ is_field (option_copied own.entry) ty.now }
{
    match own {
        Some(own) => same_type(ty, own),
        None => false,
    }
}

fn is_usize(scalar: Option<Scalar>) -> bool
    ensures { result ≡ is_usize scalar }
{
    match scalar {
        Some(Scalar::Int(int)) => same_int(int, IntTy::Usize),
        _ => false,
    }
}

fn field_step<'a>(
    declared: &Declared<'a>,
    place: PlaceTy<'a>,
    number: u128,
    ty: &'a Ty,
) -> Result<PlaceTy<'a>, TypeKind>
    ensures { ok_place result ≡ field_step declared.now (place_seen place.entry) number ty.now }
{
    check(declared.knows_traits(ty), TypeKind::UnknownName)?;
    check(
        is_field(field_type(declared, place, number), ty),
        TypeKind::BadPlace,
    )?;
    Ok(whole(ty))
}

fn deref_step<'a>(place: PlaceTy<'a>) -> Result<PlaceTy<'a>, TypeKind>
    ensures { ok_place result ≡ deref_step (place_seen place.entry) }
{
    match pointer_of(place.ty) {
        Some(pointer) => Ok(whole(pointer.target)),
        None => Err(TypeKind::BadPlace),
    }
}

fn item_step<'a>(place: PlaceTy<'a>, fits: bool) -> Result<PlaceTy<'a>, TypeKind>
    ensures { ok_place result ≡ item_step (place_seen place.entry) fits }
{
    let item = required(item_of(place.ty), TypeKind::BadPlace)?;
    check(fits, TypeKind::BadPlace)?;
    Ok(whole(item))
}

fn index_step<'a>(
    body: &Body<'a>,
    place: PlaceTy<'a>,
    local: LocalId,
) -> Result<PlaceTy<'a>, TypeKind>
    ensures { ok_place result ≡ index_step body.now (place_seen place.entry) local }
{
    let ty = required(body.local_type(local), TypeKind::UnknownName)?;
    let item = item_step(place, is_usize(scalar_of(ty)))?;
    Ok(item)
}

fn downcast_step<'a>(
    declared: &Declared<'a>,
    place: PlaceTy<'a>,
    name: &Name,
) -> Result<PlaceTy<'a>, TypeKind>
    ensures { ok_place result ≡ downcast_step declared.now (place_seen place.entry) name.now }
{
    match declared.variants_of(place.ty) {
        None => Err(TypeKind::BadPlace),
        Some(variants) => match variant_named(variants, name.as_bytes()) {
            None => Err(TypeKind::UnknownName),
            Some(variant) => Ok(PlaceTy {
                ty: place.ty,
                variant: Some(variant),
            }),
        },
    }
}

fn stepped<'a>(
    declared: &Declared<'a>,
    body: &Body<'a>,
    place: PlaceTy<'a>,
    step: &'a Projection,
) -> Result<PlaceTy<'a>, TypeKind>
    ensures { ok_place result ≡ stepped declared.now body.now (place_seen place.entry) step.now }
{
    match step {
        Projection::Field { index, ty } => field_step(declared, place, *index, ty),
        Projection::Deref => deref_step(place),
        Projection::Index(local) => index_step(body, place, *local),
        Projection::FromFront { at, least } => item_step(place, *at < *least),
        Projection::FromBack { at, least } => item_step(place, 1 <= *at && *at <= *least),
        Projection::Downcast(name) => downcast_step(declared, place, name),
    }
}

fn after_steps<'a>(
    declared: &Declared<'a>,
    body: &Body<'a>,
    place: PlaceTy<'a>,
    steps: &'a [Projection],
) -> Result<PlaceTy<'a>, TypeKind>
    ensures { ok_place result ≡ after_steps declared.now body.now (place_seen place.entry) steps.now }
{
    let mut reached = place;
    let mut taken = 0;
    while taken < steps.len() {
        reached = stepped(declared, body, reached, &steps[taken])?;
        taken += 1;
    }
    Ok(reached)
}

/// The type of a place, sized or not.
pub fn place_type<'a>(
    declared: &Declared<'a>,
    body: &Body<'a>,
    place: &'a PlaceExpr,
) -> Result<&'a Ty, TypeKind>
    ensures { ok_now result ≡ place_type declared.now body.now place.now }
{
    let ty = required(body.local_type(place.local), TypeKind::UnknownName)?;
    let reached = after_steps(declared, body, whole(ty), place.steps.as_slice())?;
    Ok(reached.ty)
}

/// The type of a place that is read, written or dropped, which has a size.
pub fn value_type<'a>(
    declared: &Declared<'a>,
    body: &Body<'a>,
    place: &'a PlaceExpr,
) -> Result<&'a Ty, TypeKind>
    ensures { ok_now result ≡ value_type declared.now body.now place.now }
{
    let ty = place_type(declared, body, place)?;
    check(is_sized(ty), TypeKind::BadPlace)?;
    Ok(ty)
}
