ghost use Rattle.std.specs.Prelude.{◌≡◌, []};
ghost use Rattle.mir_ir.specs.declared.types.Ty.{out-Ty};
ghost use Rattle.type_rules.specs.Casts.{cast_type, has_vtable, has_vtable_for, target_has_vtable};
ghost use Rattle.type_rules.specs.Refusals.{required};
ghost use Rattle.type_rules.specs.Lookup.{field_types};
ghost use Rattle.type_rules.specs.Types.{pointer_of, same_types};
ghost use Rattle.type_rules.specs.Rvalues.{agreed, binary_given, cast_given, discriminant_given, discriminant_type, length_given, length_type, metadata_given, neg_given, not_given, operands_given, raw_given, ref_given, repeat_given, size_type, tuple_given, unit_type, written};
ghost use Rattle.code_types.specs.Lists.{array_written};
ghost use Rattle.type_rules.specs.Values.{ok_type, some_pointer, some_type, type_of};

use crate::aggregates::made_by;
use crate::fields::fields_given;
use crate::forms::{array_of, tuple_of};
use crate::lists::{both, operands_all, operands_are_fields, operands_same, operands_typed};
use crate::operands::operand_type;
use crate::places::place_type;
use crate::rules::check;
use mir_ir::{BinaryOp, CastKind, FieldDecl, IntTy, Operand, PlaceExpr, Rvalue, Ty, TypeShape};
use name_tables::{Body, Declared};
use type_rules::{
    PointerTy, TypeKind, ValueTy, binary_type, is_cast, is_sized, item_of, neg_type, not_type,
    pointer_of, points_to_slice,
};

fn given<'a>(value: Option<ValueTy<'a>>, kind: TypeKind) -> Result<ValueTy<'a>, TypeKind>
    ensures { ok_type result ≡ required (some_type value.entry) kind }
{
    match value {
        Some(value) => Ok(value),
        None => Err(kind),
    }
}

fn target_has_vtable(declared: &Declared<'_>, target: &Ty, to: &Ty) -> bool
    ensures { result ≡ target_has_vtable declared.now target.now (out-Ty to.now) }
{
    match to {
        Ty::Dyn(path) => declared.vtable_for(target, path.as_bytes()).is_some(),
        _ => true,
    }
}

fn has_vtable(
    declared: &Declared<'_>,
    from: Option<PointerTy<'_>>,
    to: Option<PointerTy<'_>>,
) -> bool
    ensures { result ≡ has_vtable declared.now (some_pointer from.entry) (some_pointer to.entry) }
{
    match from {
        None => true,
        Some(from) => match to {
            None => true,
            Some(to) => target_has_vtable(declared, from.target, to.target),
        },
    }
}

fn has_vtable_for(declared: &Declared<'_>, how: CastKind, from: ValueTy<'_>, to: &Ty) -> bool
    ensures { result ≡ has_vtable_for declared.now how (type_of from.entry) to.now }
{
    match how {
        CastKind::Unsize => has_vtable(declared, from.pointer(), pointer_of(to)),
        CastKind::IntToInt | CastKind::PtrToPtr | CastKind::MutToConstPointer => true,
    }
}

fn cast_type<'a>(
    declared: &Declared<'a>,
    how: CastKind,
    from: ValueTy<'a>,
    to: &'a Ty,
) -> Result<ValueTy<'a>, TypeKind>
    ensures { ok_type result ≡ cast_type declared.now how (type_of from.entry) to.now }
{
    check(declared.knows_traits(to), TypeKind::UnknownName)?;
    check(is_cast(how, from, to), TypeKind::BadCast)?;
    check(
        has_vtable_for(declared, how, from, to),
        TypeKind::UnknownName,
    )?;
    Ok(ValueTy::Of(to))
}

fn cast_given<'a>(
    declared: &Declared<'a>,
    body: &Body<'a>,
    operand: &'a Operand,
    how: CastKind,
    ty: &'a Ty,
) -> Result<ValueTy<'a>, TypeKind>
    ensures { ok_type result ≡ cast_given declared.now body.now operand.now how ty.now }
{
    let from = operand_type(declared, body, operand)?;
    cast_type(declared, how, from, ty)
}

fn binary_given<'a>(
    declared: &Declared<'a>,
    body: &Body<'a>,
    op: BinaryOp,
    a: &'a Operand,
    b: &'a Operand,
) -> Result<ValueTy<'a>, TypeKind>
    ensures { ok_type result ≡ binary_given declared.now body.now op a.now b.now }
{
    let first = operand_type(declared, body, a)?;
    let second = operand_type(declared, body, b)?;
    given(binary_type(op, first, second), TypeKind::Mismatch)
}

fn not_given<'a>(
    declared: &Declared<'a>,
    body: &Body<'a>,
    operand: &'a Operand,
) -> Result<ValueTy<'a>, TypeKind>
    ensures { ok_type result ≡ not_given declared.now body.now operand.now }
{
    let value = operand_type(declared, body, operand)?;
    given(not_type(value.scalar()), TypeKind::Mismatch)
}

fn neg_given<'a>(
    declared: &Declared<'a>,
    body: &Body<'a>,
    operand: &'a Operand,
) -> Result<ValueTy<'a>, TypeKind>
    ensures { ok_type result ≡ neg_given declared.now body.now operand.now }
{
    let value = operand_type(declared, body, operand)?;
    given(neg_type(value.scalar()), TypeKind::Mismatch)
}

fn metadata_given<'a>(
    declared: &Declared<'a>,
    body: &Body<'a>,
    operand: &'a Operand,
) -> Result<ValueTy<'a>, TypeKind>
    ensures { ok_type result ≡ metadata_given declared.now body.now operand.now }
{
    let value = operand_type(declared, body, operand)?;
    check(points_to_slice(value.pointer()), TypeKind::Mismatch)?;
    Ok(ValueTy::Int(IntTy::Usize))
}

fn ref_given<'a>(
    declared: &Declared<'a>,
    body: &Body<'a>,
    mutable: bool,
    place: &'a PlaceExpr,
) -> Result<ValueTy<'a>, TypeKind>
    ensures { ok_type result ≡ ref_given declared.now body.now mutable place.now }
{
    let target = place_type(declared, body, place)?;
    Ok(ValueTy::Ref { mutable, target })
}

fn raw_given<'a>(
    declared: &Declared<'a>,
    body: &Body<'a>,
    mutable: bool,
    place: &'a PlaceExpr,
) -> Result<ValueTy<'a>, TypeKind>
    ensures { ok_type result ≡ raw_given declared.now body.now mutable place.now }
{
    let target = place_type(declared, body, place)?;
    Ok(ValueTy::Raw { mutable, target })
}

fn discriminant_type<'a>(declared: &Declared<'a>, ty: &Ty) -> Result<ValueTy<'a>, TypeKind>
    ensures { ok_type result ≡ discriminant_type declared.now ty.now }
{
    match declared.declaration_of(ty) {
        None => Err(TypeKind::Mismatch),
        Some(own) => match &own.shape {
            TypeShape::Enum { discriminant, .. } => Ok(ValueTy::Int(*discriminant)),
            TypeShape::Struct(_) | TypeShape::Tuple(_) => Err(TypeKind::Mismatch),
        },
    }
}

fn discriminant_given<'a>(
    declared: &Declared<'a>,
    body: &Body<'a>,
    place: &'a PlaceExpr,
) -> Result<ValueTy<'a>, TypeKind>
    ensures { ok_type result ≡ discriminant_given declared.now body.now place.now }
{
    let ty = place_type(declared, body, place)?;
    discriminant_type(declared, ty)
}

fn length_type<'a>(ty: &Ty) -> Result<ValueTy<'a>, TypeKind>
    ensures { ok_type result ≡ length_type ty.now }
{
    match item_of(ty) {
        Some(_) => Ok(ValueTy::Int(IntTy::Usize)),
        None => Err(TypeKind::Mismatch),
    }
}

fn length_given<'a>(
    declared: &Declared<'a>,
    body: &Body<'a>,
    place: &'a PlaceExpr,
) -> Result<ValueTy<'a>, TypeKind>
    ensures { ok_type result ≡ length_given declared.now body.now place.now }
{
    let ty = place_type(declared, body, place)?;
    length_type(ty)
}

fn size_type<'a>(declared: &Declared<'a>, ty: &Ty) -> Result<ValueTy<'a>, TypeKind>
    ensures { ok_type result ≡ size_type declared.now ty.now }
{
    check(declared.knows_traits(ty), TypeKind::UnknownName)?;
    check(is_sized(ty), TypeKind::Mismatch)?;
    Ok(ValueTy::Int(IntTy::Usize))
}

/// Operands in brackets have the type of the items of the array, and are as many.
fn array_written<'a>(
    declared: &Declared<'a>,
    body: &Body<'a>,
    to: &Ty,
    operands: &'a [Operand],
) -> Result<(), TypeKind>
    ensures { result ≡ array_written declared.now body.now to.now operands.now }
{
    match array_of(to) {
        Some(array) => {
            let same = operands_all(declared, body, operands, array.item)?;
            let all = both(array.count == operands.len() as u128, same);
            check(all, TypeKind::Mismatch)
        }
        None => {
            operands_typed(declared, body, operands)?;
            Err(TypeKind::Mismatch)
        }
    }
}

fn repeat_written<'a>(
    declared: &Declared<'a>,
    body: &Body<'a>,
    to: &Ty,
    operand: &'a Operand,
    count: u128,
) -> Result<(), TypeKind>
    ensures { result ≡ agreed (repeat_given declared.now body.now operand.now count) to.now }
{
    let given = operand_type(declared, body, operand)?;
    match array_of(to) {
        Some(array) => {
            let all = both(count == array.count, given.fits(array.item));
            check(all, TypeKind::Mismatch)
        }
        None => Err(TypeKind::Mismatch),
    }
}

fn operands_written<'a>(
    declared: &Declared<'a>,
    body: &Body<'a>,
    to: &Ty,
    operands: &'a [Operand],
) -> Result<(), TypeKind>
    ensures { result ≡ agreed (operands_given declared.now body.now operands.now) to.now }
{
    match tuple_of(to) {
        Some(items) => {
            let same = operands_same(declared, body, operands, items)?;
            check(same, TypeKind::Mismatch)
        }
        None => {
            operands_typed(declared, body, operands)?;
            Err(TypeKind::Mismatch)
        }
    }
}

/// Whether there are no fields.
fn has_none(fields: &[FieldDecl]) -> bool
    ensures { result ≡ same_types [] (field_types fields.now) }
{
    matches!(fields, [])
}

/// A struct or a variant without fields.
fn unit_type<'a>(declared: &Declared<'a>, path: &[u8]) -> Result<ValueTy<'a>, TypeKind>
    ensures { ok_type result ≡ unit_type declared.now path.now }
{
    match made_by(declared, path) {
        None => Err(TypeKind::UnknownName),
        Some(made) => {
            check(has_none(made.fields), TypeKind::Mismatch)?;
            Ok(ValueTy::Of(made.ty))
        }
    }
}

fn tuple_given<'a>(
    declared: &Declared<'a>,
    body: &Body<'a>,
    path: &[u8],
    operands: &'a [Operand],
) -> Result<ValueTy<'a>, TypeKind>
    ensures { ok_type result ≡ tuple_given declared.now body.now path.now operands.now }
{
    match made_by(declared, path) {
        None => {
            operands_typed(declared, body, operands)?;
            Err(TypeKind::UnknownName)
        }
        Some(made) => {
            let same = operands_are_fields(declared, body, operands, made.fields)?;
            check(same, TypeKind::Mismatch)?;
            Ok(ValueTy::Of(made.ty))
        }
    }
}

fn agrees(given: Result<ValueTy<'_>, TypeKind>, to: &Ty) -> Result<(), TypeKind>
    ensures { result ≡ agreed (ok_type given.entry) to.now }
{
    match given {
        Ok(given) => check(given.fits(to), TypeKind::Mismatch),
        Err(kind) => Err(kind),
    }
}

/// An rvalue is written to a place of this type.
pub fn written<'a>(
    declared: &Declared<'a>,
    body: &Body<'a>,
    to: &Ty,
    value: &'a Rvalue,
) -> Result<(), TypeKind>
    ensures { result ≡ written declared.now body.now to.now value.now }
{
    match value {
        Rvalue::Use(operand) => agrees(operand_type(declared, body, operand), to),
        Rvalue::Cast { operand, ty, kind } => {
            agrees(cast_given(declared, body, operand, *kind, ty), to)
        }
        Rvalue::Binary { op, a, b } => agrees(binary_given(declared, body, *op, a, b), to),
        Rvalue::Not(operand) => agrees(not_given(declared, body, operand), to),
        Rvalue::Neg(operand) => agrees(neg_given(declared, body, operand), to),
        Rvalue::PtrMetadata(operand) => agrees(metadata_given(declared, body, operand), to),
        Rvalue::RefOf { mutable, place } => agrees(ref_given(declared, body, *mutable, place), to),
        Rvalue::RawOf { mutable, place } => agrees(raw_given(declared, body, *mutable, place), to),
        Rvalue::Discriminant(place) => agrees(discriminant_given(declared, body, place), to),
        Rvalue::Len(place) => agrees(length_given(declared, body, place), to),
        Rvalue::SizeOf(ty) => agrees(size_type(declared, ty), to),
        Rvalue::AlignOf(ty) => agrees(size_type(declared, ty), to),
        Rvalue::Array(operands) => array_written(declared, body, to, operands.as_slice()),
        Rvalue::Repeat { operand, count } => repeat_written(declared, body, to, operand, *count),
        Rvalue::Tuple(operands) => operands_written(declared, body, to, operands.as_slice()),
        Rvalue::PathUnit(path) => agrees(unit_type(declared, path.as_bytes()), to),
        Rvalue::PathTuple { path, operands } => agrees(
            tuple_given(declared, body, path.as_bytes(), operands.as_slice()),
            to,
        ),
        Rvalue::PathFields { path, fields } => agrees(
            fields_given(declared, body, path.as_bytes(), fields.as_slice()),
            to,
        ),
    }
}
