ghost use Rattle.std.specs.Prelude.{[], ◌∷◌, true, false, flat_map, map};
ghost use Rattle.mir_program.specs.Joined.{all_in, written, written_in_declarations, written_in_entry};
ghost use Rattle.mir_program.specs.Mentions.{constant_types, contract_types, field_types, loop_types, place_types, shape_types, step_types, tag_types, variant_types, vtable_types};
ghost use Rattle.decl_counts.specs.Taking.{IsTaken};

use mir_ir::{
    ConstantDecl, Contract, Declarations, FieldDecl, LoopRule, PlaceExpr, Projection, TagDecl, Ty,
    TypeDecl, TypeShape, VariantDecl, VtableDecl,
};

fn take_one(left: u64) -> Option<u64>
    ensures { IsTaken left (tt ∷ []) result }
{
    if left == 0 { None } else { Some(left - 1) }
}

/// A type, and each type that is written in it.
#[cycle(types)]
fn take_type(left: u64, ty: &Ty) -> Option<u64>
    ensures { IsTaken left (written false ty.now) result }
{
    let rest = take_one(left)?;
    match ty {
        Ty::Tuple(items) => take_items(rest, items.as_slice()),
        Ty::Array { item, .. } => take_type(rest, item.get()),
        Ty::Slice(item) => take_type(rest, item.get()),
        Ty::Ref { target, .. } => take_type(rest, target.get()),
        Ty::Raw { target, .. } => take_type(rest, target.get()),
        Ty::BoxOf(target) => take_type(rest, target.get()),
        Ty::Bool => Some(rest),
        Ty::Char => Some(rest),
        Ty::Int(_int) => Some(rest),
        Ty::Never => Some(rest),
        Ty::Str => Some(rest),
        Ty::Dyn(_path) => Some(rest),
        Ty::Named(_path) => Some(rest),
    }
}

#[cycle(types)]
fn take_items(left: u64, items: &[Ty]) -> Option<u64>
    ensures { IsTaken left (all_in (map (written false) items.now)) result }
{
    let mut rest = left;
    for item in items {
        rest = take_type(rest, item)?;
    }
    Some(rest)
}

/// The type of a value: it is written as any other.
#[tactic(auto, unfolding(mir_program::specs::Joined::written))]
fn take_value(left: u64, ty: &Ty) -> Option<u64>
    ensures { IsTaken left (written true ty.now) result }
{
    take_type(left, ty)
}

fn take_fields(left: u64, fields: &[FieldDecl]) -> Option<u64>
    ensures { IsTaken left (flat_map (field_types written) fields.now) result }
{
    let mut rest = left;
    for field in fields {
        rest = take_value(rest, &field.ty)?;
    }
    Some(rest)
}

fn take_variants(left: u64, variants: &[VariantDecl]) -> Option<u64>
    ensures { IsTaken left (flat_map (variant_types written) variants.now) result }
{
    let mut rest = left;
    for variant in variants {
        rest = take_fields(rest, variant.fields.as_slice())?;
    }
    Some(rest)
}

fn take_tag(left: u64, tag: &Option<TagDecl>) -> Option<u64>
    ensures { IsTaken left (tag_types written tag.now) result }
{
    match tag {
        None => Some(left),
        Some(tag) => take_type(left, &tag.ty),
    }
}

fn take_shape(left: u64, shape: &TypeShape) -> Option<u64>
    ensures { IsTaken left (shape_types written shape.now) result }
{
    match shape {
        TypeShape::Struct(fields) => take_fields(left, fields.as_slice()),
        TypeShape::Tuple(fields) => take_fields(left, fields.as_slice()),
        TypeShape::Enum { variants, tag, .. } => {
            let rest = take_variants(left, variants.as_slice())?;
            take_tag(rest, tag)
        }
    }
}

fn take_entry(left: u64, own: &TypeDecl) -> Option<u64>
    ensures { IsTaken left (written_in_entry own.now) result }
{
    let rest = take_type(left, &own.name)?;
    take_shape(rest, &own.shape)
}

fn take_entries(left: u64, types: &[TypeDecl]) -> Option<u64>
    ensures { IsTaken left (flat_map written_in_entry types.now) result }
{
    let mut rest = left;
    for own in types {
        rest = take_entry(rest, own)?;
    }
    Some(rest)
}

fn take_step(left: u64, step: &Projection) -> Option<u64>
    ensures { IsTaken left (step_types written step.now) result }
{
    match step {
        Projection::Field { ty, .. } => take_type(left, ty),
        Projection::Deref
        | Projection::Index(_)
        | Projection::FromFront { .. }
        | Projection::FromBack { .. }
        | Projection::Downcast(_) => Some(left),
    }
}

fn take_steps(left: u64, steps: &[Projection]) -> Option<u64>
    ensures { IsTaken left (flat_map (step_types written) steps.now) result }
{
    let mut rest = left;
    for step in steps {
        rest = take_step(rest, step)?;
    }
    Some(rest)
}

fn take_places(left: u64, places: &[PlaceExpr]) -> Option<u64>
    ensures { IsTaken left (flat_map (place_types written) places.now) result }
{
    let mut rest = left;
    for place in places {
        rest = take_steps(rest, place.steps.as_slice())?;
    }
    Some(rest)
}

fn take_vtables(left: u64, vtables: &[VtableDecl]) -> Option<u64>
    ensures { IsTaken left (flat_map (vtable_types written) vtables.now) result }
{
    let mut rest = left;
    for vtable in vtables {
        rest = take_type(rest, &vtable.ty)?;
    }
    Some(rest)
}

fn take_constants(left: u64, constants: &[ConstantDecl]) -> Option<u64>
    ensures { IsTaken left (flat_map (constant_types written) constants.now) result }
{
    let mut rest = left;
    for constant in constants {
        rest = take_type(rest, &constant.ty)?;
    }
    Some(rest)
}

fn take_contracts(left: u64, contracts: &[Contract]) -> Option<u64>
    ensures { IsTaken left (flat_map (contract_types written) contracts.now) result }
{
    let mut rest = left;
    for contract in contracts {
        rest = take_places(rest, contract.modifies.as_slice())?;
    }
    Some(rest)
}

fn take_loops(left: u64, loops: &[LoopRule]) -> Option<u64>
    ensures { IsTaken left (flat_map (loop_types written) loops.now) result }
{
    let mut rest = left;
    for rule in loops {
        rest = take_places(rest, rule.modifies.as_slice())?;
    }
    Some(rest)
}

/// The types that are written in declarations.
pub fn take_declarations(left: u64, declarations: &Declarations) -> Option<u64>
    ensures { IsTaken left (written_in_declarations declarations.now) result }
{
    let types = take_entries(left, declarations.types.as_slice())?;
    let vtables = take_vtables(types, declarations.vtables.as_slice())?;
    let constants = take_constants(vtables, declarations.constants.as_slice())?;
    let contracts = take_contracts(constants, declarations.contracts.as_slice())?;
    take_loops(contracts, declarations.loops.as_slice())
}
