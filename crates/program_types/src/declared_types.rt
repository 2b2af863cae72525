ghost use Rattle.std.specs.Prelude.{◌≡◌, ◌++◌, flat_map, OnOk};
ghost use Rattle.mir_program.specs.Mentions.{constant_types, contract_types, field_types, loop_types, place_types, shape_types, step_types, tag_types, variant_types, vtable_types};
ghost use Rattle.program_types.specs.Mentioned.{written_at};
ghost use Rattle.program_types.specs.Mentioned.{declaration_types, entry_types};

use crate::written::{Written, push_type};
use mir_ir::{
    ConstantDecl, Contract, Declarations, FieldDecl, LoopRule, PlaceExpr, Projection, TagDecl,
    TypeDecl, TypeShape, VariantDecl, VtableDecl,
};
use vk_core::NoMemory;

fn push_fields<'a>(out: &mut Written<'a>, items: &'a [FieldDecl]) -> Result<(), NoMemory>
    ensures { OnOk result (out.new ≡ out.old ++ flat_map (field_types written_at) items.now) }
{
    for item in items {
        push_type(out, &item.ty)?;
    }
    Ok(())
}

fn push_variants<'a>(out: &mut Written<'a>, items: &'a [VariantDecl]) -> Result<(), NoMemory>
    ensures { OnOk result (out.new ≡ out.old ++ flat_map (variant_types written_at) items.now) }
{
    for item in items {
        push_fields(out, item.fields.as_slice())?;
    }
    Ok(())
}

fn push_tag<'a>(out: &mut Written<'a>, tag: &'a Option<TagDecl>) -> Result<(), NoMemory>
    ensures { OnOk result (out.new ≡ out.old ++ tag_types written_at tag.now) }
{
    match tag {
        None => {}
        Some(tag) => push_type(out, &tag.ty)?,
    }
    Ok(())
}

fn push_shape<'a>(out: &mut Written<'a>, shape: &'a TypeShape) -> Result<(), NoMemory>
    ensures { OnOk result (out.new ≡ out.old ++ shape_types written_at shape.now) }
{
    match shape {
        TypeShape::Struct(fields) => push_fields(out, fields.as_slice())?,
        TypeShape::Tuple(fields) => push_fields(out, fields.as_slice())?,
        TypeShape::Enum { variants, tag, .. } => {
            push_variants(out, variants.as_slice())?;
            push_tag(out, tag)?;
        }
    }
    Ok(())
}

fn push_entry<'a>(out: &mut Written<'a>, own: &'a TypeDecl) -> Result<(), NoMemory>
    ensures { OnOk result (out.new ≡ out.old ++ entry_types own.now) }
{
    push_type(out, &own.name)?;
    push_shape(out, &own.shape)?;
    Ok(())
}

fn push_entries<'a>(out: &mut Written<'a>, items: &'a [TypeDecl]) -> Result<(), NoMemory>
    ensures { OnOk result (out.new ≡ out.old ++ flat_map entry_types items.now) }
{
    for item in items {
        push_entry(out, item)?;
    }
    Ok(())
}

fn push_step<'a>(out: &mut Written<'a>, step: &'a Projection) -> Result<(), NoMemory>
    ensures { OnOk result (out.new ≡ out.old ++ step_types written_at step.now) }
{
    match step {
        Projection::Field { ty, .. } => push_type(out, ty)?,
        Projection::Deref
        | Projection::Index(_)
        | Projection::FromFront { .. }
        | Projection::FromBack { .. }
        | Projection::Downcast(_) => {}
    }
    Ok(())
}

fn push_steps<'a>(out: &mut Written<'a>, items: &'a [Projection]) -> Result<(), NoMemory>
    ensures { OnOk result (out.new ≡ out.old ++ flat_map (step_types written_at) items.now) }
{
    for item in items {
        push_step(out, item)?;
    }
    Ok(())
}

/// Adds the types that a place names.
pub fn push_place<'a>(out: &mut Written<'a>, place: &'a PlaceExpr) -> Result<(), NoMemory>
    ensures { OnOk result (out.new ≡ out.old ++ place_types written_at place.now) }
{
    push_steps(out, place.steps.as_slice())?;
    Ok(())
}

fn push_places<'a>(out: &mut Written<'a>, items: &'a [PlaceExpr]) -> Result<(), NoMemory>
    ensures { OnOk result (out.new ≡ out.old ++ flat_map (place_types written_at) items.now) }
{
    for item in items {
        push_place(out, item)?;
    }
    Ok(())
}

fn push_vtables<'a>(out: &mut Written<'a>, items: &'a [VtableDecl]) -> Result<(), NoMemory>
    ensures { OnOk result (out.new ≡ out.old ++ flat_map (vtable_types written_at) items.now) }
{
    for item in items {
        push_type(out, &item.ty)?;
    }
    Ok(())
}

fn push_constants<'a>(out: &mut Written<'a>, items: &'a [ConstantDecl]) -> Result<(), NoMemory>
    ensures { OnOk result (out.new ≡ out.old ++ flat_map (constant_types written_at) items.now) }
{
    for item in items {
        push_type(out, &item.ty)?;
    }
    Ok(())
}

fn push_contracts<'a>(out: &mut Written<'a>, items: &'a [Contract]) -> Result<(), NoMemory>
    ensures { OnOk result (out.new ≡ out.old ++ flat_map (contract_types written_at) items.now) }
{
    for item in items {
        push_places(out, item.modifies.as_slice())?;
    }
    Ok(())
}

fn push_loops<'a>(out: &mut Written<'a>, items: &'a [LoopRule]) -> Result<(), NoMemory>
    ensures { OnOk result (out.new ≡ out.old ++ flat_map (loop_types written_at) items.now) }
{
    for item in items {
        push_places(out, item.modifies.as_slice())?;
    }
    Ok(())
}

/// Adds the types that the declarations name.
#[tactic(auto, using(crate::proofs::ListLaws::appended_five))]
pub fn push_declarations<'a>(
    out: &mut Written<'a>,
    declarations: &'a Declarations,
) -> Result<(), NoMemory>
    ensures { OnOk result (out.new ≡ out.old ++ declaration_types declarations.now) }
{
    push_entries(out, declarations.types.as_slice())?;
    push_vtables(out, declarations.vtables.as_slice())?;
    push_constants(out, declarations.constants.as_slice())?;
    push_contracts(out, declarations.contracts.as_slice())?;
    push_loops(out, declarations.loops.as_slice())?;
    Ok(())
}
