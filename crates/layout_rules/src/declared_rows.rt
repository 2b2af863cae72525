ghost use Rattle.std.specs.Prelude.{◌≡◌, ◌++◌, [], ◌∷◌, flat_map, map, OnOk, option_copied};
ghost use Rattle.mir_program.specs.Mentions.{constant_types, contract_types, field_types, loop_types, place_types, shape_types, step_types, tag_types, variant_types, vtable_types};
ghost use Rattle.type_layouts.specs.Rows.{rows_of};
ghost use Rattle.layout_rules.specs.Mentions.{declaration_rows, entry_rows, named_row};

use mir_ir::{
    ConstantDecl, Contract, Declarations, FieldDecl, LoopRule, PlaceExpr, Projection, TagDecl,
    TypeDecl, TypeShape, VariantDecl, VtableDecl,
};
use std::alloc::Global;
use type_layouts::{Row, Scope, push_inner, push_row, push_type};
use vk_core::NoMemory;

fn push_fields(
    alloc: Global,
    out: &mut Vec<Row>,
    scope: &Scope<'_>,
    items: &[FieldDecl],
) -> Result<(), NoMemory>
    ensures { OnOk result (out.new.items ≡ out.old.items ++ flat_map (field_types (rows_of scope.now)) items.now) }
{
    for item in items {
        push_type(alloc, out, scope, &item.ty, true)?;
    }
    Ok(())
}

fn push_variants(
    alloc: Global,
    out: &mut Vec<Row>,
    scope: &Scope<'_>,
    items: &[VariantDecl],
) -> Result<(), NoMemory>
    ensures { OnOk result (out.new.items ≡ out.old.items ++ flat_map (variant_types (rows_of scope.now)) items.now) }
{
    for item in items {
        push_fields(alloc, out, scope, item.fields.as_slice())?;
    }
    Ok(())
}

fn push_tag(
    alloc: Global,
    out: &mut Vec<Row>,
    scope: &Scope<'_>,
    tag: &Option<TagDecl>,
) -> Result<(), NoMemory>
    ensures { OnOk result (out.new.items ≡ out.old.items ++ tag_types (rows_of scope.now) tag.now) }
{
    match tag {
        None => {}
        Some(tag) => push_type(alloc, out, scope, &tag.ty, false)?,
    }
    Ok(())
}

fn push_shape(
    alloc: Global,
    out: &mut Vec<Row>,
    scope: &Scope<'_>,
    shape: &TypeShape,
) -> Result<(), NoMemory>
    ensures { OnOk result (out.new.items ≡ out.old.items ++ shape_types (rows_of scope.now) shape.now) }
{
    match shape {
        TypeShape::Struct(fields) => push_fields(alloc, out, scope, fields.as_slice())?,
        TypeShape::Tuple(fields) => push_fields(alloc, out, scope, fields.as_slice())?,
        TypeShape::Enum { variants, tag, .. } => {
            push_variants(alloc, out, scope, variants.as_slice())?;
            push_tag(alloc, out, scope, tag)?;
        }
    }
    Ok(())
}

fn push_entry(
    alloc: Global,
    out: &mut Vec<Row>,
    scope: &Scope<'_>,
    own: &TypeDecl,
) -> Result<(), NoMemory>
    ensures { OnOk result (out.new.items ≡ out.old.items ++ entry_rows scope.now own.now) }
{
    let _own = push_inner(alloc, out, scope, &own.name)?;
    push_shape(alloc, out, scope, &own.shape)?;
    Ok(())
}

fn push_entries(
    alloc: Global,
    out: &mut Vec<Row>,
    scope: &Scope<'_>,
    items: &[TypeDecl],
) -> Result<(), NoMemory>
    ensures { OnOk result (out.new.items ≡ out.old.items ++ flat_map (entry_rows scope.now) items.now) }
{
    for item in items {
        push_entry(alloc, out, scope, item)?;
    }
    Ok(())
}

/// Adds the declared types themselves.
fn push_named(
    alloc: Global,
    out: &mut Vec<Row>,
    scope: &Scope<'_>,
    items: &[TypeDecl],
) -> Result<(), NoMemory>
    ensures { OnOk result (out.new.items ≡ out.old.items ++ map (named_row scope.now) items.now) }
{
    for item in items {
        let mut inner = Vec::new(alloc);
        let row = push_inner(alloc, &mut inner, scope, &item.name)?;
        push_row(out, row, false)?;
    }
    Ok(())
}

fn push_step(
    alloc: Global,
    out: &mut Vec<Row>,
    scope: &Scope<'_>,
    step: &Projection,
) -> Result<(), NoMemory>
    ensures { OnOk result (out.new.items ≡ out.old.items ++ step_types (rows_of scope.now) step.now) }
{
    match step {
        Projection::Field { ty, .. } => push_type(alloc, out, scope, ty, false)?,
        Projection::Deref
        | Projection::Index(_)
        | Projection::FromFront { .. }
        | Projection::FromBack { .. }
        | Projection::Downcast(_) => {}
    }
    Ok(())
}

fn push_steps(
    alloc: Global,
    out: &mut Vec<Row>,
    scope: &Scope<'_>,
    items: &[Projection],
) -> Result<(), NoMemory>
    ensures { OnOk result (out.new.items ≡ out.old.items ++ flat_map (step_types (rows_of scope.now)) items.now) }
{
    for item in items {
        push_step(alloc, out, scope, item)?;
    }
    Ok(())
}

/// Adds the types that a place names.
pub fn push_place(
    alloc: Global,
    out: &mut Vec<Row>,
    scope: &Scope<'_>,
    place: &PlaceExpr,
) -> Result<(), NoMemory>
    ensures { OnOk result (out.new.items ≡ out.old.items ++ place_types (rows_of scope.now) place.now) }
{
    push_steps(alloc, out, scope, place.steps.as_slice())?;
    Ok(())
}

fn push_places(
    alloc: Global,
    out: &mut Vec<Row>,
    scope: &Scope<'_>,
    items: &[PlaceExpr],
) -> Result<(), NoMemory>
    ensures { OnOk result (out.new.items ≡ out.old.items ++ flat_map (place_types (rows_of scope.now)) items.now) }
{
    for item in items {
        push_place(alloc, out, scope, item)?;
    }
    Ok(())
}

fn push_vtables(
    alloc: Global,
    out: &mut Vec<Row>,
    scope: &Scope<'_>,
    items: &[VtableDecl],
) -> Result<(), NoMemory>
    ensures { OnOk result (out.new.items ≡ out.old.items ++ flat_map (vtable_types (rows_of scope.now)) items.now) }
{
    for item in items {
        push_type(alloc, out, scope, &item.ty, false)?;
    }
    Ok(())
}

fn push_constants(
    alloc: Global,
    out: &mut Vec<Row>,
    scope: &Scope<'_>,
    items: &[ConstantDecl],
) -> Result<(), NoMemory>
    ensures { OnOk result (out.new.items ≡ out.old.items ++ flat_map (constant_types (rows_of scope.now)) items.now) }
{
    for item in items {
        push_type(alloc, out, scope, &item.ty, false)?;
    }
    Ok(())
}

fn push_contracts(
    alloc: Global,
    out: &mut Vec<Row>,
    scope: &Scope<'_>,
    items: &[Contract],
) -> Result<(), NoMemory>
    ensures { OnOk result (out.new.items ≡ out.old.items ++ flat_map (contract_types (rows_of scope.now)) items.now) }
{
    for item in items {
        push_places(alloc, out, scope, item.modifies.as_slice())?;
    }
    Ok(())
}

fn push_loops(
    alloc: Global,
    out: &mut Vec<Row>,
    scope: &Scope<'_>,
    items: &[LoopRule],
) -> Result<(), NoMemory>
    ensures { OnOk result (out.new.items ≡ out.old.items ++ flat_map (loop_types (rows_of scope.now)) items.now) }
{
    for item in items {
        push_places(alloc, out, scope, item.modifies.as_slice())?;
    }
    Ok(())
}

/// Adds the types that the declarations name. The scope is that of their types.
#[tactic(auto, using(crate::proofs::RowLaws::appended_six))]
pub fn push_declarations(
    alloc: Global,
    out: &mut Vec<Row>,
    scope: &Scope<'_>,
    declarations: &Declarations,
) -> Result<(), NoMemory>
    requires { scope.now ≡ declarations.now.types }
    ensures { OnOk result (out.new.items ≡ out.old.items ++ declaration_rows declarations.now) }
{
    push_named(alloc, out, scope, declarations.types.as_slice())?;
    push_entries(alloc, out, scope, declarations.types.as_slice())?;
    push_vtables(alloc, out, scope, declarations.vtables.as_slice())?;
    push_constants(alloc, out, scope, declarations.constants.as_slice())?;
    push_contracts(alloc, out, scope, declarations.contracts.as_slice())?;
    push_loops(alloc, out, scope, declarations.loops.as_slice())?;
    Ok(())
}
