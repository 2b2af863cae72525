ghost use Rattle.std.specs.Prelude.{◌≡◌, [], ◌∷◌, map, IfOk, OnOk};
ghost use Rattle.type_layouts.specs.Extents.{empty, in_order};
ghost use Rattle.type_layouts.specs.Outlines.{contents, field_extent, field_spot, groups, outline_of, outlines, tag_in, tag_spot, variant_spots, variants_in_order};

use crate::extent::{self, Extent, Held};
use crate::row::extent_of;
use crate::scope::Scope;
use canonical_text::type_text;
use mir_ir::{FieldDecl, TagDecl, TypeDecl, TypeShape, VariantDecl};
use sqlite_items::Items;
use std::alloc::Global;
use vk_core::{Name, NoMemory};

/// Where a field or a tag stands in its type.
#[derive(Clone, Copy, Debug, PartialEq, Eq)]
pub struct Spot {
    pub offset: u64,
    pub size: u64,
    pub align: u64,
}

/// A declared type with the layouts of its fields: the fields of a struct or tuple, or those of each variant.
#[derive(Debug, Drop)]
pub struct Outline {
    pub text: Name,
    pub size: u64,
    pub align: u64,
    pub tag: Option<Spot>,
    pub groups: Items<Items<Spot>>,
    pub parts: u64,
    pub held: Items<Held>,
}

/// The spots of fields, which are put behind what stands there.
fn spots_of(
    alloc: Global,
    scope: &Scope<'_>,
    done: &mut Extent,
    fields: &[FieldDecl],
) -> Result<Items<Spot>, NoMemory>
    ensures spots { IfOk result (λ spots. spots ≡ map (field_spot scope.now) fields.now) }
    ensures done { OnOk result (done.new ≡ in_order done.old (map (field_extent scope.now) fields.now)) }
{
    let mut spots = Items::new(alloc);
    for field in fields {
        let extent = extent_of(alloc, scope, &field.ty)?;
        done.put_behind(&extent)?;
        spots.push(Spot {
            offset: field.offset,
            size: extent.size,
            align: extent.align,
        })?;
    }
    Ok(spots)
}

fn variant_spots(
    alloc: Global,
    scope: &Scope<'_>,
    done: &mut Extent,
    variants: &[VariantDecl],
) -> Result<Items<Items<Spot>>, NoMemory>
    ensures spots { IfOk result (λ spots. spots ≡ map (variant_spots scope.now) variants.now) }
    ensures done { OnOk result (done.new ≡ variants_in_order scope.now done.old variants.now) }
{
    let mut groups = Items::new(alloc);
    for variant in variants {
        let spots = spots_of(alloc, scope, done, variant.fields.as_slice())?;
        groups.push(spots)?;
    }
    Ok(groups)
}

fn one_group(
    alloc: Global,
    scope: &Scope<'_>,
    done: &mut Extent,
    fields: &[FieldDecl],
) -> Result<Items<Items<Spot>>, NoMemory>
    ensures spots { IfOk result (λ spots. spots ≡ map (field_spot scope.now) fields.now ∷ []) }
    ensures done { OnOk result (done.new ≡ in_order done.old (map (field_extent scope.now) fields.now)) }
{
    let spots = spots_of(alloc, scope, done, fields)?;
    let mut groups = Items::new(alloc);
    groups.push(spots)?;
    Ok(groups)
}

fn groups_of(
    alloc: Global,
    scope: &Scope<'_>,
    done: &mut Extent,
    shape: &TypeShape,
) -> Result<Items<Items<Spot>>, NoMemory>
    requires { done.old ≡ empty }
    ensures spots { IfOk result (λ spots. spots ≡ groups scope.now shape.now) }
    ensures done { OnOk result (done.new ≡ contents scope.now shape.now) }
{
    match shape {
        TypeShape::Struct(fields) => {
            let groups = one_group(alloc, scope, done, fields.as_slice())?;
            Ok(groups)
        }
        TypeShape::Tuple(fields) => {
            let groups = one_group(alloc, scope, done, fields.as_slice())?;
            Ok(groups)
        }
        TypeShape::Enum { variants, .. } => {
            let groups = variant_spots(alloc, scope, done, variants.as_slice())?;
            Ok(groups)
        }
    }
}

fn tag_spot(
    alloc: Global,
    scope: &Scope<'_>,
    tag: &Option<TagDecl>,
) -> Result<Option<Spot>, NoMemory>
    ensures { IfOk result (λ spot. spot ≡ tag_spot scope.now tag.now) }
{
    match tag {
        None => Ok(None),
        Some(tag) => {
            let extent = extent_of(alloc, scope, &tag.ty)?;
            Ok(Some(Spot {
                offset: tag.offset,
                size: extent.size,
                align: extent.align,
            }))
        }
    }
}

fn tag_in(alloc: Global, scope: &Scope<'_>, shape: &TypeShape) -> Result<Option<Spot>, NoMemory>
    ensures { IfOk result (λ spot. spot ≡ tag_in scope.now shape.now) }
{
    match shape {
        TypeShape::Struct(_) | TypeShape::Tuple(_) => Ok(None),
        TypeShape::Enum { tag, .. } => {
            let spot = tag_spot(alloc, scope, tag)?;
            Ok(spot)
        }
    }
}

#[tactic(auto, unfolding(crate::specs::Outlines::outline_of))]
fn outline_of(alloc: Global, scope: &Scope<'_>, own: &TypeDecl) -> Result<Outline, NoMemory>
    ensures { IfOk result (λ o. o ≡ outline_of scope.now own.now) }
{
    let text = type_text(alloc, &own.name)?;
    let tag = tag_in(alloc, scope, &own.shape)?;
    let mut done = extent::empty(alloc);
    let groups = groups_of(alloc, scope, &mut done, &own.shape)?;
    let Extent { parts, held, .. } = done;
    Ok(Outline {
        text,
        size: own.size,
        align: own.align,
        tag,
        groups,
        parts,
        held,
    })
}

/// The declared types with the layouts of their fields.
#[tactic(auto, unfolding(crate::specs::Outlines::outlines))]
pub fn outlines_of(alloc: Global, scope: &Scope<'_>) -> Result<Vec<Outline>, NoMemory>
    ensures { IfOk result (λ all. all.items ≡ outlines scope.now) }
{
    let mut all = Vec::new(alloc);
    let types = scope.types();
    for own in types {
        all.push(outline_of(alloc, scope, own)?)?;
    }
    Ok(all)
}
