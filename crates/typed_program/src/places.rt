ghost use Rattle.std.specs.Prelude.{◌≡◌, [], ◌∷◌, ◌++◌, IfOk, OnOk, map, slice_get};
ghost use Rattle.mir_ir.specs.declared.types.Ty.{out-Ty};
ghost use Rattle.type_layouts.specs.Extents.{empty};
ghost use Rattle.type_layouts.specs.Rows.{extent_of};
ghost use Rattle.typed_program.specs.Places.{declared_places, declared_tags, field_offset, form_places, form_tags, place_behind, places_behind, shape_places, shape_tags, variant_places, variant_tag};

use mir_ir::{FieldDecl, Ty, TypeDecl, TypeShape, VariantDecl};
use sqlite_items::{Items, at};
use std::alloc::Global;
use type_layouts::{Extent, Form, Scope, alignment, extent_of};
use vk_core::{Name, NoMemory};
use word_bits::Word;

/// Places past the largest type all count as this one.
const PLACE_ABOVE: u128 = 4097;

fn offsets_of(alloc: Global, fields: &[FieldDecl]) -> Result<Items<u64>, NoMemory>
    ensures { IfOk result (λ places. places ≡ map field_offset fields.now) }
{
    let mut places = Items::new(alloc);
    for field in fields {
        places.push(field.offset)?;
    }
    Ok(places)
}

/// One list alone.
fn alone(alloc: Global, places: Items<u64>) -> Result<Items<Items<u64>>, NoMemory>
    ensures { IfOk result (λ all. all ≡ places ∷ []) }
{
    let mut all = Items::new(alloc);
    all.push(places)?;
    Ok(all)
}

fn variant_places(alloc: Global, variants: &[VariantDecl]) -> Result<Items<Items<u64>>, NoMemory>
    ensures { IfOk result (λ all. all ≡ map variant_places variants.now) }
{
    let mut all = Items::new(alloc);
    for variant in variants {
        let places = offsets_of(alloc, variant.fields.as_slice())?;
        all.push(places)?;
    }
    Ok(all)
}

fn shape_places(alloc: Global, shape: &TypeShape) -> Result<Items<Items<u64>>, NoMemory>
    ensures { IfOk result (λ all. all ≡ shape_places shape.now) }
{
    match shape {
        TypeShape::Struct(fields) => {
            let places = offsets_of(alloc, fields.as_slice())?;
            let all = alone(alloc, places)?;
            Ok(all)
        }
        TypeShape::Tuple(fields) => {
            let places = offsets_of(alloc, fields.as_slice())?;
            let all = alone(alloc, places)?;
            Ok(all)
        }
        TypeShape::Enum { variants, .. } => {
            let all = variant_places(alloc, variants.as_slice())?;
            Ok(all)
        }
    }
}

fn declared_places(
    alloc: Global,
    types: &[TypeDecl],
    entry: usize,
) -> Result<Items<Items<u64>>, NoMemory>
    ensures { IfOk result (λ all. all ≡ declared_places (slice_get types.now entry)) }
{
    match at(types, entry) {
        None => Ok(Items::new(alloc)),
        Some(own) => {
            let all = shape_places(alloc, &own.shape)?;
            Ok(all)
        }
    }
}

fn shape_tags(alloc: Global, shape: &TypeShape) -> Result<Items<Option<Word>>, NoMemory>
    ensures { IfOk result (λ tags. tags ≡ shape_tags shape.now) }
{
    let mut tags = Items::new(alloc);
    match shape {
        TypeShape::Struct(_) | TypeShape::Tuple(_) => Ok(tags),
        TypeShape::Enum { variants, .. } => {
            push_tags(&mut tags, variants.as_slice())?;
            Ok(tags)
        }
    }
}

fn push_tags(tags: &mut Items<Option<Word>>, variants: &[VariantDecl]) -> Result<(), NoMemory>
    ensures { OnOk result (tags.new ≡ tags.old ++ map variant_tag variants.now) }
{
    for variant in variants {
        tags.push(variant.tag)?;
    }
    Ok(())
}

fn declared_tags(
    alloc: Global,
    types: &[TypeDecl],
    entry: usize,
) -> Result<Items<Option<Word>>, NoMemory>
    ensures { IfOk result (λ tags. tags ≡ declared_tags (slice_get types.now entry)) }
{
    match at(types, entry) {
        None => Ok(Items::new(alloc)),
        Some(own) => {
            let tags = shape_tags(alloc, &own.shape)?;
            Ok(tags)
        }
    }
}

/// Where an item stands behind what stands before it.
fn place_behind(done: &Extent, item: &Extent) -> u64
    ensures { result ≡ place_behind done.now item.now }
{
    let step = alignment(item.align) as u128;
    let place = (done.size as u128 + (step - 1)) / step * step;
    place.min(PLACE_ABOVE) as u64
}

/// Before the first item.
fn nothing(alloc: Global) -> Extent
    ensures { result ≡ empty }
{
    Extent {
        form: Form::Sized,
        is_unknown: false,
        size: 0,
        align: 1,
        parts: 1,
        held: Items::new(alloc),
    }
}

/// Where the items of a tuple without a declaration stand.
fn item_places(alloc: Global, scope: &Scope<'_>, items: &[Ty]) -> Result<Items<u64>, NoMemory>
    ensures { IfOk result (λ places. places ≡ places_behind empty (map (extent_of scope.now) items.now)) }
{
    let mut places = Items::new(alloc);
    let mut done = nothing(alloc);
    for item in items {
        let extent = extent_of(alloc, scope, item)?;
        places.push(place_behind(&done, &extent))?;
        done.put_behind(&extent)?;
    }
    Ok(places)
}

fn tuple_places(
    alloc: Global,
    scope: &Scope<'_>,
    items: &[Ty],
) -> Result<Items<Items<u64>>, NoMemory>
    ensures { IfOk result (λ all. all ≡ places_behind empty (map (extent_of scope.now) items.now) ∷ []) }
{
    let places = item_places(alloc, scope, items)?;
    let all = alone(alloc, places)?;
    Ok(all)
}

/// Where the fields of a type stand, which has this text.
pub fn places_of(
    alloc: Global,
    scope: &Scope<'_>,
    text: &Name,
    ty: &Ty,
) -> Result<Items<Items<u64>>, NoMemory>
    ensures { IfOk result (λ all. all ≡ form_places scope.now text.now (out-Ty ty.now)) }
{
    match ty {
        Ty::Tuple(items) => match scope.entry_of(text.as_bytes()) {
            None => {
                let all = tuple_places(alloc, scope, items.as_slice())?;
                Ok(all)
            }
            Some(entry) => {
                let all = declared_places(alloc, scope.types(), entry)?;
                Ok(all)
            }
        },
        Ty::Named(_) => match scope.entry_of(text.as_bytes()) {
            None => Ok(Items::new(alloc)),
            Some(entry) => {
                let all = declared_places(alloc, scope.types(), entry)?;
                Ok(all)
            }
        },
        Ty::Bool | Ty::Char | Ty::Int(_) | Ty::Never | Ty::Str => Ok(Items::new(alloc)),
        Ty::Array { .. } | Ty::Slice(_) => Ok(Items::new(alloc)),
        Ty::Ref { .. } | Ty::Raw { .. } | Ty::BoxOf(_) | Ty::Dyn(_) => Ok(Items::new(alloc)),
    }
}

/// The tags of the variants of a type, which has this text.
pub fn tags_of(
    alloc: Global,
    scope: &Scope<'_>,
    text: &Name,
    ty: &Ty,
) -> Result<Items<Option<Word>>, NoMemory>
    ensures { IfOk result (λ tags. tags ≡ form_tags scope.now text.now (out-Ty ty.now)) }
{
    match ty {
        Ty::Named(_) => match scope.entry_of(text.as_bytes()) {
            None => Ok(Items::new(alloc)),
            Some(entry) => {
                let tags = declared_tags(alloc, scope.types(), entry)?;
                Ok(tags)
            }
        },
        Ty::Bool | Ty::Char | Ty::Int(_) | Ty::Never | Ty::Str => Ok(Items::new(alloc)),
        Ty::Tuple(_) | Ty::Array { .. } | Ty::Slice(_) => Ok(Items::new(alloc)),
        Ty::Ref { .. } | Ty::Raw { .. } | Ty::BoxOf(_) | Ty::Dyn(_) => Ok(Items::new(alloc)),
    }
}
