ghost use Rattle.std.specs.Prelude.{◌≡◌, IfOk, is_none, map};
ghost use Rattle.std.specs.Bool.{Decides};
ghost use Rattle.type_rules.specs.Lookup.{all_true, field_types};
ghost use Rattle.type_rules.specs.Plain.{all_plain, shape_plain, variants_plain};
ghost use Rattle.name_tables.specs.Plain.{mark_of, marks_after, next_marks, own_plain, plain_by, plain_marks};

use crate::table::Table;
use mir_ir::{FieldDecl, Ty, TypeDecl, TypeShape, VariantDecl};
use std::alloc::Global;
use vk_core::NoMemory;

/// The mark of a declared type.
fn mark_of(types: &Table<'_, TypeDecl>, marks: &[bool], path: &[u8]) -> bool
    ensures { result ≡ mark_of types.now marks.now path.now }
{
    match types.place_of(path) {
        None => false,
        Some(place) => place < marks.len() && marks[place],
    }
}

/// Whether a type is plain, where the declared types are plain that have marks.
#[cycle(plain)]
#[tactic(auto, using(crate::proofs::PlainForms::plain_by_out))]
pub fn is_plain_by(types: &Table<'_, TypeDecl>, marks: &[bool], ty: &Ty) -> bool
    ensures { result ≡ plain_by types.now marks.now ty.now }
{
    match ty {
        Ty::Bool | Ty::Char | Ty::Int(_) => true,
        Ty::Tuple(items) => are_plain_by(types, marks, items.as_slice()),
        Ty::Array { item, .. } => is_plain_by(types, marks, item.get()),
        Ty::Named(path) => mark_of(types, marks, path.as_bytes()),
        Ty::Never
        | Ty::Str
        | Ty::Slice(_)
        | Ty::Ref { .. }
        | Ty::Raw { .. }
        | Ty::BoxOf(_)
        | Ty::Dyn(_) => false,
    }
}

#[cycle(plain)]
fn are_plain_by(types: &Table<'_, TypeDecl>, marks: &[bool], items: &[Ty]) -> bool
    ensures { result ≡ all_true (map (plain_by types.now marks.now) items.now) }
{
    let mut place = 0;
    while place < items.len() {
        if !is_plain_by(types, marks, &items[place]) {
            return false;
        }
        place += 1;
    }
    true
}

fn fields_plain(types: &Table<'_, TypeDecl>, marks: &[bool], fields: &[FieldDecl]) -> bool
    ensures { result ≡ all_plain (plain_by types.now marks.now) (field_types fields.now) }
{
    let mut place = 0;
    while place < fields.len() {
        if !is_plain_by(types, marks, &fields[place].ty) {
            return false;
        }
        place += 1;
    }
    true
}

fn variants_plain(types: &Table<'_, TypeDecl>, marks: &[bool], variants: &[VariantDecl]) -> bool
    ensures { result ≡ variants_plain (plain_by types.now marks.now) variants.now }
{
    let mut place = 0;
    while place < variants.len() {
        if !fields_plain(types, marks, variants[place].fields.as_slice()) {
            return false;
        }
        place += 1;
    }
    true
}

fn shape_plain(types: &Table<'_, TypeDecl>, marks: &[bool], shape: &TypeShape) -> bool
    ensures { result ≡ shape_plain (plain_by types.now marks.now) shape.now }
{
    match shape {
        TypeShape::Struct(fields) => fields_plain(types, marks, fields.as_slice()),
        TypeShape::Tuple(fields) => fields_plain(types, marks, fields.as_slice()),
        TypeShape::Enum { variants, .. } => variants_plain(types, marks, variants.as_slice()),
    }
}

fn own_plain(types: &Table<'_, TypeDecl>, marks: &[bool], own: &TypeDecl) -> bool
    ensures { result ≡ own_plain (plain_by types.now marks.now) own.now }
{
    own.drop.is_none() && shape_plain(types, marks, &own.shape)
}

/// The marks of one round more.
fn next_marks(
    alloc: Global,
    types: &Table<'_, TypeDecl>,
    marks: &[bool],
) -> Result<Vec<bool>, NoMemory>
    ensures { IfOk result (λ next. next.items ≡ next_marks types.now marks.now) }
{
    let all = types.items();
    let mut next = Vec::new(alloc);
    let mut place = 0;
    while place < all.len() {
        next.push(own_plain(types, marks, &all[place]))?;
        place += 1;
    }
    Ok(next)
}

fn no_marks(alloc: Global, types: &[TypeDecl]) -> Result<Vec<bool>, NoMemory>
    ensures { IfOk result (λ marks. marks.items ≡ marks_after types.now 0) }
{
    let mut marks = Vec::new(alloc);
    let mut place = 0;
    while place < types.len() {
        marks.push(false)?;
        place += 1;
    }
    Ok(marks)
}

fn are_same(a: &[bool], b: &[bool]) -> bool
    ensures { Decides result (a.now ≡ b.now) }
{
    a == b
}

/// A mark for each declared type that is plain. The rounds end where they bring no new mark.
pub fn plain_marks(alloc: Global, types: &Table<'_, TypeDecl>) -> Result<Vec<bool>, NoMemory>
    ensures { IfOk result (λ marks. marks.items ≡ plain_marks types.now) }
{
    let all = types.items();
    let count = all.len();
    let mut marks = no_marks(alloc, all)?;
    let mut round = 0;
    while round < count {
        let old = marks.as_slice();
        let next = next_marks(alloc, types, old)?;
        if are_same(next.as_slice(), old) {
            return Ok(marks);
        }
        marks = next;
        round += 1;
    }
    Ok(marks)
}
