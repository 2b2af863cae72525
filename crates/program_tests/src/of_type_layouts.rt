use mir_ir::{FieldDecl, IntTy, Ty, TypeDecl, TypeShape};
use sqlite_items::{Boxed, Items};
use std::alloc::Global;
use std::test::Fail;
use type_layouts::{
    Extent, Row, Scope, are_ordered, extent_of, held_at, is_above_at, is_free, is_too_big,
    no_marks, outlines_of, parts_table, push_inner, push_row, push_type, ranks_tried,
};
use vk_core::{Name, NoMemory};

fn named(alloc: Global, name: &[u8]) -> Result<Ty, NoMemory> {
    Ok(Ty::Named(Name::from_bytes(alloc, name)?))
}

fn one_field(alloc: Global, ty: Ty) -> Result<Items<FieldDecl>, NoMemory> {
    let mut fields = Items::new(alloc);
    fields.push(FieldDecl {
        name: Name::from_bytes(alloc, b"0")?,
        ty,
        offset: 0,
    })?;
    Ok(fields)
}

/// The struct `A` of a `u32`, and the struct `B` of an `A`.
fn two_types(alloc: Global) -> Result<Items<TypeDecl>, NoMemory> {
    let mut types = Items::new(alloc);
    types.push(TypeDecl {
        name: named(alloc, b"A")?,
        shape: TypeShape::Struct(one_field(alloc, Ty::Int(IntTy::U32))?),
        size: 4,
        align: 4,
        drop: None,
    })?;
    types.push(TypeDecl {
        name: named(alloc, b"B")?,
        shape: TypeShape::Struct(one_field(alloc, named(alloc, b"A")?)?),
        size: 4,
        align: 4,
        drop: None,
    })?;
    Ok(types)
}

/// `(u8, u32, u8)`
fn three_numbers(alloc: Global) -> Result<Ty, NoMemory> {
    let mut items = Items::new(alloc);
    items.push(Ty::Int(IntTy::U8))?;
    items.push(Ty::Int(IntTy::U32))?;
    items.push(Ty::Int(IntTy::U8))?;
    Ok(Ty::Tuple(items))
}

/// Size, alignment, parts, and how many declared types are held.
fn numbers_of(extent: Extent) -> (u64, u64, u64, usize) {
    (extent.size, extent.align, extent.parts, extent.held.len())
}

fn measured(alloc: Global, ty: &Ty) -> Result<(u64, u64, u64, usize), NoMemory> {
    let types = two_types(alloc)?;
    let scope = Scope::new(alloc, types.as_slice())?;
    Ok(numbers_of(extent_of(alloc, &scope, ty)?))
}

#[test]
fn a_tuple_has_its_items_in_order(rt: HostRuntime) -> Result<(), Fail> {
    let tuple = three_numbers(rt.alloc())?;
    assert_eq!(rt; measured(rt.alloc(), &tuple)?, (12, 4, 4, 0));
    Ok(())
}

#[test]
fn a_declared_type_is_as_it_is_declared(rt: HostRuntime) -> Result<(), Fail> {
    let own = named(rt.alloc(), b"A")?;
    assert_eq!(rt; measured(rt.alloc(), &own)?, (4, 4, 0, 1));
    Ok(())
}

#[test]
fn entries_are_found_by_their_texts(rt: HostRuntime) -> Result<(), Fail> {
    let types = two_types(rt.alloc())?;
    let scope = Scope::new(rt.alloc(), types.as_slice())?;
    assert_eq!(rt; scope.types().len(), 2);
    assert_eq!(rt; scope.entry_of(b"B"), Some(1));
    assert_eq!(rt; scope.entry_of(b"C"), None);
    Ok(())
}

/// How many types are named in `&[B]`, and the size of the last.
fn rows_of_slice(alloc: Global) -> Result<(usize, u64), NoMemory> {
    let types = two_types(alloc)?;
    let scope = Scope::new(alloc, types.as_slice())?;
    let slice = Ty::Slice(Boxed::new(alloc, named(alloc, b"B")?)?);
    let target = Boxed::new(alloc, slice)?;
    let ty = Ty::Ref {
        mutable: false,
        target,
    };
    let mut rows: Vec<Row> = Vec::new(alloc);
    push_type(alloc, &mut rows, &scope, &ty, true)?;
    let row = push_inner(alloc, &mut rows, &scope, &ty)?;
    let size = row.extent.size;
    push_row(&mut rows, row, false)?;
    Ok((rows.len(), size))
}

#[test]
fn parts_come_before_the_whole(rt: HostRuntime) -> Result<(), Fail> {
    assert_eq!(rt; rows_of_slice(rt.alloc())?, (6, 16));
    Ok(())
}

/// Whether some of the types is too big, and the parts of the last.
fn parts_of_two(alloc: Global) -> Result<(bool, Option<u64>), NoMemory> {
    let types = two_types(alloc)?;
    let scope = Scope::new(alloc, types.as_slice())?;
    let outlines = outlines_of(alloc, &scope)?;
    let table = parts_table(alloc, outlines.as_slice())?;
    let own = named(alloc, b"B")?;
    let extent = extent_of(alloc, &scope, &own)?;
    let is_big = is_too_big(table.as_slice(), &extent);
    Ok((is_big, table.as_slice().last().copied()))
}

#[test]
fn parts_of_what_is_held_count(rt: HostRuntime) -> Result<(), Fail> {
    assert_eq!(rt; parts_of_two(rt.alloc())?, (false, Some(3)));
    Ok(())
}

/// Whether numbers are in order, and the first type above what it holds; and how much the last one holds.
fn ranked(alloc: Global) -> Result<(bool, bool, usize), NoMemory> {
    let types = two_types(alloc)?;
    let scope = Scope::new(alloc, types.as_slice())?;
    let outlines = outlines_of(alloc, &scope)?;
    let ranks = ranks_tried(alloc, outlines.as_slice())?;
    let ordered = are_ordered(outlines.as_slice(), ranks.as_slice());
    let above = is_above_at(outlines.as_slice(), ranks.as_slice(), 0);
    Ok((ordered, above, held_at(outlines.as_slice(), 1).len()))
}

#[test]
fn numbers_fall_along_what_is_held(rt: HostRuntime) -> Result<(), Fail> {
    assert_eq!(rt; ranked(rt.alloc())?, (true, true, 1));
    Ok(())
}

#[test]
fn no_place_is_marked(rt: HostRuntime) -> Result<(), Fail> {
    let marks = no_marks(rt.alloc(), 2)?;
    assert!(rt; is_free(marks.as_slice(), 1));
    assert!(rt; !is_free(marks.as_slice(), 2));
    Ok(())
}
