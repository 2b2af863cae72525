use crate::declaring::with_types;
use layout_rules::{LayoutFault, LayoutKind, check_layouts, judge_types};
use mir_ir::{Declarations, FieldDecl, IntTy, Ty, TypeDecl, TypeShape};
use mir_program::Program;
use sqlite_items::{Boxed, Items};
use std::alloc::Global;
use std::test::Fail;
use vk_core::{Name, NoMemory};

/// The rule that is broken where the only declared type is the struct `A`.
fn rule_broken(
    alloc: Global,
    size: u64,
    align: u64,
    fields: Items<FieldDecl>,
) -> Result<Option<LayoutKind>, NoMemory> {
    let mut types = Items::new(alloc);
    types.push(TypeDecl {
        name: Ty::Named(Name::from_bytes(alloc, b"A")?),
        shape: TypeShape::Struct(fields),
        size,
        align,
        drop: None,
    })?;
    match judge_types(alloc, &[], &with_types(alloc, types)) {
        Ok(()) => Ok(None),
        Err(LayoutFault::Rule { kind, .. }) => Ok(Some(kind)),
        Err(LayoutFault::Memory) => Err(NoMemory),
    }
}

/// Where a `u32` stands at 0 and a `u8` at some offset.
fn rule_of_two(
    alloc: Global,
    size: u64,
    align: u64,
    offset: u64,
) -> Result<Option<LayoutKind>, NoMemory> {
    let mut fields = Items::new(alloc);
    fields.push(FieldDecl {
        name: Name::from_bytes(alloc, b"0")?,
        ty: Ty::Int(IntTy::U32),
        offset: 0,
    })?;
    fields.push(FieldDecl {
        name: Name::from_bytes(alloc, b"1")?,
        ty: Ty::Int(IntTy::U8),
        offset,
    })?;
    rule_broken(alloc, size, align, fields)
}

/// Where one field stands at 0.
fn rule_of_one(alloc: Global, ty: Ty) -> Result<Option<LayoutKind>, NoMemory> {
    let mut fields = Items::new(alloc);
    fields.push(FieldDecl {
        name: Name::from_bytes(alloc, b"0")?,
        ty,
        offset: 0,
    })?;
    rule_broken(alloc, 4096, 16, fields)
}

#[test]
fn places_of_two_fields(rt: HostRuntime) -> Result<(), Fail> {
    for (size, align, offset, wanted) in [
        (8, 4, 4, None),
        (4, 4, 3, Some(LayoutKind::Overlap)),
        (4, 4, 4, Some(LayoutKind::Outside)),
        (5, 4, 4, Some(LayoutKind::Misaligned)),
        (8, 2, 4, Some(LayoutKind::Misaligned)),
    ] {
        assert_eq!(rt; rule_of_two(rt.alloc(), size, align, offset)?, wanted);
    }
    Ok(())
}

#[test]
fn a_type_that_holds_itself(rt: HostRuntime) -> Result<(), Fail> {
    let own = Ty::Named(Name::from_bytes(rt.alloc(), b"A")?);
    assert_eq!(rt; rule_of_one(rt.alloc(), own)?, Some(LayoutKind::Recursive));
    Ok(())
}

#[test]
fn a_type_without_a_declaration(rt: HostRuntime) -> Result<(), Fail> {
    let other = Ty::Named(Name::from_bytes(rt.alloc(), b"B")?);
    assert_eq!(rt; rule_of_one(rt.alloc(), other)?, Some(LayoutKind::Unknown));
    Ok(())
}

#[test]
fn more_bytes_than_a_type_may_have(rt: HostRuntime) -> Result<(), Fail> {
    let bytes = Ty::Array {
        item: Boxed::new(rt.alloc(), Ty::Int(IntTy::U8))?,
        count: 4097,
    };
    assert_eq!(rt; rule_of_one(rt.alloc(), bytes)?, Some(LayoutKind::TooBig));
    Ok(())
}

#[test]
#[tactic(auto, using(mir_program::proofs::Examples::empty_program))]
fn a_program_without_types(rt: HostRuntime) {
    let program = Program::join(
        Items::new(rt.alloc()),
        Declarations {
            types: Items::new(rt.alloc()),
            traits: Items::new(rt.alloc()),
            vtables: Items::new(rt.alloc()),
            constants: Items::new(rt.alloc()),
            aliases: Items::new(rt.alloc()),
            contracts: Items::new(rt.alloc()),
            loops: Items::new(rt.alloc()),
            units: Items::new(rt.alloc()),
        },
    );
    let answer = check_layouts(rt.alloc(), &program);
    assert!(rt; answer.is_ok());
}
