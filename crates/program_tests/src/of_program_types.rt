use crate::declaring::with_types;
use mir_ir::{FieldDecl, IntTy, Ty, TypeDecl, TypeShape};
use program_types::types_written;
use sqlite_items::{Boxed, Items};
use std::alloc::Global;
use std::test::Fail;
use vk_core::{Name, NoMemory};

/// The struct `A` with a field of type `[u8; 2]`.
fn one_struct(alloc: Global) -> Result<Items<TypeDecl>, NoMemory> {
    let mut fields = Items::new(alloc);
    fields.push(FieldDecl {
        name: Name::from_bytes(alloc, b"0")?,
        ty: Ty::Array {
            item: Boxed::new(alloc, Ty::Int(IntTy::U8))?,
            count: 2,
        },
        offset: 0,
    })?;
    let mut types = Items::new(alloc);
    types.push(TypeDecl {
        name: Ty::Named(Name::from_bytes(alloc, b"A")?),
        shape: TypeShape::Struct(fields),
        size: 2,
        align: 1,
        drop: None,
    })?;
    Ok(types)
}

/// How many types are written in declarations of the struct alone.
fn count_written(alloc: Global) -> Result<usize, NoMemory> {
    let types = one_struct(alloc)?;
    let declarations = with_types(alloc, types);
    let written = types_written(alloc, &[], &declarations)?;
    Ok(written.types().len())
}

#[test]
fn a_struct_and_its_field_are_written(rt: HostRuntime) -> Result<(), Fail> {
    assert_eq!(rt; count_written(rt.alloc())?, 3);
    Ok(())
}
