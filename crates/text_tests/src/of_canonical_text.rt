use canonical_text::{functions_text, type_text};
use mir_ir::{IntTy, Ty};
use sqlite_items::Boxed;
use std::alloc::Global;
use std::test::Fail;
use vk_core::{Name, NoMemory};

/// The text of the mutable reference to a slice of `u8`.
fn text_of_reference(alloc: Global) -> Result<Name, NoMemory> {
    let item = Boxed::new(alloc, Ty::Int(IntTy::U8))?;
    let target = Boxed::new(alloc, Ty::Slice(item))?;
    let ty = Ty::Ref {
        mutable: true,
        target,
    };
    type_text(alloc, &ty)
}

#[test]
fn a_reference_to_a_slice(rt: HostRuntime) -> Result<(), Fail> {
    let text = text_of_reference(rt.alloc())?;
    assert_eq!(rt; text.as_bytes(), b"&mut [u8]".as_slice());
    Ok(())
}

#[test]
fn no_functions(rt: HostRuntime) -> Result<(), Fail> {
    let text = functions_text(rt.alloc(), &[])?;
    assert!(rt; text.is_empty());
    Ok(())
}
