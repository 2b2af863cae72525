use crate::types::{bytes, raw};
use mir_ir::{BinaryOp, CastKind, IntTy, Ty};
use sqlite_items::Items;
use std::alloc::Global;
use std::test::Fail;
use type_rules::{Scalar, ValueTy, binary_type, is_cast, neg_type, not_type};
use vk_core::{Name, NoMemory};

/// Whether the operator takes two such integers and gives this type.
fn gives(op: BinaryOp, a: IntTy, b: IntTy, ty: &Ty) -> bool {
    match binary_type(op, ValueTy::Int(a), ValueTy::Int(b)) {
        None => false,
        Some(given) => given.fits(ty),
    }
}

#[test]
fn operators_take_integers(rt: HostRuntime) {
    let byte = Ty::Int(IntTy::U8);
    let number = Ty::Int(IntTy::I64);
    for (op, a, b, ty, wanted) in [
        (BinaryOp::Add, IntTy::U8, IntTy::U8, &byte, true),
        (BinaryOp::Add, IntTy::U8, IntTy::I8, &byte, false),
        (BinaryOp::Shl, IntTy::U8, IntTy::I64, &byte, true),
        (BinaryOp::Shr, IntTy::I64, IntTy::U8, &byte, false),
        (BinaryOp::Shr, IntTy::I64, IntTy::U8, &number, true),
        (BinaryOp::Lt, IntTy::U8, IntTy::U8, &Ty::Bool, true),
        (BinaryOp::Eq, IntTy::U8, IntTy::U16, &Ty::Bool, false),
        (
            BinaryOp::AddWithOverflow,
            IntTy::U8,
            IntTy::U8,
            &byte,
            false,
        ),
        (BinaryOp::Offset, IntTy::U8, IntTy::Usize, &byte, false),
    ] {
        assert_eq!(rt; gives(op, a, b, ty), wanted);
    }
}

#[test]
fn negations_take_signs_or_bits(rt: HostRuntime) {
    assert!(rt; neg_type(Some(Scalar::Int(IntTy::I8))).is_some());
    assert!(rt; neg_type(Some(Scalar::Int(IntTy::U8))).is_none());
    assert!(rt; not_type(Some(Scalar::Bool)).is_some());
    assert!(rt; not_type(Some(Scalar::Char)).is_none());
}

/// Whether a cast of the kind leads from a raw pointer to the one to a raw pointer to the other.
fn leads(alloc: Global, how: CastKind, from: Ty, to: Ty) -> Result<bool, NoMemory> {
    let from = raw(alloc, true, from)?;
    let to = raw(alloc, false, to)?;
    Ok(is_cast(how, ValueTy::Of(&from), &to))
}

#[test]
fn a_raw_pointer_may_lose_its_length(rt: HostRuntime) -> Result<(), Fail> {
    let wide = bytes(rt.alloc())?;
    assert!(rt; leads(rt.alloc(), CastKind::PtrToPtr, wide, Ty::Bool)?);
    Ok(())
}

#[test]
fn a_raw_pointer_gains_no_length(rt: HostRuntime) -> Result<(), Fail> {
    let wide = bytes(rt.alloc())?;
    assert!(rt; !leads(rt.alloc(), CastKind::PtrToPtr, Ty::Bool, wide)?);
    Ok(())
}

#[test]
fn mutability_stays_in_unsizing(rt: HostRuntime) -> Result<(), Fail> {
    let name = Name::from_bytes(rt.alloc(), b"Noise")?;
    assert!(rt; !leads(rt.alloc(), CastKind::Unsize, Ty::Bool, Ty::Dyn(name))?);
    let unit = Ty::Tuple(Items::new(rt.alloc()));
    assert!(rt;
        leads(
            rt.alloc(),
            CastKind::MutToConstPointer,
            unit,
            Ty::Tuple(Items::new(rt.alloc()))
        )?
    );
    Ok(())
}
