use mir_ir::{BinaryOp, IntTy, Projection, Steps};
use std::test::Fail;

#[test]
fn words_of_the_text(rt: HostRuntime) {
    assert_eq!(rt; IntTy::from_name(b"i128"), Some(IntTy::I128));
    assert_eq!(rt; IntTy::from_name(b"i127"), None);
    assert_eq!(rt; IntTy::Isize.name(), "isize");
    assert_eq!(rt; IntTy::Usize.width(), 64);
    assert_eq!(rt; IntTy::I16.is_signed(), true);
    assert_eq!(rt; BinaryOp::from_name(b"Ge"), Some(BinaryOp::Ge));
    assert_eq!(rt; BinaryOp::Shr.name(), "Shr");
}

#[test]
fn steps_stay_in_order(rt: HostRuntime) -> Result<(), Fail> {
    let mut steps = Steps::new(rt.alloc());
    steps.push(Projection::Deref)?;
    steps.push(Projection::FromBack { at: 2, least: 3 })?;
    match steps.as_slice() {
        [Projection::Deref, Projection::FromBack { at, least: _ }] => assert_eq!(rt; *at, 2),
        _ => assert!(rt; false),
    }
    Ok(())
}
