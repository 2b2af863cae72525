use std::test::Fail;
use vk_core::{CheckClass, Name, class_name};

#[test]
fn names_keep_their_bytes(rt: HostRuntime) -> Result<(), Fail> {
    let name = Name::from_bytes(rt.alloc(), b"check")?;
    assert_eq!(rt; name.as_bytes(), b"check".as_slice());
    Ok(())
}

#[test]
fn classes_have_the_words_of_reports(rt: HostRuntime) {
    for (class, word) in [
        (CheckClass::Panic, "panic"),
        (CheckClass::Uninit, "uninit"),
        (CheckClass::InvariantStep, "invariant_step"),
        (CheckClass::Unwind, "unwind"),
    ] {
        assert_eq!(rt; class_name(class), word);
    }
}
