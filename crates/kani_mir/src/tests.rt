use crate::command::run_command;
use sat_core::Effort;
use std::alloc::{AllocError, Global};
use std::test::Fail;
use vk_files::{MemoryFiles, MemorySink};

const DECLARATIONS: &[u8] = b"version = 1\n[[unit]]\nkind = \"proof\"\nfunction = \"check\"\n";

const SMALL: &[u8] =
    b"fn check() -> () { let _1: u8; let _2: bool; let _3: (); bb0: { _1 = kani::any::<u8>() -> bb1; } bb1: { _2 = Le(copy _1, const 255_u8); _3 = kani::assert(move _2, const \"small\") -> bb2; } bb2: { return; } }";

const NOT_200: &[u8] =
    b"fn check() -> () { let _1: u8; let _2: bool; let _3: (); bb0: { _1 = kani::any::<u8>() -> bb1; } bb1: { _2 = Ne(copy _1, const 200_u8); _3 = kani::assert(move _2, const \"not 200\") -> bb2; } bb2: { return; } }";

const LOOP: &[u8] = b"fn check() -> () { bb0: { goto -> bb0; } }";

const THREE_CHOICES: &[u8] =
    b"fn check() -> () { let _1: u8; let _2: bool; let _3: (); bb0: { _1 = kani::any::<u8>() -> bb1; } bb1: { _1 = kani::any::<u8>() -> bb2; } bb2: { _1 = kani::any::<u8>() -> bb3; } bb3: { _2 = Le(copy _1, const 255_u8); _3 = kani::assert(move _2, const \"small\") -> bb4; } bb4: { return; } }";

const SUCCESSFUL: &[u8] =
    b"Checking harness check...\nVERIFICATION:- SUCCESSFUL\nComplete - 1 successful, 0 failed, 0 undetermined, 0 refused, 1 total.\n";

const FAILED: &[u8] =
    b"Checking harness check...\nCheck assertion at check bb1[1]: FAILURE \"not 200\"\n  choices: 200\n  steps: 3\nVERIFICATION:- FAILED\nComplete - 0 successful, 1 failed, 0 undetermined, 0 refused, 1 total.\n";

const NOT_BUILT: &[u8] = b"error: input: NotBuilt\n";

const NO_FILE: &[u8] = b"error: file: Missing b.toml\n";

const READ_FAULT: &[u8] = b"error: file: ReadFault a.mir\n";

fn words(alloc: Global, declarations: &str) -> Result<Vec<String>, AllocError> {
    let mut words = Vec::new(alloc);
    words.push(String::from_str(alloc, "verify")?)?;
    words.push(String::from_str(alloc, "a.mir")?)?;
    words.push(String::from_str(alloc, declarations)?)?;
    Ok(words)
}

fn files(alloc: Global, mir: &[u8], failing: &[u64]) -> Result<MemoryFiles, AllocError> {
    let mut files = Vec::new(alloc);
    files.push((String::from_str(alloc, "a.mir")?, mir.to_vec(alloc)?))?;
    files.push((
        String::from_str(alloc, "a.toml")?,
        DECLARATIONS.to_vec(alloc)?,
    ))?;
    Ok(MemoryFiles::new(files, failing.to_vec(alloc)?, 100))
}

#[test]
fn each_text_is_answered(rt: HostRuntime) -> Result<(), Fail> {
    let alloc = rt.alloc();
    for (mir, declarations, failing, status, output) in [
        (SMALL, "a.toml", [].as_slice(), 0, SUCCESSFUL),
        (NOT_200, "a.toml", [].as_slice(), 1, FAILED),
        (THREE_CHOICES, "a.toml", [].as_slice(), 0, SUCCESSFUL),
        (LOOP, "a.toml", [].as_slice(), 2, NOT_BUILT),
        (SMALL, "b.toml", [].as_slice(), 4, NO_FILE),
        (SMALL, "a.toml", [1].as_slice(), 4, READ_FAULT),
    ] {
        let words = words(alloc, declarations)?;
        let mut files = files(alloc, mir, failing)?;
        let mut out = MemorySink::new(alloc, 1000, Vec::new(alloc), 100)?;
        let ended = run_command(
            alloc,
            words.as_slice(),
            &mut files,
            &mut out,
            &mut Effort::new(),
        );
        assert_eq!(rt; ended, status);
        assert_eq!(rt; out.written(), output);
    }
    Ok(())
}

#[test]
fn a_failing_sink_holds_the_first_bytes(rt: HostRuntime) -> Result<(), Fail> {
    let alloc = rt.alloc();
    let words = words(alloc, "a.toml")?;
    let mut files = files(alloc, SMALL, &[])?;
    let mut out = MemorySink::new(alloc, 1000, [2].to_vec(alloc)?, 10)?;
    let ended = run_command(
        alloc,
        words.as_slice(),
        &mut files,
        &mut out,
        &mut Effort::new(),
    );
    assert_eq!(rt; ended, 5);
    assert_eq!(rt; out.written(), b"Checking h".as_slice());
    Ok(())
}
