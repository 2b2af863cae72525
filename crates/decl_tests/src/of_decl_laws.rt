use crate::joining::alone;
use mir_program::Program;
use std::test::Fail;

/// A type that points to itself, and a unit.
const RING: &str = r#"version = 1

[[type]]
name = "Ring"
kind = "struct"
size = 16
align = 8
fields = [ { name = "next", type = "*const Ring", offset = 0 }, { name = "len", type = "usize", offset = 8 } ]

[[unit]]
kind = "proof"
function = "check"
"#;

/// How many types a program declares.
fn types_of(program: Option<Program>) -> Option<usize> {
    match program {
        None => None,
        Some(program) => Some(program.declarations().types.len()),
    }
}

#[test]
fn a_file_joins(rt: HostRuntime) {
    let found = types_of(alone(rt.alloc(), RING.as_bytes()));
    assert_eq!(rt; found, Some(1));
}

#[test]
fn a_file_with_a_fault_does_not_join(rt: HostRuntime) {
    let found = types_of(alone(rt.alloc(), b"version = 2"));
    assert_eq!(rt; found, None);
}
