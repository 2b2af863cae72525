use decl_counts::is_countable;
use decl_file::{DeclFault, declarations};
use mir_ir::Declarations;
use std::test::Fail;

/// An enum, a trait and its vtable.
const SHAPES: &str = r#"version = 1

[[type]]
name = "Shape"
kind = "enum"
size = 8
align = 4
variants = [ { name = "Dot" }, { name = "Box", fields = [ { type = "(u8, u8)", offset = 4 } ] } ]
tag = { type = "u32", offset = 0 }

[[trait]]
name = "Area"
methods = [ "area" ]

[[vtable]]
type = "Shape"
trait = "Area"
methods = [ "<Shape as Area>::area" ]
"#;

/// Whether a program has room for what was declared.
fn has_room(answer: Result<Declarations, DeclFault>) -> bool {
    match answer {
        Ok(declared) => is_countable(&declared),
        Err(_fault) => false,
    }
}

#[test]
fn a_file_is_countable(rt: HostRuntime) {
    assert!(rt; has_room(declarations(rt.alloc(), SHAPES.as_bytes())));
}
