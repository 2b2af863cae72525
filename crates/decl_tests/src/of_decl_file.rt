use decl_file::{DeclFault, DeclKind, declarations};
use mir_ir::{Declarations, FieldDecl, TypeDecl, TypeShape, Unit, UnitKind, VariantDecl};
use sqlite_items::Items;
use std::test::Fail;

/// A file with every table and every key: `examples/every_table.toml`.
const FULL: &str = r#"# A declaration file with every table and every key.
version = 1

# A struct: its fields in the order in which aggregates give them, each with its offset.
[[type]]
name = "Ring"
kind = "struct"
size = 48
align = 8
drop = "<Ring as Drop>::drop"
fields = [ { name = "slots", type = "[u32; 8]", offset = 16 }, { name = "head", type = "usize", offset = 0 }, { name = "len", type = "usize", offset = 8 } ]

# A tuple whose fields do not stand in their order. Without such an entry they do.
[[type]]
name = "(u8, u32)"
kind = "tuple"
size = 8
align = 4
fields = [ { type = "u8", offset = 4 }, { type = "u32", offset = 0 } ]

# An enum: values are what `discriminant` gives, tags what stands in memory.
[[type]]
name = "Option<u8>"
kind = "enum"
size = 2
align = 1
variants = [ { name = "None" }, { name = "Some", value = "-7", tag = "9", fields = [ { type = "u8", offset = 1 } ] } ]
tag = { type = "u8", offset = 0 }
discriminant = "i8"

# A trait, and the functions of a type that implements it, one for each method.
[[trait]]
name = "Queue"
methods = [ "is_empty", "count" ]

[[vtable]]
type = "Ring"
trait = "Queue"
methods = [ "<Ring as Queue>::is_empty", "<Ring as Queue>::count" ]

# What a named constant of the text is.
[[constant]]
name = "LAST"
type = "i128"
value = "-170141183460469231731687303715884105728"

# A callee of the text that is another function of it.
[[alias]]
call = "<Ring as Clone>::clone"
function = "ring_copy"

[[contract]]
function = "push"
requires = [ "pre_push" ]
ensures = [ "post_push" ]
modifies = [ "(*_1)" ]

# The loop of `fill` whose header is bb4095.
[[loop]]
function = "fill"
header = 4095
invariant = "is_filled"
arguments = [ "_1", "_2" ]
modifies = [ "_2" ]

# What is to be verified: a harness, and a function against its contract.
[[unit]]
kind = "proof"
function = "check"
stubs = [ "push" ]

[[unit]]
kind = "contract"
function = "push"
unwind = 1000
"#;

/// How many entries each table has.
fn counts(declared: &Declarations) -> [usize; 8] {
    [
        declared.types.len(),
        declared.traits.len(),
        declared.vtables.len(),
        declared.constants.len(),
        declared.aliases.len(),
        declared.contracts.len(),
        declared.loops.len(),
        declared.units.len(),
    ]
}

/// The same of an answer, None where it is a fault.
fn counts_of(answer: Result<Declarations, DeclFault>) -> Option<[usize; 8]> {
    match answer {
        Ok(declared) => Some(counts(&declared)),
        Err(_fault) => None,
    }
}

#[test]
fn a_file_with_every_table(rt: HostRuntime) {
    let found = counts_of(declarations(rt.alloc(), FULL.as_bytes()));
    assert_eq!(rt; found, Some([3, 1, 1, 1, 1, 1, 1, 2]));
}

#[test]
fn a_file_without_tables(rt: HostRuntime) {
    let found = counts_of(declarations(rt.alloc(), b"version = 1"));
    assert_eq!(rt; found, Some([0, 0, 0, 0, 0, 0, 0, 0]));
}

/// The fields of a struct or a tuple.
fn fields_of(shape: &TypeShape) -> &[FieldDecl] {
    match shape {
        TypeShape::Struct(fields) => fields.as_slice(),
        TypeShape::Tuple(fields) => fields.as_slice(),
        TypeShape::Enum { .. } => &[],
    }
}

/// Whether a type has this size and alignment, and a second field of this name and offset.
fn is_declared(ty: Option<&TypeDecl>, size: u64, align: u64, name: &[u8], offset: u64) -> bool {
    match ty {
        Some(ty) => match fields_of(&ty.shape) {
            [_first, field, ..] => {
                ty.size == size
                    && ty.align == align
                    && field.name.as_bytes() == name
                    && field.offset == offset
            }
            _ => false,
        },
        None => false,
    }
}

/// The word of a variant's value, and that of its tag.
fn words_of(variant: Option<&VariantDecl>) -> Option<(u128, Option<u128>)> {
    match variant {
        Some(variant) => Some((variant.value.value, variant.tag.map(|tag| tag.value))),
        None => None,
    }
}

/// The same of the variant at a place of an enum.
fn words_at(ty: Option<&TypeDecl>, at: usize) -> Option<(u128, Option<u128>)> {
    match ty {
        Some(ty) => match &ty.shape {
            TypeShape::Enum { variants, .. } => words_of(variants.get(at)),
            _ => None,
        },
        None => None,
    }
}

/// Whether the types of the file with every table are as it says.
fn has_types(types: &Items<TypeDecl>) -> bool {
    is_declared(types.get(0), 48, 8, b"head", 0)
        && is_declared(types.get(1), 8, 4, b"1", 0)
        && words_at(types.get(2), 0) == Some((0, Some(0)))
        && words_at(types.get(2), 1) == Some((249, Some(9)))
}

/// Whether an answer has these types.
fn are_types_read(answer: Result<Declarations, DeclFault>) -> bool {
    match answer {
        Ok(declared) => has_types(&declared.types),
        Err(_fault) => false,
    }
}

#[test]
fn types_of_the_file(rt: HostRuntime) {
    assert!(rt; are_types_read(declarations(rt.alloc(), FULL.as_bytes())));
}

/// The kinds of units, and how often they are unwound.
fn unit_at(units: &Items<Unit>, at: usize) -> Option<(UnitKind, u32)> {
    match units.get(at) {
        Some(unit) => Some((unit.kind, unit.unwind)),
        None => None,
    }
}

/// The same of an answer.
fn unit_of(answer: Result<Declarations, DeclFault>, at: usize) -> Option<(UnitKind, u32)> {
    match answer {
        Ok(declared) => unit_at(&declared.units, at),
        Err(_fault) => None,
    }
}

#[test]
fn units_of_the_file(rt: HostRuntime) {
    let proof = unit_of(declarations(rt.alloc(), FULL.as_bytes()), 0);
    assert_eq!(rt; proof, Some((UnitKind::Proof, 20)));
    let contract = unit_of(declarations(rt.alloc(), FULL.as_bytes()), 1);
    assert_eq!(rt; contract, Some((UnitKind::Contract, 1000)));
}

/// Whether an answer is this fault.
fn is_fault(answer: Result<Declarations, DeclFault>, kind: DeclKind, path: &str) -> bool {
    match answer {
        Err(
            DeclFault::Key {
                kind: found,
                path: at,
            },
        ) => found == kind && at.as_bytes() == path.as_bytes(),
        _ => false,
    }
}

#[test]
fn faults_of_types(rt: HostRuntime) {
    for (text, kind, path) in [
        ("version = 1\ntype = 3", DeclKind::WrongKind, "type"),
        ("version = 1\ntype = [ 3 ]", DeclKind::WrongKind, "type[0]"),
        (
            "version = 1\n[[type]]\nkind = \"struct\"",
            DeclKind::MissingKey,
            "type[0].name",
        ),
        (
            "version = 1\n[[type]]\nname = \"A\"\nkind = \"union\"\nmore = 1\ntag = 1",
            DeclKind::UnknownKey,
            "type[0].more",
        ),
        (
            "version = 1\n[[type]]\nname = \"A\"\nkind = \"union\"\ntag = 1",
            DeclKind::WrongKind,
            "type[0].kind",
        ),
        (
            "version = 1\n[[type]]\nname = \"A;\"\nkind = \"union\"",
            DeclKind::WrongKind,
            "type[0].name",
        ),
        (
            "version = 1\n[[type]]\nname = \"(u8,)\"\nkind = \"tuple\"\nsize = 1\nalign = 1\ndrop = \"f\"",
            DeclKind::UnknownKey,
            "type[0].drop",
        ),
        (
            "version = 1\n[[type]]\nname = \"(u8, u8)\"\nkind = \"tuple\"\nfields = [ { type = \"u8\", offset = 0 } ]",
            DeclKind::WrongKind,
            "type[0].name",
        ),
        (
            "version = 1\n[[type]]\nname = \"()\"\nkind = \"tuple\"\nfields = []",
            DeclKind::WrongKind,
            "type[0].name",
        ),
        (
            "version = 1\n[[type]]\nname = \"Box<u8>\"\nkind = \"struct\"",
            DeclKind::WrongKind,
            "type[0].name",
        ),
        (
            "version = 1\n[[type]]\nname = \"Box<u8>\"\nkind = \"struct\"\nsize = 8\nalign = 8\nfields = [ 1 ]",
            DeclKind::WrongKind,
            "type[0].fields[0]",
        ),
        (
            "version = 1\n[[type]]\nname = \"A\"\nkind = \"struct\"\nsize = 4097",
            DeclKind::OutOfRange,
            "type[0].size",
        ),
        (
            "version = 1\n[[type]]\nname = \"A\"\nkind = \"struct\"\nsize = 3\nalign = 3",
            DeclKind::OutOfRange,
            "type[0].align",
        ),
        (
            "version = 1\n[[type]]\nname = \"A\"\nkind = \"struct\"\nsize = 3\nalign = 1\nfields = [ { type = \"u8\", offset = 0 }, { type = \"u8\", offset = -1 } ]",
            DeclKind::OutOfRange,
            "type[0].fields[1].offset",
        ),
        (
            "version = 1\n[[type]]\nname = \"A\"\nkind = \"struct\"\nsize = 3\nalign = 1\nfields = [ { name = \"0\", type = \"u8\", offset = 0 } ]",
            DeclKind::WrongKind,
            "type[0].fields[0].name",
        ),
        (
            "version = 1\n[[type]]\nname = \"A\"\nkind = \"struct\"\nsize = 3\nalign = 1\ndrop = \"1\"",
            DeclKind::WrongKind,
            "type[0].drop",
        ),
    ] {
        let answer = declarations(rt.alloc(), text.as_bytes());
        assert!(rt; is_fault(answer, kind, path), "{path}");
    }
}

#[test]
fn faults_of_enums(rt: HostRuntime) {
    for (text, kind, path) in [
        (
            "version = 1\n[[type]]\nname = \"A\"\nkind = \"enum\"\nsize = 1\nalign = 1\n",
            DeclKind::OutOfRange,
            "type[0].variants",
        ),
        (
            "version = 1\n[[type]]\nname = \"A\"\nkind = \"enum\"\nsize = 1\nalign = 1\nvariants = [ { name = \"B\" }, { name = \"C\" } ]",
            DeclKind::MissingKey,
            "type[0].tag",
        ),
        (
            "version = 1\n[[type]]\nname = \"A\"\nkind = \"enum\"\nsize = 1\nalign = 1\nvariants = [ { name = \"B\" }, { name = \"B\", value = \"1\" } ]",
            DeclKind::Duplicate,
            "type[0].variants[1]",
        ),
        (
            "version = 1\n[[type]]\nname = \"A\"\nkind = \"enum\"\nsize = 1\nalign = 1\nvariants = [ { name = \"B\" }, { name = \"C\", value = \"0\" } ]",
            DeclKind::Duplicate,
            "type[0].variants[1]",
        ),
        (
            "version = 1\n[[type]]\nname = \"A\"\nkind = \"enum\"\nsize = 1\nalign = 1\nvariants = [ { name = \"B\" }, { name = \"C\", tag = \"0\" } ]",
            DeclKind::Duplicate,
            "type[0].variants[1]",
        ),
        (
            "version = 1\n[[type]]\nname = \"A\"\nkind = \"enum\"\nsize = 1\nalign = 1\nvariants = [ { name = \"B\" }, { name = \"C\" }, { name = \"D\" } ]\ntag = { type = \"bool\", offset = 0 }",
            DeclKind::OutOfRange,
            "type[0].variants[2].tag",
        ),
        (
            "version = 1\n[[type]]\nname = \"A\"\nkind = \"enum\"\nsize = 1\nalign = 1\nvariants = [ { name = \"B\", value = \"128\" } ]\ndiscriminant = \"i8\"",
            DeclKind::OutOfRange,
            "type[0].variants[0].value",
        ),
        (
            "version = 1\n[[type]]\nname = \"A\"\nkind = \"enum\"\nsize = 1\nalign = 1\nvariants = [ { name = \"B\", value = \"128\" } ]\ndiscriminant = \"bool\"",
            DeclKind::WrongKind,
            "type[0].discriminant",
        ),
        (
            "version = 1\n[[type]]\nname = \"A\"\nkind = \"enum\"\nsize = 1\nalign = 1\nvariants = [ { name = \"B\", value = \"+1\" } ]",
            DeclKind::WrongKind,
            "type[0].variants[0].value",
        ),
        (
            "version = 1\n[[type]]\nname = \"A\"\nkind = \"enum\"\nsize = 1\nalign = 1\nvariants = [ { name = \"B\" } ]\ntag = { type = \"A\", offset = 0 }",
            DeclKind::WrongKind,
            "type[0].tag.type",
        ),
        (
            "version = 1\n[[type]]\nname = \"A\"\nkind = \"enum\"\nsize = 1\nalign = 1\nvariants = [ { name = \"B\" } ]\ntag = { type = \"u8\", offset = 0, size = 1 }",
            DeclKind::UnknownKey,
            "type[0].tag.size",
        ),
    ] {
        let answer = declarations(rt.alloc(), text.as_bytes());
        assert!(rt; is_fault(answer, kind, path), "{path}");
    }
}

#[test]
fn faults_of_the_other_tables(rt: HostRuntime) {
    for (text, kind, path) in [
        ("", DeclKind::MissingKey, "version"),
        ("version = 2\nunits = 1", DeclKind::OutOfRange, "version"),
        ("version = \"1\"", DeclKind::WrongKind, "version"),
        (
            "version = 1\nunits = []\nfunctions = []\ntype = 3",
            DeclKind::UnknownKey,
            "functions",
        ),
        (
            "version = 1\n[[trait]]\nname = \"T\"\nmethods = [ \"a\", \"b\", \"a\", \"1\" ]",
            DeclKind::Duplicate,
            "trait[0].methods[2]",
        ),
        (
            "version = 1\n[[trait]]\nname = \"T\"\nmethods = [ \"_1\" ]",
            DeclKind::WrongKind,
            "trait[0].methods[0]",
        ),
        (
            "version = 1\n[[trait]]\nname = \"T::<u8>\"\n[[trait]]\nname = \"T<u8>\"\n[[vtable]]",
            DeclKind::Duplicate,
            "trait[1]",
        ),
        (
            "version = 1\n[[vtable]]\ntype = \"[u8;1]\"\ntrait = \"T\"\n[[vtable]]\ntype = \"[u8; 1]\"\ntrait = \"S\"\n[[vtable]]\ntype = \"[u8; 1]\"\ntrait = \"T\"",
            DeclKind::Duplicate,
            "vtable[2]",
        ),
        (
            "version = 1\n[[constant]]\nname = \"C\"\ntype = \"u8\"\nvalue = \"256\"",
            DeclKind::WrongKind,
            "constant[0].value",
        ),
        (
            "version = 1\n[[constant]]\nname = \"C\"\ntype = \"()\"\nvalue = \"256\"",
            DeclKind::WrongKind,
            "constant[0].type",
        ),
        (
            "version = 1\n[[alias]]\ncall = \"f\"\nfunction = \"g\"\n[[alias]]\ncall = \"f\"\nfunction = \"h\"",
            DeclKind::Duplicate,
            "alias[1]",
        ),
        (
            "version = 1\n[[contract]]\nfunction = \"f\"\nrequires = [ \"g\", 1 ]",
            DeclKind::WrongKind,
            "contract[0].requires[1]",
        ),
        (
            "version = 1\n[[contract]]\nfunction = \"f\"\nmodifies = [ \"_4096\" ]",
            DeclKind::WrongKind,
            "contract[0].modifies[0]",
        ),
        (
            "version = 1\n[[loop]]\nfunction = \"f\"\nheader = 4096",
            DeclKind::OutOfRange,
            "loop[0].header",
        ),
        (
            "version = 1\n[[loop]]\nfunction = \"f\"\nheader = 0\ninvariant = \"g\"\narguments = [ \"_1\", \"(*_1)\" ]",
            DeclKind::WrongKind,
            "loop[0].arguments[1]",
        ),
        (
            "version = 1\n[[unit]]\nkind = \"proof\"\nfunction = \"f\"\nunwind = 0",
            DeclKind::OutOfRange,
            "unit[0].unwind",
        ),
        (
            "version = 1\n[[unit]]\nkind = \"proof\"\nfunction = \"f\"\n[[unit]]\nkind = \"contract\"\nfunction = \"f\"\n[[unit]]\nkind = \"proof\"\nfunction = \"f\"",
            DeclKind::Duplicate,
            "unit[2]",
        ),
    ] {
        let answer = declarations(rt.alloc(), text.as_bytes());
        assert!(rt; is_fault(answer, kind, path), "{path}");
    }
}

/// Whether an answer says that the bytes are no TOML.
fn is_no_toml(answer: Result<Declarations, DeclFault>) -> bool {
    matches!(answer, Err(DeclFault::NotToml))
}

#[test]
fn bytes_that_are_no_toml(rt: HostRuntime) {
    for bytes in [
        b"version".as_slice(),
        b"version = 1\nversion = 1",
        b"version = 9223372036854775808",
        b"\xFF",
    ] {
        assert!(rt; is_no_toml(declarations(rt.alloc(), bytes)));
    }
}

#[test]
fn a_type_too_many(rt: HostRuntime) -> Result<(), Fail> {
    let mut text = Vec::from_slice(rt.alloc(), b"version = 1\n")?;
    for _ in 0..4096 {
        text.extend_from_slice(b"[[type]]\n")?;
    }
    let answer = declarations(rt.alloc(), text.as_slice());
    assert!(rt; is_fault(answer, DeclKind::MissingKey, "type[0].name"));
    text.extend_from_slice(b"[[type]]\n")?;
    let answer = declarations(rt.alloc(), text.as_slice());
    assert!(rt; is_fault(answer, DeclKind::OutOfRange, "type"));
    Ok(())
}

#[test]
fn a_unit_too_many(rt: HostRuntime) -> Result<(), Fail> {
    let mut text = Vec::from_slice(rt.alloc(), b"version = 1\n")?;
    for _ in 0..1024 {
        text.extend_from_slice(b"[[unit]]\n")?;
    }
    let answer = declarations(rt.alloc(), text.as_slice());
    assert!(rt; is_fault(answer, DeclKind::MissingKey, "unit[0].kind"));
    text.extend_from_slice(b"[[unit]]\n")?;
    let answer = declarations(rt.alloc(), text.as_slice());
    assert!(rt; is_fault(answer, DeclKind::OutOfRange, "unit"));
    Ok(())
}
