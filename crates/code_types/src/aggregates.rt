ghost use Rattle.std.specs.Prelude.{◌≡◌, ◌==◌, ◌&&◌, ◌+◌, ◌≤◌, IfSome, bytes_eq, length};
ghost use Rattle.std.specs.List.{list_any};
ghost use Rattle.type_rules.specs.Aggregates.{halves, has_field, last_colons, made_by, struct_made, variant_made, variant_of_path};
ghost use Rattle.code_types.specs.Made.{some_halves, some_made};

use mir_ir::{FieldDecl, Ty, TypeDecl, TypeShape};
use name_tables::{Declared, variant_named};

/// What stands before the last `::` of a path, and what behind it.
#[derive(Clone, Copy)]
pub struct Halves<'a> {
    pub front: &'a [u8],
    pub word: &'a [u8],
}

/// What a path makes: the type, and its fields in the order of the declaration.
#[derive(Clone, Copy)]
pub struct Made<'a> {
    pub ty: &'a Ty,
    pub fields: &'a [FieldDecl],
}

fn are_colons(first: u8, second: u8) -> bool
    ensures { result ≡ (first == 58 && second == 58) }
{
    first == b':' && second == b':'
}

/// Where the last `::` begins.
fn last_colons(path: &[u8]) -> Option<usize>
    ensures place { result ≡ last_colons path.now }
    ensures within { IfSome result (λ n. n + 2 ≤ length path.now) }
{
    let mut end = path.len();
    while end > 1 {
        end -= 1;
        if are_colons(path[end - 1], path[end]) {
            return Some(end - 1);
        }
    }
    None
}

/// A path in two at its last `::`.
pub fn halves_of(path: &[u8]) -> Option<Halves<'_>>
    ensures { some_halves result ≡ halves path.now }
{
    match last_colons(path) {
        None => None,
        Some(at) => Some(Halves {
            front: &path[..at],
            word: &path[at + 2..],
        }),
    }
}

fn struct_made(own: &TypeDecl) -> Option<Made<'_>>
    ensures { some_made result ≡ struct_made own.now }
{
    match &own.shape {
        TypeShape::Struct(fields) => Some(Made {
            ty: &own.name,
            fields: fields.as_slice(),
        }),
        TypeShape::Tuple(_) | TypeShape::Enum { .. } => None,
    }
}

fn variant_made<'a>(own: &'a TypeDecl, word: &[u8]) -> Option<Made<'a>>
    ensures { some_made result ≡ variant_made own.now word.now }
{
    match &own.shape {
        TypeShape::Enum { variants, .. } => match variant_named(variants.as_slice(), word) {
            None => None,
            Some(variant) => Some(Made {
                ty: &own.name,
                fields: variant.fields.as_slice(),
            }),
        },
        TypeShape::Struct(_) | TypeShape::Tuple(_) => None,
    }
}

fn variant_of_path<'a>(declared: &Declared<'a>, path: Option<Halves<'_>>) -> Option<Made<'a>>
    ensures { some_made result ≡ variant_of_path declared.now (some_halves path.entry) }
{
    match path {
        None => None,
        Some(halves) => match declared.type_named(halves.front) {
            None => None,
            Some(own) => variant_made(own, halves.word),
        },
    }
}

/// The struct of this path, or the variant of an enum.
pub fn made_by<'a>(declared: &Declared<'a>, path: &[u8]) -> Option<Made<'a>>
    ensures { some_made result ≡ made_by declared.now path.now }
{
    let own = match declared.type_named(path) {
        None => None,
        Some(own) => struct_made(own),
    };
    match own {
        Some(made) => Some(made),
        None => variant_of_path(declared, halves_of(path)),
    }
}

/// Whether there is a field of this name.
pub fn has_field(fields: &[FieldDecl], name: &[u8]) -> bool
    ensures { result ≡ has_field fields.now name.now }
{
    fields.iter().any(|field| name == field.name.as_bytes())
}
