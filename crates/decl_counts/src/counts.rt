ghost use Rattle.std.specs.Prelude.{◌↔◌, ◌≤◌, ◌^◌, length, All, IsTrue};
ghost use Rattle.mir_program.specs.Apart.{IsCountable};
ghost use Rattle.mir_program.specs.Joined.{written_in_declarations};
ghost use Rattle.decl_counts.specs.Counts.{AreCountable, HasCountableFields, HasCountableFunctions, HasCountableMethods, HasCountableParts, IsCountableType};

use crate::taking::take_declarations;
use mir_ir::{Declarations, TraitDecl, TypeDecl, TypeShape, VariantDecl, VtableDecl};

/// How many items a list has at most, so that each place in it is a number of 32 bits.
const MOST_ITEMS: usize = 0xFFFF_FFFF;

/// How many types are written in declarations at most.
const MOST_TYPES: u64 = 0x8000_0000;

fn is_short<T>(items: &[T]) -> bool
    ensures { IsTrue result ↔ IsCountable items.now }
{
    items.len() <= MOST_ITEMS
}

fn has_short_fields(variant: &VariantDecl) -> bool
    ensures { IsTrue result ↔ HasCountableFields variant.now }
{
    is_short(variant.fields.as_slice())
}

fn have_short_fields(variants: &[VariantDecl]) -> bool
    ensures { IsTrue result ↔ All HasCountableFields variants.now }
{
    variants.iter().all(|variant| has_short_fields(variant))
}

fn has_short_parts(shape: &TypeShape) -> bool
    ensures { IsTrue result ↔ HasCountableParts shape.now }
{
    match shape {
        TypeShape::Struct(fields) => is_short(fields.as_slice()),
        TypeShape::Tuple(fields) => is_short(fields.as_slice()),
        TypeShape::Enum { variants, .. } => {
            is_short(variants.as_slice()) && have_short_fields(variants.as_slice())
        }
    }
}

fn is_short_type(own: &TypeDecl) -> bool
    ensures { IsTrue result ↔ IsCountableType own.now }
{
    has_short_parts(&own.shape)
}

fn are_short_types(types: &[TypeDecl]) -> bool
    ensures { IsTrue result ↔ All IsCountableType types.now }
{
    types.iter().all(|own| is_short_type(own))
}

fn has_short_methods(own: &TraitDecl) -> bool
    ensures { IsTrue result ↔ HasCountableMethods own.now }
{
    is_short(own.methods.as_slice())
}

fn have_short_methods(traits: &[TraitDecl]) -> bool
    ensures { IsTrue result ↔ All HasCountableMethods traits.now }
{
    traits.iter().all(|own| has_short_methods(own))
}

fn has_short_functions(vtable: &VtableDecl) -> bool
    ensures { IsTrue result ↔ HasCountableFunctions vtable.now }
{
    is_short(vtable.methods.as_slice())
}

fn have_short_functions(vtables: &[VtableDecl]) -> bool
    ensures { IsTrue result ↔ All HasCountableFunctions vtables.now }
{
    vtables.iter().all(|vtable| has_short_functions(vtable))
}

fn are_short_traits(traits: &[TraitDecl]) -> bool
    ensures { IsTrue result ↔ (IsCountable traits.now × All HasCountableMethods traits.now) }
{
    is_short(traits) && have_short_methods(traits)
}

fn are_short_vtables(vtables: &[VtableDecl]) -> bool
    ensures { IsTrue result ↔ (IsCountable vtables.now × All HasCountableFunctions vtables.now) }
{
    is_short(vtables) && have_short_functions(vtables)
}

/// Whether the lists of declarations are short.
fn are_short(declarations: &Declarations) -> bool
    ensures { IsTrue result ↔ AreCountable declarations.now }
{
    are_short_types(declarations.types.as_slice())
        && (are_short_traits(declarations.traits.as_slice())
            && are_short_vtables(declarations.vtables.as_slice()))
}

/// Whether few types are written in declarations.
fn are_few(declarations: &Declarations) -> bool
    ensures { IsTrue result ↔ (length (written_in_declarations declarations.now) ≤ 2 ^ 31) }
{
    take_declarations(MOST_TYPES, declarations).is_some()
}

/// Whether a program has room for declarations: fewer than 2^32 traits, vtables, methods and functions of each, fields and
/// variants, and no more than 2^31 types that are written in them.
pub fn is_countable(declarations: &Declarations) -> bool
    ensures { IsTrue result ↔ (AreCountable declarations.now × (length (written_in_declarations declarations.now) ≤ 2 ^ 31)) }
{
    are_short(declarations) && are_few(declarations)
}
