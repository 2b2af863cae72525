ghost use Rattle.std.specs.Prelude.{◌≡◌};
ghost use Rattle.type_rules.specs.Code.{statement_fits};
ghost use Rattle.function_types.specs.Steps.{assigned, local_known, variant_chosen};

use code_types::{check, place_type, value_type, written};
use mir_ir::{PlaceExpr, Rvalue, Statement};
use name_tables::{Body, Declared};
use type_rules::TypeKind;
use vk_core::LocalId;

fn assigned<'a>(
    declared: &Declared<'a>,
    body: &Body<'a>,
    place: &'a PlaceExpr,
    value: &'a Rvalue,
) -> Result<(), TypeKind>
    ensures { result ≡ assigned declared.now body.now place.now value.now }
{
    let to = value_type(declared, body, place)?;
    written(declared, body, to, value)?;
    Ok(())
}

fn local_known(body: &Body<'_>, local: LocalId) -> Result<(), TypeKind>
    ensures { result ≡ local_known body.now local }
{
    check(body.local_type(local).is_some(), TypeKind::UnknownName)?;
    Ok(())
}

/// `discriminant(place) = variant`: a position among the variants of an enum.
fn variant_chosen<'a>(
    declared: &Declared<'a>,
    body: &Body<'a>,
    place: &'a PlaceExpr,
    variant: u128,
) -> Result<(), TypeKind>
    ensures { result ≡ variant_chosen declared.now body.now place.now variant }
{
    let ty = place_type(declared, body, place)?;
    match declared.variants_of(ty) {
        None => Err(TypeKind::Mismatch),
        Some(variants) => check(variant < variants.len() as u128, TypeKind::UnknownName),
    }
}

/// The typing of a statement.
pub fn statement_fits<'a>(
    declared: &Declared<'a>,
    body: &Body<'a>,
    statement: &'a Statement,
) -> Result<(), TypeKind>
    ensures { result ≡ statement_fits declared.now body.now statement.now }
{
    match statement {
        Statement::Assign { place, value } => assigned(declared, body, place, value),
        Statement::StorageLive(local) => local_known(body, *local),
        Statement::StorageDead(local) => local_known(body, *local),
        Statement::SetVariant { place, variant } => variant_chosen(declared, body, place, *variant),
    }
}
