ghost use Rattle.std.specs.Prelude.{◌≡◌, is_some};
ghost use Rattle.type_rules.specs.Entries.{function_known, functions_known, place_fits, places_fit, refused_in, type_known};
ghost use Rattle.type_rules.specs.Lookup.{function_named};
ghost use Rattle.entry_types.specs.Paths.{key_path, list_path, told};

use crate::functions::Functions;
use crate::paths::{KeyPath, ListPath, Misfit, require};
use code_types::place_type;
use mir_ir::{PlaceExpr, Ty};
use name_tables::{Body, Declared};
use type_rules::TypeKind;
use vk_core::Name;

/// The traits in the type are declared.
pub fn type_known(declared: &Declared<'_>, path: KeyPath, ty: &Ty) -> Result<(), Misfit>
    ensures { told result ≡ type_known declared.now (key_path path) ty.now }
{
    require(declared.knows_traits(ty), TypeKind::UnknownName, path)?;
    Ok(())
}

fn is_function(functions: &Functions<'_>, name: &Name) -> bool
    ensures { result ≡ is_some (function_named functions.now name.now) }
{
    match functions.find(name.as_bytes()) {
        None => false,
        Some(_) => true,
    }
}

/// The text has a function of this name.
pub fn function_known(functions: &Functions<'_>, path: KeyPath, name: &Name) -> Result<(), Misfit>
    ensures { told result ≡ function_known functions.now (key_path path) name.now }
{
    require(is_function(functions, name), TypeKind::UnknownName, path)?;
    Ok(())
}

/// The text has functions of all these names.
pub fn functions_known(
    functions: &Functions<'_>,
    list: ListPath,
    names: &[Name],
) -> Result<(), Misfit>
    ensures { told result ≡ functions_known functions.now (list_path list) 0 names.now }
{
    let mut at = 0;
    while at < names.len() {
        let name = &names[at];
        function_known(functions, KeyPath::Element(list, at), name)?;
        at += 1;
    }
    Ok(())
}

fn place_fits<'a>(
    declared: &Declared<'a>,
    body: &Body<'a>,
    path: KeyPath,
    place: &'a PlaceExpr,
) -> Result<(), Misfit>
    ensures { told result ≡ refused_in (key_path path) (place_fits declared.now body.now place.now) }
{
    match place_type(declared, body, place) {
        Ok(_) => Ok(()),
        Err(kind) => Err(Misfit { kind, path }),
    }
}

/// The places have types in the function.
pub fn places_fit<'a>(
    declared: &Declared<'a>,
    body: &Body<'a>,
    list: ListPath,
    places: &'a [PlaceExpr],
) -> Result<(), Misfit>
    ensures { told result ≡ places_fit declared.now body.now (list_path list) 0 places.now }
{
    let mut at = 0;
    while at < places.len() {
        let place = &places[at];
        place_fits(declared, body, KeyPath::Element(list, at), place)?;
        at += 1;
    }
    Ok(())
}
