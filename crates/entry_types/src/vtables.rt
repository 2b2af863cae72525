ghost use Rattle.std.specs.Prelude.{◌≡◌, is_some, length};
ghost use Rattle.type_rules.specs.Entries.{methods_of, trait_methods, vtable_fits, vtables_fit};
ghost use Rattle.type_rules.specs.Lookup.{first_vtable, trait_named};
ghost use Rattle.entry_types.specs.Paths.{entry_path, told};

use crate::functions::Functions;
use crate::known::type_known;
use crate::methods::slots_fit;
use crate::paths::{Entry, EntryKey, EntryTable, KeyPath, ListPath, Misfit, require};
use mir_ir::VtableDecl;
use name_tables::Declared;
use type_rules::TypeKind;
use vk_core::Name;

fn is_trait(declared: &Declared<'_>, name: &Name) -> bool
    ensures { result ≡ is_some (trait_named declared.now name.now) }
{
    match declared.trait_named(name.as_bytes()) {
        None => false,
        Some(_) => true,
    }
}

/// How many methods the trait has.
fn method_count(declared: &Declared<'_>, name: &Name) -> usize
    ensures { result ≡ length (trait_methods declared.now name.now) }
{
    match declared.trait_named(name.as_bytes()) {
        None => 0,
        Some(own) => own.methods.as_slice().len(),
    }
}

/// The methods of the trait's first vtable.
fn models_of<'a>(declared: &Declared<'a>, name: &Name) -> &'a [Name]
    ensures { result.now ≡ methods_of (first_vtable declared.now name.now) }
{
    match declared.first_vtable(name.as_bytes()) {
        None => &[],
        Some(first) => first.methods.as_slice(),
    }
}

fn vtable_fits(
    functions: &Functions<'_>,
    declared: &Declared<'_>,
    entry: Entry,
    vtable: &VtableDecl,
) -> Result<(), Misfit>
    ensures { told result ≡ vtable_fits functions.now declared.now (entry_path entry) vtable.now }
{
    let name = &vtable.trait_name;
    let methods = vtable.methods.as_slice();
    type_known(declared, KeyPath::Key(entry, EntryKey::Type), &vtable.ty)?;
    require(
        is_trait(declared, name),
        TypeKind::UnknownName,
        KeyPath::Key(entry, EntryKey::Trait),
    )?;
    require(
        methods.len() == method_count(declared, name),
        TypeKind::BadCall,
        KeyPath::Key(entry, EntryKey::Methods),
    )?;
    slots_fit(
        functions,
        &vtable.ty,
        models_of(declared, name),
        ListPath::AtKey(entry, EntryKey::Methods),
        methods,
    )?;
    Ok(())
}

/// The vtables, one after the other.
pub fn vtables_fit(
    functions: &Functions<'_>,
    declared: &Declared<'_>,
    vtables: &[VtableDecl],
) -> Result<(), Misfit>
    ensures { told result ≡ vtables_fit functions.now declared.now 0 vtables.now }
{
    let mut at = 0;
    while at < vtables.len() {
        let vtable = &vtables[at];
        let entry = Entry {
            table: EntryTable::Vtable,
            at,
        };
        vtable_fits(functions, declared, entry, vtable)?;
        at += 1;
    }
    Ok(())
}
