ghost use Rattle.std.specs.Prelude.{◌≡◌, codes, option_copied, slice_get};
ghost use Rattle.mir_ir.specs.declared.types.Ty.{out-Ty};
ghost use Rattle.type_rules.specs.Entries.{fields_known, is_item, item_fits, items_fit, key, refused_in, shape_fits, tuple_items, type_fits, types_fit, variants_known};
ghost use Rattle.entry_types.specs.Paths.{entry_path, key_path, list_path, told};

use crate::drops::drop_refused;
use crate::functions::Functions;
use crate::known::type_known;
use crate::paths::{Entry, EntryKey, EntryTable, KeyPath, ListPath, Misfit, at_path};
use code_types::check;
use mir_ir::{FieldDecl, Ty, TypeDecl, TypeShape, VariantDecl};
use name_tables::Declared;
use type_rules::{TypeKind, same_type};

/// The traits in the types of the fields are declared.
fn fields_known(declared: &Declared<'_>, list: ListPath, fields: &[FieldDecl]) -> Result<(), Misfit>
    ensures { told result ≡ fields_known declared.now (list_path list) 0 fields.now }
{
    let mut at = 0;
    while at < fields.len() {
        let field = &fields[at];
        type_known(declared, KeyPath::ElementType(list, at), &field.ty)?;
        at += 1;
    }
    Ok(())
}

fn is_item(item: Option<&Ty>, ty: &Ty) -> bool
    ensures { result ≡ is_item (option_copied item.entry) ty.now }
{
    match item {
        None => false,
        Some(item) => same_type(ty, item),
    }
}

/// Whether the type is the item at the place.
fn item_fits(declared: &Declared<'_>, items: &[Ty], at: usize, ty: &Ty) -> Result<(), TypeKind>
    ensures { result ≡ item_fits declared.now (slice_get items.now at) ty.now }
{
    check(declared.knows_traits(ty), TypeKind::UnknownName)?;
    check(is_item(items.get(at), ty), TypeKind::Mismatch)?;
    Ok(())
}

fn field_is_item(
    declared: &Declared<'_>,
    items: &[Ty],
    list: ListPath,
    at: usize,
    field: &FieldDecl,
) -> Result<(), Misfit>
    ensures { told result ≡ refused_in (key_path (KeyPath.ElementType list at)) (item_fits declared.now (slice_get items.now at) field.now.ty) }
{
    let fits = item_fits(declared, items, at, &field.ty);
    at_path(fits, KeyPath::ElementType(list, at))?;
    Ok(())
}

fn tuple_items(ty: &Ty) -> &[Ty]
    ensures { result.now ≡ tuple_items (out-Ty ty.now) }
{
    match ty {
        Ty::Tuple(items) => items.as_slice(),
        _ => &[],
    }
}

/// The fields of a tuple are the items of its name.
fn items_fit(
    declared: &Declared<'_>,
    items: &[Ty],
    list: ListPath,
    fields: &[FieldDecl],
) -> Result<(), Misfit>
    ensures { told result ≡ items_fit declared.now items.now (list_path list) 0 fields.now }
{
    let mut at = 0;
    while at < fields.len() {
        let field = &fields[at];
        field_is_item(declared, items, list, at, field)?;
        at += 1;
    }
    Ok(())
}

fn variant_known(
    declared: &Declared<'_>,
    entry: Entry,
    at: usize,
    variant: &VariantDecl,
) -> Result<(), Misfit>
    ensures { told result ≡ fields_known declared.now (list_path (ListPath.OfVariant entry at)) 0 variant.now.fields }
{
    let list = ListPath::OfVariant(entry, at);
    fields_known(declared, list, variant.fields.as_slice())?;
    Ok(())
}

/// The traits in the fields of the variants are declared.
fn variants_known(
    declared: &Declared<'_>,
    entry: Entry,
    variants: &[VariantDecl],
) -> Result<(), Misfit>
    ensures { told result ≡ variants_known declared.now (key (entry_path entry) (codes "variants")) 0 variants.now }
{
    let mut at = 0;
    while at < variants.len() {
        let variant = &variants[at];
        variant_known(declared, entry, at, variant)?;
        at += 1;
    }
    Ok(())
}

fn struct_fits(
    functions: &Functions<'_>,
    declared: &Declared<'_>,
    entry: Entry,
    own: &TypeDecl,
    fields: &[FieldDecl],
) -> Result<(), Misfit>
    ensures { told result ≡ shape_fits functions.now declared.now (entry_path entry) own.now (TypeShape.Struct fields.now) }
{
    fields_known(declared, ListPath::AtKey(entry, EntryKey::Fields), fields)?;
    drop_refused(functions, entry, own)?;
    Ok(())
}

fn tuple_fits(
    functions: &Functions<'_>,
    declared: &Declared<'_>,
    entry: Entry,
    own: &TypeDecl,
    fields: &[FieldDecl],
) -> Result<(), Misfit>
    ensures { told result ≡ shape_fits functions.now declared.now (entry_path entry) own.now (TypeShape.Tuple fields.now) }
{
    let items = tuple_items(&own.name);
    items_fit(
        declared,
        items,
        ListPath::AtKey(entry, EntryKey::Fields),
        fields,
    )?;
    drop_refused(functions, entry, own)?;
    Ok(())
}

fn shape_fits(
    functions: &Functions<'_>,
    declared: &Declared<'_>,
    entry: Entry,
    own: &TypeDecl,
) -> Result<(), Misfit>
    ensures { told result ≡ shape_fits functions.now declared.now (entry_path entry) own.now own.now.shape }
{
    match &own.shape {
        TypeShape::Struct(fields) => struct_fits(
            functions,
            declared,
            entry,
            own,
            fields.as_slice(),
        ),
        TypeShape::Tuple(fields) => tuple_fits(functions, declared, entry, own, fields.as_slice()),
        TypeShape::Enum { variants, .. } => {
            drop_refused(functions, entry, own)?;
            variants_known(declared, entry, variants.as_slice())
        }
    }
}

fn type_fits(
    functions: &Functions<'_>,
    declared: &Declared<'_>,
    entry: Entry,
    own: &TypeDecl,
) -> Result<(), Misfit>
    ensures { told result ≡ type_fits functions.now declared.now (entry_path entry) own.now }
{
    type_known(declared, KeyPath::Key(entry, EntryKey::Name), &own.name)?;
    shape_fits(functions, declared, entry, own)?;
    Ok(())
}

/// The declared types, one after the other.
pub fn types_fit(
    functions: &Functions<'_>,
    declared: &Declared<'_>,
    types: &[TypeDecl],
) -> Result<(), Misfit>
    ensures { told result ≡ types_fit functions.now declared.now 0 types.now }
{
    let mut at = 0;
    while at < types.len() {
        let own = &types[at];
        let entry = Entry {
            table: EntryTable::Type,
            at,
        };
        type_fits(functions, declared, entry, own)?;
        at += 1;
    }
    Ok(())
}
