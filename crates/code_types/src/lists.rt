ghost use Rattle.std.specs.Prelude.{◌≡◌, ◌&&◌, slice_get};
ghost use Rattle.type_rules.specs.Lookup.{field_types};
ghost use Rattle.type_rules.specs.Values.{type_of};
ghost use Rattle.code_types.specs.Lists.{has_type, operands_all, operands_are_fields, operands_same, operands_typed};

use crate::operands::operand_type;
use mir_ir::{FieldDecl, Operand, Ty};
use name_tables::{Body, Declared};
use sqlite_items::at;
use type_rules::{TypeKind, ValueTy};

/// Both tests hold.
pub fn both(a: bool, b: bool) -> bool
    ensures { result ≡ (a && b) }
{
    a && b
}

/// Each operand has a type.
pub fn operands_typed<'a>(
    declared: &Declared<'a>,
    body: &Body<'a>,
    operands: &'a [Operand],
) -> Result<(), TypeKind>
    ensures { result ≡ operands_typed declared.now body.now operands.now }
{
    let mut place = 0;
    while place < operands.len() {
        operand_type(declared, body, &operands[place])?;
        place += 1;
    }
    Ok(())
}

fn has_type(given: ValueTy<'_>, types: &[Ty], place: usize) -> bool
    ensures { result ≡ has_type (type_of given.entry) (slice_get types.now place) }
{
    match types.get(place) {
        Some(ty) => given.fits(ty),
        None => false,
    }
}

fn has_field_type(given: ValueTy<'_>, fields: &[FieldDecl], place: usize) -> bool
    ensures { result ≡ has_type (type_of given.entry) (slice_get (field_types fields.now) place) }
{
    match at(fields, place) {
        Some(field) => given.fits(&field.ty),
        None => false,
    }
}

/// Whether the operands have these types, one each.
pub fn operands_same<'a>(
    declared: &Declared<'a>,
    body: &Body<'a>,
    operands: &'a [Operand],
    types: &[Ty],
) -> Result<bool, TypeKind>
    ensures { result ≡ operands_same declared.now body.now operands.now types.now }
{
    let mut same = true;
    let mut place = 0;
    while place < operands.len() {
        let given = operand_type(declared, body, &operands[place])?;
        same = both(same, has_type(given, types, place));
        place += 1;
    }
    let all = both(same, types.len() <= place);
    Ok(all)
}

/// Whether the operands have the types of these fields, one each.
pub fn operands_are_fields<'a>(
    declared: &Declared<'a>,
    body: &Body<'a>,
    operands: &'a [Operand],
    fields: &[FieldDecl],
) -> Result<bool, TypeKind>
    ensures { result ≡ operands_are_fields declared.now body.now operands.now fields.now }
{
    let mut same = true;
    let mut place = 0;
    while place < operands.len() {
        let given = operand_type(declared, body, &operands[place])?;
        same = both(same, has_field_type(given, fields, place));
        place += 1;
    }
    let all = both(same, fields.len() <= place);
    Ok(all)
}

/// Whether the operands all have this type.
pub fn operands_all<'a>(
    declared: &Declared<'a>,
    body: &Body<'a>,
    operands: &'a [Operand],
    item: &Ty,
) -> Result<bool, TypeKind>
    ensures { result ≡ operands_all declared.now body.now operands.now item.now }
{
    let mut same = true;
    let mut place = 0;
    while place < operands.len() {
        let given = operand_type(declared, body, &operands[place])?;
        same = both(same, given.fits(item));
        place += 1;
    }
    Ok(same)
}
