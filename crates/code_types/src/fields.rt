ghost use Rattle.std.specs.Prelude.{◌≡◌, bytes_eq, drop};
ghost use Rattle.type_rules.specs.Aggregates.{not_next};
ghost use Rattle.type_rules.specs.Rvalues.{fields_given};
ghost use Rattle.type_rules.specs.Values.{ok_type, type_of};
ghost use Rattle.code_types.specs.Lists.{all_given, is_next, named_fit, named_typed, next_fits};

use crate::aggregates::{has_field, made_by};
use crate::operands::operand_type;
use crate::rules::check;
use mir_ir::{FieldDecl, NamedOperand};
use name_tables::{Body, Declared};
use type_rules::{TypeKind, ValueTy};

fn named_typed<'a>(
    declared: &Declared<'a>,
    body: &Body<'a>,
    given: &'a [NamedOperand],
) -> Result<(), TypeKind>
    ensures { result ≡ named_typed declared.now body.now given.now }
{
    let mut place = 0;
    while place < given.len() {
        operand_type(declared, body, &given[place].operand)?;
        place += 1;
    }
    Ok(())
}

/// A field that is not the next: there is none of the name, or it stands elsewhere or has another type.
fn not_next(fields: &[FieldDecl], name: &[u8]) -> Result<(), TypeKind>
    ensures { result ≡ not_next fields.now name.now }
{
    if has_field(fields, name) {
        Err(TypeKind::Mismatch)
    } else {
        Err(TypeKind::UnknownName)
    }
}

/// Whether a field is the one at this place.
fn is_next(fields: &[FieldDecl], place: usize, name: &[u8], typed: ValueTy<'_>) -> bool
    ensures { result ≡ is_next (drop place fields.now) name.now (type_of typed.entry) }
{
    match fields.get(place) {
        Some(next) => name == next.name.as_bytes() && typed.fits(&next.ty),
        None => false,
    }
}

/// What is wrong with the fields as they are written, where their operands have types: each names a field, and is the next one.
fn named_fit<'a>(
    declared: &Declared<'a>,
    body: &Body<'a>,
    fields: &[FieldDecl],
    given: &'a [NamedOperand],
) -> Result<Result<(), TypeKind>, TypeKind>
    ensures { result ≡ named_fit declared.now body.now fields.now given.now }
{
    let mut fits = Ok(());
    let mut place = 0;
    while place < given.len() {
        let own = &given[place];
        let typed = operand_type(declared, body, &own.operand)?;
        fits = next_fits(fits, fields, place, own.name.as_bytes(), typed);
        place += 1;
    }
    Ok(all_given(fits, fields.len() <= place))
}

/// The first thing that is wrong, with one field more.
fn next_fits(
    fits: Result<(), TypeKind>,
    fields: &[FieldDecl],
    place: usize,
    name: &[u8],
    typed: ValueTy<'_>,
) -> Result<(), TypeKind>
    ensures { result ≡ next_fits fits fields.now (drop place fields.now) name.now (type_of typed.entry) }
{
    fits?;
    if !is_next(fields, place, name, typed) {
        not_next(fields, name)?;
    }
    Ok(())
}

/// No field is left out.
fn all_given(fits: Result<(), TypeKind>, all: bool) -> Result<(), TypeKind>
    ensures { result ≡ all_given fits all }
{
    fits?;
    check(all, TypeKind::Mismatch)?;
    Ok(())
}

/// `S { x: a, y: b }`: the operands have types, and then the fields are those of the declaration in its order.
pub fn fields_given<'a>(
    declared: &Declared<'a>,
    body: &Body<'a>,
    path: &[u8],
    given: &'a [NamedOperand],
) -> Result<ValueTy<'a>, TypeKind>
    ensures { ok_type result ≡ fields_given declared.now body.now path.now given.now }
{
    match made_by(declared, path) {
        None => {
            named_typed(declared, body, given)?;
            Err(TypeKind::UnknownName)
        }
        Some(made) => {
            let fits = named_fit(declared, body, made.fields, given)?;
            fits?;
            Ok(ValueTy::Of(made.ty))
        }
    }
}
