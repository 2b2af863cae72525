ghost use Rattle.std.specs.Prelude.{◌≡◌, ◌∷◌, [], take, true};
ghost use Rattle.type_rules.specs.Calls.{parameter_types, types_of, unit};
ghost use Rattle.type_rules.specs.Entries.{drop_fits, drop_refused, is_drop_function};
ghost use Rattle.type_rules.specs.Types.{same_type, same_types};
ghost use Rattle.mir_ir.specs.declared.types.Ty.TheVariants as form;
ghost use Rattle.entry_types.specs.Paths.{entry_path, told};

use crate::functions::Functions;
use crate::paths::{Entry, EntryKey, KeyPath, Misfit, at_path};
use code_types::check;
use mir_ir::{Function, Local, Ty, TypeDecl};
use type_rules::{TypeKind, same_type};
use vk_core::Name;

fn first_locals(function: &Function) -> &[Local]
    ensures { result.now ≡ take function.now.parameters function.now.locals }
{
    let locals = function.locals.as_slice();
    let count = function.parameters as usize;
    if count < locals.len() {
        &locals[..count]
    } else {
        locals
    }
}

/// The locals that are the parameters.
pub fn parameters(function: &Function) -> &[Local]
    ensures { types_of result.now ≡ parameter_types function.now }
{
    first_locals(function)
}

fn are_none(types: &[Ty]) -> bool
    ensures { result ≡ same_types types.now [] }
{
    match types {
        [] => true,
        [_, ..] => false,
    }
}

/// Whether the type is `()`.
#[tactic(auto, using(crate::proofs::ParameterTypes::same_as_unit))]
pub fn is_unit(ty: &Ty) -> bool
    ensures { result ≡ same_type ty.now unit }
{
    match ty {
        Ty::Tuple(items) => are_none(items.as_slice()),
        _ => false,
    }
}

/// Whether the type is `&mut` of the other.
#[tactic(auto, using(crate::proofs::ParameterTypes::same_as_mut_ref))]
fn is_mut_reference(ty: &Ty, target: &Ty) -> bool
    ensures { result ≡ same_type ty.now (form.Ref true target.now) }
{
    match ty {
        Ty::Ref {
            mutable,
            target: own,
        } => {
            if *mutable {
                same_type(own.get(), target)
            } else {
                false
            }
        }
        _ => false,
    }
}

fn takes_mut_reference(parameters: &[Local], ty: &Ty) -> bool
    ensures { result ≡ same_types (types_of parameters.now) (form.Ref true ty.now ∷ []) }
{
    match parameters {
        [] => false,
        [own, others @ ..] => is_mut_reference(&own.ty, ty) && others.is_empty(),
    }
}

fn is_drop_function(ty: &Ty, function: &Function) -> bool
    ensures { result ≡ is_drop_function ty.now function.now }
{
    takes_mut_reference(parameters(function), ty) && is_unit(&function.result)
}

fn drop_fits(functions: &Functions<'_>, ty: &Ty, dropped_by: &Option<Name>) -> Result<(), TypeKind>
    ensures { result ≡ drop_fits functions.now ty.now dropped_by.now }
{
    match dropped_by {
        None => Ok(()),
        Some(name) => match functions.find(name.as_bytes()) {
            None => Err(TypeKind::UnknownName),
            Some(function) => check(is_drop_function(ty, function), TypeKind::BadCall),
        },
    }
}

/// The drop function of a type, where it has one, takes one `&mut` of the type and gives `()`.
pub fn drop_refused(functions: &Functions<'_>, entry: Entry, own: &TypeDecl) -> Result<(), Misfit>
    ensures { told result ≡ drop_refused functions.now (entry_path entry) own.now }
{
    let fits = drop_fits(functions, &own.name, &own.drop);
    at_path(fits, KeyPath::Key(entry, EntryKey::Drop))?;
    Ok(())
}
