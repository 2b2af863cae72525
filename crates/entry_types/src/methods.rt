ghost use Rattle.std.specs.Prelude.{◌≡◌, ◌&&◌, option_and_then, option_copied, slice_get};
ghost use Rattle.type_rules.specs.Calls.{types_of};
ghost use Rattle.type_rules.specs.Entries.{is_reference, is_reference_to, method_fits, parameters_fit, refused_in, same_receivers, same_references, slot_fits, slots_fit};
ghost use Rattle.type_rules.specs.Lookup.{function_named};
ghost use Rattle.type_rules.specs.Types.{pointer_of, same_types};
ghost use Rattle.type_rules.specs.Values.{some_pointer};
ghost use Rattle.entry_types.specs.Paths.{key_path, list_path, told};

use crate::drops::parameters;
use crate::functions::Functions;
use crate::paths::{KeyPath, ListPath, Misfit, at_path};
use code_types::check;
use mir_ir::{Function, Local, Ty};
use type_rules::{PointerKind, PointerTy, TypeKind, pointer_of, same_type};
use vk_core::Name;

fn is_reference(kind: PointerKind) -> bool
    ensures { result ≡ is_reference kind }
{
    matches!(kind, PointerKind::Ref { .. })
}

fn is_reference_to(ty: &Ty, pointer: Option<PointerTy<'_>>) -> bool
    ensures { result ≡ is_reference_to ty.now (some_pointer pointer.entry) }
{
    match pointer {
        None => false,
        Some(pointer) => is_reference(pointer.kind) && same_type(pointer.target, ty),
    }
}

fn same_references(own: PointerKind, model: PointerKind) -> bool
    ensures { result ≡ same_references own model }
{
    match own {
        PointerKind::Ref { mutable } => match model {
            PointerKind::Ref { mutable: wanted } => mutable == wanted,
            PointerKind::Raw { .. } | PointerKind::Owner => false,
        },
        PointerKind::Raw { .. } | PointerKind::Owner => false,
    }
}

fn same_receivers(own: Option<PointerTy<'_>>, model: Option<PointerTy<'_>>) -> bool
    ensures { result ≡ same_receivers (some_pointer own.entry) (some_pointer model.entry) }
{
    match own {
        None => false,
        Some(own) => match model {
            None => false,
            Some(model) => same_references(own.kind, model.kind),
        },
    }
}

/// Whether the locals have the same types, one after the other.
fn have_same_types(own: &[Local], model: &[Local]) -> bool
    ensures { result ≡ same_types (types_of own.now) (types_of model.now) }
{
    if own.len() != model.len() {
        return false;
    }
    let mut at = 0;
    while at < own.len() {
        let first = &own[at];
        let second = &model[at];
        if !same_type(&first.ty, &second.ty) {
            return false;
        }
        at += 1;
    }
    true
}

/// Whether a receiver is a reference to the type, of the same kind as that of the model.
fn receiver_fits(ty: &Ty, own: &Ty, model: &Ty) -> bool
    ensures { result ≡ (is_reference_to ty.now (pointer_of own.now) && same_receivers (pointer_of own.now) (pointer_of model.now)) }
{
    is_reference_to(ty, pointer_of(own)) && same_receivers(pointer_of(own), pointer_of(model))
}

/// The parameters of a method of the type, and those of the model.
fn parameters_fit(ty: &Ty, own: &[Local], model: &[Local]) -> bool
    ensures { result ≡ parameters_fit ty.now (types_of own.now) (types_of model.now) }
{
    match own {
        [] => false,
        [receiver, others @ ..] => match model {
            [] => false,
            [wanted, rest @ ..] => receiver_fits(ty, &receiver.ty, &wanted.ty)
                && have_same_types(others, rest),
        },
    }
}

fn method_fits(ty: &Ty, model: Option<&Function>, function: &Function) -> bool
    ensures { result ≡ method_fits ty.now (option_copied model.entry) function.now }
{
    match model {
        None => false,
        Some(model) => parameters_fit(ty, parameters(function), parameters(model))
            && same_type(&function.result, &model.result),
    }
}

fn model_of<'a>(functions: &Functions<'a>, name: Option<&Name>) -> Option<&'a Function>
    ensures { option_copied result ≡ option_and_then (function_named functions.now) (option_copied name.entry) }
{
    match name {
        None => None,
        Some(name) => functions.find(name.as_bytes()),
    }
}

/// A method of a vtable of the type fits its slot: it is as the one in this slot of the trait's first vtable.
fn slot_fits(
    functions: &Functions<'_>,
    ty: &Ty,
    models: &[Name],
    at: usize,
    name: &Name,
) -> Result<(), TypeKind>
    ensures { result ≡ slot_fits functions.now ty.now (slice_get models.now at) name.now }
{
    match functions.find(name.as_bytes()) {
        None => Err(TypeKind::UnknownName),
        Some(function) => {
            let model = model_of(functions, models.get(at));
            check(method_fits(ty, model, function), TypeKind::BadCall)
        }
    }
}

fn method_in_slot(
    functions: &Functions<'_>,
    ty: &Ty,
    models: &[Name],
    list: ListPath,
    at: usize,
    name: &Name,
) -> Result<(), Misfit>
    ensures { told result ≡ refused_in (key_path (KeyPath.Element list at)) (slot_fits functions.now ty.now (slice_get models.now at) name.now) }
{
    let fits = slot_fits(functions, ty, models, at, name);
    at_path(fits, KeyPath::Element(list, at))?;
    Ok(())
}

/// The methods of a vtable, each against the one in its slot of the trait's first vtable.
pub fn slots_fit(
    functions: &Functions<'_>,
    ty: &Ty,
    models: &[Name],
    list: ListPath,
    methods: &[Name],
) -> Result<(), Misfit>
    ensures { told result ≡ slots_fit functions.now ty.now models.now (list_path list) 0 methods.now }
{
    let mut at = 0;
    while at < methods.len() {
        let name = &methods[at];
        method_in_slot(functions, ty, models, list, at, name)?;
        at += 1;
    }
    Ok(())
}
