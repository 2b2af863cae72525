ghost use Rattle.std.specs.Prelude.{◌≡◌, bytes_eq, map, option_and_then, option_copied, slice_get, take};
ghost use Rattle.std.specs.List.{position_from};
ghost use Rattle.type_rules.specs.Calls.{Typed, chosen_type, dynamic_signature, fits_argument, function_signature, made_type, method_signature, parameter_types, signature_of, types_of};
ghost use Rattle.type_rules.specs.Lookup.{function_named};
ghost use Rattle.type_rules.specs.Types.{same_type};
ghost use Rattle.function_types.specs.Views.{called_seen, given_seen, leading_seen, method_seen, ok_signature, outcome_seen, parameter_seen, signature_seen, some_parameter};

use crate::callees::{Called, Method};
use crate::forms::{is_box_of, is_condition, is_never, is_receiver};
use code_types::check;
use mir_ir::{Function, Local, Ty, VtableDecl};
use name_tables::{Declared, Table, function_called};
use sqlite_items::at;
use type_rules::{PointerKind, TypeKind, ValueTy, is_sized, pointer_of};
use vk_core::Name;

/// An argument: a value of a type, or the text of an assertion or a panic.
#[derive(Clone, Copy)]
pub enum Given<'a> {
    Typed(ValueTy<'a>),
    Words,
}

/// What a callee takes at a place. `Condition` is a `bool`, and `Receiver` a reference to a `dyn` value of the trait.
#[derive(Clone, Copy)]
pub enum Parameter<'a> {
    Of(&'a Ty),
    Condition,
    Words,
    Receiver { mutable: bool, trait_name: &'a [u8] },
}

/// The parameters in front of those that are locals of a function.
#[derive(Clone, Copy)]
pub enum Leading<'a> {
    Nothing,
    One(Parameter<'a>),
    Two(Parameter<'a>, Parameter<'a>),
}

/// The type that a callee gives.
#[derive(Clone, Copy)]
pub enum Outcome<'a> {
    Of(ValueTy<'a>),
    Never,
    BoxOf(&'a Ty),
}

/// What a call takes and gives.
#[derive(Clone, Copy)]
pub struct Signature<'a> {
    pub leading: Leading<'a>,
    pub locals: &'a [Local],
    pub result: Outcome<'a>,
}

/// The type of a local, where there is one at the place.
fn local_at<'a>(locals: &'a [Local], place: usize) -> Option<Parameter<'a>>
    ensures { some_parameter result ≡ slice_get (map (λ t. Typed t) (types_of locals.now)) place }
{
    match at(locals, place) {
        None => None,
        Some(local) => Some(Parameter::Of(&local.ty)),
    }
}

impl<'a> Parameter<'a> {
    /// Whether an argument is what stands at this place.
    pub fn takes(self, given: Given<'_>) -> bool
        ensures { result ≡ fits_argument (given_seen given.entry) (parameter_seen self.entry) }
    {
        match given {
            Given::Words => matches!(self, Parameter::Words),
            Given::Typed(value) => match self {
                Parameter::Of(ty) => value.fits(ty),
                Parameter::Condition => is_condition(value),
                Parameter::Words => false,
                Parameter::Receiver {
                    mutable,
                    trait_name,
                } => is_receiver(value, mutable, trait_name),
            },
        }
    }
}

impl<'a> Signature<'a> {
    /// What stands at a place, where the first is 0.
    pub fn parameter_at(self, place: usize) -> Option<Parameter<'a>>
        ensures { some_parameter result ≡ slice_get (signature_seen self.entry).parameters place }
    {
        match self.leading {
            Leading::Nothing => local_at(self.locals, place),
            Leading::One(first) => {
                if place == 0 {
                    Some(first)
                } else {
                    local_at(self.locals, place - 1)
                }
            }
            Leading::Two(first, second) => {
                if place == 0 {
                    Some(first)
                } else if place == 1 {
                    Some(second)
                } else {
                    local_at(self.locals, place - 2)
                }
            }
        }
    }

    /// Whether this is the type that the callee gives.
    pub fn gives(self, ty: &Ty) -> bool
        ensures { result ≡ same_type (signature_seen self.entry).result ty.now }
    {
        match self.result {
            Outcome::Of(value) => value.fits(ty),
            Outcome::Never => is_never(ty),
            Outcome::BoxOf(target) => is_box_of(target, ty),
        }
    }
}

/// The locals that are parameters.
pub fn parameters(function: &Function) -> &[Local]
    ensures { result.now ≡ take function.now.parameters function.now.locals }
{
    let locals = function.locals.as_slice();
    let count = function.parameters as usize;
    if count < locals.len() {
        &locals[..count]
    } else {
        locals
    }
}

fn builtin<'a>(leading: Leading<'a>, gives: Outcome<'a>) -> Signature<'a>
    ensures { signature_seen result ≡ record { parameters = leading_seen leading.entry; result = outcome_seen gives.entry } }
{
    Signature {
        leading,
        locals: &[],
        result: gives,
    }
}

fn function_signature(function: &Function) -> Signature<'_>
    ensures { signature_seen result ≡ function_signature function.now }
{
    Signature {
        leading: Leading::Nothing,
        locals: parameters(function),
        result: Outcome::Of(ValueTy::Of(&function.result)),
    }
}

/// The signature of a method, by the parameters and the result of the function in its slot.
fn method_of_locals<'a>(
    trait_name: &'a [u8],
    result_ty: &'a Ty,
    locals: &'a [Local],
) -> Result<Signature<'a>, TypeKind>
    ensures { ok_signature result ≡ method_signature trait_name.now result_ty.now (types_of locals.now) }
{
    let [receiver, others @ ..] = locals else {
        return Err(TypeKind::BadCall);
    };
    match pointer_of(&receiver.ty) {
        None => Err(TypeKind::BadCall),
        Some(pointer) => match pointer.kind {
            PointerKind::Ref { mutable } => Ok(Signature {
                leading: Leading::One(Parameter::Receiver {
                    mutable,
                    trait_name,
                }),
                locals: others,
                result: Outcome::Of(ValueTy::Of(result_ty)),
            }),
            PointerKind::Raw { .. } | PointerKind::Owner => Err(TypeKind::BadCall),
        },
    }
}

fn method_signature<'a>(
    trait_name: &'a [u8],
    function: &'a Function,
) -> Result<Signature<'a>, TypeKind>
    ensures { ok_signature result ≡ method_signature trait_name.now function.now.result (parameter_types function.now) }
{
    method_of_locals(trait_name, &function.result, parameters(function))
}

fn slot_of(methods: &[Name], method: &[u8]) -> Option<usize>
    ensures { result ≡ position_from (λ own. bytes_eq method.now own) 0 methods.now }
{
    methods.iter().position(|own| method == own.as_bytes())
}

/// The function in a slot of a vtable.
fn method_in<'a>(
    functions: &Table<'a, Function>,
    vtable: &VtableDecl,
    slot: usize,
) -> Option<&'a Function>
    ensures { option_copied result ≡ option_and_then (function_named functions.now) (slice_get vtable.now.methods slot) }
{
    match at(vtable.methods.as_slice(), slot) {
        None => None,
        Some(name) => functions.find(name.as_bytes()),
    }
}

fn dynamic_signature<'a>(
    functions: &Table<'a, Function>,
    declared: &Declared<'a>,
    method: Method<'a>,
) -> Result<Signature<'a>, TypeKind>
    ensures { ok_signature result ≡ dynamic_signature functions.now declared.now (method_seen method.entry) }
{
    let Some(own) = declared.trait_named(method.trait_name) else {
        return Err(TypeKind::UnknownName);
    };
    let Some(slot) = slot_of(own.methods.as_slice(), method.method) else {
        return Err(TypeKind::UnknownName);
    };
    let Some(vtable) = declared.first_vtable(method.trait_name) else {
        return Err(TypeKind::BadCall);
    };
    let Some(function) = method_in(functions, vtable, slot) else {
        return Err(TypeKind::UnknownName);
    };
    method_signature(method.trait_name, function)
}

/// The type argument of a callee that makes a box or a null pointer.
fn made_type(declared: &Declared<'_>, ty: &Ty) -> Result<(), TypeKind>
    ensures { result ≡ made_type declared.now ty.now }
{
    check(declared.knows_traits(ty), TypeKind::UnknownName)?;
    check(is_sized(ty), TypeKind::BadCall)?;
    Ok(())
}

/// The type argument of `kani::any`.
fn chosen_type(declared: &Declared<'_>, ty: &Ty) -> Result<(), TypeKind>
    ensures { result ≡ chosen_type declared.now ty.now }
{
    check(declared.knows_traits(ty), TypeKind::UnknownName)?;
    check(declared.is_plain(ty), TypeKind::NotPlain)?;
    Ok(())
}

/// What a callee takes and gives.
pub fn signature_of<'a>(
    functions: &Table<'a, Function>,
    declared: &Declared<'a>,
    callee: Called<'a>,
) -> Result<Signature<'a>, TypeKind>
    ensures { ok_signature result ≡ signature_of functions.now declared.now (called_seen callee.entry) }
{
    match callee {
        Called::AnyOf(ty) => {
            chosen_type(declared, ty)?;
            Ok(builtin(Leading::Nothing, Outcome::Of(ValueTy::Of(ty))))
        }
        Called::Assume => Ok(builtin(
            Leading::One(Parameter::Condition),
            Outcome::Of(ValueTy::Unit),
        )),
        Called::Assert => Ok(builtin(
            Leading::Two(Parameter::Condition, Parameter::Words),
            Outcome::Of(ValueTy::Unit),
        )),
        Called::NewBox(ty) => {
            made_type(declared, ty)?;
            Ok(builtin(Leading::One(Parameter::Of(ty)), Outcome::BoxOf(ty)))
        }
        Called::NullOf { mutable, ty } => {
            made_type(declared, ty)?;
            let pointer = ValueTy::Raw {
                mutable,
                target: ty,
            };
            Ok(builtin(Leading::Nothing, Outcome::Of(pointer)))
        }
        Called::Panic => Ok(builtin(Leading::One(Parameter::Words), Outcome::Never)),
        Called::Dynamic(method) => dynamic_signature(functions, declared, method),
        Called::Named(path) => match function_called(functions, declared, path) {
            None => Err(TypeKind::UnknownName),
            Some(function) => Ok(function_signature(function)),
        },
    }
}
