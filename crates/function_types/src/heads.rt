ghost use Rattle.std.specs.Prelude.{◌≡◌, drop};
ghost use Rattle.type_rules.specs.Code.{first_label, head_fits, local_fits, locals_fit, parameter_fits};
ghost use Rattle.function_types.specs.Steps.{in_two, others_fit, parameters_fit};

use crate::labels::label_fits;
use crate::signatures::parameters;
use code_types::check;
use mir_ir::{Function, Local, Ty};
use name_tables::{Body, Declared};
use type_rules::{TypeKind, same_type};
use vk_core::BlockId;

/// The block that a run begins with.
pub fn first_label() -> BlockId
    ensures { result ≡ first_label }
{
    BlockId(0)
}

fn parameter_fits(declared: &Declared<'_>, number: usize, local: &Local) -> Result<(), TypeKind>
    ensures { result ≡ parameter_fits declared.now number local.now }
{
    check(local.id.0 as usize == number, TypeKind::Mismatch)?;
    check(declared.knows_traits(&local.ty), TypeKind::UnknownName)?;
    Ok(())
}

/// The parameters are `_1`, `_2` and so on.
fn parameters_fit(declared: &Declared<'_>, locals: &[Local]) -> Result<(), TypeKind>
    ensures { result ≡ parameters_fit declared.now 1 locals.now }
{
    let mut place = 0;
    while place < locals.len() {
        parameter_fits(declared, place + 1, &locals[place])?;
        place += 1;
    }
    Ok(())
}

/// A local that is no parameter. `_0` has the type of the result.
fn local_fits(declared: &Declared<'_>, result_ty: &Ty, local: &Local) -> Result<(), TypeKind>
    ensures { result ≡ local_fits declared.now result_ty.now local.now }
{
    check(declared.knows_traits(&local.ty), TypeKind::UnknownName)?;
    if local.id.0 == 0 {
        check(same_type(&local.ty, result_ty), TypeKind::Mismatch)?;
    }
    Ok(())
}

fn others_fit(declared: &Declared<'_>, result_ty: &Ty, locals: &[Local]) -> Result<(), TypeKind>
    ensures { result ≡ others_fit declared.now result_ty.now locals.now }
{
    let mut place = 0;
    while place < locals.len() {
        local_fits(declared, result_ty, &locals[place])?;
        place += 1;
    }
    Ok(())
}

/// The parameters, then the result, and then the other locals.
fn in_two(
    declared: &Declared<'_>,
    result_ty: &Ty,
    parameters: &[Local],
    others: &[Local],
) -> Result<(), TypeKind>
    ensures { result ≡ in_two declared.now result_ty.now parameters.now others.now }
{
    parameters_fit(declared, parameters)?;
    check(declared.knows_traits(result_ty), TypeKind::UnknownName)?;
    others_fit(declared, result_ty, others)?;
    Ok(())
}

/// The locals that are no parameters.
fn others(function: &Function) -> &[Local]
    ensures { result.now ≡ drop function.now.parameters function.now.locals }
{
    let locals = function.locals.as_slice();
    let count = function.parameters as usize;
    if count < locals.len() {
        &locals[count..]
    } else {
        &[]
    }
}

fn locals_fit(declared: &Declared<'_>, function: &Function) -> Result<(), TypeKind>
    ensures { result ≡ locals_fit declared.now function.now.result 1 function.now.parameters function.now.locals }
{
    in_two(
        declared,
        &function.result,
        parameters(function),
        others(function),
    )
}

/// The parameters, the result and the locals of a function, and its block `bb0`.
pub fn head_fits(declared: &Declared<'_>, body: &Body<'_>) -> Result<(), TypeKind>
    ensures { result ≡ head_fits declared.now body.now }
{
    locals_fit(declared, body.function())?;
    label_fits(body, first_label())?;
    Ok(())
}
