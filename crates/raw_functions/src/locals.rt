ghost use Rattle.std.specs.Prelude.{◌≡◌, ◌++◌, ◌∷◌, [], IfOk, OnOk};
ghost use Rattle.raw_functions.specs.Steps.{local_zero, other_of};
ghost use Rattle.raw_functions.specs.Meant.{all_locals, by_number, local_of, locals_of, others_of, result_type};

use crate::copies::copy_type;
use crate::moves::{both, ended, into_vec, with};
use mir_grammar::{Declared, Named};
use mir_ir::{Local, Ty};
use sqlite_items::Items;
use std::alloc::Global;
use vk_core::{LocalId, NoMemory};

pub fn type_of(named: Named) -> Ty
    ensures { result ≡ named.ty }
{
    let Named { ty, .. } = named;
    ty
}

fn local_of(declared: Declared) -> Local
    ensures { result ≡ local_of declared }
{
    let Declared { id, ty, .. } = declared;
    Local {
        id,
        ty: type_of(ty),
    }
}

fn locals_of(alloc: Global, declared: Vec<Declared>) -> Result<Vec<Local>, NoMemory>
    ensures { IfOk result (λ locals. locals.items ≡ locals_of declared.items) }
{
    let mut locals = Vec::new(alloc);
    for local in declared {
        locals.push(local_of(local))?;
    }
    Ok(locals)
}

/// The type of `_0`: the declared one, or that of the result.
fn result_type(alloc: Global, written: &Ty, items: &[Declared]) -> Result<Ty, NoMemory>
    ensures { IfOk result (λ ty. ty ≡ result_type written.now items.now) }
{
    let mut left = items;
    while let [local, rest @ ..] = left {
        if local.id.0 == 0 {
            return copy_type(alloc, &local.ty.ty);
        }
        left = rest;
    }
    copy_type(alloc, written)
}

/// Adds a local, unless it is `_0`.
fn push_other(locals: &mut Vec<Local>, local: Local) -> Result<(), NoMemory>
    ensures { OnOk result (locals.new.items ≡ locals.old.items ++ other_of local) }
{
    if local.id.0 == 0 {
        ended(local);
        return Ok(());
    }
    locals.push(local)?;
    Ok(())
}

/// The declared locals without `_0`.
fn others_of(alloc: Global, items: Vec<Declared>) -> Result<Vec<Local>, NoMemory>
    ensures { IfOk result (λ locals. locals.items ≡ others_of items.items) }
{
    let mut locals = Vec::new(alloc);
    for declared in items {
        push_other(&mut locals, local_of(declared))?;
    }
    Ok(locals)
}

fn sorted(locals: Vec<Local>) -> Result<Vec<Local>, NoMemory>
    ensures { IfOk result (λ sorted. sorted.items ≡ by_number locals.items) }
{
    let mut locals = locals;
    locals.sort_by_key(|local| local.id.0)?;
    Ok(locals)
}

/// The parameters as locals.
fn parameters_of(alloc: Global, parameters: Items<Declared>) -> Result<Vec<Local>, NoMemory>
    ensures { IfOk result (λ locals. locals.items ≡ locals_of parameters) }
{
    let parameters = into_vec(alloc, parameters)?;
    let locals = locals_of(alloc, parameters)?;
    Ok(locals)
}

/// The declared locals without `_0`, by number.
fn sorted_others(alloc: Global, items: Items<Declared>) -> Result<Vec<Local>, NoMemory>
    ensures { IfOk result (λ locals. locals.items ≡ by_number (others_of items)) }
{
    let items = into_vec(alloc, items)?;
    let others = others_of(alloc, items)?;
    let others = sorted(others)?;
    Ok(others)
}

/// The parameters, and `_0` behind them.
fn with_result(parameters: Vec<Local>, ty: Ty) -> Result<Vec<Local>, NoMemory>
    ensures { IfOk result (λ locals. locals.items ≡ parameters.items ++ local_zero ty ∷ []) }
{
    let mut locals = parameters;
    locals.push(Local { id: LocalId(0), ty })?;
    Ok(locals)
}

/// These locals, and those behind them.
fn appended(first: Vec<Local>, others: Vec<Local>) -> Result<Items<Local>, NoMemory>
    ensures { IfOk result (λ locals. locals ≡ first.items ++ others.items) }
{
    let mut locals = Items::from_vec(first);
    locals.append(Items::from_vec(others))?;
    Ok(locals)
}

/// The locals of a function: its parameters, `_0`, and the others by number.
pub fn all_locals(
    alloc: Global,
    parameters: Items<Declared>,
    written: &Ty,
    items: Items<Declared>,
) -> Result<Items<Local>, NoMemory>
    ensures { IfOk result (λ locals. locals ≡ all_locals parameters written.now items) }
{
    let ty = result_type(alloc, written, items.as_slice());
    let others = sorted_others(alloc, items);
    let parameters = parameters_of(alloc, parameters);
    let ((parameters, ty), others) = both(both(parameters, ty), others)?;
    let (others, first) = with(others, with_result(parameters, ty))?;
    let locals = appended(first, others)?;
    Ok(locals)
}
