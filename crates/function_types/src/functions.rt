ghost use Rattle.std.specs.Prelude.{◌≡◌, IfOk};
ghost use Rattle.type_rules.specs.Code.{function_fits, functions_fit};

use crate::heads::{first_label, head_fits};
use crate::sites::refused_at;
use crate::steps::blocks_fit;
use mir_ir::Function;
use name_tables::{Body, Declared, Table};
use std::alloc::Global;
use type_rules::Refusal;
use vk_core::NoMemory;

/// A function: its head at the site `bb0[0]`, and then its blocks.
fn function_fits<'a>(
    alloc: Global,
    functions: &Table<'a, Function>,
    declared: &Declared<'a>,
    number: usize,
    function: &'a Function,
) -> Result<Result<(), Refusal>, NoMemory>
    ensures { IfOk result (λ refused. refused ≡ function_fits functions.now declared.now number function.now) }
{
    let body = Body::new(alloc, function)?;
    let head = refused_at(number, first_label(), 0, head_fits(declared, &body))?;
    match head {
        Ok(()) => {
            let fitted = blocks_fit(alloc, functions, declared, number, &body)?;
            Ok(fitted)
        }
        Err(refusal) => Ok(Err(refusal)),
    }
}

/// The first refusal in the functions of a text, in their order: in each first its parameters, result and locals and its block `bb0`, at
/// the site `bb0[0]`, and then the blocks by their numbers. Blocks that nothing reaches are typed too.
pub fn functions_fit<'a>(
    alloc: Global,
    functions: &Table<'a, Function>,
    declared: &Declared<'a>,
) -> Result<Result<(), Refusal>, NoMemory>
    ensures { IfOk result (λ refused. refused ≡ functions_fit functions.now declared.now 0 functions.now) }
{
    let all = functions.items();
    let mut number = 0;
    while number < all.len() {
        let fitted = function_fits(alloc, functions, declared, number, &all[number])?;
        match fitted {
            Ok(()) => number += 1,
            Err(refusal) => return Ok(Err(refusal)),
        }
    }
    Ok(Ok(()))
}
