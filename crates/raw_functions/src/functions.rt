ghost use Rattle.std.specs.Prelude.{◌≡◌, ◌≤◌, length, IfOk};
ghost use Rattle.raw_functions.specs.Meant.{function_at, functions_of};

use crate::blocks::blocks_of;
use crate::locals::{all_locals, type_of};
use crate::moves::{both, ended, into_vec, push_made, with};
use crate::places::place_from;
use mir_grammar::{Named, RawFunction};
use mir_ir::Function;
use mir_lex::MAX_TEXT;
use sqlite_items::Items;
use std::alloc::Global;
use vk_core::{Name, NoMemory, TextPlace};

fn name_of(alloc: Global, named: Named) -> Result<Name, NoMemory>
    ensures { IfOk result (λ name. name ≡ named.text) }
{
    let name = Name::from_bytes(alloc, named.text.as_slice());
    ended(named);
    let name = name?;
    Ok(name)
}

/// A count as it stands in a function. No memory holds more than 2^32 parameters.
fn count_of(count: usize) -> Result<u32, NoMemory>
    ensures { IfOk result (λ number. number ≡ count) }
{
    match u32::try_from(count) {
        Ok(number) => Ok(number),
        Err(_too_many) => Err(NoMemory),
    }
}

/// The function that one as it is written means, at this place.
fn function_at(alloc: Global, place: TextPlace, function: RawFunction) -> Result<Function, NoMemory>
    ensures { IfOk result (λ made. made ≡ function_at place function) }
{
    let RawFunction {
        name,
        parameters,
        result: returned,
        items,
        blocks,
    } = function;
    let count = count_of(parameters.len());
    let returned = type_of(returned);
    let locals = all_locals(alloc, parameters, &returned, items);
    let signature = both(name_of(alloc, name), with(returned, count));
    let body = both(locals, blocks_of(alloc, blocks));
    let ((name, (returned, count)), (locals, blocks)) = both(signature, body)?;
    Ok(Function {
        name,
        place,
        parameters: count,
        result: returned,
        locals,
        blocks,
    })
}

/// The functions that those of a text as they are written mean.
pub fn functions_of(
    alloc: Global,
    text: &[u8],
    written: Items<RawFunction>,
) -> Result<Items<Function>, NoMemory>
    requires { length text.now ≤ MAX_TEXT }
    ensures { IfOk result (λ functions. functions ≡ functions_of text.now written) }
{
    let written = into_vec(alloc, written)?;
    let mut functions = Vec::new(alloc);
    let mut from = 0;
    let mut place = TextPlace { line: 1, column: 1 };
    for function in written {
        let start = function.name.start;
        place = place_from(text, from, place, start);
        from = start;
        push_made(&mut functions, function_at(alloc, place, function))?;
    }
    Ok(Items::from_vec(functions))
}
