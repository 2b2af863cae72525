ghost use Rattle.std.specs.Prelude.{◌≡◌};
ghost use Rattle.type_rules.specs.Calls.{call_fits};

use crate::arguments::{arguments_taken, arguments_typed, both};
use crate::callees::{called_by, text_place};
use crate::signatures::signature_of;
use code_types::check;
use mir_ir::{Callee, Function, Operand, Ty};
use name_tables::{Body, Declared, Table};
use type_rules::TypeKind;

/// A call takes and gives what its callee does.
pub fn call_fits<'a>(
    functions: &Table<'a, Function>,
    declared: &Declared<'a>,
    body: &Body<'a>,
    to: &Ty,
    callee: &'a Callee,
    arguments: &'a [Operand],
) -> Result<(), TypeKind>
    ensures { result ≡ call_fits functions.now declared.now body.now to.now callee.now arguments.now }
{
    let called = called_by(callee);
    let text = text_place(called);
    arguments_typed(declared, body, text, arguments)?;
    let signature = signature_of(functions, declared, called)?;
    let taken = arguments_taken(declared, body, text, arguments, signature)?;
    let fits = both(taken, signature.gives(to));
    check(fits, TypeKind::BadCall)?;
    Ok(())
}
