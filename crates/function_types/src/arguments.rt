ghost use Rattle.std.specs.Prelude.{◌≡◌, ◌&&◌};
ghost use Rattle.type_rules.specs.Calls.{argument_type, text_or_type};
ghost use Rattle.function_types.specs.Steps.{arguments_taken, arguments_typed, is_taken};
ghost use Rattle.function_types.specs.Views.{given_seen, ok_given, signature_seen, some_parameter};

use crate::signatures::{Given, Parameter, Signature};
use code_types::operand_type;
use mir_ir::{Constant, Operand};
use name_tables::{Body, Declared};
use type_rules::TypeKind;

/// An operand where a text may stand.
fn text_or_type<'a>(
    declared: &Declared<'a>,
    body: &Body<'a>,
    operand: &'a Operand,
) -> Result<Given<'a>, TypeKind>
    ensures { ok_given result ≡ text_or_type declared.now body.now operand.now }
{
    match operand {
        Operand::Const(Constant::Text(_)) => Ok(Given::Words),
        _ => {
            let given = operand_type(declared, body, operand)?;
            Ok(Given::Typed(given))
        }
    }
}

fn argument_type<'a>(
    declared: &Declared<'a>,
    body: &Body<'a>,
    takes_text: bool,
    operand: &'a Operand,
) -> Result<Given<'a>, TypeKind>
    ensures { ok_given result ≡ argument_type declared.now body.now takes_text operand.now }
{
    if takes_text {
        text_or_type(declared, body, operand)
    } else {
        let given = operand_type(declared, body, operand)?;
        Ok(Given::Typed(given))
    }
}

/// Each argument has a type, or is a text at the place where one may stand.
pub fn arguments_typed<'a>(
    declared: &Declared<'a>,
    body: &Body<'a>,
    text_place: usize,
    arguments: &'a [Operand],
) -> Result<(), TypeKind>
    ensures { result ≡ arguments_typed declared.now body.now text_place arguments.now }
{
    let mut place = 0;
    while place < arguments.len() {
        let takes_text = place + 1 == text_place;
        argument_type(declared, body, takes_text, &arguments[place])?;
        place += 1;
    }
    Ok(())
}

/// Both tests hold.
pub fn both(a: bool, b: bool) -> bool
    ensures { result ≡ (a && b) }
{
    a && b
}

/// Whether an argument is taken, where there is a parameter for it.
fn is_taken(given: Given<'_>, parameter: Option<Parameter<'_>>) -> bool
    ensures { result ≡ is_taken (given_seen given.entry) (some_parameter parameter.entry) }
{
    match parameter {
        None => false,
        Some(parameter) => parameter.takes(given),
    }
}

/// Whether the arguments are those that a callee takes, where each has a type.
pub fn arguments_taken<'a>(
    declared: &Declared<'a>,
    body: &Body<'a>,
    text_place: usize,
    arguments: &'a [Operand],
    signature: Signature<'_>,
) -> Result<bool, TypeKind>
    ensures { result ≡ arguments_taken declared.now body.now text_place arguments.now (signature_seen signature.entry).parameters }
{
    let mut taken = true;
    let mut place = 0;
    while place < arguments.len() {
        let takes_text = place + 1 == text_place;
        let given = argument_type(declared, body, takes_text, &arguments[place])?;
        let parameter = signature.parameter_at(place);
        taken = both(taken, is_taken(given, parameter));
        place += 1;
    }
    let next = signature.parameter_at(place);
    let all = both(taken, next.is_none());
    Ok(all)
}
