ghost use Rattle.std.specs.Prelude.{◌≡◌};
ghost use Rattle.type_rules.specs.Operands.{constant_type, operand_type};
ghost use Rattle.type_rules.specs.Places.{value_type};
ghost use Rattle.type_rules.specs.Values.{ok_type};

use crate::places::value_type;
use mir_ir::{Constant, Operand, PlaceExpr};
use name_tables::{Body, Declared};
use type_rules::{TypeKind, ValueTy};

fn constant_type<'a>(declared: &Declared<'a>, constant: &Constant) -> Result<ValueTy<'a>, TypeKind>
    ensures { ok_type result ≡ constant_type declared.now constant.now }
{
    match constant {
        Constant::Integer { ty, .. } => Ok(ValueTy::Int(*ty)),
        Constant::Bool(_) => Ok(ValueTy::Bool),
        Constant::Char(_) => Ok(ValueTy::Char),
        Constant::Text(_) => Err(TypeKind::BadCall),
        Constant::Unit => Ok(ValueTy::Unit),
        Constant::Named(name) => match declared.constant_named(name.as_bytes()) {
            Some(own) => Ok(ValueTy::Of(&own.ty)),
            None => Err(TypeKind::UnknownName),
        },
    }
}

fn read_type<'a>(
    declared: &Declared<'a>,
    body: &Body<'a>,
    place: &'a PlaceExpr,
) -> Result<ValueTy<'a>, TypeKind>
    ensures { ok_type result ≡ value_type declared.now body.now place.now }
{
    let ty = value_type(declared, body, place)?;
    Ok(ValueTy::Of(ty))
}

/// The type of an operand. A text has none: it stands only where a built-in callee takes one.
pub fn operand_type<'a>(
    declared: &Declared<'a>,
    body: &Body<'a>,
    operand: &'a Operand,
) -> Result<ValueTy<'a>, TypeKind>
    ensures { ok_type result ≡ operand_type declared.now body.now operand.now }
{
    match operand {
        Operand::Copy(place) => read_type(declared, body, place),
        Operand::Move(place) => read_type(declared, body, place),
        Operand::Const(constant) => constant_type(declared, constant),
    }
}
