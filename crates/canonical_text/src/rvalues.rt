ghost use Rattle.std.specs.Prelude.{◌≡◌, ◌++◌, OnOk, codes};
ghost use Rattle.canonical_text.specs.Rvalues.{aggregate_text, applied, binary_text, cast_text, comma_of_one_operand, field_text, fields_text, in_brackets, kind_text, more_fields, raw_word, repeat_text, rvalue_text, tuple_text};
ghost use Rattle.canonical_text.specs.declared.positions.Position.TheVariants.{AsValue};
ghost use Rattle.canonical_text.specs.Names.{path_written};
ghost use Rattle.canonical_text.specs.Operands.{operand_text, operands_text};
ghost use Rattle.canonical_text.specs.Places.{place_text};
ghost use Rattle.canonical_text.specs.Types.{type_text};

use crate::names::push_path;
use crate::operands::{push_operand, push_operands};
use crate::places::push_place;
use crate::positions::Position;
use crate::pushes::{push_decimal, push_name, push_text};
use crate::types::{push_type, reference_word};
use mir_ir::{BinaryOp, CastKind, NamedOperand, Operand, PlaceExpr, Rvalue, Ty};
use vk_core::{Name, NoMemory};

pub fn push_rvalue(out: &mut Vec<u8>, value: &Rvalue) -> Result<(), NoMemory>
    ensures { OnOk result (out.new.items ≡ out.old.items ++ rvalue_text value.now) }
{
    match value {
        Rvalue::Use(operand) => push_operand(out, operand)?,
        Rvalue::Cast { operand, ty, kind } => push_cast(out, operand, ty, *kind)?,
        Rvalue::Binary { op, a, b } => push_binary(out, *op, a, b)?,
        Rvalue::Not(operand) => push_of_operand(out, "Not", operand)?,
        Rvalue::Neg(operand) => push_of_operand(out, "Neg", operand)?,
        Rvalue::PtrMetadata(operand) => push_of_operand(out, "PtrMetadata", operand)?,
        Rvalue::RefOf { mutable, place } => push_address(out, reference_word(*mutable), place)?,
        Rvalue::RawOf { mutable, place } => push_address(out, raw_word(*mutable), place)?,
        Rvalue::Discriminant(place) => push_of_place(out, "discriminant", place)?,
        Rvalue::Len(place) => push_of_place(out, "Len", place)?,
        Rvalue::SizeOf(ty) => push_of_type(out, "SizeOf", ty)?,
        Rvalue::AlignOf(ty) => push_of_type(out, "AlignOf", ty)?,
        Rvalue::Array(operands) => push_array(out, operands.as_slice())?,
        Rvalue::Repeat { operand, count } => push_repeat(out, operand, *count)?,
        Rvalue::Tuple(operands) => push_tuple(out, operands.as_slice())?,
        Rvalue::PathUnit(path) => push_path(out, Position::AsValue, path)?,
        Rvalue::PathTuple { path, operands } => push_path_tuple(out, path, operands.as_slice())?,
        Rvalue::PathFields { path, fields } => push_aggregate(out, path, fields.as_slice())?,
    }
    Ok(())
}

#[tactic(auto, unfolding(crate::specs::Rvalues::cast_text))]
fn push_cast(out: &mut Vec<u8>, operand: &Operand, ty: &Ty, kind: CastKind) -> Result<(), NoMemory>
    ensures { OnOk result (out.new.items ≡ out.old.items ++ cast_text operand.now ty.now kind) }
{
    push_operand(out, operand)?;
    push_text(out, " as ")?;
    push_type(out, ty)?;
    push_text(out, " (")?;
    push_text(out, kind_text(kind))?;
    push_text(out, ")")?;
    Ok(())
}

fn kind_text(kind: CastKind) -> &'static str
    ensures { result.now ≡ kind_text kind }
{
    match kind {
        CastKind::IntToInt => "IntToInt",
        CastKind::PtrToPtr => "PtrToPtr",
        CastKind::Unsize => "PointerCoercion(Unsize)",
        CastKind::MutToConstPointer => "PointerCoercion(MutToConstPointer)",
    }
}

#[tactic(auto, unfolding(crate::specs::Rvalues::binary_text))]
fn push_binary(out: &mut Vec<u8>, op: BinaryOp, a: &Operand, b: &Operand) -> Result<(), NoMemory>
    ensures { OnOk result (out.new.items ≡ out.old.items ++ binary_text op a.now b.now) }
{
    push_text(out, op.name())?;
    push_text(out, "(")?;
    push_operand(out, a)?;
    push_text(out, ", ")?;
    push_operand(out, b)?;
    push_text(out, ")")?;
    Ok(())
}

#[tactic(auto, unfolding(crate::specs::Rvalues::applied))]
fn push_of_operand(out: &mut Vec<u8>, word: &str, operand: &Operand) -> Result<(), NoMemory>
    ensures { OnOk result (out.new.items ≡ out.old.items ++ applied word.now (operand_text operand.now)) }
{
    push_text(out, word)?;
    push_text(out, "(")?;
    push_operand(out, operand)?;
    push_text(out, ")")?;
    Ok(())
}

#[tactic(auto, unfolding(crate::specs::Rvalues::applied))]
fn push_of_place(out: &mut Vec<u8>, word: &str, place: &PlaceExpr) -> Result<(), NoMemory>
    ensures { OnOk result (out.new.items ≡ out.old.items ++ applied word.now (place_text place.now)) }
{
    push_text(out, word)?;
    push_text(out, "(")?;
    push_place(out, place)?;
    push_text(out, ")")?;
    Ok(())
}

#[tactic(auto, unfolding(crate::specs::Rvalues::applied))]
fn push_of_type(out: &mut Vec<u8>, word: &str, ty: &Ty) -> Result<(), NoMemory>
    ensures { OnOk result (out.new.items ≡ out.old.items ++ applied word.now (type_text ty.now)) }
{
    push_text(out, word)?;
    push_text(out, "(")?;
    push_type(out, ty)?;
    push_text(out, ")")?;
    Ok(())
}

fn push_address(out: &mut Vec<u8>, word: &str, place: &PlaceExpr) -> Result<(), NoMemory>
    ensures { OnOk result (out.new.items ≡ out.old.items ++ (word.now ++ place_text place.now)) }
{
    push_text(out, word)?;
    push_place(out, place)?;
    Ok(())
}

fn raw_word(mutable: bool) -> &'static str
    ensures { result.now ≡ raw_word mutable }
{
    if mutable { "&raw mut " } else { "&raw const " }
}

#[tactic(auto, unfolding(crate::specs::Rvalues::in_brackets))]
fn push_array(out: &mut Vec<u8>, operands: &[Operand]) -> Result<(), NoMemory>
    ensures { OnOk result (out.new.items ≡ out.old.items ++ in_brackets (operands_text operands.now)) }
{
    push_text(out, "[")?;
    push_operands(out, operands)?;
    push_text(out, "]")?;
    Ok(())
}

#[tactic(auto, unfolding(crate::specs::Rvalues::repeat_text))]
fn push_repeat(out: &mut Vec<u8>, operand: &Operand, count: u128) -> Result<(), NoMemory>
    ensures { OnOk result (out.new.items ≡ out.old.items ++ repeat_text operand.now count) }
{
    push_text(out, "[")?;
    push_operand(out, operand)?;
    push_text(out, "; ")?;
    push_decimal(out, count)?;
    push_text(out, "]")?;
    Ok(())
}

#[tactic(auto, unfolding(crate::specs::Rvalues::tuple_text))]
fn push_tuple(out: &mut Vec<u8>, operands: &[Operand]) -> Result<(), NoMemory>
    ensures { OnOk result (out.new.items ≡ out.old.items ++ tuple_text operands.now) }
{
    push_text(out, "(")?;
    push_operands(out, operands)?;
    push_text(out, comma_of_one(operands))?;
    push_text(out, ")")?;
    Ok(())
}

fn comma_of_one(operands: &[Operand]) -> &'static str
    ensures { result.now ≡ comma_of_one_operand operands.now }
{
    if operands.len() == 1 { "," } else { "" }
}

#[tactic(auto, unfolding(crate::specs::Rvalues::applied))]
fn push_path_tuple(out: &mut Vec<u8>, path: &Name, operands: &[Operand]) -> Result<(), NoMemory>
    ensures { OnOk result (out.new.items ≡ out.old.items ++ applied (path_written AsValue path.now) (operands_text operands.now)) }
{
    push_path(out, Position::AsValue, path)?;
    push_text(out, "(")?;
    push_operands(out, operands)?;
    push_text(out, ")")?;
    Ok(())
}

#[tactic(auto, unfolding(crate::specs::Rvalues::aggregate_text))]
fn push_aggregate(out: &mut Vec<u8>, path: &Name, fields: &[NamedOperand]) -> Result<(), NoMemory>
    ensures { OnOk result (out.new.items ≡ out.old.items ++ aggregate_text path.now fields.now) }
{
    push_path(out, Position::AsValue, path)?;
    push_text(out, " {")?;
    push_fields(out, fields)?;
    push_text(out, " }")?;
    Ok(())
}

fn push_fields(out: &mut Vec<u8>, fields: &[NamedOperand]) -> Result<(), NoMemory>
    ensures { OnOk result (out.new.items ≡ out.old.items ++ fields_text fields.now) }
{
    match fields {
        [] => Ok(()),
        [first, rest @ ..] => {
            push_text(out, " ")?;
            push_field(out, first)?;
            push_more_fields(out, rest)?;
            Ok(())
        }
    }
}

fn push_more_fields(out: &mut Vec<u8>, fields: &[NamedOperand]) -> Result<(), NoMemory>
    ensures { OnOk result (out.new.items ≡ out.old.items ++ more_fields fields.now) }
{
    for field in fields {
        push_text(out, ", ")?;
        push_field(out, field)?;
    }
    Ok(())
}

#[tactic(auto, unfolding(crate::specs::Rvalues::field_text))]
fn push_field(out: &mut Vec<u8>, field: &NamedOperand) -> Result<(), NoMemory>
    ensures { OnOk result (out.new.items ≡ out.old.items ++ field_text field.now) }
{
    push_name(out, &field.name)?;
    push_text(out, ": ")?;
    push_operand(out, &field.operand)?;
    Ok(())
}
