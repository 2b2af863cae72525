ghost use Rattle.std.specs.Prelude.{◌≡◌, ◌++◌, OnOk, false};
ghost use Rattle.std.specs.Fmt.{digits};
ghost use Rattle.canonical_text.specs.Operands.{bool_text, char_text, constant_text, integer_text, more_operands, number_text, operand_text, operands_text, quoted};

use crate::names::push_path;
use crate::places::push_place;
use crate::positions::Position;
use crate::pushes::{push_decimal, push_text};
use mir_ir::{Constant, IntTy, Operand};
use vk_core::NoMemory;
use word_bits::Word;

pub fn push_operand(out: &mut Vec<u8>, operand: &Operand) -> Result<(), NoMemory>
    ensures { OnOk result (out.new.items ≡ out.old.items ++ operand_text operand.now) }
{
    match operand {
        Operand::Copy(place) => {
            push_text(out, "copy ")?;
            push_place(out, place)?;
        }
        Operand::Move(place) => {
            push_text(out, "move ")?;
            push_place(out, place)?;
        }
        Operand::Const(constant) => {
            push_text(out, "const ")?;
            push_constant(out, constant)?;
        }
    }
    Ok(())
}

/// Adds operands with a comma and a blank between two.
pub fn push_operands(out: &mut Vec<u8>, operands: &[Operand]) -> Result<(), NoMemory>
    ensures { OnOk result (out.new.items ≡ out.old.items ++ operands_text operands.now) }
{
    match operands {
        [] => Ok(()),
        [first, rest @ ..] => {
            push_operand(out, first)?;
            push_more_operands(out, rest)?;
            Ok(())
        }
    }
}

/// Adds operands, each with a comma and a blank before it.
pub fn push_more_operands(out: &mut Vec<u8>, operands: &[Operand]) -> Result<(), NoMemory>
    ensures { OnOk result (out.new.items ≡ out.old.items ++ more_operands operands.now) }
{
    for operand in operands {
        push_text(out, ", ")?;
        push_operand(out, operand)?;
    }
    Ok(())
}

fn push_constant(out: &mut Vec<u8>, constant: &Constant) -> Result<(), NoMemory>
    ensures { OnOk result (out.new.items ≡ out.old.items ++ constant_text constant.now) }
{
    match constant {
        Constant::Integer { ty, word } => push_integer(out, *ty, *word)?,
        Constant::Bool(truth) => push_text(out, bool_text(*truth))?,
        Constant::Char(number) => push_char(out, *number)?,
        Constant::Text(bytes) => push_quoted(out, bytes.as_slice())?,
        Constant::Unit => push_text(out, "()")?,
        Constant::Named(path) => push_path(out, Position::AsConstant, path)?,
    }
    Ok(())
}

fn bool_text(truth: bool) -> &'static str
    ensures { result.now ≡ bool_text truth }
{
    if truth { "true" } else { "false" }
}

#[tactic(auto, unfolding(crate::specs::Operands::integer_text))]
fn push_integer(out: &mut Vec<u8>, ty: IntTy, word: Word) -> Result<(), NoMemory>
    ensures { OnOk result (out.new.items ≡ out.old.items ++ integer_text ty word) }
{
    push_number(out, ty, word.value)?;
    push_text(out, "_")?;
    push_text(out, ty.name())?;
    Ok(())
}

/// Adds the number that a bit pattern of the type is.
fn push_number(out: &mut Vec<u8>, ty: IntTy, value: u128) -> Result<(), NoMemory>
    ensures { OnOk result (out.new.items ≡ out.old.items ++ number_text ty value) }
{
    let half: u128 = 1 << (ty.width() - 1);
    if ty.is_signed() && half <= value {
        push_text(out, "-")?;
        push_decimal(out, half.saturating_sub(value - half))?;
    } else {
        push_decimal(out, value)?;
    }
    Ok(())
}

/// Adds the bytes between quotes.
#[tactic(auto, unfolding(crate::specs::Operands::quoted))]
pub fn push_quoted(out: &mut Vec<u8>, bytes: &[u8]) -> Result<(), NoMemory>
    ensures { OnOk result (out.new.items ≡ out.old.items ++ quoted bytes.now) }
{
    push_text(out, "\"")?;
    out.extend_from_slice(bytes)?;
    push_text(out, "\"")?;
    Ok(())
}

#[tactic(auto, unfolding(crate::specs::Operands::char_text))]
fn push_char(out: &mut Vec<u8>, number: u32) -> Result<(), NoMemory>
    ensures { OnOk result (out.new.items ≡ out.old.items ++ char_text number) }
{
    push_text(out, "'\\u{")?;
    push_hex(out, number)?;
    push_text(out, "}'")?;
    Ok(())
}

fn push_hex(out: &mut Vec<u8>, number: u32) -> Result<(), NoMemory>
    ensures { OnOk result (out.new.items ≡ out.old.items ++ digits 16 false number) }
{
    let text = format!(in *out.allocator(); "{number:x}")?;
    out.extend_from_slice(text.as_bytes())?;
    Ok(())
}
