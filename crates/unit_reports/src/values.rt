ghost use Rattle.std.specs.Prelude.{◌≡◌, ◌==◌, ◌++◌, OnOk, codes, if◌then◌else◌};
ghost use Rattle.unit_reports.specs.Values.{choice_text, choices_text, integer_text, more_choices};

use crate::pushes::{push_decimal, push_text};
use mir_ir::IntTy;
use scalar_runs::{Choice, ValueKind};
use vk_core::NoMemory;

/// A truth value, by its number.
fn push_truth(out: &mut Vec<u8>, number: u128) -> Result<(), NoMemory>
    ensures { OnOk result (out.new.items ≡ out.old.items ++ (if number == 0 then codes "false" else codes "true")) }
{
    if number == 0 {
        push_text(out, "false")?;
    } else {
        push_text(out, "true")?;
    }
    Ok(())
}

/// The number that a bit pattern of the type is.
#[tactic(auto, unfolding(crate::specs::Values::integer_text))]
fn push_integer(out: &mut Vec<u8>, ty: IntTy, value: u128) -> Result<(), NoMemory>
    ensures { OnOk result (out.new.items ≡ out.old.items ++ integer_text ty value) }
{
    let half: u128 = 1 << (ty.width() - 1);
    if ty.is_signed() && half <= value {
        push_text(out, "-")?;
        push_decimal(out, half.saturating_sub(value - half))?;
    } else {
        push_decimal(out, value)?;
    }
    Ok(())
}

fn push_choice(out: &mut Vec<u8>, choice: Choice) -> Result<(), NoMemory>
    ensures { OnOk result (out.new.items ≡ out.old.items ++ choice_text choice) }
{
    match choice.kind {
        ValueKind::Bool => push_truth(out, choice.word.value)?,
        ValueKind::Char => push_decimal(out, choice.word.value)?,
        ValueKind::Int(ty) => push_integer(out, ty, choice.word.value)?,
        ValueKind::Unit => push_text(out, "()")?,
        ValueKind::Never => push_text(out, "()")?,
    }
    Ok(())
}

fn push_more_choices(out: &mut Vec<u8>, choices: &[Choice]) -> Result<(), NoMemory>
    ensures { OnOk result (out.new.items ≡ out.old.items ++ more_choices choices.now) }
{
    for choice in choices {
        push_text(out, " ")?;
        push_choice(out, *choice)?;
    }
    Ok(())
}

/// Adds the values of choices, with a blank between any two.
pub fn push_choices(out: &mut Vec<u8>, choices: &[Choice]) -> Result<(), NoMemory>
    ensures { OnOk result (out.new.items ≡ out.old.items ++ choices_text choices.now) }
{
    match choices {
        [] => push_text(out, "none"),
        [first, more @ ..] => {
            push_choice(out, *first)?;
            push_more_choices(out, more)?;
            Ok(())
        }
    }
}
