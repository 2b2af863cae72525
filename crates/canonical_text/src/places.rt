ghost use Rattle.std.specs.Prelude.{◌≡◌, ◌++◌, OnOk};
ghost use Rattle.canonical_text.specs.Places.{closing, closings, from_back_text, from_front_text, label_text, local_text, opening, openings, place_text};

use crate::pushes::{push_decimal, push_name, push_text};
use crate::types::push_type;
use mir_ir::{PlaceExpr, Projection};
use vk_core::{BlockId, LocalId, NoMemory};

/// Adds the text of a place.
#[tactic(auto, unfolding(crate::specs::Places::place_text))]
pub fn push_place(out: &mut Vec<u8>, place: &PlaceExpr) -> Result<(), NoMemory>
    ensures { OnOk result (out.new.items ≡ out.old.items ++ place_text place.now) }
{
    let steps = place.steps.as_slice();
    push_openings(out, steps)?;
    push_local(out, place.local)?;
    push_closings(out, steps)?;
    Ok(())
}

#[tactic(auto, unfolding(crate::specs::Places::local_text))]
pub fn push_local(out: &mut Vec<u8>, local: LocalId) -> Result<(), NoMemory>
    ensures { OnOk result (out.new.items ≡ out.old.items ++ local_text local.0) }
{
    push_text(out, "_")?;
    push_decimal(out, u128::from(local.0))?;
    Ok(())
}

#[tactic(auto, unfolding(crate::specs::Places::label_text))]
pub fn push_label(out: &mut Vec<u8>, label: BlockId) -> Result<(), NoMemory>
    ensures { OnOk result (out.new.items ≡ out.old.items ++ label_text label.0) }
{
    push_text(out, "bb")?;
    push_decimal(out, u128::from(label.0))?;
    Ok(())
}

/// Adds what the steps write before the local: the last one writes first.
fn push_openings(out: &mut Vec<u8>, steps: &[Projection]) -> Result<(), NoMemory>
    ensures { OnOk result (out.new.items ≡ out.old.items ++ openings steps.now) }
{
    let mut at = steps.len();
    while at > 0 {
        at -= 1;
        push_text(out, opening(&steps[at]))?;
    }
    Ok(())
}

fn opening(step: &Projection) -> &'static str
    ensures { result.now ≡ opening step.now }
{
    match step {
        Projection::Field { .. } | Projection::Downcast(_) => "(",
        Projection::Deref => "(*",
        Projection::Index(_) | Projection::FromFront { .. } | Projection::FromBack { .. } => "",
    }
}

fn push_closings(out: &mut Vec<u8>, steps: &[Projection]) -> Result<(), NoMemory>
    ensures { OnOk result (out.new.items ≡ out.old.items ++ closings steps.now) }
{
    for step in steps {
        push_closing(out, step)?;
    }
    Ok(())
}

fn push_closing(out: &mut Vec<u8>, step: &Projection) -> Result<(), NoMemory>
    ensures { OnOk result (out.new.items ≡ out.old.items ++ closing step.now) }
{
    match step {
        Projection::Field { index, ty } => {
            push_text(out, ".")?;
            push_decimal(out, *index)?;
            push_text(out, ": ")?;
            push_type(out, ty)?;
            push_text(out, ")")?;
        }
        Projection::Deref => push_text(out, ")")?,
        Projection::Index(local) => {
            push_text(out, "[")?;
            push_local(out, *local)?;
            push_text(out, "]")?;
        }
        Projection::FromFront { at, least } => push_from_front(out, *at, *least)?,
        Projection::FromBack { at, least } => push_from_back(out, *at, *least)?,
        Projection::Downcast(variant) => {
            push_text(out, " as ")?;
            push_name(out, variant)?;
            push_text(out, ")")?;
        }
    }
    Ok(())
}

#[tactic(auto, unfolding(crate::specs::Places::from_front_text))]
fn push_from_front(out: &mut Vec<u8>, at: u128, least: u128) -> Result<(), NoMemory>
    ensures { OnOk result (out.new.items ≡ out.old.items ++ from_front_text at least) }
{
    push_text(out, "[")?;
    push_decimal(out, at)?;
    push_text(out, " of ")?;
    push_decimal(out, least)?;
    push_text(out, "]")?;
    Ok(())
}

#[tactic(auto, unfolding(crate::specs::Places::from_back_text))]
fn push_from_back(out: &mut Vec<u8>, at: u128, least: u128) -> Result<(), NoMemory>
    ensures { OnOk result (out.new.items ≡ out.old.items ++ from_back_text at least) }
{
    push_text(out, "[-")?;
    push_decimal(out, at)?;
    push_text(out, " of ")?;
    push_decimal(out, least)?;
    push_text(out, "]")?;
    Ok(())
}
