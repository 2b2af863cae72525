ghost use Rattle.std.specs.Prelude.{◌≡◌, ◌<◌, IfOk, Ok, Some, length, slice_get, true};
ghost use Rattle.word_bits.specs.Words.{IsWord};
ghost use Rattle.scalar_runs.specs.Look.{local_kind};
ghost use Rattle.scalar_form.specs.Typing.{has_kind, operand_kind};
ghost use Rattle.scalar_runs.specs.Values.{kind_of_operand, operand_value, read_local};
ghost use Rattle.value_terms.specs.Slots.{AreSlots, IsRead};
ghost use Rattle.value_terms.specs.Reads.{IsKnownSlot};

use crate::made::{bit, constant};
use mir_ir::{Function, Operand};
use scalar_runs::{local_kind, word_of_constant};
use sym_terms::{TermId, Terms};
use vk_core::{LocalId, NoMemory};
use word_bits::Word;

/// A local by terms: whether it holds a value, which is 1 or 0 with one bit, and the value.
#[derive(Clone, Copy, Debug)]
pub struct Slot {
    pub set: TermId,
    pub word: TermId,
}

/// A value that is known.
pub fn known(terms: &mut Terms, word: Word) -> Result<Slot, NoMemory>
    requires { IsWord word }
    ensures { IfOk result (λ slot. IsKnownSlot terms.old terms.new word slot) }
{
    let set = bit(terms, true)?;
    let word = constant(terms, word)?;
    Ok(Slot { set, word })
}

/// What a read of `()` or `!` gives.
fn nothing(terms: &mut Terms) -> Result<Slot, NoMemory>
    ensures { IfOk result (λ slot. IsKnownSlot terms.old terms.new (record { width = 1; value = 0 }) slot) }
{
    let word = Word { width: 1, value: 0 };
    let slot = known(terms, word)?;
    Ok(slot)
}

/// The slot with this number, where there is one.
pub fn slot_at(slots: &[Slot], at: usize) -> Option<Slot>
    ensures { result ≡ slice_get slots.now at }
{
    slots.get(at).copied()
}

/// A read of a local.
fn read_local(
    terms: &mut Terms,
    function: &Function,
    slots: &[Slot],
    local: LocalId,
) -> Result<Slot, NoMemory>
    requires slots { AreSlots function.now terms.old slots.now }
    requires kind { has_kind (local_kind function.now local.0) ≡ true }
    ensures { IfOk result (λ slot. IsRead function.now terms.old terms.new slots.now (local_kind function.now local.0) (λ values. read_local function.now values local.0) slot) }
{
    match local_kind(function, local) {
        None => unreachable!(),
        Some(kind) => {
            if kind.has_bytes() {
                match slot_at(slots, local.0 as usize) {
                    None => unreachable!(),
                    Some(slot) => Ok(slot),
                }
            } else {
                let slot = nothing(terms)?;
                Ok(slot)
            }
        }
    }
}

/// A read of an operand.
pub fn read(
    terms: &mut Terms,
    function: &Function,
    slots: &[Slot],
    operand: &Operand,
) -> Result<Slot, NoMemory>
    requires slots { AreSlots function.now terms.old slots.now }
    requires kind { has_kind (operand_kind function.now operand.now) ≡ true }
    ensures { IfOk result (λ slot. IsRead function.now terms.old terms.new slots.now (kind_of_operand function.now operand.now) (λ values. operand_value function.now values operand.now) slot) }
{
    match operand {
        Operand::Copy(place) => {
            let slot = read_local(terms, function, slots, place.local)?;
            Ok(slot)
        }
        Operand::Move(place) => {
            let slot = read_local(terms, function, slots, place.local)?;
            Ok(slot)
        }
        Operand::Const(constant) => match word_of_constant(constant) {
            Err(_) => unreachable!(),
            Ok(word) => {
                let slot = known(terms, word)?;
                Ok(slot)
            }
        },
    }
}
