ghost use Rattle.std.specs.Prelude.{◌≡◌, ◌<◌, ◌^◌, OnOk, length, slice_set, true};
ghost use Rattle.scalar_form.specs.Typing.{are_statements, is_statement};
ghost use Rattle.scalar_terms.specs.Ends.{AreStated};
ghost use Rattle.value_terms.specs.Made.{IsBit};
ghost use Rattle.scalar_terms.specs.Steps.{IsNotedTwice, IsStated, breach_of};
ghost use Rattle.scalar_terms.specs.Ways.{AreFailures, IsNoted, IsWay};

use crate::failures::{Failure, note};
use crate::ways::{Split, Way, split_guard};
use mir_ir::{Function, PlaceExpr, Rvalue, Statement};
use scalar_runs::Breach;
use sym_terms::{TermId, Terms};
use value_terms::{Slot, rvalue_terms};
use vk_core::{BlockId, CheckClass, LocalId, NoMemory};

/// Notes that an operand was never stored to, and a fault of the class.
pub fn note_both(
    terms: &Terms,
    failures: &mut Vec<Failure>,
    block: BlockId,
    index: u32,
    class: CheckClass,
    t: Split,
) -> Result<(), NoMemory>
    requires unset { IsBit terms.now t.unset.0 }
    requires unlawful { IsBit terms.now t.unlawful.0 }
    ensures { OnOk result (IsNotedTwice terms.now failures.old.items failures.new.items (breach_of block.0 index CheckClass.Uninit) t.unset (breach_of block.0 index class) t.unlawful) }
{
    let uninit = Breach {
        block,
        index,
        class: CheckClass::Uninit,
    };
    let other = Breach {
        block,
        index,
        class,
    };
    note(terms, failures, uninit, t.unset)?;
    note(terms, failures, other, t.unlawful)?;
    Ok(())
}

/// Notes that an operand was never stored to.
pub fn note_unset(
    terms: &Terms,
    failures: &mut Vec<Failure>,
    block: BlockId,
    index: u32,
    unset: TermId,
) -> Result<(), NoMemory>
    requires { IsBit terms.now unset.0 }
    ensures { OnOk result (IsNoted terms.now failures.old.items failures.new.items (breach_of block.0 index CheckClass.Uninit) unset) }
{
    let uninit = Breach {
        block,
        index,
        class: CheckClass::Uninit,
    };
    note(terms, failures, uninit, unset)?;
    Ok(())
}

/// Gives the local a value.
pub fn set_slot(slots: &mut Vec<Slot>, place: LocalId, slot: Slot)
    ensures { slots.new.items ≡ slice_set slots.old.items place.0 slot }
{
    let at = place.0 as usize;
    if at < slots.len() {
        slots[at] = slot;
    }
}

fn assign(
    terms: &mut Terms,
    failures: &mut Vec<Failure>,
    function: &Function,
    way: &mut Way,
    block: BlockId,
    index: u32,
    place: &PlaceExpr,
    value: &Rvalue,
) -> Result<(), NoMemory>
    requires way { IsWay function.now terms.old way.old }
    requires failures { AreFailures terms.old failures.old.items }
    requires form { is_statement function.now (Statement.Assign place.now value.now) ≡ true }
    ensures { OnOk result (IsStated function.now terms.old terms.new way.old way.new failures.old.items failures.new.items block.0 index (Statement.Assign place.now value.now)) }
{
    let made = rvalue_terms(terms, function, way.slots.as_slice(), value)?;
    let t = split_guard(terms, way.guard, made.set, made.lawful)?;
    note_both(terms, failures, block, index, CheckClass::Division, t)?;
    let slot = Slot {
        set: t.always,
        word: made.word,
    };
    set_slot(&mut way.slots, place.local, slot);
    way.guard = t.guard;
    Ok(())
}

/// Goes on behind a statement.
pub fn run_statement(
    terms: &mut Terms,
    failures: &mut Vec<Failure>,
    function: &Function,
    way: &mut Way,
    block: BlockId,
    index: u32,
    statement: &Statement,
) -> Result<(), NoMemory>
    requires way { IsWay function.now terms.old way.old }
    requires failures { AreFailures terms.old failures.old.items }
    requires form { is_statement function.now statement.now ≡ true }
    ensures { OnOk result (IsStated function.now terms.old terms.new way.old way.new failures.old.items failures.new.items block.0 index statement.now) }
{
    match statement {
        Statement::Assign { place, value } => {
            assign(terms, failures, function, way, block, index, place, value)?;
            Ok(())
        }
        _ => unreachable!(),
    }
}

/// Goes on behind the statements of a block.
pub fn run_statements(
    terms: &mut Terms,
    failures: &mut Vec<Failure>,
    function: &Function,
    way: &mut Way,
    block: BlockId,
    statements: &[Statement],
) -> Result<(), NoMemory>
    requires count { length statements.now < 2 ^ 32 }
    requires way { IsWay function.now terms.old way.old }
    requires failures { AreFailures terms.old failures.old.items }
    requires form { are_statements function.now statements.now ≡ true }
    ensures { OnOk result (AreStated function.now terms.old terms.new way.old way.new failures.old.items failures.new.items block.0 0 statements.now) }
{
    let mut index = 0;
    let mut left = statements;
    while let [statement, rest @ ..] = left {
        run_statement(terms, failures, function, way, block, index, statement)?;
        index += 1;
        left = rest;
    }
    Ok(())
}
