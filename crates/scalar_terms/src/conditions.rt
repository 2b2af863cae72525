ghost use Rattle.std.specs.Prelude.{◌≡◌, ◌<◌, IfOk, OnOk, length, true};
ghost use Rattle.scalar_form.specs.Typing.{is_truth};
ghost use Rattle.value_terms.specs.Slots.{AreSlots};
ghost use Rattle.scalar_terms.specs.Joins.{AreWays};
ghost use Rattle.scalar_runs.specs.Run.{Cuts, Faults, Goes, entry_of, tested};
ghost use Rattle.scalar_runs.specs.Values.{operand_value};
ghost use Rattle.scalar_terms.specs.Tests.{IsCondition, IsLed};
ghost use Rattle.scalar_terms.specs.Ways.{AreFailures, IsWay};

use crate::failures::{Failure, note};
use crate::join::join;
use crate::steps::{note_both, note_unset};
use crate::ways::{Way, split_guard};
use mir_ir::{Function, Operand};
use scalar_runs::Breach;
use std::alloc::Global;
use sym_terms::{TermId, Terms};
use value_terms::{Slot, inverse, read};
use vk_core::{BlockId, CheckClass, NoMemory};

/// A condition by terms: whether it was stored to, and whether it is as expected.
#[derive(Clone, Copy, Debug)]
pub struct Condition {
    pub set: TermId,
    pub met: TermId,
}

fn read_condition(
    terms: &mut Terms,
    function: &Function,
    slots: &[Slot],
    expected: bool,
    operand: &Operand,
) -> Result<Condition, NoMemory>
    requires slots { AreSlots function.now terms.old slots.now }
    requires form { is_truth function.now operand.now ≡ true }
    ensures { IfOk result (λ t. IsCondition function.now terms.old terms.new slots.now expected operand.now t) }
{
    let slot = read(terms, function, slots, operand)?;
    let _known = terms.term(slot.word);
    if expected {
        Ok(Condition {
            set: slot.set,
            met: slot.word,
        })
    } else {
        let met = inverse(terms, slot.word)?;
        Ok(Condition { set: slot.set, met })
    }
}

/// Goes on at the block where the condition is as expected, and notes the fault where it is not.
pub fn go_if(
    alloc: Global,
    terms: &mut Terms,
    failures: &mut Vec<Failure>,
    function: &Function,
    way: &Way,
    ways: &mut [Option<Way>],
    block: BlockId,
    index: u32,
    class: CheckClass,
    expected: bool,
    operand: &Operand,
    next: BlockId,
) -> Result<(), NoMemory>
    requires inside { next.0 < length ways.old }
    requires way { IsWay function.now terms.old way.now }
    requires ways { AreWays function.now terms.old ways.old }
    requires failures { AreFailures terms.old failures.old.items }
    requires form { is_truth function.now operand.now ≡ true }
    ensures { OnOk result (IsLed function.now terms.old terms.new way.now ways.old ways.new failures.old.items failures.new.items block.0 index (λ s. tested (Faults class) expected s next.0 (operand_value function.now s.values operand.now))) }
{
    let condition = read_condition(terms, function, way.slots.as_slice(), expected, operand)?;
    let t = split_guard(terms, way.guard, condition.set, condition.met)?;
    note_both(terms, failures, block, index, class, t)?;
    join(
        alloc,
        terms,
        function,
        ways,
        next,
        t.guard,
        way.slots.as_slice(),
    )?;
    Ok(())
}

/// Goes on at the block where the condition is true.
pub fn cut_unless(
    alloc: Global,
    terms: &mut Terms,
    failures: &mut Vec<Failure>,
    function: &Function,
    way: &Way,
    ways: &mut [Option<Way>],
    block: BlockId,
    index: u32,
    operand: &Operand,
    next: BlockId,
) -> Result<(), NoMemory>
    requires inside { next.0 < length ways.old }
    requires way { IsWay function.now terms.old way.now }
    requires ways { AreWays function.now terms.old ways.old }
    requires failures { AreFailures terms.old failures.old.items }
    requires form { is_truth function.now operand.now ≡ true }
    ensures { OnOk result (IsLed function.now terms.old terms.new way.now ways.old ways.new failures.old.items failures.new.items block.0 index (λ s. tested Cuts true s next.0 (operand_value function.now s.values operand.now))) }
{
    let condition = read_condition(terms, function, way.slots.as_slice(), true, operand)?;
    let t = split_guard(terms, way.guard, condition.set, condition.met)?;
    note_unset(terms, failures, block, index, t.unset)?;
    join(
        alloc,
        terms,
        function,
        ways,
        next,
        t.guard,
        way.slots.as_slice(),
    )?;
    Ok(())
}

/// Goes on at the block.
pub fn jump(
    alloc: Global,
    terms: &mut Terms,
    function: &Function,
    failures: &Vec<Failure>,
    way: &Way,
    ways: &mut [Option<Way>],
    block: BlockId,
    index: u32,
    next: BlockId,
) -> Result<(), NoMemory>
    requires inside { next.0 < length ways.old }
    requires way { IsWay function.now terms.old way.now }
    requires ways { AreWays function.now terms.old ways.old }
    requires failures { AreFailures terms.old failures.now.items }
    ensures { OnOk result (IsLed function.now terms.old terms.new way.now ways.old ways.new failures.now.items failures.now.items block.0 index (λ s. Goes (entry_of next.0 s.values))) }
{
    join(
        alloc,
        terms,
        function,
        ways,
        next,
        way.guard,
        way.slots.as_slice(),
    )?;
    Ok(())
}

/// Notes a fault that comes wherever the point is passed.
pub fn fault_here(
    terms: &Terms,
    function: &Function,
    failures: &mut Vec<Failure>,
    way: &Way,
    ways: &[Option<Way>],
    block: BlockId,
    index: u32,
    class: CheckClass,
) -> Result<(), NoMemory>
    requires way { IsWay function.now terms.now way.now }
    requires ways { AreWays function.now terms.now ways.now }
    requires failures { AreFailures terms.now failures.old.items }
    ensures { OnOk result (IsLed function.now terms.now terms.now way.now ways.now ways.now failures.old.items failures.new.items block.0 index (λ s. Faults class)) }
{
    let breach = Breach {
        block,
        index,
        class,
    };
    note(terms, failures, breach, way.guard)?;
    Ok(())
}
