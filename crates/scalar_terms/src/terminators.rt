ghost use Rattle.std.specs.Prelude.{◌≡◌, ◌<◌, None, OnOk, Some, length, true};
ghost use Rattle.value_terms.specs.Made.{IsFree};
ghost use Rattle.value_terms.specs.Slots.{slot_width};
ghost use Rattle.scalar_runs.specs.Run.{Cuts, Faults, builtin_step, call_step, condition_step, switched, terminator_step};
ghost use Rattle.scalar_form.specs.Typing.{is_builtin_call, is_call, is_switch, is_terminator, operand_kind, place_kind, switch_width};
ghost use Rattle.scalar_runs.specs.Values.{kind_of_operand, operand_value};
ghost use Rattle.scalar_terms.specs.Joins.{AreWays};
ghost use Rattle.scalar_terms.specs.Sweeps.{HaveRoom, has_condition};
ghost use Rattle.scalar_terms.specs.Tests.{IsLed};
ghost use Rattle.scalar_terms.specs.Ways.{AreFailures, IsWay};

use crate::choices::choose_value;
use crate::conditions::{cut_unless, fault_here, go_if, jump};
use crate::failures::Failure;
use crate::steps::note_unset;
use crate::switches::switch_arms;
use crate::ways::Way;
use mir_ir::{Arm, Function, Operand, PlaceExpr, Terminator};
use scalar_runs::{Builtin, builtin_of, kind_of_operand};
use std::alloc::Global;
use sym_terms::Terms;
use value_terms::{both, but_not, read};
use vk_core::{BlockId, CheckClass, NoMemory};

/// The bits of an operand of a scalar type, 1 where it is none.
fn operand_width(function: &Function, operand: &Operand) -> u32
    ensures { result ≡ slot_width (kind_of_operand function.now operand.now) }
{
    match kind_of_operand(function, operand) {
        None => 1,
        Some(kind) => kind.width(),
    }
}

/// Goes on at the block that a `switchInt` names for the value.
fn switch(
    alloc: Global,
    terms: &mut Terms,
    failures: &mut Vec<Failure>,
    function: &Function,
    way: &Way,
    ways: &mut [Option<Way>],
    block: BlockId,
    index: u32,
    operand: &Operand,
    arms: &[Arm],
    otherwise: BlockId,
) -> Result<(), NoMemory>
    requires room { HaveRoom function.now (length ways.old) }
    requires way { IsWay function.now terms.old way.now }
    requires ways { AreWays function.now terms.old ways.old }
    requires failures { AreFailures terms.old failures.old.items }
    requires form { is_switch function.now block.0 (switch_width (operand_kind function.now operand.now)) arms.now otherwise ≡ true }
    ensures { OnOk result (IsLed function.now terms.old terms.new way.now ways.old ways.new failures.old.items failures.new.items block.0 index (λ s. switched s arms.now otherwise (operand_value function.now s.values operand.now))) }
{
    let slot = read(terms, function, way.slots.as_slice(), operand)?;
    let unset = but_not(terms, way.guard, slot.set)?;
    let goes = both(terms, way.guard, slot.set)?;
    note_unset(terms, failures, block, index, unset)?;
    switch_arms(
        alloc,
        terms,
        function,
        ways,
        slot.word,
        operand_width(function, operand),
        goes,
        way.slots.as_slice(),
        arms,
        otherwise,
    )?;
    Ok(())
}

/// Goes on behind `assume`, where its condition is true.
fn assume_call(
    alloc: Global,
    terms: &mut Terms,
    failures: &mut Vec<Failure>,
    function: &Function,
    way: &Way,
    ways: &mut [Option<Way>],
    block: BlockId,
    index: u32,
    arguments: &[Operand],
    next: BlockId,
) -> Result<(), NoMemory>
    requires inside { next.0 < length ways.old }
    requires way { IsWay function.now terms.old way.now }
    requires ways { AreWays function.now terms.old ways.old }
    requires failures { AreFailures terms.old failures.old.items }
    requires form { has_condition function.now arguments.now ≡ true }
    ensures { OnOk result (IsLed function.now terms.old terms.new way.now ways.old ways.new failures.old.items failures.new.items block.0 index (λ s. condition_step function.now Cuts s arguments.now next.0)) }
{
    match arguments {
        [] => unreachable!(),
        [condition, ..] => {
            cut_unless(
                alloc, terms, failures, function, way, ways, block, index, condition, next,
            )?;
            Ok(())
        }
    }
}

/// Goes on behind `assert`, where its condition is true, and notes the fault where it is false.
fn assert_call(
    alloc: Global,
    terms: &mut Terms,
    failures: &mut Vec<Failure>,
    function: &Function,
    way: &Way,
    ways: &mut [Option<Way>],
    block: BlockId,
    index: u32,
    arguments: &[Operand],
    next: BlockId,
) -> Result<(), NoMemory>
    requires inside { next.0 < length ways.old }
    requires way { IsWay function.now terms.old way.now }
    requires ways { AreWays function.now terms.old ways.old }
    requires failures { AreFailures terms.old failures.old.items }
    requires form { has_condition function.now arguments.now ≡ true }
    ensures { OnOk result (IsLed function.now terms.old terms.new way.now ways.old ways.new failures.old.items failures.new.items block.0 index (λ s. condition_step function.now (Faults CheckClass.Assertion) s arguments.now next.0)) }
{
    match arguments {
        [] => unreachable!(),
        [condition, ..] => {
            go_if(
                alloc,
                terms,
                failures,
                function,
                way,
                ways,
                block,
                index,
                CheckClass::Assertion,
                true,
                condition,
                next,
            )?;
            Ok(())
        }
    }
}

/// Goes on behind a built-in function that returns.
fn call_back(
    alloc: Global,
    terms: &mut Terms,
    failures: &mut Vec<Failure>,
    function: &Function,
    way: &mut Way,
    ways: &mut [Option<Way>],
    block: BlockId,
    index: u32,
    destination: &PlaceExpr,
    called: Builtin,
    arguments: &[Operand],
    next: BlockId,
) -> Result<(), NoMemory>
    requires room { HaveRoom function.now (length ways.old) }
    requires free { IsFree terms.old block.0 }
    requires way { IsWay function.now terms.old way.old }
    requires ways { AreWays function.now terms.old ways.old }
    requires failures { AreFailures terms.old failures.old.items }
    requires form { is_builtin_call function.now block.0 (place_kind function.now destination.now) called arguments.now (Some next) ≡ true }
    ensures { OnOk result (IsLed function.now terms.old terms.new way.old ways.old ways.new failures.old.items failures.new.items block.0 index (λ s. builtin_step function.now s destination.now.local.0 called arguments.now (Some next))) }
{
    match called {
        Builtin::Any(kind) => {
            choose_value(
                alloc,
                terms,
                function,
                failures,
                way,
                ways,
                block,
                index,
                kind,
                destination,
                next,
            )?;
            Ok(())
        }
        Builtin::Assume => {
            assume_call(
                alloc, terms, failures, function, way, ways, block, index, arguments, next,
            )?;
            Ok(())
        }
        Builtin::Assert => {
            assert_call(
                alloc, terms, failures, function, way, ways, block, index, arguments, next,
            )?;
            Ok(())
        }
        Builtin::Panic => unreachable!(),
    }
}

/// Goes on behind a call.
fn call(
    alloc: Global,
    terms: &mut Terms,
    failures: &mut Vec<Failure>,
    function: &Function,
    way: &mut Way,
    ways: &mut [Option<Way>],
    block: BlockId,
    index: u32,
    destination: &PlaceExpr,
    called: Option<Builtin>,
    arguments: &[Operand],
    next: Option<BlockId>,
) -> Result<(), NoMemory>
    requires room { HaveRoom function.now (length ways.old) }
    requires free { IsFree terms.old block.0 }
    requires way { IsWay function.now terms.old way.old }
    requires ways { AreWays function.now terms.old ways.old }
    requires failures { AreFailures terms.old failures.old.items }
    requires form { is_call function.now block.0 (place_kind function.now destination.now) called arguments.now next ≡ true }
    ensures { OnOk result (IsLed function.now terms.old terms.new way.old ways.old ways.new failures.old.items failures.new.items block.0 index (λ s. call_step function.now s destination.now.local.0 called arguments.now next)) }
{
    match called {
        None => unreachable!(),
        Some(builtin) => match next {
            None => {
                fault_here(
                    terms,
                    function,
                    failures,
                    way,
                    ways,
                    block,
                    index,
                    CheckClass::Panic,
                )?;
                Ok(())
            }
            Some(next) => {
                call_back(
                    alloc,
                    terms,
                    failures,
                    function,
                    way,
                    ways,
                    block,
                    index,
                    destination,
                    builtin,
                    arguments,
                    next,
                )?;
                Ok(())
            }
        },
    }
}

/// Goes on behind the terminator of the block: at the blocks that it goes to, or nowhere.
pub fn finish(
    alloc: Global,
    terms: &mut Terms,
    failures: &mut Vec<Failure>,
    function: &Function,
    way: &mut Way,
    ways: &mut [Option<Way>],
    block: BlockId,
    index: u32,
    last: &Terminator,
) -> Result<(), NoMemory>
    requires room { HaveRoom function.now (length ways.old) }
    requires free { IsFree terms.old block.0 }
    requires way { IsWay function.now terms.old way.old }
    requires ways { AreWays function.now terms.old ways.old }
    requires failures { AreFailures terms.old failures.old.items }
    requires form { is_terminator function.now block.0 last.now ≡ true }
    ensures { OnOk result (IsLed function.now terms.old terms.new way.old ways.old ways.new failures.old.items failures.new.items block.0 index (λ s. terminator_step function.now s last.now)) }
{
    match last {
        Terminator::Goto { target } => {
            jump(
                alloc, terms, function, failures, way, ways, block, index, *target,
            )?;
            Ok(())
        }
        Terminator::Switch {
            operand,
            arms,
            otherwise,
        } => {
            switch(
                alloc,
                terms,
                failures,
                function,
                way,
                ways,
                block,
                index,
                operand,
                arms.as_slice(),
                *otherwise,
            )?;
            Ok(())
        }
        Terminator::Return => Ok(()),
        Terminator::Assert {
            operand,
            expected,
            next,
            ..
        } => {
            go_if(
                alloc,
                terms,
                failures,
                function,
                way,
                ways,
                block,
                index,
                CheckClass::Panic,
                *expected,
                operand,
                *next,
            )?;
            Ok(())
        }
        Terminator::Call {
            destination,
            callee,
            arguments,
            next,
        } => {
            call(
                alloc,
                terms,
                failures,
                function,
                way,
                ways,
                block,
                index,
                destination,
                builtin_of(callee),
                arguments.as_slice(),
                *next,
            )?;
            Ok(())
        }
        _ => unreachable!(),
    }
}
