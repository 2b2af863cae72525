ghost use Rattle.std.specs.Prelude.{◌≡◌, ◌+◌, ◌<◌, ◌^◌, IfOk, Some, true};
ghost use Rattle.scalar_runs.specs.Engine.{Does, configuration};
ghost use Rattle.scalar_runs.specs.Run.{Cuts, Faults, Goes, Stepped, assigned, block_step, builtin_step, call_step, entry_of, is_expected, start, step, stored, switched, target_of, terminator_step, tested};

use crate::builtins::{Builtin, builtin_of};
use crate::kinds::ValueKind;
use crate::look::{block_of, locals_end};
use crate::values::{operand_value, rvalue_value};
use mir_ir::{Arm, Block, Function, Operand, Statement, Terminator};
use std::alloc::Global;
use vk_core::{BlockId, CheckClass, LocalId, NoMemory};
use word_bits::Word;

/// Where a run stands, and what each local holds, by its number: a word, or nothing.
#[derive(Debug, Drop)]
pub struct State {
    pub block: BlockId,
    pub index: usize,
    pub values: Vec<Option<Word>>,
}

/// What a step did. Only `Went` moved the state.
#[derive(Clone, Copy, Debug, PartialEq, Eq)]
pub enum Step {
    Went,
    Ended,
    /// An assumption was false.
    Cut,
    Faulted(CheckClass),
    /// The run wants a value of the kind, to be stored before it goes on at the block.
    Chooses {
        kind: ValueKind,
        destination: LocalId,
        next: BlockId,
    },
    /// A function of the form never comes here.
    Stuck,
}

/// Where runs begin: at the first statement of the first block, with nothing in any local.
#[tactic(auto, unfolding(crate::specs::Run::start))]
pub fn begin(alloc: Global, function: &Function) -> Result<State, NoMemory>
    ensures { IfOk result (λ state. configuration state ≡ start function.now) }
{
    let values = vec![in alloc; None; locals_end(function.locals.as_slice())]?;
    Ok(State {
        block: BlockId(0),
        index: 0,
        values,
    })
}

/// Makes the next step of a run.
#[tactic(auto, unfolding(crate::specs::Run::step))]
pub fn take_step(function: &Function, state: &mut State) -> Step
    ensures { Does (step function.now (configuration state.old)) result (configuration state.old) (configuration state.new) }
{
    match block_of(function, state.block) {
        None => Step::Stuck,
        Some(block) => step_in(function, block, state),
    }
}

fn step_in(function: &Function, block: &Block, state: &mut State) -> Step
    ensures { Does (block_step function.now (configuration state.old) (Some block.now)) result (configuration state.old) (configuration state.new) }
{
    let count = block.statements.len();
    match block.statements.get(state.index) {
        Some(statement) => match statement {
            Statement::Assign { place, value } => {
                let value = rvalue_value(function, state.values.as_slice(), value);
                assign(state, place.local, value)
            }
            _ => Step::Stuck,
        },
        None => {
            if state.index == count {
                finish(function, &block.terminator, state)
            } else {
                Step::Stuck
            }
        }
    }
}

fn finish(function: &Function, last: &Terminator, state: &mut State) -> Step
    ensures { Does (terminator_step function.now (configuration state.old) last.now) result (configuration state.old) (configuration state.new) }
{
    match last {
        Terminator::Goto { target } => go(state, *target),
        Terminator::Switch {
            operand,
            arms,
            otherwise,
        } => {
            let value = operand_value(function, state.values.as_slice(), operand);
            switch(state, arms.as_slice(), *otherwise, value)
        }
        Terminator::Return => Step::Ended,
        Terminator::Assert {
            operand,
            expected,
            next,
            ..
        } => {
            let value = operand_value(function, state.values.as_slice(), operand);
            fault_unless(state, CheckClass::Panic, *expected, *next, value)
        }
        Terminator::Call {
            destination,
            callee,
            arguments,
            next,
        } => call(
            function,
            state,
            destination.local,
            builtin_of(callee),
            arguments.as_slice(),
            *next,
        ),
        _ => Step::Stuck,
    }
}

/// Stores a value, or faults where there is none.
fn assign(state: &mut State, place: LocalId, value: Result<Word, CheckClass>) -> Step
    requires { state.old.index + 1 < 2 ^ 64 }
    ensures { Does (assigned (configuration state.old) place.0 value) result (configuration state.old) (configuration state.new) }
{
    match value {
        Err(class) => Step::Faulted(class),
        Ok(word) => {
            store(&mut state.values, place, word);
            state.index += 1;
            Step::Went
        }
    }
}

/// Gives the local a value. A number that is no local's stores nothing.
pub fn store(values: &mut Vec<Option<Word>>, place: LocalId, word: Word)
    ensures { values.new.items ≡ stored values.old.items place.0 word }
{
    let at = place.0 as usize;
    if at < values.len() {
        values[at] = Some(word);
    }
}

fn go(state: &mut State, target: BlockId) -> Step
    ensures { Does (Goes (entry_of target.0 state.old.values.items)) result (configuration state.old) (configuration state.new) }
{
    state.block = target;
    state.index = 0;
    Step::Went
}

fn switch(
    state: &mut State,
    arms: &[Arm],
    otherwise: BlockId,
    value: Result<Word, CheckClass>,
) -> Step
    ensures { Does (switched (configuration state.old) arms.now otherwise value) result (configuration state.old) (configuration state.new) }
{
    match value {
        Err(class) => Step::Faulted(class),
        Ok(word) => go(state, target_of(arms, otherwise, word.value)),
    }
}

fn target_of(arms: &[Arm], otherwise: BlockId, number: u128) -> BlockId
    ensures { result ≡ target_of arms.now otherwise number }
{
    match arms.iter().find(|arm| arm.number == number) {
        Some(arm) => arm.target,
        None => otherwise,
    }
}

fn is_expected(expected: bool, word: Word) -> bool
    ensures { result ≡ is_expected expected word }
{
    if expected {
        word.value != 0
    } else {
        word.value == 0
    }
}

/// Goes on where the condition is as expected, and else is a fault.
fn fault_unless(
    state: &mut State,
    class: CheckClass,
    expected: bool,
    next: BlockId,
    value: Result<Word, CheckClass>,
) -> Step
    ensures { Does (tested (Faults class) expected (configuration state.old) next.0 value) result (configuration state.old) (configuration state.new) }
{
    match value {
        Err(class) => Step::Faulted(class),
        Ok(word) => {
            if is_expected(expected, word) {
                go(state, next)
            } else {
                Step::Faulted(class)
            }
        }
    }
}

/// Goes on where the condition is true, and else is cut.
fn cut_unless(state: &mut State, next: BlockId, value: Result<Word, CheckClass>) -> Step
    ensures { Does (tested Cuts true (configuration state.old) next.0 value) result (configuration state.old) (configuration state.new) }
{
    match value {
        Err(class) => Step::Faulted(class),
        Ok(word) => {
            if is_expected(true, word) {
                go(state, next)
            } else {
                Step::Cut
            }
        }
    }
}

fn assert_step(function: &Function, state: &mut State, arguments: &[Operand], next: BlockId) -> Step
    ensures { Does (builtin_step function.now (configuration state.old) 0 Builtin.Assert arguments.now (Some next)) result (configuration state.old) (configuration state.new) }
{
    match arguments {
        [] => Step::Stuck,
        [condition, ..] => {
            let value = operand_value(function, state.values.as_slice(), condition);
            fault_unless(state, CheckClass::Assertion, true, next, value)
        }
    }
}

fn assume_step(function: &Function, state: &mut State, arguments: &[Operand], next: BlockId) -> Step
    ensures { Does (builtin_step function.now (configuration state.old) 0 Builtin.Assume arguments.now (Some next)) result (configuration state.old) (configuration state.new) }
{
    match arguments {
        [] => Step::Stuck,
        [condition, ..] => {
            let value = operand_value(function, state.values.as_slice(), condition);
            cut_unless(state, next, value)
        }
    }
}

fn call(
    function: &Function,
    state: &mut State,
    destination: LocalId,
    called: Option<Builtin>,
    arguments: &[Operand],
    next: Option<BlockId>,
) -> Step
    ensures { Does (call_step function.now (configuration state.old) destination.0 called arguments.now next) result (configuration state.old) (configuration state.new) }
{
    match called {
        None => Step::Stuck,
        Some(builtin) => match next {
            Some(next) => call_back(function, state, destination, builtin, arguments, next),
            None => match builtin {
                Builtin::Panic => Step::Faulted(CheckClass::Panic),
                _ => Step::Stuck,
            },
        },
    }
}

fn call_back(
    function: &Function,
    state: &mut State,
    destination: LocalId,
    called: Builtin,
    arguments: &[Operand],
    next: BlockId,
) -> Step
    ensures { Does (builtin_step function.now (configuration state.old) destination.0 called arguments.now (Some next)) result (configuration state.old) (configuration state.new) }
{
    match called {
        Builtin::Any(kind) => Step::Chooses {
            kind,
            destination,
            next,
        },
        Builtin::Assume => assume_step(function, state, arguments, next),
        Builtin::Assert => assert_step(function, state, arguments, next),
        Builtin::Panic => Step::Faulted(CheckClass::Panic),
    }
}
