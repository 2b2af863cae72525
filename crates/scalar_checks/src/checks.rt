ghost use Rattle.std.specs.Prelude.{◌≡◌, ◌+◌, ◌<◌, ◌^◌, true, [], ◌∷◌, ◌++◌, IfOk, OnOk, length};
ghost use Rattle.scalar_checks.specs.Checks.{assign_checks, block_checks, call_checks, check_at, checks_behind, checks_in, checks_of, divides, division_checks, first_text, memory_checks, names_place, place_checks, return_checks, second_text, some_names_place, statement_checks, terminator_checks, text_checks, text_of_operand, unwind_checks};
ghost use Rattle.scalar_checks.specs.Complete.{EachFaultIsListed};
ghost use Rattle.scalar_form.specs.Form.{is_scalar};

use mir_ir::{BinaryOp, Block, Constant, Function, Operand, Rvalue, Statement, Terminator};
use scalar_runs::{Breach, Builtin, block_of, blocks_end, builtin_of};
use std::alloc::Global;
use vk_core::{BlockId, CheckClass, Name, NoMemory};

/// One thing that is checked at a statement or terminator. Reports print the description.
#[derive(Debug, Drop)]
pub struct Check {
    pub breach: Breach,
    pub description: Name,
}

fn push(
    alloc: Global,
    checks: &mut Vec<Check>,
    breach: Breach,
    description: &[u8],
) -> Result<(), NoMemory>
    ensures { OnOk result (checks.new.items ≡ checks.old.items ++ check_at breach.block breach.index breach.class description.now ∷ []) }
{
    let description = Name::from_bytes(alloc, description)?;
    checks.push(Check {
        breach,
        description,
    })?;
    Ok(())
}

fn push_class(
    alloc: Global,
    checks: &mut Vec<Check>,
    block: BlockId,
    index: u32,
    class: CheckClass,
    description: &[u8],
) -> Result<(), NoMemory>
    ensures { OnOk result (checks.new.items ≡ checks.old.items ++ check_at block index class description.now ∷ []) }
{
    let breach = Breach {
        block,
        index,
        class,
    };
    push(alloc, checks, breach, description)?;
    Ok(())
}

#[tactic(auto, using(crate::proofs::Pushes::appended_twice, crate::proofs::Pushes::appended_thrice))]
fn push_memory(
    alloc: Global,
    checks: &mut Vec<Check>,
    block: BlockId,
    index: u32,
) -> Result<(), NoMemory>
    ensures { OnOk result (checks.new.items ≡ checks.old.items ++ memory_checks block index) }
{
    push_class(
        alloc,
        checks,
        block,
        index,
        CheckClass::Pointer,
        b"memory access",
    )?;
    push_class(
        alloc,
        checks,
        block,
        index,
        CheckClass::Uninit,
        b"uninitialised byte",
    )?;
    push_class(
        alloc,
        checks,
        block,
        index,
        CheckClass::Invalid,
        b"invalid value",
    )?;
    Ok(())
}

fn divides(value: &Rvalue) -> bool
    ensures { result ≡ divides value.now }
{
    match value {
        Rvalue::Binary { op, .. } => match op {
            BinaryOp::Div | BinaryOp::Rem => true,
            _ => false,
        },
        _ => false,
    }
}

fn push_division(
    alloc: Global,
    checks: &mut Vec<Check>,
    block: BlockId,
    index: u32,
    is_division: bool,
) -> Result<(), NoMemory>
    ensures { OnOk result (checks.new.items ≡ checks.old.items ++ division_checks block index is_division) }
{
    if is_division {
        push_class(
            alloc,
            checks,
            block,
            index,
            CheckClass::Division,
            b"division",
        )?;
    }
    Ok(())
}

#[tactic(auto, using(crate::proofs::Pushes::appended_twice, crate::proofs::Pushes::appended_thrice))]
fn push_assign(
    alloc: Global,
    checks: &mut Vec<Check>,
    block: BlockId,
    index: u32,
    value: &Rvalue,
) -> Result<(), NoMemory>
    ensures { OnOk result (checks.new.items ≡ checks.old.items ++ assign_checks block index value.now) }
{
    push_memory(alloc, checks, block, index)?;
    push_division(alloc, checks, block, index, divides(value))?;
    Ok(())
}

fn push_statement(
    alloc: Global,
    checks: &mut Vec<Check>,
    block: BlockId,
    index: u32,
    statement: &Statement,
) -> Result<(), NoMemory>
    ensures { OnOk result (checks.new.items ≡ checks.old.items ++ statement_checks block index statement.now) }
{
    match statement {
        Statement::Assign { value, .. } => push_assign(alloc, checks, block, index, value),
        Statement::SetVariant { .. } => push_memory(alloc, checks, block, index),
        Statement::StorageLive(_) | Statement::StorageDead(_) => Ok(()),
    }
}

fn push_return(
    alloc: Global,
    checks: &mut Vec<Check>,
    block: BlockId,
    index: u32,
    next: Option<BlockId>,
) -> Result<(), NoMemory>
    ensures { OnOk result (checks.new.items ≡ checks.old.items ++ return_checks block index next) }
{
    match next {
        Some(_) => Ok(()),
        None => push_class(
            alloc,
            checks,
            block,
            index,
            CheckClass::Unreachable,
            b"unreachable code",
        ),
    }
}

fn push_unwind(
    alloc: Global,
    checks: &mut Vec<Check>,
    block: BlockId,
    index: u32,
) -> Result<(), NoMemory>
    ensures { OnOk result (checks.new.items ≡ checks.old.items ++ unwind_checks block index) }
{
    push_class(
        alloc,
        checks,
        block,
        index,
        CheckClass::Unwind,
        b"unwinding assertion",
    )?;
    Ok(())
}

#[tactic(auto, using(crate::proofs::Pushes::appended_twice, crate::proofs::Pushes::appended_thrice))]
fn push_call(
    alloc: Global,
    checks: &mut Vec<Check>,
    block: BlockId,
    index: u32,
    next: Option<BlockId>,
) -> Result<(), NoMemory>
    ensures { OnOk result (checks.new.items ≡ checks.old.items ++ call_checks block index next) }
{
    push_memory(alloc, checks, block, index)?;
    push_return(alloc, checks, block, index, next)?;
    push_unwind(alloc, checks, block, index)?;
    Ok(())
}

fn names_place(operand: &Operand) -> bool
    ensures { result ≡ names_place operand.now }
{
    match operand {
        Operand::Copy(_) => true,
        Operand::Move(_) => true,
        Operand::Const(_) => false,
    }
}

fn some_names_place(operands: &[Operand]) -> bool
    ensures { result ≡ some_names_place operands.now }
{
    let mut left = operands;
    while let [operand, rest @ ..] = left {
        if names_place(operand) {
            return true;
        }
        left = rest;
    }
    false
}

fn push_place(
    alloc: Global,
    checks: &mut Vec<Check>,
    block: BlockId,
    index: u32,
    names_place: bool,
) -> Result<(), NoMemory>
    ensures { OnOk result (checks.new.items ≡ checks.old.items ++ place_checks block index names_place) }
{
    if names_place {
        push_memory(alloc, checks, block, index)?;
    }
    Ok(())
}

fn text_of_operand(operand: &Operand) -> &[u8]
    ensures { result.now ≡ text_of_operand operand.now }
{
    match operand {
        Operand::Const(constant) => match constant {
            Constant::Text(text) => text.as_slice(),
            _ => &[],
        },
        _ => &[],
    }
}

fn first_text(arguments: &[Operand]) -> &[u8]
    ensures { result.now ≡ first_text arguments.now }
{
    match arguments {
        [] => &[],
        [text, ..] => text_of_operand(text),
    }
}

fn second_text(arguments: &[Operand]) -> &[u8]
    ensures { result.now ≡ second_text arguments.now }
{
    match arguments {
        [] => &[],
        [_, rest @ ..] => first_text(rest),
    }
}

fn push_text(
    alloc: Global,
    checks: &mut Vec<Check>,
    block: BlockId,
    index: u32,
    called: Option<Builtin>,
    arguments: &[Operand],
) -> Result<(), NoMemory>
    ensures { OnOk result (checks.new.items ≡ checks.old.items ++ text_checks block index called arguments.now) }
{
    match called {
        Some(Builtin::Assert) => push_class(
            alloc,
            checks,
            block,
            index,
            CheckClass::Assertion,
            second_text(arguments),
        ),
        Some(Builtin::Panic) => push_class(
            alloc,
            checks,
            block,
            index,
            CheckClass::Panic,
            first_text(arguments),
        ),
        _ => Ok(()),
    }
}

#[tactic(auto, using(crate::proofs::Pushes::appended_twice, crate::proofs::Pushes::appended_thrice))]
fn push_assert(
    alloc: Global,
    checks: &mut Vec<Check>,
    block: BlockId,
    index: u32,
    text: &[u8],
    names_place: bool,
) -> Result<(), NoMemory>
    ensures { OnOk result (checks.new.items ≡ checks.old.items ++ (check_at block index CheckClass.Panic text.now ∷ place_checks block index names_place)) }
{
    push_class(alloc, checks, block, index, CheckClass::Panic, text)?;
    push_place(alloc, checks, block, index, names_place)?;
    Ok(())
}

#[tactic(auto, using(crate::proofs::Pushes::appended_twice, crate::proofs::Pushes::appended_thrice))]
fn push_drop(
    alloc: Global,
    checks: &mut Vec<Check>,
    block: BlockId,
    index: u32,
) -> Result<(), NoMemory>
    ensures { OnOk result (checks.new.items ≡ checks.old.items ++ (memory_checks block index ++ unwind_checks block index)) }
{
    push_memory(alloc, checks, block, index)?;
    push_unwind(alloc, checks, block, index)?;
    Ok(())
}

#[tactic(auto, using(crate::proofs::Pushes::appended_twice, crate::proofs::Pushes::appended_thrice))]
fn push_called(
    alloc: Global,
    checks: &mut Vec<Check>,
    block: BlockId,
    index: u32,
    called: Option<Builtin>,
    arguments: &[Operand],
    next: Option<BlockId>,
) -> Result<(), NoMemory>
    ensures { OnOk result (checks.new.items ≡ checks.old.items ++ (text_checks block index called arguments.now ++ call_checks block index next)) }
{
    push_text(alloc, checks, block, index, called, arguments)?;
    push_call(alloc, checks, block, index, next)?;
    Ok(())
}

fn push_terminator(
    alloc: Global,
    checks: &mut Vec<Check>,
    block: BlockId,
    index: u32,
    last: &Terminator,
) -> Result<(), NoMemory>
    ensures { OnOk result (checks.new.items ≡ checks.old.items ++ terminator_checks block index last.now) }
{
    match last {
        Terminator::Goto { .. } => Ok(()),
        Terminator::Switch { operand, .. } => {
            push_place(alloc, checks, block, index, names_place(operand))
        }
        Terminator::Return => push_memory(alloc, checks, block, index),
        Terminator::Unreachable => push_class(
            alloc,
            checks,
            block,
            index,
            CheckClass::Unreachable,
            b"unreachable code",
        ),
        Terminator::Drop { .. } => push_drop(alloc, checks, block, index),
        Terminator::Assert {
            operand,
            text,
            shown,
            ..
        } => push_assert(
            alloc,
            checks,
            block,
            index,
            text.as_slice(),
            names_place(operand) || some_names_place(shown.as_slice()),
        ),
        Terminator::Call {
            callee,
            arguments,
            next,
            ..
        } => push_called(
            alloc,
            checks,
            block,
            index,
            builtin_of(callee),
            arguments.as_slice(),
            *next,
        ),
    }
}

#[tactic(auto, using(crate::proofs::Pushes::appended_twice, crate::proofs::Pushes::appended_thrice))]
fn push_behind(
    alloc: Global,
    checks: &mut Vec<Check>,
    block: BlockId,
    index: u32,
    statements: &[Statement],
    last: &Terminator,
) -> Result<(), NoMemory>
    requires { index + length statements.now < 2 ^ 32 }
    ensures { OnOk result (checks.new.items ≡ checks.old.items ++ checks_behind block index statements.now last.now) }
{
    let mut at = index;
    let mut left = statements;
    while let [statement, rest @ ..] = left {
        push_statement(alloc, checks, block, at, statement)?;
        at += 1;
        left = rest;
    }
    push_terminator(alloc, checks, block, at, last)?;
    Ok(())
}

/// The checks of a block.
fn push_block(alloc: Global, checks: &mut Vec<Check>, block: &Block) -> Result<(), NoMemory>
    requires { length block.now.statements < 2 ^ 32 }
    ensures { OnOk result (checks.new.items ≡ checks.old.items ++ block_checks block.now) }
{
    push_behind(
        alloc,
        checks,
        block.id,
        0,
        block.statements.as_slice(),
        &block.terminator,
    )
}

/// The checks of the block with this number, where there is one.
#[tactic(auto, using(scalar_form::proofs::FormLaws::short_block))]
fn push_numbered(
    alloc: Global,
    checks: &mut Vec<Check>,
    function: &Function,
    number: usize,
) -> Result<(), NoMemory>
    requires number { number < 2 ^ 32 }
    requires form { is_scalar function.now ≡ true }
    ensures { OnOk result (checks.new.items ≡ checks.old.items ++ checks_in function.now number) }
{
    if let Some(block) = block_of(function, BlockId(number as u32)) {
        push_block(alloc, checks, block)?;
    }
    Ok(())
}

/// The checks of a function of the form in the order of reports: by block number, statement and class.
#[tactic(auto, using(crate::proofs::Runs::each_fault_is_listed), unfolding(crate::specs::Checks::checks_of))]
pub fn checks_of(alloc: Global, function: &Function) -> Result<Vec<Check>, NoMemory>
    requires { is_scalar function.now ≡ true }
    ensures list { IfOk result (λ checks. checks.items ≡ checks_of function.now) }

    // The list leaves out no fault in which a run of any length can end.
    ensures complete { IfOk result (λ checks. EachFaultIsListed function.now) }
{
    let mut checks = Vec::new(alloc);
    for number in 0..blocks_end(function.blocks.as_slice()) {
        push_numbered(alloc, &mut checks, function, number)?;
    }
    Ok(checks)
}
