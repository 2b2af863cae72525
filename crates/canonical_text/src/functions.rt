ghost use Rattle.std.specs.Prelude.{◌≡◌, ◌++◌, ◌≤◌, OnOk, IfOk, length, take, drop};
ghost use Rattle.canonical_text.specs.Functions.{block_text, blocks_text, declared_text, function_text, functions_text, head_text, lets_text, more_functions, more_parameters, parameters_text, statements_text};

use crate::lines::{push_statement, push_terminator};
use crate::names::push_path;
use crate::places::{push_label, push_local};
use crate::positions::Position;
use crate::pushes::push_text;
use crate::types::push_type;
use mir_ir::{Block, Function, Local, Statement};
use std::alloc::Global;
use vk_core::NoMemory;

/// The canonical text of functions. A function has its parameters among its locals.
pub fn functions_text(alloc: Global, functions: &[Function]) -> Result<Vec<u8>, NoMemory>
    ensures { IfOk result (λ bytes. bytes.items ≡ functions_text functions.now) }
{
    let mut out = Vec::new(alloc);
    push_functions(&mut out, functions)?;
    Ok(out)
}

fn push_functions(out: &mut Vec<u8>, functions: &[Function]) -> Result<(), NoMemory>
    ensures { OnOk result (out.new.items ≡ out.old.items ++ functions_text functions.now) }
{
    match functions {
        [] => Ok(()),
        [first, rest @ ..] => {
            push_function(out, first)?;
            push_more_functions(out, rest)?;
            Ok(())
        }
    }
}

fn push_more_functions(out: &mut Vec<u8>, functions: &[Function]) -> Result<(), NoMemory>
    ensures { OnOk result (out.new.items ≡ out.old.items ++ more_functions functions.now) }
{
    for function in functions {
        push_text(out, "\n")?;
        push_function(out, function)?;
    }
    Ok(())
}

#[tactic(auto, unfolding(crate::specs::Functions::function_text))]
fn push_function(out: &mut Vec<u8>, function: &Function) -> Result<(), NoMemory>
    ensures { OnOk result (out.new.items ≡ out.old.items ++ function_text function.now) }
{
    push_head(out, function)?;
    push_lets(out, others(function))?;
    push_blocks(out, function.blocks.as_slice())?;
    push_text(out, "}\n")?;
    Ok(())
}

#[tactic(auto, unfolding(crate::specs::Functions::head_text))]
fn push_head(out: &mut Vec<u8>, function: &Function) -> Result<(), NoMemory>
    ensures { OnOk result (out.new.items ≡ out.old.items ++ head_text function.now) }
{
    push_text(out, "fn ")?;
    push_path(out, Position::Alone, &function.name)?;
    push_text(out, "(")?;
    push_parameters(out, parameters(function))?;
    push_text(out, ") -> ")?;
    push_type(out, &function.result)?;
    push_text(out, " {\n")?;
    Ok(())
}

/// The first locals of a function, which are its parameters.
fn parameters(function: &Function) -> &[Local]
    ensures { result.now ≡ take function.now.parameters function.now.locals }
{
    let locals = function.locals.as_slice();
    &locals[..locals.len().min(function.parameters as usize)]
}

/// The locals behind the parameters.
fn others(function: &Function) -> &[Local]
    ensures { result.now ≡ drop function.now.parameters function.now.locals }
{
    let locals = function.locals.as_slice();
    &locals[locals.len().min(function.parameters as usize)..]
}

fn push_parameters(out: &mut Vec<u8>, parameters: &[Local]) -> Result<(), NoMemory>
    ensures { OnOk result (out.new.items ≡ out.old.items ++ parameters_text parameters.now) }
{
    match parameters {
        [] => Ok(()),
        [first, rest @ ..] => {
            push_declared(out, first)?;
            push_more_parameters(out, rest)?;
            Ok(())
        }
    }
}

fn push_more_parameters(out: &mut Vec<u8>, parameters: &[Local]) -> Result<(), NoMemory>
    ensures { OnOk result (out.new.items ≡ out.old.items ++ more_parameters parameters.now) }
{
    for parameter in parameters {
        push_text(out, ", ")?;
        push_declared(out, parameter)?;
    }
    Ok(())
}

#[tactic(auto, unfolding(crate::specs::Functions::declared_text))]
fn push_declared(out: &mut Vec<u8>, local: &Local) -> Result<(), NoMemory>
    ensures { OnOk result (out.new.items ≡ out.old.items ++ declared_text local.now) }
{
    push_local(out, local.id)?;
    push_text(out, ": ")?;
    push_type(out, &local.ty)?;
    Ok(())
}

fn push_lets(out: &mut Vec<u8>, locals: &[Local]) -> Result<(), NoMemory>
    ensures { OnOk result (out.new.items ≡ out.old.items ++ lets_text locals.now) }
{
    for local in locals {
        push_text(out, "    let mut ")?;
        push_declared(out, local)?;
        push_text(out, ";\n")?;
    }
    Ok(())
}

fn push_blocks(out: &mut Vec<u8>, blocks: &[Block]) -> Result<(), NoMemory>
    ensures { OnOk result (out.new.items ≡ out.old.items ++ blocks_text blocks.now) }
{
    for block in blocks {
        push_block(out, block)?;
    }
    Ok(())
}

#[tactic(auto, unfolding(crate::specs::Functions::block_text))]
fn push_block(out: &mut Vec<u8>, block: &Block) -> Result<(), NoMemory>
    ensures { OnOk result (out.new.items ≡ out.old.items ++ block_text block.now) }
{
    push_text(out, "\n    ")?;
    push_label(out, block.id)?;
    push_text(out, ": {\n")?;
    push_statements(out, block.statements.as_slice())?;
    push_text(out, "        ")?;
    push_terminator(out, &block.terminator)?;
    push_text(out, "\n    }\n")?;
    Ok(())
}

fn push_statements(out: &mut Vec<u8>, statements: &[Statement]) -> Result<(), NoMemory>
    ensures { OnOk result (out.new.items ≡ out.old.items ++ statements_text statements.now) }
{
    for statement in statements {
        push_text(out, "        ")?;
        push_statement(out, statement)?;
        push_text(out, "\n")?;
    }
    Ok(())
}
