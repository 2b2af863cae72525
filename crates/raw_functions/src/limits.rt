ghost use Rattle.std.specs.Prelude.{◌≡◌};
ghost use Rattle.mir_grammar.specs.Values.{all_passed};
ghost use Rattle.raw_functions.specs.Limits.{block_all_passed, blocks_passed, declared_passed, function_passed, functions_passed, limit_in, limit_of};

use mir_grammar::{Declared, Limited, Passed, RawBlock, RawFunction};
use mir_ir::Statement;

/// The most functions that a text has.
const MAX_FUNCTIONS: usize = 4096;

/// A limit of texts: how many functions, the numbers of blocks and of locals, the bytes of a name.
#[derive(Clone, Copy, Debug, PartialEq, Eq)]
pub enum Limit {
    Functions,
    Blocks,
    Locals,
    NameBytes,
}

#[tactic(auto, using(crate::proofs::Limiting::both_none, crate::proofs::Limiting::both_assoc))]
fn declared_passed(declared: &[Declared]) -> Passed
    ensures { result ≡ declared_passed declared.now }
{
    let mut passed = Passed::none();
    let mut left = declared;
    while let [local, rest @ ..] = left {
        let one = Passed::of_local(local.id.0).both(Passed::of_name(local.ty.is_long));
        passed = passed.both(one);
        left = rest;
    }
    passed
}

#[tactic(auto, using(crate::proofs::Limiting::both_none, crate::proofs::Limiting::both_assoc))]
fn statements_passed(statements: &[Limited<Option<Statement>>]) -> Passed
    ensures { result ≡ all_passed statements.now }
{
    let mut passed = Passed::none();
    let mut left = statements;
    while let [statement, rest @ ..] = left {
        passed = passed.both(statement.passed);
        left = rest;
    }
    passed
}

fn block_passed(block: &RawBlock) -> Passed
    ensures { result ≡ block_all_passed block.now }
{
    let statements = statements_passed(block.statements.as_slice());
    Passed::of_block(block.id.0).both(statements.both(block.ending.passed))
}

#[tactic(auto, using(crate::proofs::Limiting::both_none, crate::proofs::Limiting::both_assoc))]
fn blocks_passed(blocks: &[RawBlock]) -> Passed
    ensures { result ≡ blocks_passed blocks.now }
{
    let mut passed = Passed::none();
    let mut left = blocks;
    while let [block, rest @ ..] = left {
        passed = passed.both(block_passed(block));
        left = rest;
    }
    passed
}

fn function_passed(function: &RawFunction) -> Passed
    ensures { result ≡ function_passed function.now }
{
    let names = Passed::of_name(function.name.is_long).both(Passed::of_name(
        function.result.is_long,
    ));
    let parameters = declared_passed(function.parameters.as_slice());
    let locals = parameters.both(declared_passed(function.items.as_slice()));
    names.both(locals.both(blocks_passed(function.blocks.as_slice())))
}

#[tactic(auto, using(crate::proofs::Limiting::both_none, crate::proofs::Limiting::both_assoc), unfolding(crate::specs::Limits::functions_passed))]
fn functions_passed(functions: &[RawFunction]) -> Passed
    ensures { result ≡ functions_passed functions.now }
{
    let mut passed = Passed::none();
    let mut left = functions;
    while let [function, rest @ ..] = left {
        passed = passed.both(function_passed(function));
        left = rest;
    }
    passed
}

fn limit_in(passed: Passed) -> Option<Limit>
    ensures { result ≡ limit_in passed }
{
    if passed.blocks {
        Some(Limit::Blocks)
    } else if passed.locals {
        Some(Limit::Locals)
    } else if passed.names {
        Some(Limit::NameBytes)
    } else {
        None
    }
}

/// The first limit, in the order of `Limit`, that the functions of a text pass.
#[tactic(auto, unfolding(crate::specs::Limits::limit_of))]
pub fn limit_of(functions: &[RawFunction]) -> Option<Limit>
    ensures { result ≡ limit_of functions.now }
{
    if functions.len() > MAX_FUNCTIONS {
        Some(Limit::Functions)
    } else {
        limit_in(functions_passed(functions))
    }
}
