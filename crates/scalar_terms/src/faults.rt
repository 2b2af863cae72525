ghost use Rattle.std.specs.Prelude.{◌≡◌, [], IfOk, None, OnOk, replicate, true};
ghost use Rattle.scalar_form.specs.Form.{is_scalar};
ghost use Rattle.scalar_runs.specs.Look.{blocks_end};
ghost use Rattle.scalar_terms.specs.Faults.{AreFaults};
ghost use Rattle.scalar_terms.specs.Starts.{IsStart};

use crate::failures::Failure;
use crate::join::put_way;
use crate::starts::{no_ways, start_way};
use crate::sweep::pass_all;
use crate::ways::Way;
use mir_ir::Function;
use scalar_runs::blocks_end;
use std::alloc::Global;
use sym_terms::Terms;
use vk_core::NoMemory;

/// The faults of a function: each with a term, under which inputs the run ends in it. The choice that is made in a block is
/// the input with the block's number.
#[derive(Drop)]
pub struct FaultTerms {
    pub terms: Terms,
    pub failures: Vec<Failure>,
}

/// Goes on behind all blocks, from the entry of bb0.
fn sweep(
    alloc: Global,
    terms: &mut Terms,
    failures: &mut Vec<Failure>,
    function: &Function,
    ways: &mut [Option<Way>],
    start: Way,
) -> Result<(), NoMemory>
    requires form { is_scalar function.now ≡ true }
    requires ways { ways.old ≡ replicate (blocks_end function.now.blocks) None }
    requires failures { failures.old.items ≡ [] }
    requires start { IsStart function.now [] terms.old start }
    ensures { OnOk result (AreFaults function.now terms.new failures.new.items) }
{
    put_way(ways, 0, start);
    pass_all(alloc, terms, failures, function, ways)?;
    Ok(())
}

/// The faults of a function of the scalar form as terms over its choices.
pub fn faults_of(alloc: Global, function: &Function) -> Result<FaultTerms, NoMemory>
    requires { is_scalar function.now ≡ true }
    ensures { IfOk result (λ found. AreFaults function.now found.terms found.failures.items) }
{
    let mut terms = Terms::new(alloc);
    let mut failures = Vec::new(alloc);
    let start = start_way(alloc, &mut terms, function)?;
    let mut ways = no_ways(alloc, blocks_end(function.blocks.as_slice()))?;
    sweep(
        alloc,
        &mut terms,
        &mut failures,
        function,
        ways.as_mut_slice(),
        start,
    )?;
    Ok(FaultTerms { terms, failures })
}
