ghost use Rattle.std.specs.Prelude.{◌<◌, ℕ, IfOk, length};
ghost use Rattle.sum_circuits.specs.Chain.{IsWide};

use std::alloc::Global;
use sym_terms::{Term, TermId, TermOp, Terms};
use vk_core::NoMemory;

/// Terms, and one of them.
#[derive(Drop)]
pub struct Chain {
    pub terms: Terms,
    pub root: TermId,
}

/// Adds the step so often.
fn add_steps(
    terms: &mut Terms,
    from: TermId,
    step: TermId,
    count: usize,
) -> Result<TermId, NoMemory>
    requires from { IsWide terms.old from.0 }
    requires step { IsWide terms.old step.0 }
    ensures sum { IfOk result (λ sum. IsWide terms.new sum.0) }
    ensures kept { IfOk result (λ _. (id : ℕ) → IsWide terms.old id → IsWide terms.new id) }
{
    let mut sum = from;
    for _ in 0..count {
        sum = terms.insert(Term::Apply {
            op: TermOp::Add,
            a: sum,
            b: step,
        })?;
    }
    Ok(sum)
}

/// So many additions, each of the sum before it and the second of two inputs, and the sum with this number.
pub fn build_chain(alloc: Global, count: usize, wanted: usize) -> Result<Chain, NoMemory>
    ensures { IfOk result (λ chain. chain.root.0 < length chain.terms) }
{
    let mut terms = Terms::new(alloc);
    let first = terms.insert(Term::Input {
        number: 0,
        width: 64,
    })?;
    let step = terms.insert(Term::Input {
        number: 1,
        width: 64,
    })?;
    let before = count.min(wanted);
    let root = add_steps(&mut terms, first, step, before)?;
    add_steps(&mut terms, root, step, count - before)?;
    Ok(Chain { terms, root })
}
