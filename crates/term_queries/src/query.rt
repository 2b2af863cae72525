ghost use Rattle.std.specs.Prelude.{◌≡◌, ◌≤◌, ◌<◌, ◌^◌, IfOk, OnErr, length};
ghost use Rattle.sym_terms.specs.Terms.{width_of};
ghost use Rattle.term_queries.specs.Queries.{IsAnswer, IsKnown, effort_after};

use crate::numbers::numbers_of;
use bit_blast::{Gates, blast};
use clause_form::clauses;
use sat_core::{Effort, SatAnswer, solve};
use std::alloc::Global;
use sym_terms::{TermId, Terms};
use vk_core::NoMemory;

/// Whether a term of one bit can be 1.
#[derive(Drop)]
pub enum TermAnswer {
    /// It is 1 where the inputs have these numbers; an input beyond them has 0.
    Can(Vec<u128>),
    /// It is 0 whatever the inputs are.
    Never,
    /// As many lines as the budget did not tell.
    Spent,
}

/// Asks the solver whether a term of one bit can be 1. A budget of 2^60 or more is never spent.
pub fn ask(
    alloc: Global,
    terms: &Terms,
    root: TermId,
    budget: u64,
    effort: &mut Effort,
) -> Result<TermAnswer, NoMemory>
    requires inside { root.0 < length terms.now }
    requires bit { width_of terms.now root.0 ≡ 1 }
    ensures answer { IfOk result (λ answer. IsAnswer terms.now root.0 budget answer) }
    ensures effort { IfOk result (λ answer. effort.new ≡ effort_after effort.old budget answer) }
    ensures unlimited { 2 ^ 60 ≤ budget → IfOk result IsKnown }
    ensures err { OnErr result (effort.new ≡ effort.old) }
{
    let _known = terms.term(root);
    let gates = blast(alloc, terms, &[root])?;
    let literals = gates.roots[0].as_slice();
    let list = clauses(alloc, &gates, literals)?;
    let answer = solve(alloc, &list, budget, effort)?;
    match answer {
        SatAnswer::Sat(values) => {
            let numbers = numbers_of(alloc, gates.inputs.as_slice(), values.as_slice())?;
            Ok(TermAnswer::Can(numbers))
        }
        SatAnswer::Unsat(_log) => Ok(TermAnswer::Never),
        SatAnswer::Spent(_log) => Ok(TermAnswer::Spent),
    }
}
