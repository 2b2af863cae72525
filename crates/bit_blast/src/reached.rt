ghost use Rattle.std.specs.Prelude.{◌≡◌, ◌==◌, ◌||◌, ◌&&◌, ℕ, IfOk, length};
ghost use Rattle.gate_trim.specs.Marks.{AreMarked, AreWanted};
ghost use Rattle.bit_blast.specs.Reached.{has_part, is_part, is_root};

use crate::apply::takes_two;
use std::alloc::Global;
use sym_terms::{Term, TermId, Terms};
use vk_core::NoMemory;

/// Marks the term.
#[tactic(auto, using(crate::proofs::Reaching::marked_term, crate::proofs::Reaching::marked_no_term))]
fn mark(marks: &mut [bool], id: TermId)
    ensures { AreMarked marks.old marks.new (λ k. id.0 == k) }
{
    if id.0 < marks.len() {
        marks[id.0] = true;
    }
}

/// Marks the operands.
#[tactic(auto, using(crate::proofs::Reaching::marked_first, gate_trim::proofs::MarkLaws::marked_twice))]
fn mark_operands(marks: &mut [bool], two: bool, a: TermId, b: TermId)
    ensures { AreMarked marks.old marks.new (λ k. a.0 == k || (two && b.0 == k)) }
{
    mark(marks, a);
    if two {
        mark(marks, b);
    }
}

/// Marks the parts of the term.
#[tactic(auto, using(gate_trim::proofs::MarkLaws::marked_nowhere, gate_trim::proofs::MarkLaws::marked_thrice))]
fn mark_parts(marks: &mut [bool], term: Term)
    ensures { AreMarked marks.old marks.new (λ k. has_part k term) }
{
    match term {
        Term::Constant(_) => {}
        Term::Input {
            number: _,
            width: _,
        } => {}
        Term::Apply { op, a, b } => mark_operands(marks, takes_two(op), a, b),
        Term::Cast {
            a,
            signed: _,
            width: _,
        } => mark(marks, a),
        Term::Choose { test, a, b } => {
            mark(marks, test);
            mark(marks, a);
            mark(marks, b);
        }
        Term::Slice {
            a,
            from: _,
            width: _,
        } => mark(marks, a),
    }
}

/// Marks the roots.
fn mark_roots(marks: &mut [bool], roots: &[TermId])
    ensures { AreMarked marks.old marks.new (is_root roots.now) }
{
    for i in 0..roots.len() {
        mark(marks, roots[i]);
    }
}

/// Which terms are roots or parts of terms that are reached, and no others.
pub fn reached_terms(alloc: Global, terms: &Terms, roots: &[TermId]) -> Result<Vec<bool>, NoMemory>
    ensures one_each { IfOk result (λ marks. length marks.items ≡ length terms.now) }
    ensures reached { IfOk result (λ marks. AreWanted (is_root roots.now) (is_part terms.now) 0 marks.items) }
{
    let mut n = terms.len();
    let mut marks = vec![in alloc; false; n]?;
    mark_roots(marks.as_mut_slice(), roots);
    while n > 0 {
        n -= 1;
        if marks[n] {
            mark_parts(marks.as_mut_slice(), terms.term(TermId(n)));
        }
    }
    Ok(marks)
}
