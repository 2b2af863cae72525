ghost use Rattle.std.specs.Prelude.{◌≡◌, ◌≤◌, [], IfOk, OnOk, true};
ghost use Rattle.value_terms.specs.Made.{Grown};
ghost use Rattle.scalar_form.specs.Form.{is_scalar};
ghost use Rattle.scalar_terms.specs.Ways.{AreFailures};
ghost use Rattle.scalar_verdicts.specs.Rounds.{AreLeft, AreTold, IsFound, IsRound, RunsHaveInputs};

use crate::failures::{any_of, others_of};
use crate::runs::{note, run_with};
use mir_ir::Function;
use sat_core::Effort;
use scalar_terms::{Failure, FaultRun};
use std::alloc::Global;
use sym_terms::Terms;
use term_queries::{TermAnswer, ask};
use vk_core::NoMemory;

/// What a query of all failures that are left told.
#[derive(Drop)]
pub enum Round {
    /// None of them is so, whatever the choices are.
    Never,
    /// A run that ends in a fault of one of them.
    Found(FaultRun),
    /// The budget was spent.
    Spent,
}

/// The runs that were found, and the failures that may be yet; None where each fault has its run.
#[derive(Drop)]
pub struct Found {
    pub runs: Vec<FaultRun>,
    pub left: Option<Vec<Failure>>,
}

/// Asks whether one of the failures can be so.
fn ask_any(
    alloc: Global,
    function: &Function,
    terms: &mut Terms,
    left: &[Failure],
    budget: u64,
    effort: &mut Effort,
) -> Result<Round, NoMemory>
    requires form { is_scalar function.now ≡ true }
    requires failures { AreFailures terms.old left.now }
    requires told { AreTold function.now terms.old left.now }
    ensures grown { OnOk result (Grown terms.old terms.new) }
    ensures round { IfOk result (IsRound function.now terms.old left.now) }
    ensures rises { effort.old ≤ effort.new }
{
    let _spent = effort.spent();
    let root = any_of(terms, left)?;
    match ask(alloc, terms, root, budget, effort)? {
        TermAnswer::Never => Ok(Round::Never),
        TermAnswer::Spent => Ok(Round::Spent),
        TermAnswer::Can(numbers) => {
            let run = run_with(alloc, function, numbers.as_slice())?;
            Ok(Round::Found(run))
        }
    }
}

/// Finds a run to each fault of the failures, by one query of all that are left after the other: a query that is refuted ends
/// them all, and one that is not finds a run, whose fault is left no more.
pub fn find_runs(
    alloc: Global,
    function: &Function,
    terms: &mut Terms,
    failures: Vec<Failure>,
    budget: u64,
    effort: &mut Effort,
) -> Result<Found, NoMemory>
    requires form { is_scalar function.now ≡ true }
    requires left { AreLeft function.now terms.old failures.items [] }
    requires inputs { RunsHaveInputs function.now }
    ensures found { IfOk result (IsFound function.now terms.new) }
    ensures rises { effort.old ≤ effort.new }
{
    let mut runs = Vec::new(alloc);
    let mut left = failures;
    for _ in 0..left.len() {
        match ask_any(alloc, function, terms, left.as_slice(), budget, effort)? {
            Round::Never => return Ok(Found { runs, left: None }),
            Round::Spent => {
                return Ok(Found {
                    runs,
                    left: Some(left),
                });
            }
            Round::Found(run) => {
                let breach = run.breach;
                note(&mut runs, run)?;
                left = others_of(alloc, left.as_slice(), breach)?;
            }
        }
    }
    if left.as_slice().is_empty() {
        Ok(Found { runs, left: None })
    } else {
        Ok(Found {
            runs,
            left: Some(left),
        })
    }
}
