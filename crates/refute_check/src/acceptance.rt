ghost use Rattle.std.specs.Prelude.{◌≡◌, ◌↔◌, ◌<◌, length, IsTrue, IfOk, Ok};
ghost use Rattle.region_pool.specs.Literals.{IsUnsatisfiable};
ghost use Rattle.region_pool.specs.Refutation.{EndsEmpty};

use crate::line_check::Checker;
use region_pool::{Clauses, Log};
use std::alloc::Global;
use vk_core::NoMemory;

/// What a check of a log finds.
#[derive(Clone, Copy, Debug, PartialEq, Eq)]
pub enum Verdict {
    /// The log refutes the clauses.
    Refuted,
    /// The first line that does not follow; or the count of the lines, where all follow and the last is not empty or there
    /// is none.
    BadLine(usize),
}

ghost use Rattle.refute_check.specs.Accepting.{VerdictIs};

/// Checks a log against the clauses that it is to refute.
pub fn accept(alloc: Global, clauses: &Clauses, log: &Log) -> Result<Verdict, NoMemory>
    ensures verdict { IfOk result (VerdictIs clauses.now log.now) }
    ensures sound { result ≡ Ok Verdict.Refuted → IsUnsatisfiable clauses.now.clauses }
{
    let mut checker = Checker::new(alloc, clauses.variables());
    checker.reserve(clauses.variables())?;
    for line in 0..log.len() {
        if !checker.check_line(clauses, log, line) {
            return Ok(Verdict::BadLine(line));
        }
    }
    if ends_empty(log) {
        Ok(Verdict::Refuted)
    } else {
        Ok(Verdict::BadLine(log.len()))
    }
}

// Whether there is a last line, and it is empty.
fn ends_empty(log: &Log) -> bool
    ensures { IsTrue result ↔ EndsEmpty log.now }
{
    let count = log.len();
    count > 0 && log.literals(count - 1).is_empty()
}
