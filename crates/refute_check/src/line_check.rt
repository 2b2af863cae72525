ghost use Rattle.std.specs.Prelude.{◌≡◌, ◌↔◌, ◌+◌, ◌*◌, ◌<◌, ◌≤◌, length, IsTrue, IsOk, All, OnOk, OnErr};
ghost use Rattle.region_pool.specs.Clauses.{AreLiterals};
ghost use Rattle.region_pool.specs.Refutation.{FollowsAt};
ghost use Rattle.refute_check.specs.Marks.{ArePast, AreOld};
ghost use Rattle.refute_check.specs.Accepting.{HaveLiteralsBefore};

use crate::marks::{assume_false, clear, has_true};
use crate::propagation::reaches;
use region_pool::{Clauses, Log};
use std::alloc::Global;
use std::marker::Model;
use vk_core::NoMemory;

/// Checks the lines of logs over so many variables, one at a time, with no memory but its own.
#[derive(Drop)]
pub struct Checker {
    variables: usize,
    room: usize,
    // A mark for each literal of the variables that there is room for.
    marks: Vec<u64>,
    // The stamp of the last line.
    stamp: u64,
}

impl Model for Checker {
    ghost use Rattle.std.specs.Prelude.{◌≡◌, ◌*◌, vec_len};
    ghost use Rattle.refute_check.specs.Marks.{ArePast};
    ghost use Rattle.refute_check.specs.Accepting.{Room};

    ghost Value = { Room };

    ghost view = { λ c. record { variables = c.variables; room = c.room } };

    ghost invariant = { λ c. (vec_len c.marks ≡ 2 * c.room) × ArePast c.stamp c.marks.items };
}

impl Checker {
    /// A checker for clauses over so many variables, which has no room yet.
    pub fn new(alloc: Global, variables: usize) -> Self
        ensures { result ≡ record { variables = variables; room = 0 } }
    {
        Checker {
            variables,
            room: 0,
            marks: Vec::new(alloc),
            stamp: 0,
        }
    }

    /// Makes room for clauses over so many variables.
    pub fn reserve(&mut self, literals: usize) -> Result<(), NoMemory>
        ensures variables { self.new.variables ≡ self.old.variables }
        ensures ok { OnOk result (literals ≤ self.new.room) }
        ensures keeps { self.old.room ≤ self.new.room }
        ensures succeeds { literals ≤ self.old.room → IsOk result }
        ensures err { OnErr result (self.new ≡ self.old) }
    {
        if literals <= self.room {
            return Ok(());
        }
        let Some(count) = literals.checked_mul(2) else {
            return Err(NoMemory);
        };
        self.marks.resize(count, 0)?;
        self.room = literals;
        Ok(())
    }

    /// For how many variables there is room.
    pub fn room(&self) -> usize
        ensures { result ≡ self.now.room }
    {
        self.room
    }

    /// Whether the line follows by its hints. The answer takes no memory.
    pub fn check_line(&mut self, clauses: &Clauses, log: &Log, line: usize) -> bool
        requires room { self.old.variables ≤ self.old.room }
        requires variables { clauses.now.variables ≡ self.old.variables }
        requires there { line < length log.now }
        requires earlier { HaveLiteralsBefore clauses.now.variables log.now line }
        ensures follows { IsTrue result ↔ FollowsAt clauses.now log.now line }
        ensures checker { self.new ≡ self.old }
    {
        line_follows(&mut self.marks, &mut self.stamp, clauses, log, line)
    }
}

// Whether the line follows, under a stamp of its own.
fn line_follows(
    marks: &mut [u64],
    stamp: &mut u64,
    clauses: &Clauses,
    log: &Log,
    line: usize,
) -> bool
    requires marks { 2 * clauses.now.variables ≤ length marks.old }
    requires past { ArePast stamp.old marks.old }
    requires there { line < length log.now }
    requires earlier { HaveLiteralsBefore clauses.now.variables log.now line }
    ensures past { ArePast stamp.new marks.new }
    ensures follows { IsTrue result ↔ FollowsAt clauses.now log.now line }
{
    *stamp = next_stamp(marks, *stamp);
    follows_by_hints(marks, *stamp, clauses, log, line)
}

// A stamp that no mark has.
fn next_stamp(marks: &mut [u64], stamp: u64) -> u64
    requires { ArePast stamp marks.old }
    ensures { AreOld result marks.new }
{
    if stamp < u64::MAX {
        return stamp + 1;
    }
    clear(marks);
    1
}

fn follows_by_hints(
    marks: &mut [u64],
    stamp: u64,
    clauses: &Clauses,
    log: &Log,
    line: usize,
) -> bool
    requires marks { 2 * clauses.now.variables ≤ length marks.old }
    requires old { AreOld stamp marks.old }
    requires there { line < length log.now }
    requires earlier { HaveLiteralsBefore clauses.now.variables log.now line }
    ensures past { ArePast stamp marks.new }
    ensures follows { IsTrue result ↔ FollowsAt clauses.now log.now line }
{
    let literals = log.literals(line);
    let hints = log.hints(line);
    if !are_literals(clauses.variables(), literals) {
        return false;
    }
    if !are_known(clauses.len(), line, hints) {
        return false;
    }
    assume_false(marks, stamp, literals);
    if has_true(marks, stamp, literals) {
        return false;
    }
    reaches(marks, stamp, clauses, log, hints)
}

// Whether the words are literals of so many variables.
pub(crate) fn are_literals(variables: usize, words: &[u64]) -> bool
    ensures { IsTrue result ↔ AreLiterals variables words.now }
{
    words.iter().all(|word| *word / 2 < variables as u64)
}

// Whether each hint numbers an input clause or one of so many lines.
fn are_known(inputs: usize, lines: usize, hints: &[u64]) -> bool
    ensures { IsTrue result ↔ All (λ hint. hint < inputs + lines) hints.now }
{
    hints.iter().all(|hint| {
        let number = *hint as usize;
        number < inputs || number - inputs < lines
    })
}
