//! Builds a chain of additions of 64 bits as terms, gates and clauses, and prints how many there are of each. Two words
//! say how many additions there are and which of them is the root. The times of the steps go to standard error.
#![tactic(auto)]

ghost use Rattle.std.specs.Prelude.{◌<◌, length};

mod chain;

use crate::chain::{Chain, build_chain};
use anyhow::Result;
use bit_blast::blast;
use clause_form::clauses;
use std::env::{self, Env};
use std::rt::Clock;
use std::time::Instant;
use sym_terms::{TermId, Terms};

/// The two numbers, or 1000 for one that is not there.
fn read_words<R: Env + AllocGlobal>(rt: &R) -> Result<(usize, usize)> {
    let mut words = env::args(rt)?.skip(1);
    let count = match words.next() {
        Some(word) => word.parse::<usize>()?,
        None => 1000,
    };
    let root = match words.next() {
        Some(word) => word.parse::<usize>()?,
        None => 1000,
    };
    Ok((count, root))
}

/// Makes the gates and the clauses of the root, and prints how many there are.
fn run<R: Print + Eprint + AllocGlobal + Clock>(rt: &R, terms: &Terms, root: TermId) -> Result<()>
    requires { root.0 < length terms.now }
{
    let start = Instant::now(rt)?;
    let gates = blast(rt.alloc(), terms, &[root])?;
    let blasted = start.elapsed(rt)?.as_micros();
    eprintln!(rt; "gates: {blasted} us")?;
    let start = Instant::now(rt)?;
    let literals = gates.roots[0].as_slice();
    let list = clauses(rt.alloc(), &gates, literals)?;
    let formed = start.elapsed(rt)?.as_micros();
    eprintln!(rt; "clauses: {formed} us")?;
    println!(rt;
        "{} terms, {} gates, {} clauses",
        terms.len(),
        gates.gates.len(),
        list.len()
    )?;
    Ok(())
}

fn main(rt: HostRuntime) -> Result<()> {
    let (count, wanted) = read_words(&rt)?;
    let start = Instant::now(&rt)?;
    let Chain { terms, root } = build_chain(rt.alloc(), count, wanted)?;
    let built = start.elapsed(&rt)?.as_micros();
    eprintln!(rt; "terms: {built} us")?;
    run(&rt, &terms, root)
}
