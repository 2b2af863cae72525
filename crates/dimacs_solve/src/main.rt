//! Solves a clause list in the DIMACS format, which it reads from standard input. It prints `s SATISFIABLE` with a line of
//! values, or `s UNSATISFIABLE` once the refutation is accepted. The times of the solver and of the checker go to standard
//! error.
#![tactic(auto)]

mod dimacs;
#[cfg(test)]
mod tests;

use crate::dimacs::read_dimacs;
use anyhow::Result;
use refute_check::{Verdict, accept};
use region_pool::{Clauses, Log};
use sat_core::{Effort, SatAnswer, solve};
use std::io;
use std::rt::Clock;
use std::time::Instant;

fn print_values(rt: &impl Print, values: &[bool]) -> io::Result<()> {
    rt.println("s SATISFIABLE")?;
    for (variable, value) in values.iter().enumerate() {
        println!(rt; "v {variable} {value}")?;
    }
    Ok(())
}

fn print_refutation<R: Print + Eprint + AllocGlobal + Clock>(
    rt: &R,
    clauses: &Clauses,
    log: &Log,
) -> Result<()> {
    let start = Instant::now(rt)?;
    let verdict = accept(rt.alloc(), clauses, log)?;
    let checked = start.elapsed(rt)?.as_micros();
    eprintln!(rt; "accept: {checked} us")?;
    match verdict {
        Verdict::Refuted => rt.println("s UNSATISFIABLE")?,
        Verdict::BadLine(line) => println!(rt; "c line {line} does not follow")?,
    }
    Ok(())
}

fn print_answer<R: Print + Eprint + AllocGlobal + Clock>(
    rt: &R,
    clauses: &Clauses,
    answer: SatAnswer,
) -> Result<()> {
    match answer {
        SatAnswer::Sat(values) => print_values(rt, &values)?,
        SatAnswer::Unsat(log) => print_refutation(rt, clauses, &log)?,
        SatAnswer::Spent(_log) => rt.println("s UNKNOWN")?,
    }
    Ok(())
}

fn run<R: Print + Eprint + AllocGlobal + Clock>(rt: &R, clauses: &Clauses) -> Result<()> {
    let start = Instant::now(rt)?;
    let answer = solve(rt.alloc(), clauses, u64::MAX, &mut Effort::new())?;
    let solved = start.elapsed(rt)?.as_micros();
    eprintln!(rt; "solve: {solved} us")?;
    print_answer(rt, clauses, answer)
}

fn main(rt: HostRuntime) -> Result<()> {
    let text = io::read_to_string(rt.alloc(), rt.reader())?;
    let clauses = read_dimacs(rt.alloc(), text.as_str())?;
    run(&rt, &clauses)
}
