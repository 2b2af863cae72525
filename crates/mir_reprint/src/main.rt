//! Reads a text of MIR from standard input and prints its canonical text, or the line that says why it is refused. The
//! times that reading and printing take go to standard error.
#![tactic(auto)]

mod refusal;

use crate::refusal::print_refusal;
use anyhow::Result;
use mir_print::print;
use mir_text::{MAX_TEXT, parse};
use std::io::{self, Read, Write};
use std::process::ExitCode;
use std::rt::Clock;
use std::time::Instant;

/// Prints the canonical text of a text, or why it is refused. The status is 2 for a text that is refused.
fn run<R: Print + Eprint + AllocGlobal + Clock>(rt: &R, text: &[u8]) -> Result<u8> {
    if text.len() > MAX_TEXT {
        rt.println("error: file: TooLong")?;
        return Ok(2);
    }
    let start = Instant::now(rt)?;
    let answer = parse(rt.alloc(), text);
    let parsed = start.elapsed(rt)?.as_micros();
    eprintln!(rt; "parse: {parsed} us")?;
    match answer {
        Err(fault) => {
            print_refusal(rt, &fault)?;
            Ok(2)
        }
        Ok(functions) => {
            let start = Instant::now(rt)?;
            let printed = print(rt.alloc(), functions.as_slice())?;
            let took = start.elapsed(rt)?.as_micros();
            eprintln!(rt; "print: {took} us")?;
            io::writer(rt).write_all(printed.as_slice())?;
            Ok(0)
        }
    }
}

fn read_all<R: Input + AllocGlobal>(rt: &R) -> Result<Vec<u8>> {
    let mut text = Vec::new(rt.alloc());
    rt.reader().read_to_end(&mut text)?;
    Ok(text)
}

/// Ends with 1 where the text cannot be had, memory is not found or the output is not taken.
fn main(rt: HostRuntime) -> ExitCode {
    match read_all(&rt) {
        Ok(text) => match run(&rt, text.as_slice()) {
            Ok(status) => ExitCode::from(status),
            Err(_) => ExitCode::from(1),
        },
        Err(_) => ExitCode::from(1),
    }
}
