//! The program: verifies proof harnesses in a text of MIR.
#![tactic(auto)]

mod answer;
mod built;
mod command;
mod judge;
mod output;
mod units;

use command::run_command;
use sat_core::Effort;
use std::env;
use std::io::ErrorKind;
use std::process::ExitCode;
use vk_files::{HostFiles, HostSink};

/// Ends with 65 where a word is no UTF-8, with 3 where memory for the words is not found, and else with the status
/// of the command.
fn main(rt: HostRuntime) -> ExitCode {
    let mut words = Vec::new(rt.alloc());
    let arguments = match env::args(&rt) {
        Ok(arguments) => arguments,
        Err(error) if error.kind() == ErrorKind::OutOfMemory => return ExitCode::from(3),
        Err(_) => return ExitCode::from(65),
    };
    for word in arguments.skip(1) {
        if words.push(word).is_err() {
            return ExitCode::from(3);
        }
    }
    let mut files = HostFiles::new(&rt);
    let mut out = HostSink::new(&rt);
    let mut effort = Effort::new();
    ExitCode::from(run_command(
        rt.alloc(),
        words.as_slice(),
        &mut files,
        &mut out,
        &mut effort,
    ))
}

#[cfg(test)]
mod tests;
