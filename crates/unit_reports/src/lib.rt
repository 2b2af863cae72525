//! What is told of the units of a program: the outcome of each check, the verdict of each unit, and the report's text.
#![tactic(auto)]

mod lines;
mod pushes;
mod report;
mod status;
mod values;
mod verdict;

pub use report::report_text;
pub use status::{CheckStatus, Outcome, UnitReport};
pub use verdict::{Verdict, verdict_of};
