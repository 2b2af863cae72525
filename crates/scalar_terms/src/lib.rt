//! The runs of a function of the scalar form as terms over its choices.
#![tactic(auto)]

mod choices;
mod conditions;
mod failures;
mod faults;
mod join;
mod merge;
mod replays;
mod starts;
mod steps;
mod sweep;
mod switches;
mod terminators;
mod ways;

pub use failures::Failure;
pub use faults::{FaultTerms, faults_of};
pub use replays::{FaultRun, replay};
