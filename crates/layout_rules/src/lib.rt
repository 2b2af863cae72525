//! The rules that the layouts of a program's types keep.
#![tactic(auto)]

mod check;
mod code_rows;
mod declared_rows;
mod fault;
mod placing;
mod recursion;
mod values;

pub use check::{check_layouts, judge_types};
pub use fault::{LayoutFault, LayoutKind};
