//! The runs of functions over scalars: what a step does, and what words, locals and built-in functions are to it.
#![tactic(auto)]

mod breach;
mod builtins;
mod kinds;
mod look;
mod operators;
mod step;
mod values;

pub use breach::Breach;
pub use builtins::{Builtin, builtin_of};
pub use kinds::{Choice, ValueKind, is_scalar_value, is_word, kind_of, same_int};
pub use look::{block_of, blocks_end, local_kind, locals_end};
pub use operators::{are_operands, operator_value};
pub use step::{State, Step, begin, store, take_step};
pub use values::{is_signed_operand, kind_of_operand, word_of_constant};
