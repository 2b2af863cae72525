ghost use Rattle.std.specs.Prelude.{◌≡◌};
ghost use Rattle.vk_core.specs.Class.{name_of_class};

use crate::ids::{BlockId, FnId};
use crate::name::Name;

/// What can go wrong at a site. Reports list the checks of one site in this order.
///
/// `Panic` to `Unreachable` are faults of plain runs; the others are those of contracts, of loop invariants
/// and of bounded unwinding.
#[derive(Clone, Copy, Debug, PartialEq, Eq)]
pub enum CheckClass {
    Panic,
    Assertion,
    Pointer,
    Uninit,
    Invalid,
    Offset,
    Compare,
    Dealloc,
    Division,
    Unreachable,
    Requires,
    Ensures,
    Modifies,
    Alias,
    InvariantEntry,
    InvariantStep,
    Unwind,
}

/// A statement or terminator of a function: `index` counts the statements of the block from 0, and the
/// terminator's is their count.
#[derive(Clone, Copy, Debug, PartialEq, Eq)]
pub struct Site {
    pub function: FnId,
    pub block: BlockId,
    pub index: u32,
}

/// The end of a run in a failed check.
#[derive(Clone, Copy, Debug, PartialEq, Eq)]
pub struct Fault {
    pub site: Site,
    pub class: CheckClass,
}

/// Where a refusal stands: in the text, or at the path of a declaration entry.
#[derive(Debug, Drop)]
pub enum At {
    Code(Site),
    Entry(Name),
}

/// The word of a report for the class.
pub fn class_name(class: CheckClass) -> &'static str
    ensures { result.now ≡ name_of_class class }
{
    match class {
        CheckClass::Panic => "panic",
        CheckClass::Assertion => "assertion",
        CheckClass::Pointer => "pointer",
        CheckClass::Uninit => "uninit",
        CheckClass::Invalid => "invalid",
        CheckClass::Offset => "offset",
        CheckClass::Compare => "compare",
        CheckClass::Dealloc => "dealloc",
        CheckClass::Division => "division",
        CheckClass::Unreachable => "unreachable",
        CheckClass::Requires => "requires",
        CheckClass::Ensures => "ensures",
        CheckClass::Modifies => "modifies",
        CheckClass::Alias => "alias",
        CheckClass::InvariantEntry => "invariant_entry",
        CheckClass::InvariantStep => "invariant_step",
        CheckClass::Unwind => "unwind",
    }
}
