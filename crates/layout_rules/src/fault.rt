ghost use Rattle.std.specs.Prelude.{◌≡◌};
ghost use Rattle.layout_rules.specs.Refused.{IsRefusal};

use std::alloc::Global;
use thiserror::Error;
use vk_core::{Name, NoMemory};

/// The layout rules, in the order in which they are asked.
#[derive(Clone, Copy, Debug, PartialEq, Eq)]
pub enum LayoutKind {
    Unknown,
    Recursive,
    TooBig,
    Misaligned,
    Outside,
    Overlap,
}

/// The rule that is broken first, and the text of the first type that breaks it.
#[derive(Debug, Drop)]
pub enum LayoutFault {
    Rule { kind: LayoutKind, ty: Name },
    Memory,
}

impl From<NoMemory> for LayoutFault {
    ghost use Rattle.std.specs.Prelude.{◌≡◌};
    ghost use Rattle.layout_rules.specs.declared.fault.LayoutFault.TheVariants.{Memory};

    ghost from_gives = { λ _ fault. fault ≡ Memory };

    fn from(_error: NoMemory) -> LayoutFault {
        LayoutFault::Memory
    }
}

/// The refusal of a type, or the want of memory for its text.
pub fn refusal(alloc: Global, kind: LayoutKind, text: &Name) -> LayoutFault
    ensures { IsRefusal kind text.now result }
{
    match Name::from_bytes(alloc, text.as_bytes()) {
        Ok(ty) => LayoutFault::Rule { kind, ty },
        Err(_no_memory) => LayoutFault::Memory,
    }
}
