ghost use Rattle.std.specs.Prelude.{◌≡◌, ◌↔◌, IsTrue, IfOk};

use crate::memory::NoMemory;
use sqlite_items::Items;
use std::alloc::Global;
use std::marker::Model;

/// A name of the program, as a function's path or a check's description. Contracts see its bytes.
#[derive(Debug, Drop)]
pub struct Name {
    bytes: Items<u8>,
}

impl Model for Name {
    ghost use Rattle.std.specs.Prelude.{ℕ, List};

    ghost Value = { List ℕ };

    ghost view = { λ n. n.bytes };
}

impl Name {
    /// A copy of these bytes, which need not be UTF-8.
    pub fn from_bytes(alloc: Global, bytes: &[u8]) -> Result<Name, NoMemory>
        ensures { IfOk result (λ name. name ≡ bytes.now) }
    {
        let bytes = Items::from_slice(alloc, bytes)?;
        Ok(Name { bytes })
    }

    pub fn as_bytes(&self) -> &[u8]
        ensures { result.now ≡ self.now }
    {
        self.bytes.as_slice()
    }
}
