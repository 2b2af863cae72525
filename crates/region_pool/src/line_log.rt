ghost use Rattle.std.specs.Prelude.{◌≡◌, ◌++◌, ◌∷◌, ◌<◌, ◌^◌, [], length, OnOk, OnErr};

use crate::blocks::{BlockRef, Region};
use std::alloc::Global;
use std::marker::Model;
use vk_core::NoMemory;

/// Lines of a refutation: each has the literals of a clause, and hints by which it follows. A hint is the number of an
/// input clause, or the count of the input clauses and the number of an earlier line added.
///
/// A log holds fewer than 2^60 lines.
#[derive(Drop)]
pub struct Log {
    literals: Region,
    hints: Region,
}

impl Model for Log {
    ghost use Rattle.std.specs.Prelude.{◌≡◌, List, length};
    ghost use Rattle.region_pool.specs.Log.{Line};
    ghost use Rattle.region_pool.specs.Lines.{lines_of};

    ghost Value = { List Line };

    ghost view = { λ l. lines_of l.literals.blocks l.hints.blocks };

    ghost invariant = { λ l. length l.literals.blocks ≡ length l.hints.blocks };
}

impl Log {
    ghost use Rattle.region_pool.specs.Log.{line_at};

    pub fn new(alloc: Global) -> Self
        ensures { result ≡ [] }
    {
        Log {
            literals: Region::new(alloc),
            hints: Region::new(alloc),
        }
    }

    /// Appends a line.
    pub fn add(&mut self, literals: &[u64], hints: &[u64]) -> Result<(), NoMemory>
        ensures ok { OnOk result (self.new ≡ self.old ++ (record { literals = literals.now; hints = hints.now }) ∷ []) }
        ensures err { OnErr result (self.new ≡ self.old) }
    {
        self.literals.reserve_ahead(literals.len() + 1)?;
        self.hints.put(hints)?;
        self.literals.put(literals)?;
        Ok(())
    }

    /// The count of the lines.
    pub fn len(&self) -> usize
        ensures len { result ≡ length self.now }
        ensures few { result < 2 ^ 60 }
    {
        self.literals.len()
    }

    /// Lends the literals of a line.
    pub fn literals(&self, at: usize) -> &[u64]
        requires { at < length self.now }
        ensures { result.now ≡ (line_at self.now at).literals }
    {
        self.literals.get(BlockRef { number: at })
    }

    /// Lends the hints of a line.
    pub fn hints(&self, at: usize) -> &[u64]
        requires { at < length self.now }
        ensures { result.now ≡ (line_at self.now at).hints }
    {
        self.hints.get(BlockRef { number: at })
    }
}
