ghost use Rattle.std.specs.Prelude.{◌≡◌, ◌+◌, ◌-◌, ◌≤◌, ◌<◌, ◌++◌, [], length, take, drop, slice_set, OnOk, OnErr, IsOk};

use std::alloc::Global;
use std::marker::Model;
use vk_core::NoMemory;

/// The words of a region's blocks, one after another. Its six functions are all that reaches them.
#[derive(Drop)]
pub(crate) struct Words {
    items: Vec<u64>,
}

impl Model for Words {
    ghost use Rattle.std.specs.Prelude.{vec_capacity};
    ghost use Rattle.region_pool.specs.Stored.{Stored};

    ghost Value = { Stored };

    ghost view = { λ w. record { words = w.items.items; capacity = vec_capacity w.items } };
}

impl Words {
    pub(crate) fn new(alloc: Global) -> Self
        ensures { result.words ≡ [] }
    {
        Words {
            items: Vec::new(alloc),
        }
    }

    /// Makes room for so many words more.
    pub(crate) fn make_room(&mut self, count: usize) -> Result<(), NoMemory>
        ensures words { self.new.words ≡ self.old.words }
        ensures grows { self.old.capacity ≤ self.new.capacity }
        ensures ok { OnOk result (length self.new.words + count ≤ self.new.capacity) }
        ensures succeeds { length self.old.words + count ≤ self.old.capacity → IsOk result }
    {
        self.items.reserve(count)?;
        Ok(())
    }

    /// Appends a block, and answers where it ends.
    pub(crate) fn copy_in(&mut self, block: &[u64]) -> usize
        requires { length self.old.words + length block.now ≤ self.old.capacity }
        ensures end { result ≡ length self.old.words + length block.now }
        ensures words { self.new.words ≡ self.old.words ++ block.now }
        ensures capacity { self.old.capacity ≤ self.new.capacity }
    {
        if self.items.extend_from_slice(block).is_err() {
            unreachable!()
        }
        self.items.len()
    }

    /// Changes the word at a place after a start.
    pub(crate) fn write(&mut self, start: usize, at: usize, word: u64)
        requires { start + at < length self.old.words }
        ensures words { self.new.words ≡ slice_set self.old.words (start + at) word }
        ensures capacity { self.new.capacity ≡ self.old.capacity }
    {
        self.items[start + at] = word;
    }

    /// Lends the words from a start to an end.
    pub(crate) fn lend(&self, start: usize, end: usize) -> &[u64]
        requires forward { start ≤ end }
        requires inside { end ≤ length self.now.words }
        ensures { result.now ≡ take (end - start) (drop start self.now.words) }
    {
        &self.items[start..end]
    }

    /// Forgets the words, and keeps their room.
    pub(crate) fn clear(&mut self)
        ensures words { self.new.words ≡ [] }
        ensures capacity { self.new.capacity ≡ self.old.capacity }
    {
        self.items.clear();
    }
}
