ghost use Rattle.std.specs.Prelude.{◌≡◌, ◌↔◌, ◌+◌, ◌≤◌, ◌<◌, ◌^◌, ◌++◌, ◌∷◌, [], length, All, OnOk, OnErr, IfOk, IsOk, IsTrue};
ghost use Rattle.region_pool.specs.Ends.{start_of, end_of};

use crate::words::Words;
use std::alloc::Global;
use std::marker::Model;
use vk_core::NoMemory;

/// Names a block of a [`Region`] by its place in the list of blocks.
#[derive(Clone, Copy, Debug, PartialEq, Eq)]
pub struct BlockRef {
    pub number: usize,
}

// Where a block lies among the words.
#[derive(Clone, Copy)]
struct Span {
    start: usize,
    end: usize,
}

const MOST_BLOCKS: usize = 1 << 60;

// How many words at most are asked for before they are needed.
const MOST_AHEAD: usize = 1024;

// Where the block with this number lies.
fn span_of(ends: &[usize], number: usize) -> Span
    requires { number < length ends.now }
    ensures start { result.start ≡ start_of ends.now number }
    ensures end { result.end ≡ end_of ends.now number }
{
    let start = if number == 0 { 0 } else { ends[number - 1] };
    Span {
        start,
        end: ends[number],
    }
}

/// A list of blocks of words, which are lent where they lie.
///
/// A region holds fewer than 2^60 blocks.
#[derive(Drop)]
pub struct Region {
    words: Words,
    // Where each block ends; it starts where the block before it ends.
    ends: Vec<usize>,
    // How many more words are promised, where a block counts one more than it has.
    room: usize,
    // How many are promised to an empty region.
    whole: usize,
}

impl Model for Region {
    ghost use Rattle.region_pool.specs.Blocks.{Blocks};

    ghost Value = { Blocks };

    ghost use Rattle.region_pool.specs.Layout.{blocks_of, IsLaidOut};

    ghost view = { λ r. record { blocks = blocks_of r.words.words r.ends.items; spare = r.room } };

    ghost invariant = { λ r. IsLaidOut r };
}

impl Region {
    ghost use Rattle.region_pool.specs.Blocks.{block_at, with_word};

    pub fn new(alloc: Global) -> Self
        ensures { result ≡ record { blocks = []; spare = 0 } }
    {
        Region {
            words: Words::new(alloc),
            ends: Vec::new(alloc),
            room: 0,
            whole: 0,
        }
    }

    /// Makes room for so many words, where a block counts one more than it has.
    pub fn reserve(&mut self, words: usize) -> Result<(), NoMemory>
        ensures blocks { self.new.blocks ≡ self.old.blocks }
        ensures ok { OnOk result (words ≤ self.new.spare) }
        ensures keeps { self.old.spare ≤ self.new.spare }
        ensures succeeds { words ≤ self.old.spare → IsOk result }
        ensures err { OnErr result (self.new ≡ self.old) }
    {
        if words <= self.room {
            return Ok(());
        }
        if words >= MOST_BLOCKS - self.ends.len() {
            return Err(NoMemory);
        }
        self.words.make_room(words)?;
        self.ends.reserve(words)?;
        self.room = words;
        self.whole = self.whole.max(words);
        Ok(())
    }

    // Makes room for so many words, and for some more where the list is long, so that few puts have to ask for it.
    pub(crate) fn reserve_ahead(&mut self, words: usize) -> Result<(), NoMemory>
        ensures blocks { self.new.blocks ≡ self.old.blocks }
        ensures ok { OnOk result (words ≤ self.new.spare) }
        ensures keeps { self.old.spare ≤ self.new.spare }
        ensures succeeds { words ≤ self.old.spare → IsOk result }
        ensures err { OnErr result (self.new ≡ self.old) }
    {
        if words <= self.room {
            return Ok(());
        }
        let ahead = self.ends.len().min(MOST_AHEAD);
        self.reserve(words.max(ahead))?;
        Ok(())
    }

    /// How many more words are sure to fit, where a block counts one more than it has.
    pub fn spare(&self) -> usize
        ensures { result ≡ self.now.spare }
    {
        self.room
    }

    /// Appends a block. It cannot fail where `spare` is at least the count of the words and one more.
    #[tactic(auto, using(crate::proofs::Ends::length_blocks_from))]
    pub fn put(&mut self, words: &[u64]) -> Result<BlockRef, NoMemory>
        ensures number { IfOk result (λ block. block.number ≡ length self.old.blocks) }
        ensures ok { OnOk result (self.new.blocks ≡ self.old.blocks ++ words.now ∷ []) }
        ensures spare { OnOk result (self.old.spare ≤ self.new.spare + length words.now + 1) }
        ensures succeeds { length words.now < self.old.spare → IsOk result }
        ensures err { OnErr result (self.new ≡ self.old) }
    {
        let number = self.ends.len();
        self.reserve_ahead(words.len() + 1)?;
        self.append(words);
        Ok(BlockRef { number })
    }

    // Appends a block for which there is room.
    fn append(&mut self, words: &[u64])
        requires { length words.now < self.old.spare }
        ensures blocks { self.new.blocks ≡ self.old.blocks ++ words.now ∷ [] }
        ensures spare { self.new.spare + length words.now + 1 ≡ self.old.spare }
    {
        let end = self.words.copy_in(words);
        if self.ends.push(end).is_err() {
            unreachable!()
        }
        self.room -= words.len() + 1;
    }

    /// Whether the region has the block.
    #[tactic(auto, using(crate::proofs::Ends::length_blocks_from))]
    pub fn has(&self, block: BlockRef) -> bool
        ensures { IsTrue result ↔ (block.number < length self.now.blocks) }
    {
        block.number < self.ends.len()
    }

    /// Lends the words of a block.
    pub fn get(&self, block: BlockRef) -> &[u64]
        requires { block.number < length self.now.blocks }
        ensures { result.now ≡ block_at self.now.blocks block.number }
    {
        let span = span_of(self.ends.as_slice(), block.number);
        self.words.lend(span.start, span.end)
    }

    /// Changes one word of a block.
    pub fn set(&mut self, block: BlockRef, at: usize, word: u64)
        requires has { block.number < length self.old.blocks }
        requires inside { at < length (block_at self.old.blocks block.number) }
        ensures { self.new ≡ with_word self.old block.number at word }
    {
        let span = span_of(self.ends.as_slice(), block.number);
        self.words.write(span.start, at, word);
    }

    /// The count of the blocks.
    #[tactic(auto, using(crate::proofs::Ends::length_blocks_from))]
    pub fn len(&self) -> usize
        ensures len { result ≡ length self.now.blocks }
        ensures few { result < 2 ^ 60 }
    {
        self.ends.len()
    }

    /// Empties the list, and keeps the room.
    pub fn reset(&mut self)
        ensures blocks { self.new.blocks ≡ [] }
        ensures spare { self.old.spare ≤ self.new.spare }
        ensures fits { All (λ block. length block < self.new.spare) self.old.blocks }
    {
        self.words.clear();
        self.ends.clear();
        self.room = self.whole;
    }
}
