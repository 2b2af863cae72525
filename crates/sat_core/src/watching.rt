//! Which two literals of each clause are watched. A clause need be looked at only where one of them becomes false.

ghost use Rattle.std.specs.Prelude.{◌≡◌, ◌<◌, ◌*◌, ◌++◌, ◌∷◌, [], length, slice_set, OnOk, IfOk};
ghost use Rattle.watch_lists.specs.Lists.{list_at, watch_at, AreEmpty};
ghost use Rattle.sat_core.specs.Watches.{watched, moved};

use std::alloc::Global;
use vk_core::NoMemory;
use watch_lists::{Watch, WatchLists};

/// The watched literals of a clause. They are the same where the clause has no two.
#[derive(Clone, Copy, Debug, PartialEq, Eq)]
pub struct Pair {
    pub first: u64,
    pub second: u64,
}

/// The pairs by clause, and the clauses that wait by literal.
#[derive(Drop)]
pub struct Watching {
    pub pairs: Vec<Pair>,
    pub lists: WatchLists,
}

impl Watching {
    /// No clauses, over so many literals.
    pub fn new(alloc: Global, literals: usize) -> Result<Watching, NoMemory>
        ensures pairs { IfOk result (λ watching. watching.pairs.items ≡ []) }
        ensures lists { IfOk result (λ watching. AreEmpty literals watching.lists) }
    {
        Ok(Watching {
            pairs: Vec::new(alloc),
            lists: WatchLists::new(alloc, literals)?,
        })
    }

    /// Watches the literals of the next clause.
    pub fn add(&mut self, pair: Pair) -> Result<(), NoMemory>
        requires first { pair.first < length self.old.lists }
        requires second { pair.second < length self.old.lists }
        ensures pairs { OnOk result (self.new.pairs.items ≡ self.old.pairs.items ++ pair ∷ []) }
        ensures lists { OnOk result (self.new.lists ≡ watched self.old.lists (length self.old.pairs.items) pair) }
    {
        let Pair { first, second } = pair;
        let clause = self.pairs.len();
        self.lists.push(
            first as usize,
            Watch {
                clause,
                blocker: second,
            },
        )?;
        self.lists.push(
            second as usize,
            Watch {
                clause,
                blocker: first,
            },
        )?;
        self.pairs.push(pair)?;
        Ok(())
    }

    /// Watches another pair of the clause at this place of a literal's list, where the clause waits for the second in its stead.
    pub fn rewatch(
        &mut self,
        literal: u64,
        at: usize,
        clause: usize,
        pair: Pair,
    ) -> Result<(), NoMemory>
        requires literal { literal < length self.old.lists }
        requires at { at < length (list_at self.old.lists literal) }
        requires second { pair.second < length self.old.lists }
        requires clause { clause < length self.old.pairs.items }
        ensures pairs { OnOk result (self.new.pairs.items ≡ slice_set self.old.pairs.items clause pair) }
        ensures lists { OnOk result
            (self.new.lists ≡ moved self.old.lists literal at pair.second (record { clause = clause; blocker = pair.first })) }
    {
        let watch = Watch {
            clause,
            blocker: pair.first,
        };
        self.lists.push(pair.second as usize, watch)?;
        self.lists.swap_remove(literal as usize, at);
        self.pairs[clause] = pair;
        Ok(())
    }
}
