ghost use Rattle.std.specs.Prelude.{◌≡◌, ◌++◌, ◌∷◌, ◌<◌, [], length, slice_set, OnOk, OnErr, IfOk};
ghost use Rattle.watch_lists.specs.Lists.{list_at, watch_at, with_list, AreEmpty, swap_removed};

use std::alloc::Global;
use std::marker::Model;
use vk_core::NoMemory;

/// A clause that waits, and a literal of it: where that is true, the clause need not be looked at.
#[derive(Clone, Copy, Debug, PartialEq, Eq)]
pub struct Watch {
    pub clause: usize,
    pub blocker: u64,
}

/// A list of watches for each literal.
#[derive(Drop)]
pub struct WatchLists {
    lists: Vec<Vec<Watch>>,
}

impl Model for WatchLists {
    ghost use Rattle.std.specs.Prelude.{List, map};
    ghost use Rattle.watch_lists.specs.declared.lists.Watch.{Watch};

    ghost Value = { List (List Watch) };

    ghost view = { λ w. map (λ v. v.items) w.lists.items };
}

impl WatchLists {
    /// So many empty lists.
    pub fn new(alloc: Global, count: usize) -> Result<WatchLists, NoMemory>
        ensures { IfOk result (AreEmpty count) }
    {
        let mut lists = Vec::new(alloc);
        for _ in 0..count {
            lists.push(Vec::new(alloc))?;
        }
        Ok(WatchLists { lists })
    }

    /// How many watches a list has.
    pub fn len(&self, list: usize) -> usize
        requires { list < length self.now }
        ensures { result ≡ length (list_at self.now list) }
    {
        self.lists[list].len()
    }

    /// A watch of a list.
    pub fn get(&self, list: usize, at: usize) -> Watch
        requires list { list < length self.now }
        requires at { at < length (list_at self.now list) }
        ensures { result ≡ watch_at (list_at self.now list) at }
    {
        self.lists[list][at]
    }

    /// Appends a watch to a list.
    pub fn push(&mut self, list: usize, watch: Watch) -> Result<(), NoMemory>
        requires { list < length self.old }
        ensures ok { OnOk result (self.new ≡ with_list self.old list (list_at self.old list ++ watch ∷ [])) }
        ensures err { OnErr result (self.new ≡ self.old) }
    {
        self.lists[list].push(watch)?;
        Ok(())
    }

    /// Changes a watch of a list.
    pub fn set(&mut self, list: usize, at: usize, watch: Watch)
        requires list { list < length self.old }
        requires at { at < length (list_at self.old list) }
        ensures { self.new ≡ with_list self.old list (slice_set (list_at self.old list) at watch) }
    {
        self.lists[list][at] = watch;
    }

    /// Takes a watch out of a list. The last one takes its place.
    pub fn swap_remove(&mut self, list: usize, at: usize)
        requires list { list < length self.old }
        requires at { at < length (list_at self.old list) }
        ensures { self.new ≡ with_list self.old list (swap_removed (list_at self.old list) at) }
    {
        self.lists[list].swap_remove(at);
    }
}
