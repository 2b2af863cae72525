ghost use Rattle.std.specs.Prelude.{◌≡◌, ◌==◌, IfOk, find, option_copied};
ghost use Rattle.name_tables.specs.Found.{place_numbered};

use indexmap::IndexMap;
use mir_ir::{Block, Local};
use sqlite_items::at;
use std::alloc::Global;
use std::marker::Model;
use vk_core::NoMemory;

/// What is found by a number, as a local or a block.
pub trait Numbered {
    ghost use Rattle.std.specs.Prelude.{ℕ};

    ghost number_of: { Self → ℕ };

    fn number(&self) -> u32
        ensures { result ≡ number_of self.now };
}

impl Numbered for Local {
    ghost number_of = { λ l. l.id.0 };

    fn number(&self) -> u32 {
        self.id.0
    }
}

impl Numbered for Block {
    ghost number_of = { λ b. b.id.0 };

    fn number(&self) -> u32 {
        self.id.0
    }
}

/// The items of a list by their numbers. Contracts see the list.
#[derive(Drop)]
pub struct NumberTable<'a, T: Numbered> {
    items: &'a [T],
    places: IndexMap<u32, usize>,
}

impl<'a, T: Numbered> Model for NumberTable<'a, T> {
    ghost use Rattle.std.specs.Prelude.{List, nat_eq};
    ghost use Rattle.indexmap.specs.IndexMap.{get_by};
    ghost use Rattle.name_tables.specs.Found.{FindsNumbers};

    ghost Value = { List T };

    ghost view = { λ t. t.items.now };

    ghost invariant = { λ t. FindsNumbers T.number_of t.items.now (λ number. get_by (nat_eq number) t.places) };
}

impl<'a, T: Numbered> NumberTable<'a, T> {
    pub fn new(alloc: Global, items: &'a [T]) -> Result<NumberTable<'a, T>, NoMemory>
        ensures { IfOk result (λ table. table ≡ items.now) }
    {
        let mut places = IndexMap::new(alloc);
        let mut place = items.len();
        while place > 0 {
            place -= 1;
            places.insert(items[place].number(), place)?;
        }
        Ok(NumberTable { items, places })
    }

    /// The place of the first item of this number.
    pub fn place_of(&self, number: u32) -> Option<usize>
        ensures { result ≡ place_numbered T.number_of number self.now }
    {
        self.places.get(&number).copied()
    }

    /// The first item of this number.
    pub fn find(&self, number: u32) -> Option<&'a T>
        ensures { option_copied result ≡ find (λ x. T.number_of x == number) self.now }
    {
        match self.place_of(number) {
            None => None,
            Some(place) => at(self.items, place),
        }
    }

    pub fn items(&self) -> &'a [T]
        ensures { result.now ≡ self.now }
    {
        self.items
    }
}
