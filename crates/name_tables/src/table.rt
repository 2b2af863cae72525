ghost use Rattle.std.specs.Prelude.{◌≡◌, IfOk, OnOk, bytes_eq, option_copied};
ghost use Rattle.indexmap.specs.IndexMap.{get_by};
ghost use Rattle.type_rules.specs.Lookup.{first_named};
ghost use Rattle.name_tables.specs.Found.{FindsAlso, place_named};

use indexmap::IndexMap;
use mir_ir::{AliasDecl, ConstantDecl, Function, TraitDecl, Ty, TypeDecl, VtableDecl};
use sqlite_items::at;
use std::alloc::Global;
use std::marker::Model;
use vk_core::NoMemory;

/// What is found by a name. A declared tuple has none.
pub trait Named {
    ghost use Rattle.std.specs.Prelude.{ℕ, List, Option};

    ghost name_of: { Self → Option (List ℕ) };

    fn name(&self) -> Option<&[u8]>
        ensures { option_copied result ≡ name_of self.now };
}

impl Named for Function {
    ghost use Rattle.std.specs.Prelude.{Some};

    ghost name_of = { λ f. Some f.name };

    fn name(&self) -> Option<&[u8]> {
        Some(self.name.as_bytes())
    }
}

impl Named for TypeDecl {
    ghost use Rattle.type_rules.specs.Lookup.{path_of};

    ghost name_of = { λ own. path_of own.name };

    fn name(&self) -> Option<&[u8]> {
        match &self.name {
            Ty::Named(path) => Some(path.as_bytes()),
            _ => None,
        }
    }
}

impl Named for TraitDecl {
    ghost use Rattle.std.specs.Prelude.{Some};

    ghost name_of = { λ t. Some t.name };

    fn name(&self) -> Option<&[u8]> {
        Some(self.name.as_bytes())
    }
}

/// A vtable is found by its trait.
impl Named for VtableDecl {
    ghost use Rattle.std.specs.Prelude.{Some};

    ghost name_of = { λ v. Some v.trait_name };

    fn name(&self) -> Option<&[u8]> {
        Some(self.trait_name.as_bytes())
    }
}

impl Named for ConstantDecl {
    ghost use Rattle.std.specs.Prelude.{Some};

    ghost name_of = { λ c. Some c.name };

    fn name(&self) -> Option<&[u8]> {
        Some(self.name.as_bytes())
    }
}

/// An alias is found by what is called.
impl Named for AliasDecl {
    ghost use Rattle.std.specs.Prelude.{Some};

    ghost name_of = { λ a. Some a.call };

    fn name(&self) -> Option<&[u8]> {
        Some(self.call.as_bytes())
    }
}

/// The items of a list by their names. Contracts see the list.
#[derive(Drop)]
pub struct Table<'a, T: Named> {
    items: &'a [T],
    places: IndexMap<&'a [u8], usize>,
}

impl<'a, T: Named> Model for Table<'a, T> {
    ghost use Rattle.std.specs.Prelude.{List, bytes_eq};
    ghost use Rattle.indexmap.specs.IndexMap.{get_by};
    ghost use Rattle.name_tables.specs.Found.{FindsNames};

    ghost Value = { List T };

    ghost view = { λ t. t.items.now };

    ghost invariant = { λ t. FindsNames T.name_of t.items.now (λ name. get_by (λ k. bytes_eq name k.now) t.places) };
}

/// A name, where there is one, finds this place from now on.
fn add<'a>(
    places: &mut IndexMap<&'a [u8], usize>,
    name: Option<&'a [u8]>,
    place: usize,
) -> Result<(), NoMemory>
    ensures { OnOk result (FindsAlso (option_copied name.entry) place (λ text. get_by (λ k. bytes_eq text k.now) places.old) (λ text. get_by (λ k. bytes_eq text k.now) places.new)) }
{
    match name {
        None => Ok(()),
        Some(name) => {
            places.insert(name, place)?;
            Ok(())
        }
    }
}

impl<'a, T: Named> Table<'a, T> {
    /// Items without a name are not found.
    pub fn new(alloc: Global, items: &'a [T]) -> Result<Table<'a, T>, NoMemory>
        ensures { IfOk result (λ table. table ≡ items.now) }
    {
        let mut places = IndexMap::new(alloc);
        let mut place = items.len();
        while place > 0 {
            place -= 1;
            add(&mut places, items[place].name(), place)?;
        }
        Ok(Table { items, places })
    }

    /// The place of the first item of this name.
    pub fn place_of(&self, name: &[u8]) -> Option<usize>
        ensures { result ≡ place_named T.name_of name.now self.now }
    {
        self.places.get(name).copied()
    }

    /// The first item of this name.
    pub fn find(&self, name: &[u8]) -> Option<&'a T>
        ensures { option_copied result ≡ first_named T.name_of name.now self.now }
    {
        match self.place_of(name) {
            None => None,
            Some(place) => at(self.items, place),
        }
    }

    pub fn items(&self) -> &'a [T]
        ensures { result.now ≡ self.now }
    {
        self.items
    }
}
