ghost use Rattle.std.specs.Prelude.{◌≡◌, IfOk, slice_get};
ghost use Rattle.type_layouts.specs.Entries.{entry_of, extent_named, declared_extent};

use crate::extent::{self, Extent, Form, Held, within_bytes};
use canonical_text::type_text;
use indexmap::IndexMap;
use mir_ir::TypeDecl;
use sqlite_items::{Items, at};
use std::alloc::Global;
use std::marker::Model;
use vk_core::NoMemory;

/// The declared types, found by their texts. Contracts see the declarations.
#[derive(Drop)]
pub struct Scope<'a> {
    types: &'a [TypeDecl],
    numbers: IndexMap<Vec<u8>, usize>,
}

impl<'a> Model for Scope<'a> {
    ghost use Rattle.std.specs.Prelude.{List};
    ghost use Rattle.mir_ir.specs.declared.declarations.TypeDecl.{TypeDecl};
    ghost use Rattle.type_layouts.specs.Inside.{declared_in, IsNumbered};
    ghost use Rattle.std.specs.Coded.{codes};
    ghost use Rattle.mir_ir.specs.contracts.types.Ty as ty;

    ghost Value = { List TypeDecl };

    ghost coded = { Prim.hlevel (codes, ty.the_row.coded) };

    ghost view = { declared_in };

    ghost invariant = { IsNumbered };
}

impl<'a> Scope<'a> {
    pub fn new(alloc: Global, types: &'a [TypeDecl]) -> Result<Scope<'a>, NoMemory>
        ensures { IfOk result (λ scope. scope ≡ types.now) }
    {
        let mut numbers = IndexMap::new(alloc);
        let mut place = types.len();
        while place > 0 {
            place -= 1;
            let text = type_text(alloc, &types[place].name)?;
            numbers.insert(Vec::from_slice(alloc, text.as_bytes())?, place)?;
        }
        Ok(Scope { types, numbers })
    }

    /// The place of the first declaration of this name.
    pub fn entry_of(&self, text: &[u8]) -> Option<usize>
        ensures { result ≡ entry_of self.now text.now }
    {
        self.numbers.get(text).copied()
    }

    pub fn types(&self) -> &'a [TypeDecl]
        ensures { result.now ≡ self.now }
    {
        self.types
    }

    /// What a type of this name takes, where it is declared, else what it takes without.
    pub fn extent_named(
        &self,
        alloc: Global,
        text: &[u8],
        other: Extent,
    ) -> Result<Extent, NoMemory>
        ensures { IfOk result (λ e. e ≡ extent_named self.now text.now other) }
    {
        match self.entry_of(text) {
            None => Ok(other),
            Some(entry) => {
                let extent = declared_extent(alloc, self.types, entry)?;
                Ok(extent)
            }
        }
    }
}

fn declared_extent(alloc: Global, types: &[TypeDecl], entry: usize) -> Result<Extent, NoMemory>
    ensures { IfOk result (λ e. e ≡ declared_extent entry (slice_get types.now entry)) }
{
    match at(types, entry) {
        None => Ok(extent::empty(alloc)),
        Some(own) => {
            let mut held = Items::new(alloc);
            held.push(Held { entry, times: 1 })?;
            Ok(Extent {
                form: Form::Sized,
                is_unknown: false,
                size: within_bytes(own.size as u128),
                align: own.align,
                parts: 0,
                held,
            })
        }
    }
}
