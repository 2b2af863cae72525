ghost use Rattle.std.specs.Prelude.{◌≡◌, ◌++◌, [], ◌∷◌, OnOk, OnErr};

use crate::types::Ty;
use smallvec::SmallVec;
use std::alloc::Global;
use std::marker::Model;
use vk_core::{LocalId, Name, NoMemory};

/// One step of a place. `Index` takes the number from a local; `FromFront` and `FromBack` are the constant indices
/// `[at of least]` and `[-at of least]`; `Downcast` names a variant.
#[derive(Debug, Default, Drop)]
pub enum Projection {
    Field { index: u128, ty: Ty },
    #[default]
    Deref,
    Index(LocalId),
    FromFront { at: u128, least: u128 },
    FromBack { at: u128, least: u128 },
    Downcast(Name),
}

/// The steps of a place from left to right. Most places have at most two, which take no memory. Contracts see the list.
#[derive(Debug, Drop)]
pub struct Steps {
    items: SmallVec<Projection, 2>,
}

impl Model for Steps {
    ghost use Rattle.std.specs.Prelude.{List};
    ghost use Rattle.std.specs.Coded.{codes};
    ghost use Rattle.mir_ir.specs.declared.places.Projection.{Projection};
    ghost use Rattle.mir_ir.specs.contracts.types.Ty as ty;

    ghost Value = { List Projection };

    ghost coded = { Prim.hlevel (codes, ty.the_row.coded) };

    ghost view = { λ s. s.items.items };
}

impl Steps {
    /// No steps.
    pub fn new(alloc: Global) -> Steps
        ensures { result ≡ [] }
    {
        Steps {
            items: SmallVec::new(alloc),
        }
    }

    /// Adds a step behind the others. An error leaves the list as it was.
    pub fn push(&mut self, step: Projection) -> Result<(), NoMemory>
        ensures added { OnOk result (self.new ≡ self.old ++ step ∷ []) }
        ensures kept { OnErr result (self.new ≡ self.old) }
    {
        self.items.push(step)?;
        Ok(())
    }

    pub fn as_slice(&self) -> &[Projection]
        ensures { result.now ≡ self.now }
    {
        self.items.as_slice()
    }
}

/// A place: a local and the steps that are taken from it.
#[derive(Debug, Drop)]
pub struct PlaceExpr {
    pub local: LocalId,
    pub steps: Steps,
}
