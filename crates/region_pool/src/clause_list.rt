ghost use Rattle.std.specs.Prelude.{◌≡◌, ◌++◌, ◌∷◌, ◌<◌, ◌^◌, [], length, OnOk, OnErr};

use crate::blocks::{BlockRef, Region};
use std::alloc::Global;
use std::marker::Model;
use vk_core::NoMemory;

/// A list of clauses over a count of variables. A clause says that one of its literals is true.
///
/// A list holds fewer than 2^60 clauses.
#[derive(Drop)]
pub struct Clauses {
    variables: usize,
    clauses: Region,
}

impl Model for Clauses {
    ghost use Rattle.region_pool.specs.Clauses.{ClauseList, AreLiterals};
    ghost use Rattle.std.specs.Prelude.{All};

    ghost Value = { ClauseList };

    ghost view = { λ c. record { variables = c.variables; clauses = c.clauses.blocks } };

    ghost invariant = { λ c. All (AreLiterals c.variables) c.clauses.blocks };
}

impl Clauses {
    ghost use Rattle.region_pool.specs.Blocks.{block_at};
    ghost use Rattle.region_pool.specs.Clauses.{AreLiterals, HasLiterals};

    pub fn new(alloc: Global, variables: usize) -> Self
        ensures { result ≡ record { variables = variables; clauses = [] } }
    {
        Clauses {
            variables,
            clauses: Region::new(alloc),
        }
    }

    /// Appends a clause.
    pub fn add(&mut self, literals: &[u64]) -> Result<(), NoMemory>
        requires { AreLiterals self.old.variables literals.now }
        ensures variables { self.new.variables ≡ self.old.variables }
        ensures ok { OnOk result (self.new.clauses ≡ self.old.clauses ++ literals.now ∷ []) }
        ensures err { OnErr result (self.new ≡ self.old) }
    {
        self.clauses.put(literals)?;
        Ok(())
    }

    /// The count of the variables.
    pub fn variables(&self) -> usize
        ensures count { result ≡ self.now.variables }
        ensures literals { HasLiterals self.now }
    {
        self.variables
    }

    /// The count of the clauses.
    pub fn len(&self) -> usize
        ensures len { result ≡ length self.now.clauses }
        ensures few { result < 2 ^ 60 }
    {
        self.clauses.len()
    }

    /// Lends the literals of a clause.
    pub fn clause(&self, at: usize) -> &[u64]
        requires { at < length self.now.clauses }
        ensures clause { result.now ≡ block_at self.now.clauses at }
        ensures literals { AreLiterals self.now.variables result.now }
    {
        self.clauses.get(BlockRef { number: at })
    }
}
