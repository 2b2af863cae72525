ghost use Rattle.std.specs.Prelude.{◌≡◌, IfOk, option_copied, is_some, find, ◌==◌};
ghost use Rattle.type_rules.specs.Lookup.{block_at, function_called, function_named, local_type};

use crate::declared::Declared;
use crate::numbers::NumberTable;
use crate::table::Table;
use mir_ir::{Block, Function, Local, Ty};
use std::alloc::Global;
use std::marker::Model;
use vk_core::{BlockId, LocalId, NoMemory};

/// A function with its locals and blocks by their numbers. Contracts see the function.
#[derive(Drop)]
pub struct Body<'a> {
    function: &'a Function,
    locals: NumberTable<'a, Local>,
    blocks: NumberTable<'a, Block>,
}

impl<'a> Model for Body<'a> {
    ghost use Rattle.std.specs.Prelude.{◌≡◌};
    ghost use Rattle.mir_ir.specs.declared.tree.Function.{Function};
    ghost use Rattle.std.specs.Coded.{codes};
    ghost use Rattle.mir_ir.specs.contracts.types.Ty as ty;

    ghost Value = { Function };

    ghost coded = { Prim.hlevel (codes, ty.the_row.coded) };

    ghost view = { λ b. b.function.now };

    ghost invariant = { λ b. (b.locals ≡ b.function.now.locals) × (b.blocks ≡ b.function.now.blocks) };
}

impl<'a> Body<'a> {
    pub fn new(alloc: Global, function: &'a Function) -> Result<Body<'a>, NoMemory>
        ensures { IfOk result (λ body. body ≡ function.now) }
    {
        let locals = NumberTable::new(alloc, function.locals.as_slice())?;
        let blocks = NumberTable::new(alloc, function.blocks.as_slice())?;
        Ok(Body {
            function,
            locals,
            blocks,
        })
    }

    pub fn function(&self) -> &'a Function
        ensures { result.now ≡ self.now }
    {
        self.function
    }

    /// The type of a local. `_0` has the type of the result, also where it is not declared.
    pub fn local_type(&self, id: LocalId) -> Option<&'a Ty>
        ensures { option_copied result ≡ local_type self.now id }
    {
        match self.locals.find(id.0) {
            Some(local) => Some(&local.ty),
            None => {
                if id.0 == 0 {
                    Some(&self.function.result)
                } else {
                    None
                }
            }
        }
    }

    /// The block with this label.
    pub fn block_at(&self, id: BlockId) -> Option<&'a Block>
        ensures { option_copied result ≡ block_at self.now id }
    {
        self.blocks.find(id.0)
    }
}

/// The function that a call names: by its name, and where there is none of this name, by an alias.
pub fn function_called<'a>(
    functions: &Table<'a, Function>,
    declared: &Declared<'a>,
    path: &[u8],
) -> Option<&'a Function>
    ensures { option_copied result ≡ function_called functions.now declared.now path.now }
{
    match functions.find(path) {
        Some(function) => Some(function),
        None => match declared.alias_named(path) {
            None => None,
            Some(alias) => functions.find(alias.function.as_bytes()),
        },
    }
}
