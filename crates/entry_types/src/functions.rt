ghost use Rattle.std.specs.Prelude.{◌≡◌, IfOk, option_copied};
ghost use Rattle.type_rules.specs.Lookup.{function_named};

use mir_ir::Function;
use name_tables::{Body, Table};
use sqlite_items::at;
use std::alloc::Global;
use std::marker::Model;
use vk_core::NoMemory;

/// The functions of a text by their names, each with its locals and blocks by their numbers. Contracts see the functions.
#[derive(Drop)]
pub struct Functions<'a> {
    named: Table<'a, Function>,
    bodies: Vec<Body<'a>>,
}

impl<'a> Model for Functions<'a> {
    ghost use Rattle.std.specs.Prelude.{◌≡◌, List};
    ghost use Rattle.mir_ir.specs.declared.tree.Function.{Function};
    ghost use Rattle.std.specs.Coded.{codes};
    ghost use Rattle.mir_ir.specs.contracts.types.Ty as ty;

    ghost Value = { List Function };

    ghost coded = { Prim.hlevel (codes, ty.the_row.coded) };

    ghost view = { λ f. f.named };

    ghost invariant = { λ f. f.bodies.items ≡ f.named };
}

fn bodies_of<'a>(alloc: Global, functions: &'a [Function]) -> Result<Vec<Body<'a>>, NoMemory>
    ensures { IfOk result (λ bodies. bodies.items ≡ functions.now) }
{
    let mut bodies = Vec::new(alloc);
    let mut at = 0;
    while at < functions.len() {
        let body = Body::new(alloc, &functions[at])?;
        bodies.push(body)?;
        at += 1;
    }
    Ok(bodies)
}

impl<'a> Functions<'a> {
    pub fn new(alloc: Global, functions: &'a [Function]) -> Result<Functions<'a>, NoMemory>
        ensures { IfOk result (λ made. made ≡ functions.now) }
    {
        let named = Table::new(alloc, functions)?;
        let bodies = bodies_of(alloc, functions)?;
        Ok(Functions { named, bodies })
    }

    /// The first function of this name.
    pub fn find(&self, name: &[u8]) -> Option<&'a Function>
        ensures { option_copied result ≡ function_named self.now name.now }
    {
        self.named.find(name)
    }

    /// The same with its locals and blocks.
    pub fn body_of(&self, name: &[u8]) -> Option<&Body<'a>>
        ensures { option_copied result ≡ function_named self.now name.now }
    {
        match self.named.place_of(name) {
            None => None,
            Some(place) => at(self.bodies.as_slice(), place),
        }
    }

    /// The functions in the order of the text.
    pub fn bodies(&self) -> &[Body<'a>]
        ensures { result.now ≡ self.now }
    {
        self.bodies.as_slice()
    }

    pub fn table(&self) -> &Table<'a, Function>
        ensures { result.now ≡ self.now }
    {
        &self.named
    }
}
