ghost use Rattle.std.specs.Prelude.{◌≡◌};
ghost use Rattle.mir_program.specs.Joined.{IsProgram};

use mir_ir::{Declarations, Function};
use sqlite_items::Items;
use std::marker::Model;

/// The functions of a text and what a declaration file says beside them. Each is well made on its own; whether names and types
/// fit one another is asked by the layout rules and by typing. Contracts see the two.
#[derive(Debug, Drop)]
pub struct Program {
    functions: Items<Function>,
    declarations: Declarations,
}

impl Model for Program {
    ghost use Rattle.std.specs.Coded.{codes};
    ghost use Rattle.mir_ir.specs.contracts.types.Ty as ty;
    ghost use Rattle.mir_program.specs.Joined.{Joined, IsProgram};

    ghost Value = { Joined };

    ghost coded = { Prim.hlevel (codes, ty.the_row.coded) };

    ghost view = { λ p. record { functions = p.functions; declarations = p.declarations } };

    ghost invariant = { λ p. IsProgram (record { functions = p.functions; declarations = p.declarations }) };
}

impl Program {
    /// Puts the two side by side.
    pub fn join(functions: Items<Function>, declarations: Declarations) -> Program
        requires { IsProgram (record { functions = functions; declarations = declarations }) }
        ensures functions { result.functions ≡ functions }
        ensures declarations { result.declarations ≡ declarations }
    {
        Program {
            functions,
            declarations,
        }
    }

    /// In the order of the text.
    pub fn functions(&self) -> &[Function]
        ensures value { result.now ≡ self.now.functions }
        ensures joined { IsProgram self.now }
    {
        self.functions.as_slice()
    }

    pub fn declarations(&self) -> &Declarations
        ensures value { result.now ≡ self.now.declarations }
        ensures joined { IsProgram self.now }
    {
        &self.declarations
    }
}
