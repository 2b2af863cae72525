ghost use Rattle.std.specs.Prelude.{◌≡◌, []};

use mir_ir::{Declarations, TypeDecl};
use sqlite_items::Items;
use std::alloc::Global;

/// Declarations of types alone.
pub fn with_types(alloc: Global, types: Items<TypeDecl>) -> Declarations
    ensures { result ≡ record { types = types; traits = []; vtables = []; constants = []; aliases = []; contracts = []; loops = []; units = [] } }
{
    Declarations {
        types,
        traits: Items::new(alloc),
        vtables: Items::new(alloc),
        constants: Items::new(alloc),
        aliases: Items::new(alloc),
        contracts: Items::new(alloc),
        loops: Items::new(alloc),
        units: Items::new(alloc),
    }
}
