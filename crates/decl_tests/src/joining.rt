ghost use Rattle.std.specs.Prelude.{◌≡◌, [], IfSome, Ok};
ghost use Rattle.decl_file.specs.File.{declared_by};

use decl_counts::is_countable;
use decl_file::declarations;
use decl_laws::each_file_is_well_made;
use mir_program::Program;
use sqlite_items::Items;
use std::alloc::Global;

/// A program without functions, beside what a file declares; None where it declares nothing.
pub fn alone(alloc: Global, bytes: &[u8]) -> Option<Program>
    ensures { IfSome result (λ p. (p.functions ≡ []) × (declared_by bytes.now ≡ Ok p.declarations)) }
{
    let Ok(declared) = declarations(alloc, bytes) else {
        return None;
    };
    if !is_countable(&declared) {
        return None;
    }
    each_file_is_well_made(bytes);
    Some(Program::join(Items::new(alloc), declared))
}
