ghost use Rattle.std.specs.Prelude.{◌≡◌, IfOk};
ghost use Rattle.part_texts.specs.Parts.{path_in_text, place_in_text, type_in_text};

use mir_ir::{PlaceExpr, Ty};
use mir_text::{MAX_TEXT, PartFault, read_path, read_place, read_type};
use std::alloc::Global;
use vk_core::{Name, NoMemory};

/// The type that the whole text writes, None where it writes none or passes a limit.
#[tactic(auto, using(crate::proofs::Adapting::type_read, crate::proofs::Adapting::type_missed), unfolding(crate::specs::Parts::type_in_text))]
pub fn type_of(alloc: Global, text: &[u8]) -> Result<Option<Ty>, NoMemory>
    ensures { IfOk result (λ read. read ≡ type_in_text text.now) }
{
    if text.len() > MAX_TEXT {
        return Ok(None);
    }
    match read_type(alloc, text) {
        Ok(ty) => Ok(Some(ty)),
        Err(PartFault::NotOne) => Ok(None),
        Err(PartFault::Memory) => Err(NoMemory),
    }
}

/// The same of a place.
#[tactic(auto, using(crate::proofs::Adapting::place_read, crate::proofs::Adapting::place_missed), unfolding(crate::specs::Parts::place_in_text))]
pub fn place_of(alloc: Global, text: &[u8]) -> Result<Option<PlaceExpr>, NoMemory>
    ensures { IfOk result (λ read. read ≡ place_in_text text.now) }
{
    if text.len() > MAX_TEXT {
        return Ok(None);
    }
    match read_place(alloc, text) {
        Ok(place) => Ok(Some(place)),
        Err(PartFault::NotOne) => Ok(None),
        Err(PartFault::Memory) => Err(NoMemory),
    }
}

/// The same of a path, by its canonical text.
#[tactic(auto, using(crate::proofs::Adapting::path_read, crate::proofs::Adapting::path_missed), unfolding(crate::specs::Parts::path_in_text))]
pub fn path_of(alloc: Global, text: &[u8]) -> Result<Option<Name>, NoMemory>
    ensures { IfOk result (λ read. read ≡ path_in_text text.now) }
{
    if text.len() > MAX_TEXT {
        return Ok(None);
    }
    match read_path(alloc, text) {
        Ok(path) => Ok(Some(path)),
        Err(PartFault::NotOne) => Ok(None),
        Err(PartFault::Memory) => Err(NoMemory),
    }
}
