ghost use Rattle.std.specs.Prelude.{◌≡◌, IfOk};
ghost use Rattle.part_texts.specs.Parts.{place_in_text};
ghost use Rattle.decl_texts.specs.Texts.{local_alone};

use part_texts::place_of;
use std::alloc::Global;
use vk_core::{LocalId, NoMemory};

/// The local that a text writes: a place without steps.
pub fn local_of(alloc: Global, text: &[u8]) -> Result<Option<LocalId>, NoMemory>
    ensures { IfOk result (λ read. read ≡ local_alone (place_in_text text.now)) }
{
    match place_of(alloc, text)? {
        None => Ok(None),
        Some(place) => {
            if place.steps.as_slice().is_empty() {
                Ok(Some(place.local))
            } else {
                Ok(None)
            }
        }
    }
}
