ghost use Rattle.std.specs.Prelude.{◌≡◌, IfOk};

use mir_ir::Ty;
use sqlite_items::Boxed;
use std::alloc::Global;
use vk_core::NoMemory;

/// A reference to a type.
pub fn reference(alloc: Global, mutable: bool, target: Ty) -> Result<Ty, NoMemory>
    ensures { IfOk result (λ made. made ≡ Ty.Ref mutable target) }
{
    let target = Boxed::new(alloc, target)?;
    Ok(Ty::Ref { mutable, target })
}
