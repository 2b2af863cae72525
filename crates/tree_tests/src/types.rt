ghost use Rattle.std.specs.Prelude.{◌≡◌, IfOk};

use mir_ir::{IntTy, Ty};
use sqlite_items::Boxed;
use std::alloc::Global;
use vk_core::NoMemory;

/// A raw pointer to a type.
pub fn raw(alloc: Global, mutable: bool, target: Ty) -> Result<Ty, NoMemory>
    ensures { IfOk result (λ t. t ≡ Ty.Raw mutable target) }
{
    let target = Boxed::new(alloc, target)?;
    Ok(Ty::Raw { mutable, target })
}

/// `[u8]`
pub fn bytes(alloc: Global) -> Result<Ty, NoMemory>
    ensures { IfOk result (λ t. t ≡ Ty.Slice (Ty.Int IntTy.U8)) }
{
    let item = Boxed::new(alloc, Ty::Int(IntTy::U8))?;
    Ok(Ty::Slice(item))
}
