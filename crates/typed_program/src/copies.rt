ghost use Rattle.std.specs.Prelude.{◌≡◌, IfOk};

use mir_ir::Ty;
use sqlite_items::{Boxed, Items};
use std::alloc::Global;
use vk_core::{Name, NoMemory};

/// A type as another one.
#[cycle(copies)]
pub fn copy_type(alloc: Global, ty: &Ty) -> Result<Ty, NoMemory>
    ensures { IfOk result (λ copy. copy ≡ ty.now) }
{
    match ty {
        Ty::Bool => Ok(Ty::Bool),
        Ty::Char => Ok(Ty::Char),
        Ty::Int(int) => Ok(Ty::Int(*int)),
        Ty::Never => Ok(Ty::Never),
        Ty::Str => Ok(Ty::Str),
        Ty::Tuple(items) => {
            let items = copy_types(alloc, items.as_slice())?;
            Ok(Ty::Tuple(items))
        }
        Ty::Array { item, count } => {
            let item = copy_boxed(alloc, item.get())?;
            Ok(Ty::Array {
                item,
                count: *count,
            })
        }
        Ty::Slice(item) => {
            let item = copy_boxed(alloc, item.get())?;
            Ok(Ty::Slice(item))
        }
        Ty::Ref { mutable, target } => {
            let target = copy_boxed(alloc, target.get())?;
            Ok(Ty::Ref {
                mutable: *mutable,
                target,
            })
        }
        Ty::Raw { mutable, target } => {
            let target = copy_boxed(alloc, target.get())?;
            Ok(Ty::Raw {
                mutable: *mutable,
                target,
            })
        }
        Ty::BoxOf(target) => {
            let target = copy_boxed(alloc, target.get())?;
            Ok(Ty::BoxOf(target))
        }
        Ty::Dyn(path) => {
            let path = Name::from_bytes(alloc, path.as_bytes())?;
            Ok(Ty::Dyn(path))
        }
        Ty::Named(path) => {
            let path = Name::from_bytes(alloc, path.as_bytes())?;
            Ok(Ty::Named(path))
        }
    }
}

#[cycle(copies)]
fn copy_boxed(alloc: Global, ty: &Ty) -> Result<Boxed<Ty>, NoMemory>
    ensures { IfOk result (λ copy. copy ≡ ty.now) }
{
    let copy = copy_type(alloc, ty)?;
    let boxed = Boxed::new(alloc, copy)?;
    Ok(boxed)
}

#[cycle(copies)]
fn copy_types(alloc: Global, types: &[Ty]) -> Result<Items<Ty>, NoMemory>
    ensures { IfOk result (λ copies. copies ≡ types.now) }
{
    let mut copies = Vec::new(alloc);
    for ty in types {
        let copy = copy_type(alloc, ty)?;
        copies.push(copy)?;
    }
    Ok(Items::from_vec(copies))
}
