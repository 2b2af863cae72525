ghost use Rattle.std.specs.Prelude.{◌≡◌, ◌++◌, [], ◌∷◌, flat_map, OnOk};
ghost use Rattle.program_types.specs.Inside.{types_now};
ghost use Rattle.program_types.specs.Parts.{level_parts, parts};

use mir_ir::Ty;
use std::alloc::Global;
use std::marker::Model;
use vk_core::NoMemory;

/// Types as they are written in a program, one behind the other. Contracts see the types.
#[derive(Drop)]
pub struct Written<'a> {
    types: Vec<&'a Ty>,
}

impl<'a> Model for Written<'a> {
    ghost use Rattle.std.specs.Prelude.{List};
    ghost use Rattle.mir_ir.specs.declared.types.Ty.{Ty};
    ghost use Rattle.std.specs.Coded.{codes};
    ghost use Rattle.mir_ir.specs.contracts.types.Ty as ty;
    ghost use Rattle.program_types.specs.Inside.{types_in};

    ghost Value = { List Ty };

    ghost coded = { Prim.hlevel (codes, ty.the_row.coded) };

    ghost view = { types_in };
}

impl<'a> Written<'a> {
    pub fn new(alloc: Global) -> Written<'a>
        ensures { result ≡ [] }
    {
        Written {
            types: Vec::new(alloc),
        }
    }

    fn push(&mut self, ty: &'a Ty) -> Result<(), NoMemory>
        ensures { OnOk result (self.new ≡ self.old ++ ty.now ∷ []) }
    {
        self.types.push(ty)?;
        Ok(())
    }

    /// In their order.
    pub fn types(&self) -> &[&'a Ty]
        ensures { types_now result.now ≡ self.now }
    {
        self.types.as_slice()
    }
}

/// Adds the types that are written in a type, and then it.
#[cycle(parts)]
pub fn push_type<'a>(out: &mut Written<'a>, ty: &'a Ty) -> Result<(), NoMemory>
    ensures { OnOk result (out.new ≡ out.old ++ parts ty.now) }
{
    push_parts(out, ty)?;
    out.push(ty)?;
    Ok(())
}

#[cycle(parts)]
fn push_parts<'a>(out: &mut Written<'a>, ty: &'a Ty) -> Result<(), NoMemory>
    ensures { OnOk result (out.new ≡ out.old ++ level_parts ty.now) }
{
    match ty {
        Ty::Tuple(items) => {
            push_items(out, items.as_slice())?;
            Ok(())
        }
        Ty::Array { item, .. } => {
            push_type(out, item.get())?;
            Ok(())
        }
        Ty::Slice(item) => {
            push_type(out, item.get())?;
            Ok(())
        }
        Ty::Ref { target, .. } => {
            push_type(out, target.get())?;
            Ok(())
        }
        Ty::Raw { target, .. } => {
            push_type(out, target.get())?;
            Ok(())
        }
        Ty::BoxOf(target) => {
            push_type(out, target.get())?;
            Ok(())
        }
        Ty::Bool | Ty::Char | Ty::Int(_) | Ty::Never | Ty::Str | Ty::Dyn(_) | Ty::Named(_) => Ok(
            (),
        ),
    }
}

#[cycle(parts)]
fn push_items<'a>(out: &mut Written<'a>, items: &'a [Ty]) -> Result<(), NoMemory>
    ensures { OnOk result (out.new ≡ out.old ++ flat_map parts items.now) }
{
    for item in items {
        push_type(out, item)?;
    }
    Ok(())
}
