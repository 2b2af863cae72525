ghost use Rattle.std.specs.Prelude.{◌≡◌, ◌++◌, OnOk, IfOk, codes, map};
ghost use Rattle.std.specs.Fmt.{decimal};
ghost use Rattle.canonical_text.specs.declared.positions.Position.TheVariants.{Alone};
ghost use Rattle.canonical_text.specs.Names.{path_written};
ghost use Rattle.canonical_text.specs.Types.{comma_of_one, pointer_word, reference_word, type_text, with_commas};

use crate::names::push_path;
use crate::positions::Position;
use crate::pushes::{push_decimal, push_text};
use mir_ir::Ty;
use std::alloc::Global;
use vk_core::{Name, NoMemory};

/// The canonical text of a type. Two types are one where their texts are equal.
pub fn type_text(alloc: Global, ty: &Ty) -> Result<Name, NoMemory>
    ensures { IfOk result (λ name. name ≡ type_text ty.now) }
{
    let mut out = Vec::new(alloc);
    push_type(&mut out, ty)?;
    let name = Name::from_bytes(alloc, out.as_slice())?;
    Ok(name)
}

/// Adds the canonical text of a type.
#[cycle(types)]
#[tactic(auto, using(crate::proofs::Texts::type_text_out))]
pub fn push_type(out: &mut Vec<u8>, ty: &Ty) -> Result<(), NoMemory>
    ensures { OnOk result (out.new.items ≡ out.old.items ++ type_text ty.now) }
{
    match ty {
        Ty::Bool => push_text(out, "bool")?,
        Ty::Char => push_text(out, "char")?,
        Ty::Int(int) => push_text(out, int.name())?,
        Ty::Never => push_text(out, "!")?,
        Ty::Str => push_text(out, "str")?,
        Ty::Tuple(items) => push_tuple(out, items.as_slice())?,
        Ty::Array { item, count } => push_array(out, item.get(), *count)?,
        Ty::Slice(item) => push_slice(out, item.get())?,
        Ty::Ref { mutable, target } => push_target(out, reference_word(*mutable), target.get())?,
        Ty::Raw { mutable, target } => push_target(out, pointer_word(*mutable), target.get())?,
        Ty::BoxOf(target) => push_box(out, target.get())?,
        Ty::Dyn(path) => push_dyn(out, path)?,
        Ty::Named(path) => push_path(out, Position::AsType, path)?,
    }
    Ok(())
}

#[cycle(types)]
fn push_tuple(out: &mut Vec<u8>, items: &[Ty]) -> Result<(), NoMemory>
    ensures { OnOk result (out.new.items ≡ out.old.items ++ (codes "(" ++ with_commas (map type_text items.now) ++ comma_of_one (map type_text items.now) ++ codes ")")) }
{
    push_text(out, "(")?;
    let mut first = true;
    for item in items {
        if !first {
            push_text(out, ", ")?;
        }
        push_type(out, item)?;
        first = false;
    }
    if items.len() == 1 {
        push_text(out, ",")?;
    }
    push_text(out, ")")?;
    Ok(())
}

#[cycle(types)]
fn push_array(out: &mut Vec<u8>, item: &Ty, count: u128) -> Result<(), NoMemory>
    ensures { OnOk result (out.new.items ≡ out.old.items ++ (codes "[" ++ type_text item.now ++ codes "; " ++ decimal count ++ codes "]")) }
{
    push_text(out, "[")?;
    push_type(out, item)?;
    push_text(out, "; ")?;
    push_decimal(out, count)?;
    push_text(out, "]")?;
    Ok(())
}

#[cycle(types)]
fn push_slice(out: &mut Vec<u8>, item: &Ty) -> Result<(), NoMemory>
    ensures { OnOk result (out.new.items ≡ out.old.items ++ (codes "[" ++ type_text item.now ++ codes "]")) }
{
    push_text(out, "[")?;
    push_type(out, item)?;
    push_text(out, "]")?;
    Ok(())
}

#[cycle(types)]
fn push_target(out: &mut Vec<u8>, word: &str, target: &Ty) -> Result<(), NoMemory>
    ensures { OnOk result (out.new.items ≡ out.old.items ++ (word.now ++ type_text target.now)) }
{
    push_text(out, word)?;
    push_type(out, target)?;
    Ok(())
}

#[cycle(types)]
fn push_box(out: &mut Vec<u8>, target: &Ty) -> Result<(), NoMemory>
    ensures { OnOk result (out.new.items ≡ out.old.items ++ (codes "Box<" ++ type_text target.now ++ codes ">")) }
{
    push_text(out, "Box<")?;
    push_type(out, target)?;
    push_text(out, ">")?;
    Ok(())
}

fn push_dyn(out: &mut Vec<u8>, path: &Name) -> Result<(), NoMemory>
    ensures { OnOk result (out.new.items ≡ out.old.items ++ (codes "dyn " ++ path_written Alone path.now)) }
{
    push_text(out, "dyn ")?;
    push_path(out, Position::Alone, path)?;
    Ok(())
}

/// `&mut ` or `&`.
pub fn reference_word(mutable: bool) -> &'static str
    ensures { result.now ≡ reference_word mutable }
{
    if mutable { "&mut " } else { "&" }
}

fn pointer_word(mutable: bool) -> &'static str
    ensures { result.now ≡ pointer_word mutable }
{
    if mutable { "*mut " } else { "*const " }
}
