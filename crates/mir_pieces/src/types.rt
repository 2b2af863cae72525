ghost use Rattle.std.specs.Prelude.{◌≡◌, ◌++◌, IfOk, OnOk, None, codes};
ghost use Rattle.mir_ir.specs.Names.{int_of_name};
ghost use Rattle.mir_grammar.specs.Names.{int_or_name, plain_type, to_plain, comma_text, list_text, texts_of, named_text, named_is_long, some_is, types_of, comma_where, to_ref, to_raw, mut_where, pointer_word, to_tuple, to_array, to_dyn, qualified_text, to_qualified};
ghost use Rattle.mir_pieces.specs.Boxes.{tuple_of};

use crate::piece::Piece;
use mir_grammar::Named;
use mir_ir::{IntTy, Ty};
use sqlite_items::{Boxed, Items};
use std::alloc::Global;
use vk_core::{Name, NoMemory};

/// A word of the types, or a path of one word.
fn int_or_name(alloc: Global, word: &[u8]) -> Result<Ty, NoMemory>
    ensures { IfOk result (λ ty. ty ≡ int_or_name (int_of_name word.now) word.now) }
{
    match IntTy::from_name(word) {
        Some(int) => Ok(Ty::Int(int)),
        None => {
            let name = Name::from_bytes(alloc, word)?;
            Ok(Ty::Named(name))
        }
    }
}

fn plain_type(alloc: Global, word: &[u8]) -> Result<Ty, NoMemory>
    ensures { IfOk result (λ ty. ty ≡ plain_type word.now) }
{
    if b"bool".as_slice() == word {
        Ok(Ty::Bool)
    } else if b"char".as_slice() == word {
        Ok(Ty::Char)
    } else if b"!".as_slice() == word {
        Ok(Ty::Never)
    } else if b"str".as_slice() == word {
        Ok(Ty::Str)
    } else {
        let ty = int_or_name(alloc, word)?;
        Ok(ty)
    }
}

/// A word of the types, or `!`.
#[tactic(auto, unfolding(mir_grammar::specs::Names::to_plain))]
pub fn to_plain(alloc: Global, word: &Piece<'_>) -> Result<Named, NoMemory>
    ensures { IfOk result (λ named. named ≡ to_plain word.now) }
{
    let ty = plain_type(alloc, word.text())?;
    let text = Items::from_slice(alloc, word.text())?;
    Ok(Named {
        ty,
        text,
        is_long: false,
        argument: None,
        start: word.start(),
    })
}

fn push_more_named(out: &mut Vec<u8>, names: &[Named]) -> Result<(), NoMemory>
    ensures { OnOk result (out.new.items ≡ out.old.items ++ comma_text (texts_of named_text names.now)) }
{
    let mut left = names;
    while let [named, rest @ ..] = left {
        out.extend_from_slice(b", ")?;
        out.extend_from_slice(named.text.as_slice())?;
        left = rest;
    }
    Ok(())
}

fn push_named(out: &mut Vec<u8>, names: &[Named]) -> Result<(), NoMemory>
    ensures { OnOk result (out.new.items ≡ out.old.items ++ list_text (texts_of named_text names.now)) }
{
    match names {
        [] => Ok(()),
        [named, rest @ ..] => {
            out.extend_from_slice(named.text.as_slice())?;
            push_more_named(out, rest)?;
            Ok(())
        }
    }
}

fn push_comma(out: &mut Vec<u8>, comma: bool) -> Result<(), NoMemory>
    ensures { OnOk result (out.new.items ≡ out.old.items ++ comma_where comma) }
{
    if comma {
        out.extend_from_slice(b",")?;
        Ok(())
    } else {
        Ok(())
    }
}

fn tuple_text(alloc: Global, names: &[Named], comma: bool) -> Result<Items<u8>, NoMemory>
    ensures { IfOk result (λ text. text ≡ codes "(" ++ (list_text (texts_of named_text names.now) ++ (comma_where comma ++ codes ")"))) }
{
    let mut out = Vec::new(alloc);
    out.extend_from_slice(b"(")?;
    push_named(&mut out, names)?;
    push_comma(&mut out, comma)?;
    out.extend_from_slice(b")")?;
    Ok(Items::from_vec(out))
}

fn has_long_name(names: &[Named]) -> bool
    ensures { result ≡ some_is named_is_long names.now }
{
    let mut left = names;
    while let [named, rest @ ..] = left {
        if named.is_long {
            return true;
        }
        left = rest;
    }
    false
}

fn type_of(named: Named) -> Ty
    ensures { result ≡ named.ty }
{
    let Named { ty, .. } = named;
    ty
}

fn types_of(alloc: Global, names: Vec<Named>) -> Result<Vec<Ty>, NoMemory>
    ensures { IfOk result (λ types. types.items ≡ types_of names.items) }
{
    let mut types = Vec::new(alloc);
    for named in names {
        types.push(type_of(named))?;
    }
    Ok(types)
}

/// `before`, `mark`, `text` and `after` in a row.
fn text_between(
    alloc: Global,
    before: &[u8],
    mark: &[u8],
    text: &[u8],
    after: &[u8],
) -> Result<Items<u8>, NoMemory>
    ensures { IfOk result (λ all. all ≡ before.now ++ (mark.now ++ (text.now ++ after.now))) }
{
    let mut out = Vec::new(alloc);
    out.extend_from_slice(before)?;
    out.extend_from_slice(mark)?;
    out.extend_from_slice(text)?;
    out.extend_from_slice(after)?;
    Ok(Items::from_vec(out))
}

/// The type of a named one, and whether its text is too long.
fn type_and_length(named: Named) -> (Ty, bool)
    ensures { result ≡ (named.ty, named.is_long) }
{
    let Named { ty, is_long, .. } = named;
    (ty, is_long)
}

/// What stands in a longer type: the type in a box, the text between these, and whether it is too long. It alone lets go of
/// a named type where memory is wanting.
fn placed_between(
    alloc: Global,
    before: &[u8],
    mark: &[u8],
    named: Named,
    after: &[u8],
) -> Result<(Boxed<Ty>, Items<u8>, bool), NoMemory>
    ensures { IfOk result (λ parts. parts ≡ (named.ty, before.now ++ (mark.now ++ (named.text ++ after.now)), named.is_long)) }
{
    let text = text_between(alloc, before, mark, named.text.as_slice(), after)?;
    let (ty, is_long) = type_and_length(named);
    let boxed = Boxed::new(alloc, ty)?;
    Ok((boxed, text, is_long))
}

fn mut_where(mutable: bool) -> &'static [u8]
    ensures { result.now ≡ mut_where mutable }
{
    if mutable { b"mut " } else { b"" }
}

fn pointer_word(mutable: bool) -> &'static [u8]
    ensures { result.now ≡ pointer_word mutable }
{
    if mutable { b"mut " } else { b"const " }
}

#[tactic(auto, unfolding(mir_grammar::specs::Names::to_ref))]
pub fn to_ref(alloc: Global, mutable: bool, target: Named) -> Result<Named, NoMemory>
    ensures { IfOk result (λ named. named ≡ to_ref (mutable, target)) }
{
    let (target, text, is_long) = placed_between(alloc, b"&", mut_where(mutable), target, b"")?;
    Ok(Named {
        ty: Ty::Ref { mutable, target },
        text,
        is_long,
        argument: None,
        start: 0,
    })
}

#[tactic(auto, unfolding(mir_grammar::specs::Names::to_raw))]
pub fn to_raw(alloc: Global, mutable: bool, target: Named) -> Result<Named, NoMemory>
    ensures { IfOk result (λ named. named ≡ to_raw (mutable, target)) }
{
    let (target, text, is_long) = placed_between(alloc, b"*", pointer_word(mutable), target, b"")?;
    Ok(Named {
        ty: Ty::Raw { mutable, target },
        text,
        is_long,
        argument: None,
        start: 0,
    })
}

/// `(T)` is T, and `(T,)` is a tuple of one.
fn tuple_of(types: Items<Ty>, comma: bool) -> Ty
    ensures { result ≡ tuple_of types comma }
{
    let mut types = types;
    if comma || types.len() != 1 {
        return Ty::Tuple(types);
    }
    match types.pop() {
        Some(ty) => ty,
        None => Ty::Tuple(types),
    }
}

#[tactic(auto, using(crate::proofs::Tupling::tuple_is), unfolding(mir_grammar::specs::Names::to_tuple))]
pub fn to_tuple(alloc: Global, names: Vec<Named>, comma: bool) -> Result<Named, NoMemory>
    ensures { IfOk result (λ named. named ≡ to_tuple (names.items, comma)) }
{
    let text = tuple_text(alloc, names.as_slice(), comma)?;
    let is_long = has_long_name(names.as_slice());
    let types = types_of(alloc, names)?;
    Ok(Named {
        ty: tuple_of(Items::from_vec(types), comma),
        text,
        is_long,
        argument: None,
        start: 0,
    })
}

fn text_of(named: Named) -> Items<u8>
    ensures { result ≡ named.text }
{
    let Named { text, .. } = named;
    text
}

/// The name of a dyn type's path, and the text of the type.
fn dyn_texts(alloc: Global, path: Items<u8>) -> Result<(Name, Items<u8>), NoMemory>
    ensures { IfOk result (λ texts. texts ≡ (path, codes "dyn " ++ path)) }
{
    let text = text_between(alloc, b"dyn ", b"", path.as_slice(), b"")?;
    let name = Name::from_bytes(alloc, path.as_slice())?;
    Ok((name, text))
}

#[tactic(auto, unfolding(mir_grammar::specs::Names::to_dyn))]
pub fn to_dyn(alloc: Global, path: Named) -> Result<Named, NoMemory>
    ensures { IfOk result (λ named. named ≡ to_dyn path) }
{
    let is_long = path.is_long;
    let (name, text) = dyn_texts(alloc, text_of(path))?;
    Ok(Named {
        ty: Ty::Dyn(name),
        text,
        is_long,
        argument: None,
        start: 0,
    })
}

fn qualified_text(alloc: Global, ty: &[u8], path: &[u8]) -> Result<Items<u8>, NoMemory>
    ensures { IfOk result (λ text. text ≡ qualified_text ty.now path.now) }
{
    let mut out = Vec::new(alloc);
    out.extend_from_slice(b"<")?;
    out.extend_from_slice(ty)?;
    out.extend_from_slice(b" as ")?;
    out.extend_from_slice(path)?;
    out.extend_from_slice(b">")?;
    Ok(Items::from_vec(out))
}

/// `<T as P>`.
#[tactic(auto, unfolding(mir_grammar::specs::Names::to_qualified))]
pub fn to_qualified(
    alloc: Global,
    bracket: &Piece<'_>,
    ty: &Named,
    path: &Named,
) -> Result<Named, NoMemory>
    ensures { IfOk result (λ named. named ≡ to_qualified (bracket.now, (ty.now, path.now))) }
{
    let text = qualified_text(alloc, ty.text.as_slice(), path.text.as_slice())?;
    let name = Name::from_bytes(alloc, text.as_slice())?;
    Ok(Named {
        ty: Ty::Named(name),
        text,
        is_long: ty.is_long || path.is_long,
        argument: None,
        start: bracket.start(),
    })
}

/// `[T]`.
#[tactic(auto, unfolding(mir_grammar::specs::Names::to_array))]
pub fn to_slice(alloc: Global, item: Named) -> Result<Named, NoMemory>
    ensures { IfOk result (λ named. named ≡ to_array (item, None)) }
{
    let (item, text, is_long) = placed_between(alloc, b"[", b"", item, b"]")?;
    Ok(Named {
        ty: Ty::Slice(item),
        text,
        is_long,
        argument: None,
        start: 0,
    })
}
