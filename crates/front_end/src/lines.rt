ghost use Rattle.std.specs.Prelude.{◌≡◌, ◌++◌, IfOk, OnOk, codes};
ghost use Rattle.std.specs.Fmt.{decimal};
ghost use Rattle.front_end.specs.Lines.{at_text, limit_word, name_at, place_text, refusal_text, site_text};

use crate::refusal::Refusal;
use crate::words::{declaration_word, layout_word, limit_word, text_word, type_word};
use itoa::Buffer;
use raw_functions::Limit;
use std::alloc::Global;
use vk_core::{At, Name, NoMemory, Site, TextPlace};

fn push_text(out: &mut Vec<u8>, text: &str) -> Result<(), NoMemory>
    ensures { OnOk result (out.new.items ≡ out.old.items ++ text.now) }
{
    out.extend_from_slice(text.as_bytes())?;
    Ok(())
}

fn push_name(out: &mut Vec<u8>, name: &Name) -> Result<(), NoMemory>
    ensures { OnOk result (out.new.items ≡ out.old.items ++ name.now) }
{
    out.extend_from_slice(name.as_bytes())?;
    Ok(())
}

fn push_decimal(out: &mut Vec<u8>, number: u32) -> Result<(), NoMemory>
    ensures { OnOk result (out.new.items ≡ out.old.items ++ decimal number) }
{
    let mut buffer = Buffer::new();
    out.extend_from_slice(buffer.format(number).as_bytes())?;
    Ok(())
}

fn push_place(out: &mut Vec<u8>, place: TextPlace) -> Result<(), NoMemory>
    ensures { OnOk result (out.new.items ≡ out.old.items ++ place_text place) }
{
    push_decimal(out, place.line)?;
    push_text(out, ":")?;
    push_decimal(out, place.column)?;
    Ok(())
}

fn push_at(out: &mut Vec<u8>, head: &str, word: &str, place: TextPlace) -> Result<(), NoMemory>
    ensures { OnOk result (out.new.items ≡ out.old.items ++ (head.now ++ word.now ++ codes " at " ++ place_text place)) }
{
    push_text(out, head)?;
    push_text(out, word)?;
    push_text(out, " at ")?;
    push_place(out, place)?;
    Ok(())
}

fn push_of(
    out: &mut Vec<u8>,
    head: &str,
    word: &str,
    between: &str,
    name: &Name,
) -> Result<(), NoMemory>
    ensures { OnOk result (out.new.items ≡ out.old.items ++ (head.now ++ word.now ++ between.now ++ name.now)) }
{
    push_text(out, head)?;
    push_text(out, word)?;
    push_text(out, between)?;
    push_name(out, name)?;
    Ok(())
}

fn push_unsupported(out: &mut Vec<u8>, form: &Name, place: TextPlace) -> Result<(), NoMemory>
    ensures { OnOk result (out.new.items ≡ out.old.items ++ (codes "error: text: Unsupported " ++ form.now ++ codes " at " ++ place_text place)) }
{
    push_text(out, "error: text: Unsupported ")?;
    push_name(out, form)?;
    push_text(out, " at ")?;
    push_place(out, place)?;
    Ok(())
}

fn push_too_many(out: &mut Vec<u8>, what: Limit) -> Result<(), NoMemory>
    ensures { OnOk result (out.new.items ≡ out.old.items ++ (codes "error: text: TooMany " ++ limit_word what)) }
{
    push_text(out, "error: text: TooMany ")?;
    push_text(out, limit_word(what))?;
    Ok(())
}

#[tactic(auto, unfolding(crate::specs::Lines::refusal_text))]
fn push_refusal(out: &mut Vec<u8>, refusal: &Refusal) -> Result<(), NoMemory>
    ensures { OnOk result (out.new.items ≡ out.old.items ++ refusal_text refusal.now) }
{
    match refusal {
        Refusal::Text { kind, place } => push_at(out, "error: text: ", text_word(*kind), *place)?,
        Refusal::Unsupported { form, place } => push_unsupported(out, form, *place)?,
        Refusal::TooMany { what } => push_too_many(out, *what)?,
        Refusal::NotToml => push_text(out, "error: declarations: NotToml")?,
        Refusal::Declaration { kind, path } => push_of(
            out,
            "error: declarations: ",
            declaration_word(*kind),
            " at ",
            path,
        )?,
        Refusal::Layout { kind, ty } => {
            push_of(out, "error: layout: ", layout_word(*kind), " of ", ty)?;
        }
        Refusal::Types { kind, place } => {
            push_of(out, "error: types: ", type_word(*kind), " at ", place)?;
        }
    }
    Ok(())
}

/// The line of a refusal, without its line feed.
pub fn refusal_text(alloc: Global, refusal: &Refusal) -> Result<Vec<u8>, NoMemory>
    ensures { IfOk result (λ text. text.items ≡ refusal_text refusal.now) }
{
    let mut out = Vec::new(alloc);
    push_refusal(&mut out, refusal)?;
    Ok(out)
}

fn name_at(names: &[Name], number: u32) -> &[u8]
    ensures { result.now ≡ name_at names.now number }
{
    match names.get(number as usize) {
        Some(name) => name.as_bytes(),
        None => &[],
    }
}

#[tactic(auto, unfolding(crate::specs::Lines::site_text))]
fn push_site(out: &mut Vec<u8>, names: &[Name], site: Site) -> Result<(), NoMemory>
    ensures { OnOk result (out.new.items ≡ out.old.items ++ site_text names.now site) }
{
    out.extend_from_slice(name_at(names, site.function.0))?;
    push_text(out, " bb")?;
    push_decimal(out, site.block.0)?;
    push_text(out, "[")?;
    push_decimal(out, site.index)?;
    push_text(out, "]")?;
    Ok(())
}

/// Where a refusal of typing stands: `FUNCTION bbB[I]` by the names of the functions, or a path.
pub fn place_of(alloc: Global, names: &[Name], at: &At) -> Result<Name, NoMemory>
    ensures { IfOk result (λ place. place ≡ at_text names.now at.now) }
{
    match at {
        At::Code(site) => {
            let mut out = Vec::new(alloc);
            push_site(&mut out, names, *site)?;
            let place = Name::from_bytes(alloc, out.as_slice())?;
            Ok(place)
        }
        At::Entry(path) => {
            let place = Name::from_bytes(alloc, path.as_bytes())?;
            Ok(place)
        }
    }
}
