ghost use Rattle.std.specs.Prelude.{◌≡◌, IfOk, OnOk};
ghost use Rattle.type_rules.specs.Entries.{element, key, refused_in};
ghost use Rattle.type_rules.specs.Refusals.{check};
ghost use Rattle.entry_types.specs.Paths.{entry_path, key_path, key_word, list_path, refusal_of, table_word, told};

use itoa::Buffer;
use std::alloc::Global;
use type_rules::{Refusal, TypeKind};
use vk_core::{At, Name, NoMemory};

/// The tables of a declaration file whose entries are typed.
#[derive(Clone, Copy)]
pub enum EntryTable {
    Type,
    Vtable,
    Alias,
    Contract,
    Loop,
    Unit,
}

/// The keys of an entry at which a type, a name or a place may be refused.
#[derive(Clone, Copy)]
pub enum EntryKey {
    Name,
    Fields,
    Drop,
    Type,
    Trait,
    Methods,
    Function,
    Requires,
    Ensures,
    Modifies,
    Header,
    Invariant,
    Arguments,
    Stubs,
}

/// An entry by its table and its place there, as `type[0]`.
#[derive(Clone, Copy)]
pub struct Entry {
    pub table: EntryTable,
    pub at: usize,
}

/// A list in an entry: at a key, as `type[0].fields`, or the fields of a variant, as `type[0].variants[1].fields`.
#[derive(Clone, Copy)]
pub enum ListPath {
    AtKey(Entry, EntryKey),
    OfVariant(Entry, usize),
}

/// What is refused in an entry: a key, as `type[0].name`, an element of a list, as `vtable[0].methods[1]`, or the type of such an
/// element, as `type[0].fields[2].type`. The path is written only where it is asked for.
#[derive(Clone, Copy)]
pub enum KeyPath {
    Key(Entry, EntryKey),
    Element(ListPath, usize),
    ElementType(ListPath, usize),
}

/// A refusal whose path is not written yet.
#[derive(Clone, Copy)]
pub struct Misfit {
    pub kind: TypeKind,
    pub path: KeyPath,
}

/// Refused at the path where the test is false.
pub fn require(holds: bool, kind: TypeKind, path: KeyPath) -> Result<(), Misfit>
    ensures { told result ≡ refused_in (key_path path) (check holds kind) }
{
    if holds {
        Ok(())
    } else {
        Err(Misfit { kind, path })
    }
}

/// A refusal at the path.
pub fn at_path(fits: Result<(), TypeKind>, path: KeyPath) -> Result<(), Misfit>
    ensures { told result ≡ refused_in (key_path path) fits }
{
    match fits {
        Ok(()) => Ok(()),
        Err(kind) => Err(Misfit { kind, path }),
    }
}

fn table_word(table: EntryTable) -> &'static str
    ensures { result.now ≡ table_word table }
{
    match table {
        EntryTable::Type => "type",
        EntryTable::Vtable => "vtable",
        EntryTable::Alias => "alias",
        EntryTable::Contract => "contract",
        EntryTable::Loop => "loop",
        EntryTable::Unit => "unit",
    }
}

fn key_word(key: EntryKey) -> &'static str
    ensures { result.now ≡ key_word key }
{
    match key {
        EntryKey::Name => "name",
        EntryKey::Fields => "fields",
        EntryKey::Drop => "drop",
        EntryKey::Type => "type",
        EntryKey::Trait => "trait",
        EntryKey::Methods => "methods",
        EntryKey::Function => "function",
        EntryKey::Requires => "requires",
        EntryKey::Ensures => "ensures",
        EntryKey::Modifies => "modifies",
        EntryKey::Header => "header",
        EntryKey::Invariant => "invariant",
        EntryKey::Arguments => "arguments",
        EntryKey::Stubs => "stubs",
    }
}

/// Leads on to an element of the list.
fn push_element(out: &mut Vec<u8>, at: usize) -> Result<(), NoMemory>
    ensures { OnOk result (out.new.items ≡ element out.old.items at) }
{
    let mut buffer = Buffer::new();
    out.push(b'[')?;
    out.extend_from_slice(buffer.format(at).as_bytes())?;
    out.push(b']')?;
    Ok(())
}

/// Leads on to a key.
fn push_key(out: &mut Vec<u8>, word: &str) -> Result<(), NoMemory>
    ensures { OnOk result (out.new.items ≡ key out.old.items word.now) }
{
    out.push(b'.')?;
    out.extend_from_slice(word.as_bytes())?;
    Ok(())
}

#[tactic(auto, unfolding(crate::specs::Paths::entry_path))]
fn entry_text(alloc: Global, entry: Entry) -> Result<Vec<u8>, NoMemory>
    ensures { IfOk result (λ text. text.items ≡ entry_path entry) }
{
    let mut out = Vec::new(alloc);
    out.extend_from_slice(table_word(entry.table).as_bytes())?;
    push_element(&mut out, entry.at)?;
    Ok(out)
}

fn at_key_text(alloc: Global, entry: Entry, own: EntryKey) -> Result<Vec<u8>, NoMemory>
    ensures { IfOk result (λ text. text.items ≡ key (entry_path entry) (key_word own)) }
{
    let mut out = entry_text(alloc, entry)?;
    push_key(&mut out, key_word(own))?;
    Ok(out)
}

fn of_variant_text(alloc: Global, entry: Entry, variant: usize) -> Result<Vec<u8>, NoMemory>
    ensures { IfOk result (λ text. text.items ≡ list_path (ListPath.OfVariant entry variant)) }
{
    let mut out = entry_text(alloc, entry)?;
    push_key(&mut out, "variants")?;
    push_element(&mut out, variant)?;
    push_key(&mut out, "fields")?;
    Ok(out)
}

fn list_text(alloc: Global, list: ListPath) -> Result<Vec<u8>, NoMemory>
    ensures { IfOk result (λ text. text.items ≡ list_path list) }
{
    match list {
        ListPath::AtKey(entry, own) => at_key_text(alloc, entry, own),
        ListPath::OfVariant(entry, variant) => of_variant_text(alloc, entry, variant),
    }
}

fn element_text(alloc: Global, list: ListPath, at: usize) -> Result<Vec<u8>, NoMemory>
    ensures { IfOk result (λ text. text.items ≡ element (list_path list) at) }
{
    let mut out = list_text(alloc, list)?;
    push_element(&mut out, at)?;
    Ok(out)
}

fn element_type_text(alloc: Global, list: ListPath, at: usize) -> Result<Vec<u8>, NoMemory>
    ensures { IfOk result (λ text. text.items ≡ key_path (KeyPath.ElementType list at)) }
{
    let mut out = element_text(alloc, list, at)?;
    push_key(&mut out, "type")?;
    Ok(out)
}

fn path_text(alloc: Global, path: KeyPath) -> Result<Vec<u8>, NoMemory>
    ensures { IfOk result (λ text. text.items ≡ key_path path) }
{
    match path {
        KeyPath::Key(entry, own) => at_key_text(alloc, entry, own),
        KeyPath::Element(list, at) => element_text(alloc, list, at),
        KeyPath::ElementType(list, at) => element_type_text(alloc, list, at),
    }
}

/// The refusal with its path.
pub fn refusal(alloc: Global, misfit: Misfit) -> Result<Refusal, NoMemory>
    ensures { IfOk result (λ refusal. refusal ≡ refusal_of misfit) }
{
    let text = path_text(alloc, misfit.path)?;
    let path = Name::from_bytes(alloc, text.as_slice())?;
    Ok(Refusal {
        kind: misfit.kind,
        at: At::Entry(path),
    })
}
