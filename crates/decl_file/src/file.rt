ghost use Rattle.std.specs.Prelude.{◌≡◌, IfOk, IfErr, Ok, Err, option_map, drop};
ghost use Rattle.std.specs.Option.{option_copied};
ghost use Rattle.toml.specs.Parse.{parse_document};
ghost use Rattle.toml.specs.View.{view, table_view};
ghost use Rattle.toml.specs.Data.{get};
ghost use Rattle.decl_file.specs.File.{claims_in, declared_by, file_in, file_of, head_of, is_longer, list_within, named_in, shapes_in, text_of, told, told_of, tree_of};
ghost use Rattle.decl_file.specs.Gathered.{both};
ghost use Rattle.decl_file.specs.declared.fault.DeclFault.TheVariants as answer;

use crate::clauses::{Contracts, Loops};
use crate::fault::DeclFault;
use crate::gather::{both, with_list};
use crate::names::{Aliases, Constants};
use crate::traits::{Traits, Vtables};
use crate::units::Units;
use decl_tree::{
    DeclKind, Element, KeyFault, Read, here, list_at, number_at, only_keys, under_key,
};
use decl_types::Types;
use mir_ir::{
    AliasDecl, ConstantDecl, Contract, Declarations, LoopRule, TraitDecl, TypeDecl, Unit,
    VtableDecl,
};
use sqlite_items::Items;
use std::alloc::Global;
use toml::{Table, Value, table_from_str};
use vk_core::{Name, NoMemory};

const FILE_KEYS: [&str; 9] = [
    "version", "type", "trait", "vtable", "constant", "alias", "contract", "loop", "unit",
];

/// The version of the format that this crate reads.
const VERSION: u64 = 1;

/// The greatest count of types.
const MAX_TYPES: usize = 4096;

/// The greatest count of units.
const MAX_UNITS: usize = 1024;

/// Whether a key holds a list of more than `most` elements.
#[tactic(auto, using(crate::proofs::Counts::counted))]
fn is_longer(most: usize, key: &str, value: &Value) -> bool
    ensures { result ≡ is_longer most (get key.now (view value.now)) }
{
    match value.get(key) {
        None => false,
        Some(held) => match held.as_array() {
            None => false,
            Some(items) => items.len() > most,
        },
    }
}

/// The list that a key holds, of at most `most` entries.
fn list_within<R: Element>(
    alloc: Global,
    most: usize,
    reader: &R,
    key: &str,
    value: &Value,
) -> Read<Items<R::Out>>
where
    R::Out: Drop,
    ensures { IfOk result (λ read. read ≡ list_within most (R.meaning reader.now) key.now (view value.now)) }
{
    if is_longer(most, key, value) {
        let fault = here(alloc, DeclKind::OutOfRange)?;
        under_key(alloc, key, fault)
    } else {
        list_at(alloc, reader, key, value)
    }
}

/// A fault of the version comes before those of the other keys.
fn head_of(version: Result<u64, KeyFault>, known: Result<(), KeyFault>) -> Result<(), KeyFault>
    ensures { result ≡ head_of version known }
{
    let _one = version?;
    known?;
    Ok(())
}

/// What was read before a key, and the list of at most `most` entries that the key holds.
fn with_list_within<A: Drop, R: Element>(
    alloc: Global,
    before: Result<A, KeyFault>,
    most: usize,
    reader: &R,
    key: &str,
    value: &Value,
) -> Read<(A, Items<R::Out>)>
where
    R::Out: Drop,
    ensures { IfOk result (λ read. read ≡ both before (list_within most (R.meaning reader.now) key.now (view value.now))) }
{
    match before {
        Err(fault) => Ok(Err(fault)),
        Ok(before) => {
            let table = list_within(alloc, most, reader, key, value)?;
            Ok(both(Ok(before), table))
        }
    }
}

/// What a file begins with, then its types, traits and vtables.
type Shapes = ((((), Items<TypeDecl>), Items<TraitDecl>), Items<VtableDecl>);

/// Behind them its constants and aliases.
type Named = ((Shapes, Items<ConstantDecl>), Items<AliasDecl>);

/// Behind them its contracts and loop rules.
type Claims = ((Named, Items<Contract>), Items<LoopRule>);

/// Behind them its units.
type Tables = (Claims, Items<Unit>);

/// Types, traits and vtables, behind what a file begins with.
fn shapes_in(alloc: Global, value: &Value) -> Read<Shapes>
    ensures { IfOk result (λ read. read ≡ shapes_in (view value.now)) }
{
    let version = number_at(alloc, VERSION, VERSION, "version", value)?;
    let known = only_keys(alloc, &FILE_KEYS, value)?;
    let head = head_of(version, known);
    let types = with_list_within(alloc, head, MAX_TYPES, &Types, "type", value)?;
    let traits = with_list(alloc, types, &Traits, "trait", value)?;
    with_list(alloc, traits, &Vtables, "vtable", value)
}

/// Behind them the constants and aliases.
fn named_in(alloc: Global, value: &Value) -> Read<Named>
    ensures { IfOk result (λ read. read ≡ named_in (view value.now)) }
{
    let shapes = shapes_in(alloc, value)?;
    let constants = with_list(alloc, shapes, &Constants, "constant", value)?;
    with_list(alloc, constants, &Aliases, "alias", value)
}

/// Behind them the contracts and loop rules.
fn claims_in(alloc: Global, value: &Value) -> Read<Claims>
    ensures { IfOk result (λ read. read ≡ claims_in (view value.now)) }
{
    let named = named_in(alloc, value)?;
    let contracts = with_list(alloc, named, &Contracts, "contract", value)?;
    with_list(alloc, contracts, &Loops, "loop", value)
}

/// What the tables of a file declare.
fn file_of(tables: Result<Tables, KeyFault>) -> Result<Declarations, KeyFault>
    ensures { result ≡ file_of tables }
{
    let (claims, units) = tables?;
    let ((named, contracts), loops) = claims;
    let ((shapes, constants), aliases) = named;
    let (((_known, types), traits), vtables) = shapes;
    Ok(Declarations {
        types,
        traits,
        vtables,
        constants,
        aliases,
        contracts,
        loops,
        units,
    })
}

/// What the tables declare, or their first fault.
fn file_in(alloc: Global, value: &Value) -> Read<Declarations>
    ensures { IfOk result (λ read. read ≡ file_in (view value.now)) }
{
    let claims = claims_in(alloc, value)?;
    let tables = with_list_within(alloc, claims, MAX_UNITS, &Units, "unit", value)?;
    Ok(file_of(tables))
}

/// The text that bytes write, None where they are no UTF-8.
fn text_of(bytes: &[u8]) -> Option<&str>
    ensures { option_copied result ≡ text_of bytes.now }
{
    match std::str::from_utf8(bytes) {
        Err(_fault) => None,
        Ok(text) => Some(text),
    }
}

/// The table that a text writes, None where it is no TOML.
fn table_of(alloc: Global, text: &str) -> Result<Option<Table>, NoMemory>
    ensures { IfOk result (λ tree. option_map (λ t. table_view t) tree ≡ parse_document text.now) }
{
    match table_from_str(alloc, text) {
        Ok(table) => Ok(Some(table)),
        Err(fault) => {
            if fault.is_memory() {
                Err(NoMemory)
            } else {
                Ok(None)
            }
        }
    }
}

/// The table that the bytes write, None where they are no UTF-8 or no TOML.
fn tree_of(alloc: Global, bytes: &[u8]) -> Result<Option<Table>, NoMemory>
    ensures { IfOk result (λ tree. option_map (λ t. table_view t) tree ≡ tree_of bytes.now) }
{
    match text_of(bytes) {
        None => Ok(None),
        Some(text) => {
            let tree = table_of(alloc, text)?;
            Ok(tree)
        }
    }
}

/// A path begins with a key of the file, without a point before it.
fn without_point(alloc: Global, path: &Name) -> Result<Name, NoMemory>
    ensures { IfOk result (λ rest. rest ≡ drop 1 path.now) }
{
    match path.as_bytes() {
        [] => {
            let empty = Name::from_bytes(alloc, b"")?;
            Ok(empty)
        }
        [_point, rest @ ..] => {
            let rest = Name::from_bytes(alloc, rest)?;
            Ok(rest)
        }
    }
}

/// A fault of a file, with its path.
fn told<A>(alloc: Global, read: Result<A, KeyFault>) -> Result<A, DeclFault>
    ensures ok { IfOk result (λ declared. told read ≡ Ok declared) }
    ensures err { IfErr result (λ fault. ¬ (fault ≡ answer.Memory) → told read ≡ Err fault) }
{
    match read {
        Ok(declared) => Ok(declared),
        Err(fault) => match without_point(alloc, &fault.path) {
            Ok(path) => Err(DeclFault::Key {
                kind: fault.kind,
                path,
            }),
            Err(_memory) => Err(DeclFault::Memory),
        },
    }
}

/// What the tree of a file declares, or its first fault.
#[tactic(auto, using(crate::proofs::Counts::viewed_table))]
fn declared_in(alloc: Global, tree: Option<Table>) -> Result<Declarations, DeclFault>
    ensures ok { IfOk result (λ declared. told_of (option_map (λ t. table_view t) tree) ≡ Ok declared) }
    ensures err { IfErr result (λ fault. ¬ (fault ≡ answer.Memory) → told_of (option_map (λ t. table_view t) tree) ≡ Err fault) }
{
    match tree {
        None => Err(DeclFault::NotToml),
        Some(table) => match file_in(alloc, &Value::Table(table)) {
            Err(_memory) => Err(DeclFault::Memory),
            Ok(read) => told(alloc, read),
        },
    }
}

/// What a declaration file declares, or its first fault: `version`, then the other keys of the file, then the tables in
/// their order, their entries in order, and in each entry first the keys that it may not have.
#[tactic(auto, unfolding(crate::specs::File::declared_by))]
pub fn declarations(alloc: Global, bytes: &[u8]) -> Result<Declarations, DeclFault>
    ensures ok { IfOk result (λ declared. declared_by bytes.now ≡ Ok declared) }
    ensures err { IfErr result (λ fault. ¬ (fault ≡ answer.Memory) → declared_by bytes.now ≡ Err fault) }
{
    match tree_of(alloc, bytes) {
        Err(_memory) => Err(DeclFault::Memory),
        Ok(tree) => declared_in(alloc, tree),
    }
}
