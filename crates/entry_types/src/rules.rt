ghost use Rattle.std.specs.Prelude.{◌≡◌, is_some};
ghost use Rattle.type_rules.specs.Entries.{aliases_fit, contract_fits, contracts_fit, locals_known, loop_fits, loop_in, loops_fit, modified, refused_in};
ghost use Rattle.type_rules.specs.Lookup.{block_at, function_named, local_type};
ghost use Rattle.type_rules.specs.Refusals.{check};
ghost use Rattle.type_rules.specs.declared.refusal.TypeKind.TheVariants as refused;
ghost use Rattle.entry_types.specs.Paths.{entry_path, key_path, list_path, told};

use crate::functions::Functions;
use crate::known::{function_known, functions_known, places_fit};
use crate::paths::{Entry, EntryKey, EntryTable, KeyPath, ListPath, Misfit, require};
use mir_ir::{AliasDecl, Contract, LoopRule, PlaceExpr};
use name_tables::{Body, Declared};
use type_rules::TypeKind;
use vk_core::{BlockId, LocalId, Name};

/// The aliases, one after the other.
pub fn aliases_fit(functions: &Functions<'_>, aliases: &[AliasDecl]) -> Result<(), Misfit>
    ensures { told result ≡ aliases_fit functions.now 0 aliases.now }
{
    let mut at = 0;
    while at < aliases.len() {
        let alias = &aliases[at];
        let entry = Entry {
            table: EntryTable::Alias,
            at,
        };
        function_known(
            functions,
            KeyPath::Key(entry, EntryKey::Function),
            &alias.function,
        )?;
        at += 1;
    }
    Ok(())
}

/// The places that a call of the function may modify.
fn modified<'a>(
    functions: &Functions<'a>,
    declared: &Declared<'a>,
    name: &Name,
    list: ListPath,
    places: &'a [PlaceExpr],
) -> Result<(), Misfit>
    ensures { told result ≡ modified declared.now (function_named functions.now name.now) (list_path list) places.now }
{
    match functions.body_of(name.as_bytes()) {
        None => Ok(()),
        Some(body) => places_fit(declared, body, list, places),
    }
}

fn contract_fits<'a>(
    functions: &Functions<'a>,
    declared: &Declared<'a>,
    entry: Entry,
    contract: &'a Contract,
) -> Result<(), Misfit>
    ensures { told result ≡ contract_fits functions.now declared.now (entry_path entry) contract.now }
{
    let required = ListPath::AtKey(entry, EntryKey::Requires);
    let ensured = ListPath::AtKey(entry, EntryKey::Ensures);
    let modifies = ListPath::AtKey(entry, EntryKey::Modifies);
    function_known(
        functions,
        KeyPath::Key(entry, EntryKey::Function),
        &contract.function,
    )?;
    functions_known(functions, required, contract.required.as_slice())?;
    functions_known(functions, ensured, contract.ensured.as_slice())?;
    modified(
        functions,
        declared,
        &contract.function,
        modifies,
        contract.modifies.as_slice(),
    )?;
    Ok(())
}

/// The contracts, one after the other.
pub fn contracts_fit<'a>(
    functions: &Functions<'a>,
    declared: &Declared<'a>,
    contracts: &'a [Contract],
) -> Result<(), Misfit>
    ensures { told result ≡ contracts_fit functions.now declared.now 0 contracts.now }
{
    let mut at = 0;
    while at < contracts.len() {
        let contract = &contracts[at];
        let entry = Entry {
            table: EntryTable::Contract,
            at,
        };
        contract_fits(functions, declared, entry, contract)?;
        at += 1;
    }
    Ok(())
}

fn is_block(body: &Body<'_>, label: BlockId) -> bool
    ensures { result ≡ is_some (block_at body.now label) }
{
    match body.block_at(label) {
        None => false,
        Some(_) => true,
    }
}

fn is_local(body: &Body<'_>, local: LocalId) -> bool
    ensures { result ≡ is_some (local_type body.now local) }
{
    match body.local_type(local) {
        None => false,
        Some(_) => true,
    }
}

fn local_known(body: &Body<'_>, path: KeyPath, local: LocalId) -> Result<(), Misfit>
    ensures { told result ≡ refused_in (key_path path) (check (is_some (local_type body.now local)) refused.UnknownName) }
{
    require(is_local(body, local), TypeKind::UnknownName, path)?;
    Ok(())
}

/// The function has all these locals.
fn locals_known(body: &Body<'_>, list: ListPath, locals: &[LocalId]) -> Result<(), Misfit>
    ensures { told result ≡ locals_known body.now (list_path list) 0 locals.now }
{
    let mut at = 0;
    while at < locals.len() {
        let local = locals[at];
        local_known(body, KeyPath::Element(list, at), local)?;
        at += 1;
    }
    Ok(())
}

/// What a rule names in the function whose loop it is of.
fn rule_fits<'a>(
    functions: &Functions<'a>,
    declared: &Declared<'a>,
    body: &Body<'a>,
    entry: Entry,
    rule: &'a LoopRule,
) -> Result<(), Misfit>
    ensures { told result ≡ loop_in functions.now declared.now (Some body.now) (entry_path entry) rule.now }
{
    let arguments = ListPath::AtKey(entry, EntryKey::Arguments);
    let modifies = ListPath::AtKey(entry, EntryKey::Modifies);
    require(
        is_block(body, rule.header),
        TypeKind::UnknownName,
        KeyPath::Key(entry, EntryKey::Header),
    )?;
    function_known(
        functions,
        KeyPath::Key(entry, EntryKey::Invariant),
        &rule.invariant,
    )?;
    locals_known(body, arguments, rule.arguments.as_slice())?;
    places_fit(declared, body, modifies, rule.modifies.as_slice())?;
    Ok(())
}

fn loop_in<'a>(
    functions: &Functions<'a>,
    declared: &Declared<'a>,
    entry: Entry,
    rule: &'a LoopRule,
) -> Result<(), Misfit>
    ensures { told result ≡ loop_in functions.now declared.now (function_named functions.now rule.now.function) (entry_path entry) rule.now }
{
    match functions.body_of(rule.function.as_bytes()) {
        None => Ok(()),
        Some(body) => rule_fits(functions, declared, body, entry, rule),
    }
}

fn loop_fits<'a>(
    functions: &Functions<'a>,
    declared: &Declared<'a>,
    entry: Entry,
    rule: &'a LoopRule,
) -> Result<(), Misfit>
    ensures { told result ≡ loop_fits functions.now declared.now (entry_path entry) rule.now }
{
    function_known(
        functions,
        KeyPath::Key(entry, EntryKey::Function),
        &rule.function,
    )?;
    loop_in(functions, declared, entry, rule)?;
    Ok(())
}

/// The loop rules, one after the other.
pub fn loops_fit<'a>(
    functions: &Functions<'a>,
    declared: &Declared<'a>,
    loops: &'a [LoopRule],
) -> Result<(), Misfit>
    ensures { told result ≡ loops_fit functions.now declared.now 0 loops.now }
{
    let mut at = 0;
    while at < loops.len() {
        let rule = &loops[at];
        let entry = Entry {
            table: EntryTable::Loop,
            at,
        };
        loop_fits(functions, declared, entry, rule)?;
        at += 1;
    }
    Ok(())
}
