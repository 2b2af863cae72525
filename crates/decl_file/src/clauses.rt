ghost use Rattle.std.specs.Prelude.{◌≡◌, IfOk};
ghost use Rattle.toml.specs.View.{view};
ghost use Rattle.decl_file.specs.Clauses.{contract_entry, contract_in, contract_labels, contract_of, loop_entry, loop_in, loop_labels, loop_of, rule_in};

use crate::gather::{both, with_list, with_path};
use decl_texts::{Locals, Paths, Places};
use decl_tree::{Element, KeyFault, Labels, Read, one_label, only_keys, small_at};
use decl_types::decimal_name;
use mir_ir::{Contract, LoopRule, PlaceExpr};
use sqlite_items::Items;
use std::alloc::Global;
use toml::Value;
use vk_core::{BlockId, LocalId, Name, NoMemory};

const CONTRACT_KEYS: [&str; 4] = ["function", "requires", "ensures", "modifies"];

const LOOP_KEYS: [&str; 5] = ["function", "header", "invariant", "arguments", "modifies"];

/// The greatest number of a block.
const MAX_BLOCK: u32 = 4095;

type ContractParts = (((((), Name), Items<Name>), Items<Name>), Items<PlaceExpr>);

/// The contract of these parts, or their first fault.
fn contract_of(parts: Result<ContractParts, KeyFault>) -> Result<Contract, KeyFault>
    ensures { result ≡ contract_of parts }
{
    let ((((_known, function), required), ensured), modifies) = parts?;
    Ok(Contract {
        function,
        required,
        ensured,
        modifies,
    })
}

/// The contract that a table declares.
fn contract_in(alloc: Global, value: &Value) -> Read<Contract>
    ensures { IfOk result (λ read. read ≡ contract_in (view value.now)) }
{
    let known = only_keys(alloc, &CONTRACT_KEYS, value)?;
    let function = with_path(alloc, known, "function", value)?;
    let required = with_list(alloc, function, &Paths, "requires", value)?;
    let ensured = with_list(alloc, required, &Paths, "ensures", value)?;
    let modifies = with_list(alloc, ensured, &Places, "modifies", value)?;
    Ok(contract_of(modifies))
}

/// The function of a contract, which no other contract is of.
fn contract_labels(alloc: Global, declared: &Contract) -> Result<Labels, NoMemory>
    ensures { IfOk result (λ labels. labels ≡ contract_labels declared.now) }
{
    let labels = one_label(alloc, declared.function.as_bytes(), b"")?;
    Ok(labels)
}

/// Contracts, no two of them of one function.
#[derive(Clone, Copy, Debug)]
pub struct Contracts;

impl Element for Contracts {
    type Out = Contract;

    ghost meaning = { λ _. contract_entry };

    fn read(&self, alloc: Global, _at: usize, value: &Value) -> Read<(Contract, Labels)> {
        match contract_in(alloc, value)? {
            Err(fault) => Ok(Err(fault)),
            Ok(declared) => {
                let labels = contract_labels(alloc, &declared)?;
                Ok(Ok((declared, labels)))
            }
        }
    }
}

/// The function, the header and the invariant of a loop rule.
type RuleParts = ((((), Name), u32), Name);

/// Behind them its arguments and places.
type LoopParts = ((RuleParts, Items<LocalId>), Items<PlaceExpr>);

/// The loop rule of these parts, or their first fault.
fn loop_of(parts: Result<LoopParts, KeyFault>) -> Result<LoopRule, KeyFault>
    ensures { result ≡ loop_of parts }
{
    let ((rule, arguments), modifies) = parts?;
    let (((_known, function), header), invariant) = rule;
    Ok(LoopRule {
        function,
        header: BlockId(header),
        invariant,
        arguments,
        modifies,
    })
}

/// The function, the header and the invariant of a loop rule, from its table.
fn rule_in(alloc: Global, value: &Value) -> Read<RuleParts>
    ensures { IfOk result (λ read. read ≡ rule_in (view value.now)) }
{
    let known = only_keys(alloc, &LOOP_KEYS, value)?;
    let function = with_path(alloc, known, "function", value)?;
    let header = small_at(alloc, 0, MAX_BLOCK, "header", value)?;
    let invariant = with_path(alloc, both(function, header), "invariant", value)?;
    Ok(invariant)
}

/// The loop rule that a table declares.
fn loop_in(alloc: Global, value: &Value) -> Read<LoopRule>
    ensures { IfOk result (λ read. read ≡ loop_in (view value.now)) }
{
    let rule = rule_in(alloc, value)?;
    let arguments = with_list(alloc, rule, &Locals, "arguments", value)?;
    let modifies = with_list(alloc, arguments, &Places, "modifies", value)?;
    Ok(loop_of(modifies))
}

/// The function and the header of a loop rule, which no other rule has both of.
fn loop_labels(alloc: Global, declared: &LoopRule) -> Result<Labels, NoMemory>
    ensures { IfOk result (λ labels. labels ≡ loop_labels declared.now) }
{
    let header = decimal_name(alloc, declared.header.0 as usize)?;
    let labels = one_label(alloc, declared.function.as_bytes(), header.as_bytes())?;
    Ok(labels)
}

/// Loop rules, no two of them of one function and header.
#[derive(Clone, Copy, Debug)]
pub struct Loops;

impl Element for Loops {
    type Out = LoopRule;

    ghost meaning = { λ _. loop_entry };

    fn read(&self, alloc: Global, _at: usize, value: &Value) -> Read<(LoopRule, Labels)> {
        match loop_in(alloc, value)? {
            Err(fault) => Ok(Err(fault)),
            Ok(declared) => {
                let labels = loop_labels(alloc, &declared)?;
                Ok(Ok((declared, labels)))
            }
        }
    }
}
