ghost use Rattle.std.specs.Prelude.{◌≡◌, ◌≤◌, IfOk};
ghost use Rattle.toml.specs.View.{view};
ghost use Rattle.decl_tree.specs.Keys.{defaulted, needed};
ghost use Rattle.decl_tree.specs.Values.{number_in};

use crate::fault::{DeclKind, Read};
use crate::keys::missing;
use crate::paths::{here, under_key};
use std::alloc::Global;
use toml::Value;

/// An integer from `low` to `high`.
pub fn number_in(alloc: Global, low: u64, high: u64, value: &Value) -> Read<u64>
    ensures { IfOk result (λ read. read ≡ number_in low high (view value.now)) }
{
    match value.as_integer() {
        None => here(alloc, DeclKind::WrongKind),
        Some(number) => match u64::try_from(number) {
            Ok(number) => {
                if low <= number && number <= high {
                    Ok(Ok(number))
                } else {
                    here(alloc, DeclKind::OutOfRange)
                }
            }
            Err(_negative) => here(alloc, DeclKind::OutOfRange),
        },
    }
}

/// The integer from `low` to `high` that a key holds, which must be there.
pub fn number_at(alloc: Global, low: u64, high: u64, key: &str, value: &Value) -> Read<u64>
    ensures { IfOk result (λ read. read ≡ needed key.now (number_in low high) (view value.now)) }
{
    match value.get(key) {
        None => missing(alloc, key),
        Some(held) => {
            let read = number_in(alloc, low, high, held)?;
            under_key(alloc, key, read)
        }
    }
}

/// The same with 32 bits.
pub fn small_in(alloc: Global, low: u32, high: u32, value: &Value) -> Read<u32>
    ensures { IfOk result (λ read. read ≡ number_in low high (view value.now)) }
{
    match value.as_integer() {
        None => here(alloc, DeclKind::WrongKind),
        Some(number) => match u32::try_from(number) {
            Ok(number) => {
                if low <= number && number <= high {
                    Ok(Ok(number))
                } else {
                    here(alloc, DeclKind::OutOfRange)
                }
            }
            Err(_far) => here(alloc, DeclKind::OutOfRange),
        },
    }
}

/// The small integer that a key holds, which must be there.
pub fn small_at(alloc: Global, low: u32, high: u32, key: &str, value: &Value) -> Read<u32>
    ensures { IfOk result (λ read. read ≡ needed key.now (number_in low high) (view value.now)) }
{
    match value.get(key) {
        None => missing(alloc, key),
        Some(held) => {
            let read = small_in(alloc, low, high, held)?;
            under_key(alloc, key, read)
        }
    }
}

/// The small integer that a key holds, else `other`.
pub fn small_or_at(
    alloc: Global,
    other: u32,
    low: u32,
    high: u32,
    key: &str,
    value: &Value,
) -> Read<u32>
    ensures { IfOk result (λ read. read ≡ defaulted other key.now (number_in low high) (view value.now)) }
{
    match value.get(key) {
        None => Ok(Ok(other)),
        Some(held) => {
            let read = small_in(alloc, low, high, held)?;
            under_key(alloc, key, read)
        }
    }
}
