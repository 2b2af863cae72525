ghost use Rattle.std.specs.Prelude.{◌≡◌, ◌++◌, Err, IfOk, IsOkAnd, OnOk};
ghost use Rattle.std.specs.Fmt.{decimal};
ghost use Rattle.decl_tree.specs.Faults.{here, under, key_step, item_step};

use crate::fault::{DeclKind, KeyFault, Read};
use itoa::Buffer;
use std::alloc::Global;
use vk_core::{Name, NoMemory};

/// A fault at the thing itself.
pub fn here<A>(alloc: Global, kind: DeclKind) -> Read<A>
    ensures { IfOk result (λ read. read ≡ here kind) }
{
    let path = Name::from_bytes(alloc, b"")?;
    Ok(Err(KeyFault { kind, path }))
}

/// The path of a fault inside, behind the step that leads inside.
fn led_by(alloc: Global, step: &[u8], path: &Name) -> Result<Name, NoMemory>
    ensures { IfOk result (λ led. led ≡ step.now ++ path.now) }
{
    let mut out = Vec::new(alloc);
    out.extend_from_slice(step)?;
    out.extend_from_slice(path.as_bytes())?;
    let led = Name::from_bytes(alloc, out.as_slice())?;
    Ok(led)
}

/// What was read inside; a fault of it is told with the step that leads inside.
pub fn under<A>(alloc: Global, step: &[u8], read: Result<A, KeyFault>) -> Read<A>
    ensures { IfOk result (λ told. told ≡ under step.now read) }
{
    match read {
        Ok(value) => Ok(Ok(value)),
        Err(fault) => {
            let path = led_by(alloc, step, &fault.path)?;
            Ok(Err(KeyFault {
                kind: fault.kind,
                path,
            }))
        }
    }
}

/// A fault inside, with the step that leads inside.
fn behind<A>(alloc: Global, step: Result<Vec<u8>, NoMemory>, fault: KeyFault) -> Read<A>
    ensures { IfOk result (λ told. IsOkAnd step (λ s. told ≡ under s.items (Err fault))) }
{
    let step = step?;
    let path = led_by(alloc, step.as_slice(), &fault.path)?;
    Ok(Err(KeyFault {
        kind: fault.kind,
        path,
    }))
}

/// The step to what a key holds.
fn key_step(alloc: Global, key: &str) -> Result<Vec<u8>, NoMemory>
    ensures { IfOk result (λ step. step.items ≡ key_step key.now) }
{
    let mut step = Vec::new(alloc);
    step.push(b'.')?;
    step.extend_from_slice(key.as_bytes())?;
    Ok(step)
}

/// The same of what a key holds.
pub fn under_key<A>(alloc: Global, key: &str, read: Result<A, KeyFault>) -> Read<A>
    ensures { IfOk result (λ told. told ≡ under (key_step key.now) read) }
{
    match read {
        Ok(value) => Ok(Ok(value)),
        Err(fault) => {
            let step = key_step(alloc, key);
            behind(alloc, step, fault)
        }
    }
}

/// The step to an element of a list.
fn item_step(alloc: Global, at: usize) -> Result<Vec<u8>, NoMemory>
    ensures { IfOk result (λ step. step.items ≡ item_step at) }
{
    let mut buffer = Buffer::new();
    let mut step = Vec::new(alloc);
    step.push(b'[')?;
    step.extend_from_slice(buffer.format(at).as_bytes())?;
    step.push(b']')?;
    Ok(step)
}

/// The same of an element of a list.
pub fn under_item<A>(alloc: Global, at: usize, read: Result<A, KeyFault>) -> Read<A>
    ensures { IfOk result (λ told. told ≡ under (item_step at) read) }
{
    match read {
        Ok(value) => Ok(Ok(value)),
        Err(fault) => {
            let step = item_step(alloc, at);
            behind(alloc, step, fault)
        }
    }
}
