ghost use Rattle.std.specs.Prelude.{◌≡◌};
ghost use Rattle.scalar_runs.specs.Builtins.{any_of, builtin_of, is_any, is_assert, is_assume, is_panic};

use crate::kinds::{ValueKind, kind_of};
use mir_ir::{Callee, Ty};

/// A function of `kani` or `core` that runs have steps of their own for.
#[derive(Clone, Copy, Debug, PartialEq, Eq)]
pub enum Builtin {
    /// `kani::any::<T>()`: any value of this kind.
    Any(ValueKind),
    /// `kani::assume(condition)`.
    Assume,
    /// `kani::assert(condition, "text")`.
    Assert,
    /// `core::panicking::panic("text")`, also with `std`.
    Panic,
}

/// The built-in function that the path names, where it names one.
pub fn builtin_of(callee: &Callee) -> Option<Builtin>
    ensures { result ≡ builtin_of callee.now }
{
    if is_any(callee) {
        any_of(&callee.argument)
    } else if is_assume(callee) {
        Some(Builtin::Assume)
    } else if is_assert(callee) {
        Some(Builtin::Assert)
    } else if is_panic(callee) {
        Some(Builtin::Panic)
    } else {
        None
    }
}

fn is_any(callee: &Callee) -> bool
    ensures { result ≡ is_any callee.now }
{
    callee.path.as_bytes().starts_with(b"kani::any<")
}

fn is_assume(callee: &Callee) -> bool
    ensures { result ≡ is_assume callee.now }
{
    callee.path.as_bytes() == b"kani::assume".as_slice()
}

fn is_assert(callee: &Callee) -> bool
    ensures { result ≡ is_assert callee.now }
{
    callee.path.as_bytes() == b"kani::assert".as_slice()
}

fn is_panic(callee: &Callee) -> bool
    ensures { result ≡ is_panic callee.now }
{
    callee.path.as_bytes() == b"core::panicking::panic".as_slice()
        || callee.path.as_bytes() == b"std::panicking::panic".as_slice()
}

fn any_of(argument: &Option<Ty>) -> Option<Builtin>
    ensures { result ≡ any_of argument.now }
{
    match argument {
        None => None,
        Some(ty) => match kind_of(ty) {
            None => None,
            Some(kind) => Some(Builtin::Any(kind)),
        },
    }
}
