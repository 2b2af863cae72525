ghost use Rattle.std.specs.Prelude.{◌≡◌, IfSome, IsTrue, Ok, Err};
ghost use Rattle.toml.specs.Data.{as_table};
ghost use Rattle.toml.specs.Parse.{parse_document};
ghost use Rattle.toml.specs.View.{view};
ghost use Rattle.decl_tests.specs.Answers.{value_of, was_read};

use decl_tree::{DeclKind, KeyFault, Read};
use std::alloc::Global;
use toml::{Value, table_from_str};

/// The tree of a text, and `false` where it is no TOML.
#[tactic(auto, using(decl_file::proofs::Counts::viewed_table))]
pub fn tree_of(alloc: Global, text: &str) -> Value
    ensures { IfSome (as_table (view result)) (λ tree. parse_document text.now ≡ Some tree) }
{
    match table_from_str(alloc, text) {
        Ok(table) => Value::Table(table),
        Err(_fault) => Value::Boolean(false),
    }
}

/// Whether something was read.
pub fn is_read<A: Drop>(read: Read<A>) -> bool
    ensures { result ≡ was_read read }
{
    match read {
        Ok(Ok(_value)) => true,
        Ok(Err(_fault)) => false,
        Err(_memory) => false,
    }
}

/// The value that was read, None where it is a fault.
pub fn plain<A: Copy>(read: Read<A>) -> Option<A>
    ensures { result ≡ value_of read }
{
    match read {
        Ok(Ok(value)) => Some(value),
        Ok(Err(_fault)) => None,
        Err(_memory) => None,
    }
}

/// Whether a fault is of this kind and has this path.
fn is_fault_at(fault: &KeyFault, kind: DeclKind, path: &str) -> bool
    ensures { IsTrue result → fault.now ≡ record { kind = kind; path = path.now } }
{
    fault.kind == kind && fault.path.as_bytes() == path.as_bytes()
}

/// Whether what was read is this fault.
pub fn is_fault<A: Drop>(read: Read<A>, kind: DeclKind, path: &str) -> bool
    ensures { IsTrue result → read ≡ Ok (Err (record { kind = kind; path = path.now })) }
{
    match read {
        Ok(Ok(_value)) => false,
        Ok(Err(fault)) => is_fault_at(&fault, kind, path),
        Err(_memory) => false,
    }
}
