ghost use Rattle.std.specs.Prelude.{◌≡◌, IfOk};
ghost use Rattle.toml.specs.View.{view};
ghost use Rattle.decl_tree.specs.Keys.{needed};
ghost use Rattle.decl_tree.specs.Lists.{list_at};
ghost use Rattle.decl_texts.specs.Texts.{path_in};
ghost use Rattle.decl_file.specs.Gathered.{both};

use decl_texts::path_at;
use decl_tree::{Element, KeyFault, Read, list_at};
use sqlite_items::Items;
use std::alloc::Global;
use toml::Value;
use vk_core::Name;

/// Two values, or the first fault.
pub fn both<A: Drop, B: Drop>(
    first: Result<A, KeyFault>,
    second: Result<B, KeyFault>,
) -> Result<(A, B), KeyFault>
    ensures { result ≡ both first second }
{
    match first {
        Err(fault) => Err(fault),
        Ok(first) => match second {
            Err(fault) => Err(fault),
            Ok(second) => Ok((first, second)),
        },
    }
}

/// What was read before a key, and the path that the key holds.
pub fn with_path<A: Drop>(
    alloc: Global,
    before: Result<A, KeyFault>,
    key: &str,
    value: &Value,
) -> Read<(A, Name)>
    ensures { IfOk result (λ read. read ≡ both before (needed key.now path_in (view value.now))) }
{
    match before {
        Err(fault) => Ok(Err(fault)),
        Ok(before) => {
            let path = path_at(alloc, key, value)?;
            Ok(both(Ok(before), path))
        }
    }
}

/// What was read before a key, and the list that the key holds.
pub fn with_list<A: Drop, R: Element>(
    alloc: Global,
    before: Result<A, KeyFault>,
    reader: &R,
    key: &str,
    value: &Value,
) -> Read<(A, Items<R::Out>)>
where
    R::Out: Drop,
    ensures { IfOk result (λ read. read ≡ both before (list_at (R.meaning reader.now) key.now (view value.now))) }
{
    match before {
        Err(fault) => Ok(Err(fault)),
        Ok(before) => {
            let list = list_at(alloc, reader, key, value)?;
            Ok(both(Ok(before), list))
        }
    }
}
