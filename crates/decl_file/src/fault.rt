use decl_tree::DeclKind;
use thiserror::Error;
use vk_core::Name;

/// Why a file declares nothing. `path` leads from the file to the key or the list element that is at fault, as
/// `type[0].fields[1].offset`.
#[derive(Debug, Drop, Error)]
pub enum DeclFault {
    #[error("not TOML")]
    NotToml,
    #[error("a fault of a key or a list element")]
    Key { kind: DeclKind, path: Name },
    #[error("out of memory")]
    Memory,
}
