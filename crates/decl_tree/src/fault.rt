use vk_core::{Name, NoMemory};

/// What is wrong at a place of a declaration file.
#[derive(Clone, Copy, Debug, PartialEq, Eq)]
pub enum DeclKind {
    MissingKey,
    UnknownKey,
    WrongKind,
    OutOfRange,
    Duplicate,
}

/// A fault, and the path that leads to it from what was read, as `.fields[2].offset`.
#[derive(Debug, Drop)]
pub struct KeyFault {
    pub kind: DeclKind,
    pub path: Name,
}

/// A value that was read, or the first fault of it; or want of memory.
pub type Read<A> = Result<Result<A, KeyFault>, NoMemory>;
