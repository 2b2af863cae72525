use vk_core::At;

/// The kinds of refusals of typing. Where several stand at one place, the earlier of this list comes first.
#[derive(Clone, Copy, Debug, PartialEq, Eq)]
pub enum TypeKind {
    UnknownName,
    Mismatch,
    BadPlace,
    BadCall,
    BadCast,
    NotPlain,
}

/// The first thing that is refused, and where it stands: in the code, or at the path of a declaration entry.
#[derive(Debug, Drop)]
pub struct Refusal {
    pub kind: TypeKind,
    pub at: At,
}
