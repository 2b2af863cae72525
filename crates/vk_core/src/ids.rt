/// A function, by its place in the text.
#[derive(Clone, Copy, Debug, PartialEq, Eq, Hash)]
pub struct FnId(pub u32);

/// A basic block, by the number of its label: `bb3` is 3.
#[derive(Clone, Copy, Debug, PartialEq, Eq, Hash)]
pub struct BlockId(pub u32);

/// A local, by its number: `_3` is 3, and 0 is the return place.
#[derive(Clone, Copy, Debug, PartialEq, Eq, Hash)]
pub struct LocalId(pub u32);

/// A type of a program, by its number there.
#[derive(Clone, Copy, Debug, PartialEq, Eq, Hash)]
pub struct TyId(pub u32);

/// A declared trait, by its place in the declaration file.
#[derive(Clone, Copy, Debug, PartialEq, Eq, Hash)]
pub struct TraitId(pub u32);

/// A declared vtable, by its place in the declaration file.
#[derive(Clone, Copy, Debug, PartialEq, Eq, Hash)]
pub struct VtId(pub u32);

/// A verification unit (a proof harness or a contract), by its place in the declaration file.
#[derive(Clone, Copy, Debug, PartialEq, Eq, Hash)]
pub struct UnitId(pub u32);
