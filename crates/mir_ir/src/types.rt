use sqlite_items::{Boxed, Items};
use vk_core::Name;

/// An integer type. `isize` and `usize` have 64 bits.
#[derive(Clone, Copy, Debug, PartialEq, Eq)]
pub enum IntTy {
    I8,
    I16,
    I32,
    I64,
    I128,
    Isize,
    U8,
    U16,
    U32,
    U64,
    U128,
    Usize,
}

/// A type as the text has it. `()` is the tuple of no items, `BoxOf(T)` is `Box<T>`, `Dyn` holds the path of its trait and
/// `Named` a canonical path.
#[derive(Debug, Drop)]
pub enum Ty {
    Bool,
    Char,
    Int(IntTy),
    Never,
    Str,
    Tuple(Items<Ty>),
    Array { item: Boxed<Ty>, count: u128 },
    Slice(Boxed<Ty>),
    Ref { mutable: bool, target: Boxed<Ty> },
    Raw { mutable: bool, target: Boxed<Ty> },
    BoxOf(Boxed<Ty>),
    Dyn(Name),
    Named(Name),
}
