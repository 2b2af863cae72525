use crate::places::PlaceExpr;
use crate::types::{IntTy, Ty};
use sqlite_items::Items;
use vk_core::{BlockId, LocalId, Name};
use word_bits::Word;

/// A field of a declared type. Offsets, sizes and alignments are in bytes.
#[derive(Debug, Drop)]
pub struct FieldDecl {
    pub name: Name,
    pub ty: Ty,
    pub offset: u64,
}

/// Where an enum keeps its tag.
#[derive(Debug, Drop)]
pub struct TagDecl {
    pub ty: Ty,
    pub offset: u64,
}

/// A variant of an enum. `value` is what `discriminant` gives; `tag` is None where the enum has no tag.
#[derive(Debug, Drop)]
pub struct VariantDecl {
    pub name: Name,
    pub value: Word,
    pub tag: Option<Word>,
    pub fields: Items<FieldDecl>,
}

#[derive(Debug, Drop)]
pub enum TypeShape {
    Struct(Items<FieldDecl>),
    Tuple(Items<FieldDecl>),
    Enum {
        variants: Items<VariantDecl>,
        tag: Option<TagDecl>,
        discriminant: IntTy,
    },
}

/// The layout of a type, and its `Drop::drop` where it has one.
#[derive(Debug, Drop)]
pub struct TypeDecl {
    pub name: Ty,
    pub shape: TypeShape,
    pub size: u64,
    pub align: u64,
    pub drop: Option<Name>,
}

#[derive(Debug, Drop)]
pub struct TraitDecl {
    pub name: Name,
    pub methods: Items<Name>,
}

/// The functions of a type for the methods of a trait, in the trait's order.
#[derive(Debug, Drop)]
pub struct VtableDecl {
    pub ty: Ty,
    pub trait_name: Name,
    pub methods: Items<Name>,
}

#[derive(Debug, Drop)]
pub struct ConstantDecl {
    pub name: Name,
    pub ty: Ty,
    pub value: Word,
}

/// A path that calls a function of the text under another name.
#[derive(Debug, Drop)]
pub struct AliasDecl {
    pub call: Name,
    pub function: Name,
}

/// A contract by its clause functions (`requires` and `ensures` are words of contracts themselves), and the places that a call may modify.
#[derive(Debug, Drop)]
pub struct Contract {
    pub function: Name,
    pub required: Items<Name>,
    pub ensured: Items<Name>,
    pub modifies: Items<PlaceExpr>,
}

/// An invariant of a loop: a clause function over locals, and the places that the loop may modify.
#[derive(Debug, Drop)]
pub struct LoopRule {
    pub function: Name,
    pub header: BlockId,
    pub invariant: Name,
    pub arguments: Items<LocalId>,
    pub modifies: Items<PlaceExpr>,
}

#[derive(Clone, Copy, Debug, PartialEq, Eq)]
pub enum UnitKind {
    Proof,
    Contract,
}

/// What is verified: a harness or a function's contract, with the count of repetitions of a loop and the functions that are
/// replaced by their contracts.
#[derive(Debug, Drop)]
pub struct Unit {
    pub name: Name,
    pub kind: UnitKind,
    pub unwind: u32,
    pub stubs: Items<Name>,
}

/// What a declaration file says.
#[derive(Debug, Drop)]
pub struct Declarations {
    pub types: Items<TypeDecl>,
    pub traits: Items<TraitDecl>,
    pub vtables: Items<VtableDecl>,
    pub constants: Items<ConstantDecl>,
    pub aliases: Items<AliasDecl>,
    pub contracts: Items<Contract>,
    pub loops: Items<LoopRule>,
    pub units: Items<Unit>,
}
