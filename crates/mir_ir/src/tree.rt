use crate::places::PlaceExpr;
use crate::types::{IntTy, Ty};
use sqlite_items::Items;
use vk_core::{BlockId, LocalId, Name, TextPlace};
use word_bits::Word;

/// A constant operand. The word of an integer has the width of its type; a character is its scalar value; a text has
/// its bytes as they are written between the quotes; `Named` is a constant of the declaration file.
#[derive(Debug, Drop)]
pub enum Constant {
    Integer { ty: IntTy, word: Word },
    Bool(bool),
    Char(u32),
    Text(Items<u8>),
    Unit,
    Named(Name),
}

#[derive(Debug, Drop)]
pub enum Operand {
    Copy(PlaceExpr),
    Move(PlaceExpr),
    Const(Constant),
}

/// The casts of MIR that are read: between scalars, between raw pointers, to a wide pointer, and `*mut T` to `*const T`.
#[derive(Clone, Copy, Debug, PartialEq, Eq)]
pub enum CastKind {
    IntToInt,
    PtrToPtr,
    Unsize,
    MutToConstPointer,
}

/// The operators of two operands.
#[derive(Clone, Copy, Debug, PartialEq, Eq)]
pub enum BinaryOp {
    Add,
    Sub,
    Mul,
    Div,
    Rem,
    BitXor,
    BitAnd,
    BitOr,
    Shl,
    Shr,
    Eq,
    Lt,
    Le,
    Ne,
    Ge,
    Gt,
    Offset,
    AddWithOverflow,
    SubWithOverflow,
    MulWithOverflow,
}

/// A field of an aggregate by its name.
#[derive(Debug, Drop)]
pub struct NamedOperand {
    pub name: Name,
    pub operand: Operand,
}

/// `PathUnit`, `PathTuple` and `PathFields` make a struct or a variant: `S`, `S(a, b)` and `S { x: a }`.
#[derive(Debug, Drop)]
pub enum Rvalue {
    Use(Operand),
    Cast {
        operand: Operand,
        ty: Ty,
        kind: CastKind,
    },
    Binary {
        op: BinaryOp,
        a: Operand,
        b: Operand,
    },
    Not(Operand),
    Neg(Operand),
    PtrMetadata(Operand),
    RefOf {
        mutable: bool,
        place: PlaceExpr,
    },
    RawOf {
        mutable: bool,
        place: PlaceExpr,
    },
    Discriminant(PlaceExpr),
    Len(PlaceExpr),
    SizeOf(Ty),
    AlignOf(Ty),
    Array(Items<Operand>),
    Repeat {
        operand: Operand,
        count: u128,
    },
    Tuple(Items<Operand>),
    PathUnit(Name),
    PathTuple {
        path: Name,
        operands: Items<Operand>,
    },
    PathFields {
        path: Name,
        fields: Items<NamedOperand>,
    },
}

/// `SetVariant` is `discriminant(place) = variant`, where `variant` is a position among the declared variants.
#[derive(Debug, Drop)]
pub enum Statement {
    Assign { place: PlaceExpr, value: Rvalue },
    StorageLive(LocalId),
    StorageDead(LocalId),
    SetVariant { place: PlaceExpr, variant: u128 },
}

/// One arm of a `switchInt`: the bit pattern and the block to go to.
#[derive(Clone, Copy, Debug, PartialEq, Eq)]
pub struct Arm {
    pub number: u128,
    pub target: BlockId,
}

/// What is called: a canonical path, and the type argument of a built-in callee that has one.
#[derive(Debug, Drop)]
pub struct Callee {
    pub path: Name,
    pub argument: Option<Ty>,
}

/// `expected` of an assert is false where `!` stands before its operand; `shown` are the operands behind its text, which no
/// run reads. A call without a next block never returns.
#[derive(Debug, Drop)]
pub enum Terminator {
    Goto {
        target: BlockId,
    },
    Switch {
        operand: Operand,
        arms: Items<Arm>,
        otherwise: BlockId,
    },
    Return,
    Unreachable,
    Drop {
        place: PlaceExpr,
        next: BlockId,
    },
    Assert {
        operand: Operand,
        expected: bool,
        text: Items<u8>,
        shown: Items<Operand>,
        next: BlockId,
    },
    Call {
        destination: PlaceExpr,
        callee: Callee,
        arguments: Items<Operand>,
        next: Option<BlockId>,
    },
}

#[derive(Debug, Drop)]
pub struct Block {
    pub id: BlockId,
    pub statements: Items<Statement>,
    pub terminator: Terminator,
}

#[derive(Debug, Drop)]
pub struct Local {
    pub id: LocalId,
    pub ty: Ty,
}

/// A function of the text. Its locals are its parameters in the order of the text, then `_0`, then the others by
/// number. `place` is that of its name's first token.
#[derive(Debug, Drop)]
pub struct Function {
    pub name: Name,
    pub place: TextPlace,
    pub parameters: u32,
    pub result: Ty,
    pub locals: Items<Local>,
    pub blocks: Items<Block>,
}
