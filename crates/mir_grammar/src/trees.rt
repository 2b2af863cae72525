use crate::limits::{Limited, Passed};
use crate::named::Named;
use mir_ir::{Callee, NamedOperand, Operand, PlaceExpr, Projection, Statement, Terminator};
use sqlite_items::Items;
use vk_core::{BlockId, LocalId};

/// A place, and the limits that it passes.
#[derive(Debug, Drop)]
pub struct Placed {
    pub place: PlaceExpr,
    pub passed: Passed,
}

/// One step of a place, and the limits that it passes.
#[derive(Debug, Drop)]
pub struct Stepped {
    pub step: Projection,
    pub passed: Passed,
}

/// What stands behind the first operand of an array: a number of times, or more operands.
#[derive(Debug, Drop)]
pub enum ArrayTail {
    Times(u128),
    Others(Items<Limited<Operand>>),
}

/// Where a call goes on: the block in brackets; a label without them, which is the next block unless it is a cleanup
/// block's; or nowhere.
#[derive(Clone, Copy, Debug, PartialEq, Eq)]
pub enum Target {
    ToBlock(BlockId),
    ToLabel(BlockId),
    ToNone,
}

/// A terminator, or a call whose target may be a label without brackets.
#[derive(Debug, Drop)]
pub enum Ending {
    Settled(Terminator),
    Calling(PlaceExpr, Callee, Items<Operand>, Target),
}

/// What stands behind the path of a value.
#[derive(Debug, Drop)]
pub enum PathTail {
    UnitTail,
    FieldTail(Items<Limited<NamedOperand>>),
    OperandTail(Items<Limited<Operand>>, Option<Limited<Target>>),
}

/// A local as it is declared: its number, the word as it is written and where it starts, and its type.
#[derive(Debug, Drop)]
pub struct Declared {
    pub id: LocalId,
    pub word: Items<u8>,
    pub start: usize,
    pub ty: Named,
}

/// A block: its number, its label as it is written and where it starts, whether it is a cleanup block, its statements,
/// some of which are not kept, and its terminator.
#[derive(Debug, Drop)]
pub struct RawBlock {
    pub id: BlockId,
    pub word: Items<u8>,
    pub start: usize,
    pub is_cleanup: bool,
    pub statements: Items<Limited<Option<Statement>>>,
    pub ending: Limited<Ending>,
}

/// A function as it is written.
#[derive(Debug, Drop)]
pub struct RawFunction {
    pub name: Named,
    pub parameters: Items<Declared>,
    pub result: Named,
    pub items: Items<Declared>,
    pub blocks: Items<RawBlock>,
}
