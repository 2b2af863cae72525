//! Programs as plain trees: the functions of a text and the declarations beside them.
#![tactic(auto)]

mod declarations;
mod names;
mod places;
mod tree;
mod types;

pub use declarations::{
    AliasDecl, ConstantDecl, Contract, Declarations, FieldDecl, LoopRule, TagDecl, TraitDecl,
    TypeDecl, TypeShape, Unit, UnitKind, VariantDecl, VtableDecl,
};
pub use places::{PlaceExpr, Projection, Steps};
pub use tree::{
    Arm, BinaryOp, Block, Callee, CastKind, Constant, Function, Local, NamedOperand, Operand,
    Rvalue, Statement, Terminator,
};
pub use types::{IntTy, Ty};
