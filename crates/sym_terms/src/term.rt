ghost use Rattle.std.specs.Prelude.{◌≡◌};
ghost use Rattle.sym_terms.specs.Ops.{is_associative, is_binary, is_commutative, is_shift, is_test};

use word_bits::Word;

/// The number of a term among the `Terms` that gave it.
#[derive(Clone, Copy, Debug, PartialEq, Eq, Hash)]
pub struct TermId(pub usize);

/// An operation on two words of one width. For a shift the second operand is the amount and may have any width;
/// `Not` and `Neg` look at the first operand alone.
///
/// `Equal`, the orders, the overflows and `Lawful` are 0 or 1 with one bit. A quotient and a remainder are 0 where the
/// divisor is not lawful.
#[derive(Clone, Copy, Debug, PartialEq, Eq, Hash)]
pub enum TermOp {
    Equal,
    Add,
    Sub,
    Mul,
    And,
    Or,
    Xor,
    Not,
    Neg,
    Shl,
    DivUnsigned,
    DivSigned,
    RemUnsigned,
    RemSigned,
    ShrUnsigned,
    ShrSigned,
    LessUnsigned,
    LessSigned,
    AddOverflowsUnsigned,
    AddOverflowsSigned,
    SubOverflowsUnsigned,
    SubOverflowsSigned,
    MulOverflowsUnsigned,
    MulOverflowsSigned,
    LawfulUnsigned,
    LawfulSigned,
}

impl TermOp {
    /// Whether the operation looks at its second operand.
    pub fn is_binary(self) -> bool
        ensures { result ≡ is_binary self }
    {
        match self {
            TermOp::Not | TermOp::Neg => false,
            _ => true,
        }
    }

    /// Whether the operands may change places.
    pub fn is_commutative(self) -> bool
        ensures { result ≡ is_commutative self }
    {
        match self {
            TermOp::Equal
            | TermOp::Add
            | TermOp::Mul
            | TermOp::And
            | TermOp::Or
            | TermOp::Xor
            | TermOp::AddOverflowsUnsigned
            | TermOp::AddOverflowsSigned
            | TermOp::MulOverflowsUnsigned
            | TermOp::MulOverflowsSigned => true,
            _ => false,
        }
    }

    /// Whether the operation with one constant after another is that with both at once.
    pub fn is_associative(self) -> bool
        ensures { result ≡ is_associative self }
    {
        match self {
            TermOp::Add | TermOp::Mul | TermOp::And | TermOp::Xor => true,
            _ => false,
        }
    }

    /// Whether the operation is a shift.
    pub fn is_shift(self) -> bool
        ensures { result ≡ is_shift self }
    {
        match self {
            TermOp::Shl | TermOp::ShrUnsigned | TermOp::ShrSigned => true,
            _ => false,
        }
    }

    /// Whether the value has one bit whatever the width of the operands.
    pub fn is_test(self) -> bool
        ensures { result ≡ is_test self }
    {
        match self {
            TermOp::Equal
            | TermOp::LessUnsigned
            | TermOp::LessSigned
            | TermOp::AddOverflowsUnsigned
            | TermOp::AddOverflowsSigned
            | TermOp::SubOverflowsUnsigned
            | TermOp::SubOverflowsSigned
            | TermOp::MulOverflowsUnsigned
            | TermOp::MulOverflowsSigned
            | TermOp::LawfulUnsigned
            | TermOp::LawfulSigned => true,
            _ => false,
        }
    }
}

/// A word that depends on the numbers of inputs, by earlier terms.
#[derive(Clone, Copy, Debug, PartialEq, Eq, Hash)]
pub enum Term {
    Constant(Word),
    /// The number of an input, cut to the width.
    Input { number: usize, width: u32 },
    Apply { op: TermOp, a: TermId, b: TermId },
    /// Extended by the sign where `signed`, and then cut.
    Cast { a: TermId, signed: bool, width: u32 },
    /// `a` where the test, which has one bit, is 1, else `b`.
    Choose { test: TermId, a: TermId, b: TermId },
    /// `width` bits of `a`, the lowest being its bit `from`.
    Slice { a: TermId, from: u32, width: u32 },
}
