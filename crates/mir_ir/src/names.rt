ghost use Rattle.std.specs.Prelude.{◌≡◌, find};
ghost use Rattle.std.specs.Option.{option_copied};
ghost use Rattle.mir_ir.specs.Integers.{is_signed, width_of};
ghost use Rattle.mir_ir.specs.Names.{binary_of_name, int_of_name, is_binary_named, is_int_named, name_of_binary, name_of_int};

use crate::tree::BinaryOp;
use crate::types::IntTy;

const INTEGERS: [IntTy; 12] = [
    IntTy::I8,
    IntTy::I16,
    IntTy::I32,
    IntTy::I64,
    IntTy::I128,
    IntTy::Isize,
    IntTy::U8,
    IntTy::U16,
    IntTy::U32,
    IntTy::U64,
    IntTy::U128,
    IntTy::Usize,
];

impl IntTy {
    /// The width in bits.
    pub fn width(self) -> u32
        ensures { result ≡ width_of self }
    {
        match self {
            IntTy::I8 | IntTy::U8 => 8,
            IntTy::I16 | IntTy::U16 => 16,
            IntTy::I32 | IntTy::U32 => 32,
            IntTy::I64 | IntTy::U64 | IntTy::Isize | IntTy::Usize => 64,
            IntTy::I128 | IntTy::U128 => 128,
        }
    }

    pub fn is_signed(self) -> bool
        ensures { result ≡ is_signed self }
    {
        match self {
            IntTy::I8 | IntTy::I16 | IntTy::I32 | IntTy::I64 | IntTy::I128 | IntTy::Isize => true,
            IntTy::U8 | IntTy::U16 | IntTy::U32 | IntTy::U64 | IntTy::U128 | IntTy::Usize => false,
        }
    }

    /// The word of Rust for the type, as `u8`.
    #[tactic(auto, unfolding(crate::specs::Names::name_of_int))]
    pub fn name(self) -> &'static str
        ensures { result.now ≡ name_of_int self }
    {
        match self {
            IntTy::I8 => "i8",
            IntTy::I16 => "i16",
            IntTy::I32 => "i32",
            IntTy::I64 => "i64",
            IntTy::I128 => "i128",
            IntTy::Isize => "isize",
            IntTy::U8 => "u8",
            IntTy::U16 => "u16",
            IntTy::U32 => "u32",
            IntTy::U64 => "u64",
            IntTy::U128 => "u128",
            IntTy::Usize => "usize",
        }
    }

    #[tactic(auto, unfolding(crate::specs::Names::is_int_named))]
    fn is_named(self, name: &[u8]) -> bool
        ensures { result ≡ is_int_named name.now self }
    {
        name == self.name().as_bytes()
    }

    /// The integer type of this name.
    pub fn from_name(name: &[u8]) -> Option<IntTy>
        ensures { result ≡ int_of_name name.now }
    {
        integer_among(&INTEGERS, name).copied()
    }
}

fn integer_among<'a>(integers: &'a [IntTy], name: &[u8]) -> Option<&'a IntTy>
    ensures { option_copied result ≡ find (λ i. is_int_named name.now i) integers.now }
{
    integers.iter().find(|item| item.is_named(name))
}

const BINARIES: [BinaryOp; 20] = [
    BinaryOp::Add,
    BinaryOp::Sub,
    BinaryOp::Mul,
    BinaryOp::Div,
    BinaryOp::Rem,
    BinaryOp::BitXor,
    BinaryOp::BitAnd,
    BinaryOp::BitOr,
    BinaryOp::Shl,
    BinaryOp::Shr,
    BinaryOp::Eq,
    BinaryOp::Lt,
    BinaryOp::Le,
    BinaryOp::Ne,
    BinaryOp::Ge,
    BinaryOp::Gt,
    BinaryOp::Offset,
    BinaryOp::AddWithOverflow,
    BinaryOp::SubWithOverflow,
    BinaryOp::MulWithOverflow,
];

impl BinaryOp {
    /// The word of MIR for the operator, as `AddWithOverflow`.
    #[tactic(auto, unfolding(crate::specs::Names::name_of_binary))]
    pub fn name(self) -> &'static str
        ensures { result.now ≡ name_of_binary self }
    {
        match self {
            BinaryOp::Add => "Add",
            BinaryOp::Sub => "Sub",
            BinaryOp::Mul => "Mul",
            BinaryOp::Div => "Div",
            BinaryOp::Rem => "Rem",
            BinaryOp::BitXor => "BitXor",
            BinaryOp::BitAnd => "BitAnd",
            BinaryOp::BitOr => "BitOr",
            BinaryOp::Shl => "Shl",
            BinaryOp::Shr => "Shr",
            BinaryOp::Eq => "Eq",
            BinaryOp::Lt => "Lt",
            BinaryOp::Le => "Le",
            BinaryOp::Ne => "Ne",
            BinaryOp::Ge => "Ge",
            BinaryOp::Gt => "Gt",
            BinaryOp::Offset => "Offset",
            BinaryOp::AddWithOverflow => "AddWithOverflow",
            BinaryOp::SubWithOverflow => "SubWithOverflow",
            BinaryOp::MulWithOverflow => "MulWithOverflow",
        }
    }

    #[tactic(auto, unfolding(crate::specs::Names::is_binary_named))]
    fn is_named(self, name: &[u8]) -> bool
        ensures { result ≡ is_binary_named name.now self }
    {
        name == self.name().as_bytes()
    }

    /// The operator of this name.
    pub fn from_name(name: &[u8]) -> Option<BinaryOp>
        ensures { result ≡ binary_of_name name.now }
    {
        binary_among(&BINARIES, name).copied()
    }
}

fn binary_among<'a>(operators: &'a [BinaryOp], name: &[u8]) -> Option<&'a BinaryOp>
    ensures { option_copied result ≡ find (λ o. is_binary_named name.now o) operators.now }
{
    operators.iter().find(|item| item.is_named(name))
}
