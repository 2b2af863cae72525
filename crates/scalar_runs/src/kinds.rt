ghost use Rattle.std.specs.Prelude.{◌≡◌, ◌≤◌};
ghost use Rattle.scalar_runs.specs.Kinds.{has_bytes, is_choice_of, is_scalar_value, is_signed_kind, is_value, is_word, kind_of, same_int, same_kind, width_of_kind};

use mir_ir::{IntTy, Ty};
use word_bits::Word;

/// What a local of a scalar type holds. `Unit` and `Never` have no bytes.
#[derive(Clone, Copy, Debug, PartialEq, Eq)]
pub enum ValueKind {
    Bool,
    Char,
    Int(IntTy),
    Unit,
    Never,
}

/// A choice of a run: a value of a kind. `false` is 0 and `true` is 1, with one bit; a character has 32.
#[derive(Clone, Copy, Debug, PartialEq, Eq)]
pub struct Choice {
    pub kind: ValueKind,
    pub word: Word,
}

/// The kind of value of this type, None where it is no scalar.
pub fn kind_of(ty: &Ty) -> Option<ValueKind>
    ensures { result ≡ kind_of ty.now }
{
    match ty {
        Ty::Bool => Some(ValueKind::Bool),
        Ty::Char => Some(ValueKind::Char),
        Ty::Int(int) => Some(ValueKind::Int(*int)),
        Ty::Never => Some(ValueKind::Never),
        Ty::Tuple(items) => {
            if items.is_empty() {
                Some(ValueKind::Unit)
            } else {
                None
            }
        }
        _ => None,
    }
}

/// Whether the width is 1 to 128 and the number below the power of two.
#[tactic(auto, using(crate::proofs::OperandLaws::same_test))]
pub fn is_word(word: Word) -> bool
    ensures { result ≡ is_word word }
{
    word_bits::is_word(word)
}

/// Whether the number is a Unicode scalar value.
pub fn is_scalar_value(number: u128) -> bool
    ensures { result ≡ is_scalar_value number }
{
    number < 0xD800 || (0xDFFF < number && number < 0x110000)
}

/// Whether the types are one.
pub fn same_int(a: IntTy, b: IntTy) -> bool
    ensures { result ≡ same_int a b }
{
    match a {
        IntTy::I8 => matches!(b, IntTy::I8),
        IntTy::I16 => matches!(b, IntTy::I16),
        IntTy::I32 => matches!(b, IntTy::I32),
        IntTy::I64 => matches!(b, IntTy::I64),
        IntTy::I128 => matches!(b, IntTy::I128),
        IntTy::Isize => matches!(b, IntTy::Isize),
        IntTy::U8 => matches!(b, IntTy::U8),
        IntTy::U16 => matches!(b, IntTy::U16),
        IntTy::U32 => matches!(b, IntTy::U32),
        IntTy::U64 => matches!(b, IntTy::U64),
        IntTy::U128 => matches!(b, IntTy::U128),
        IntTy::Usize => matches!(b, IntTy::Usize),
    }
}

impl ValueKind {
    /// The bits that a value has; what a read of `()` or `!` gives counts as one.
    pub fn width(self) -> u32
        ensures width { result ≡ width_of_kind self }
        ensures some_bits { 1 ≤ result }
        ensures few_bits { result ≤ 128 }
    {
        match self {
            ValueKind::Bool => 1,
            ValueKind::Char => 32,
            ValueKind::Int(int) => int.width(),
            ValueKind::Unit => 1,
            ValueKind::Never => 1,
        }
    }

    /// Whether a value is a number with a sign.
    pub fn is_signed(self) -> bool
        ensures { result ≡ is_signed_kind self }
    {
        match self {
            ValueKind::Int(int) => int.is_signed(),
            _ => false,
        }
    }

    /// Whether a value has bytes.
    pub fn has_bytes(self) -> bool
        ensures { result ≡ has_bytes self }
    {
        match self {
            ValueKind::Unit | ValueKind::Never => false,
            _ => true,
        }
    }

    /// Whether the kinds are one.
    pub fn same(self, other: ValueKind) -> bool
        ensures { result ≡ same_kind self other }
    {
        match self {
            ValueKind::Bool => matches!(other, ValueKind::Bool),
            ValueKind::Char => matches!(other, ValueKind::Char),
            ValueKind::Int(int) => match other {
                ValueKind::Int(another) => same_int(int, another),
                _ => false,
            },
            ValueKind::Unit => matches!(other, ValueKind::Unit),
            ValueKind::Never => matches!(other, ValueKind::Never),
        }
    }

    /// Whether the word is a value of the kind: its width is the kind's, and a character is a Unicode scalar value.
    pub fn has(self, word: Word) -> bool
        ensures { result ≡ is_value self word }
    {
        match self {
            ValueKind::Char => word.width == 32 && is_word(word) && is_scalar_value(word.value),
            _ => word.width == self.width() && is_word(word),
        }
    }
}

impl Choice {
    /// Whether the choice is a value of the kind.
    pub fn is_of(self, kind: ValueKind) -> bool
        ensures { result ≡ is_choice_of kind self }
    {
        kind.same(self.kind) && kind.has(self.word)
    }
}
