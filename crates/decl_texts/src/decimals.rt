ghost use Rattle.std.specs.Prelude.{◌≡◌, ◌^◌, ◌-◌, ◌==◌};
ghost use Rattle.std.specs.List.{list_all};
ghost use Rattle.mir_ir.specs.Integers.{width_of};
ghost use Rattle.mir_lex.specs.Bytes.{first_is, is_word_byte};
ghost use Rattle.mir_grammar.specs.Values.{plus_word, minus_word};
ghost use Rattle.decl_texts.specs.Decimals.{is_decimal, greatest, deepest, int_word, unsigned_within, number_word, bool_word, decimal_word, value_word};
ghost use Rattle.decl_texts.specs.Texts.{is_word};

use crate::forms::Scalar;
use mir_ir::IntTy;
use mir_lex::{begins_word, is_char, is_index, is_label, is_local, is_word_byte, number_within};
use word_bits::Word;

/// The most bytes of a word.
const MAX_WORD: usize = 256;

/// The greatest number of a character.
const MAX_CHAR: u128 = 0x10FFFF;

fn begins_with(first: u8, text: &[u8]) -> bool
    ensures { result ≡ first_is (λ d. d == first) text.now }
{
    match text {
        [] => false,
        [byte, ..] => *byte == first,
    }
}

/// A decimal integer without a sign `+`, without leading zeros and not `-0`.
pub fn is_decimal(text: &[u8]) -> bool
    ensures { result ≡ is_decimal text.now }
{
    match text {
        [] => false,
        [first, digits @ ..] => {
            if *first == b'-' {
                is_index(digits) && !begins_with(b'0', digits)
            } else {
                is_index(text)
            }
        }
    }
}

fn are_word_bytes(bytes: &[u8]) -> bool
    ensures { result ≡ list_all is_word_byte bytes.now }
{
    let mut left = bytes;
    while let [byte, rest @ ..] = left {
        if !is_word_byte(*byte) {
            return false;
        }
        left = rest;
    }
    true
}

/// A word of the text that is no local and no label.
#[tactic(auto, unfolding(crate::specs::Texts::is_word))]
pub fn is_word(text: &[u8]) -> bool
    ensures { result ≡ is_word text.now }
{
    (begins_word(text) && are_word_bytes(text))
        && (text.len() <= MAX_WORD && !(is_local(text) || is_label(text)))
}

/// The greatest number of the type.
fn greatest(int: IntTy) -> u128
    ensures { result ≡ greatest int }
{
    match int {
        IntTy::I8 => 127,
        IntTy::I16 => 32_767,
        IntTy::I32 => 2_147_483_647,
        IntTy::I64 | IntTy::Isize => 9_223_372_036_854_775_807,
        IntTy::I128 => 170_141_183_460_469_231_731_687_303_715_884_105_727,
        IntTy::U8 => 255,
        IntTy::U16 => 65_535,
        IntTy::U32 => 4_294_967_295,
        IntTy::U64 | IntTy::Usize => 18_446_744_073_709_551_615,
        IntTy::U128 => u128::MAX,
    }
}

/// How far below zero the numbers of the type go.
fn deepest(int: IntTy) -> u128
    ensures { result ≡ deepest int }
{
    match int {
        IntTy::I8 => 128,
        IntTy::I16 => 32_768,
        IntTy::I32 => 2_147_483_648,
        IntTy::I64 | IntTy::Isize => 9_223_372_036_854_775_808,
        IntTy::I128 => 170_141_183_460_469_231_731_687_303_715_884_105_728,
        IntTy::U8 | IntTy::U16 | IntTy::U32 | IntTy::U64 | IntTy::U128 | IntTy::Usize => 0,
    }
}

/// The greatest number of the type's width.
fn ones(int: IntTy) -> u128
    ensures { result ≡ 2 ^ width_of int - 1 }
{
    match int {
        IntTy::I8 | IntTy::U8 => 255,
        IntTy::I16 | IntTy::U16 => 65_535,
        IntTy::I32 | IntTy::U32 => 4_294_967_295,
        IntTy::I64 | IntTy::U64 | IntTy::Isize | IntTy::Usize => 18_446_744_073_709_551_615,
        IntTy::I128 | IntTy::U128 => u128::MAX,
    }
}

fn plus_word(int: IntTy, number: u128) -> Word
    ensures { result ≡ plus_word (width_of int) number }
{
    let most = ones(int);
    let value = if number <= most {
        number
    } else {
        number % (most + 1)
    };
    Word {
        width: int.width(),
        value,
    }
}

/// The number with a minus, in two's complement.
fn minus_word(int: IntTy, number: u128) -> Word
    ensures { result ≡ minus_word (width_of int) number }
{
    let most = ones(int);
    let value = if number == 0 || number > most {
        0
    } else {
        most - number + 1
    };
    Word {
        width: int.width(),
        value,
    }
}

/// The word of the number that a decimal text writes, where it is one of the type's.
fn int_word(int: IntTy, text: &[u8]) -> Option<Word>
    ensures { result ≡ int_word int text.now }
{
    match text {
        [] => None,
        [first, digits @ ..] => {
            if *first == b'-' {
                let number = number_within(10, deepest(int), digits)?;
                Some(minus_word(int, number))
            } else {
                let number = number_within(10, greatest(int), text)?;
                Some(plus_word(int, number))
            }
        }
    }
}

/// The number that a decimal text without a minus writes, where it is at most `most`.
fn unsigned_within(most: u128, text: &[u8]) -> Option<u128>
    ensures { result ≡ unsigned_within most text.now }
{
    if begins_with(b'-', text) {
        None
    } else {
        number_within(10, most, text)
    }
}

/// The same of a scalar type: 0 and 1 are the numbers of `bool`.
pub fn number_word(scalar: Scalar, text: &[u8]) -> Option<Word>
    ensures { result ≡ number_word scalar text.now }
{
    match scalar {
        Scalar::Int(int) => int_word(int, text),
        Scalar::Bool => {
            let value = unsigned_within(1, text)?;
            Some(Word { width: 1, value })
        }
        Scalar::Char => {
            let value = unsigned_within(MAX_CHAR, text)?;
            if is_char(value) {
                Some(Word { width: 32, value })
            } else {
                None
            }
        }
    }
}

fn bool_word(text: &[u8]) -> Option<Word>
    ensures { result ≡ bool_word text.now }
{
    if text == b"false".as_slice() {
        Some(Word { width: 1, value: 0 })
    } else if text == b"true".as_slice() {
        Some(Word { width: 1, value: 1 })
    } else {
        None
    }
}

fn decimal_word(scalar: Scalar, text: &[u8]) -> Option<Word>
    ensures { result ≡ decimal_word scalar text.now }
{
    if is_decimal(text) {
        number_word(scalar, text)
    } else {
        None
    }
}

/// The word of a value text of a scalar type.
pub fn value_word(scalar: Scalar, text: &[u8]) -> Option<Word>
    ensures { result ≡ value_word scalar text.now }
{
    match scalar {
        Scalar::Int(int) => decimal_word(Scalar::Int(int), text),
        Scalar::Bool => bool_word(text),
        Scalar::Char => decimal_word(Scalar::Char, text),
    }
}
