ghost use Rattle.std.specs.Prelude.{◌≡◌, ◌++◌, ◌∷◌, [], ◌&&◌, IfOk, codes};
ghost use Rattle.grammar_words.specs.Grammar.{starts};
ghost use Rattle.grammar_words.specs.Reading.{made};
ghost use Rattle.grammar_words.specs.Classes.{tok, past, bare, inside};
ghost use Rattle.grammar_words.specs.Coded.{counted};
ghost use Rattle.mir_ir.specs.Names.{name_of_int};
ghost use Rattle.mir_grammar.specs.Lexemes.{class_of};
ghost use Rattle.mir_grammar.specs.Types.{colons};
ghost use Rattle.mir_grammar.specs.Values.{fixed, truths, to_plus, to_minus, to_bool, to_char, to_text, to_unit, bound_or_name, to_named, formed_constant_at, constant_firsts};
ghost use Rattle.mir_pieces.specs.Views.{read_view};

use crate::numbers::{greatest_word, integer_of, least_word};
use crate::sets::{CHARACTERS, CONSTANT_FIRSTS, MINUS, MINUS_NUMBERS, PLUS_NUMBERS, TEXTS, TRUTHS};
use crate::tokens::{char_value, number_type, text_body};
use mir_grammar::{Limited, Named, Passed};
use mir_ir::{Constant, IntTy};
use mir_pieces::{CLOSE_PAREN, COLONS, OPEN_PAREN, Piece, Read, inside, starts, token};
use std::alloc::Global;
use vk_core::{Name, NoMemory};

/// A constant that passes no limit.
fn fixed(value: Constant) -> Limited<Constant>
    ensures { result ≡ fixed value }
{
    Limited {
        value,
        passed: Passed::none(),
    }
}

#[tactic(auto, unfolding(mir_grammar::specs::Values::to_plus))]
fn to_plus(number: &Piece<'_>) -> Limited<Constant>
    ensures { result ≡ to_plus number.now }
{
    fixed(integer_of(false, number_type(number), number.number_value()))
}

#[tactic(auto, unfolding(mir_grammar::specs::Values::to_minus))]
fn to_minus(number: &Piece<'_>) -> Limited<Constant>
    ensures { result ≡ to_minus number.now }
{
    fixed(integer_of(true, number_type(number), number.number_value()))
}

#[tactic(auto, unfolding(mir_grammar::specs::Values::to_bool))]
fn to_bool(word: &Piece<'_>) -> Limited<Constant>
    ensures { result ≡ to_bool word.now }
{
    let truth = b"true".as_slice() == word.text();
    fixed(Constant::Bool(truth))
}

#[tactic(auto, unfolding(mir_grammar::specs::Values::to_char))]
fn to_char(character: &Piece<'_>) -> Limited<Constant>
    ensures { result ≡ to_char character.now }
{
    fixed(Constant::Char(char_value(character)))
}

#[tactic(auto, unfolding(mir_grammar::specs::Values::to_text))]
fn to_text(alloc: Global, text: &Piece<'_>) -> Result<Limited<Constant>, NoMemory>
    ensures { IfOk result (λ constant. constant ≡ to_text text.now) }
{
    let body = text_body(alloc, text)?;
    Ok(fixed(Constant::Text(body)))
}

#[tactic(auto, unfolding(mir_grammar::specs::Values::to_unit))]
fn to_unit(close: &Piece<'_>) -> Limited<Constant>
    ensures { result ≡ to_unit close.now }
{
    let _close = close;
    fixed(Constant::Unit)
}

/// The integer types that have bounds.
const INTEGERS: [IntTy; 12] = [
    IntTy::I8,
    IntTy::I16,
    IntTy::I32,
    IntTy::I64,
    IntTy::I128,
    IntTy::Isize,
    IntTy::U8,
    IntTy::U16,
    IntTy::U32,
    IntTy::U64,
    IntTy::U128,
    IntTy::Usize,
];

#[tactic(auto, unfolding(mir_ir::specs::Names::name_of_int))]
fn least_name(ty: IntTy) -> &'static [u8]
    ensures { result.now ≡ name_of_int ty ++ codes "::MIN" }
{
    match ty {
        IntTy::I8 => b"i8::MIN",
        IntTy::I16 => b"i16::MIN",
        IntTy::I32 => b"i32::MIN",
        IntTy::I64 => b"i64::MIN",
        IntTy::I128 => b"i128::MIN",
        IntTy::Isize => b"isize::MIN",
        IntTy::U8 => b"u8::MIN",
        IntTy::U16 => b"u16::MIN",
        IntTy::U32 => b"u32::MIN",
        IntTy::U64 => b"u64::MIN",
        IntTy::U128 => b"u128::MIN",
        IntTy::Usize => b"usize::MIN",
    }
}

#[tactic(auto, unfolding(mir_ir::specs::Names::name_of_int))]
fn greatest_name(ty: IntTy) -> &'static [u8]
    ensures { result.now ≡ name_of_int ty ++ codes "::MAX" }
{
    match ty {
        IntTy::I8 => b"i8::MAX",
        IntTy::I16 => b"i16::MAX",
        IntTy::I32 => b"i32::MAX",
        IntTy::I64 => b"i64::MAX",
        IntTy::I128 => b"i128::MAX",
        IntTy::Isize => b"isize::MAX",
        IntTy::U8 => b"u8::MAX",
        IntTy::U16 => b"u16::MAX",
        IntTy::U32 => b"u32::MAX",
        IntTy::U64 => b"u64::MAX",
        IntTy::U128 => b"u128::MAX",
        IntTy::Usize => b"usize::MAX",
    }
}

/// A bound of one of the integer types, or the name of a constant.
fn bound_or_name(alloc: Global, ints: &[IntTy], text: &[u8]) -> Result<Constant, NoMemory>
    ensures { IfOk result (λ constant. constant ≡ bound_or_name ints.now text.now) }
{
    match ints {
        [] => {
            let name = Name::from_bytes(alloc, text)?;
            Ok(Constant::Named(name))
        }
        [ty, rest @ ..] => {
            if least_name(*ty) == text {
                Ok(Constant::Integer {
                    ty: *ty,
                    word: least_word(*ty),
                })
            } else if greatest_name(*ty) == text {
                Ok(Constant::Integer {
                    ty: *ty,
                    word: greatest_word(*ty),
                })
            } else {
                let constant = bound_or_name(alloc, rest, text)?;
                Ok(constant)
            }
        }
    }
}

/// A constant that is named by a path.
#[tactic(auto, unfolding(mir_grammar::specs::Values::to_named))]
pub fn to_named(alloc: Global, named: Named) -> Result<Limited<Constant>, NoMemory>
    ensures { IfOk result (λ constant. constant ≡ to_named named) }
{
    let value = bound_or_name(alloc, &INTEGERS, named.text.as_slice())?;
    Ok(Limited {
        value,
        passed: Passed::of_name(named.is_long),
    })
}

#[tactic(auto, unfolding(grammar_words::specs::Reading::made))]
fn plus_constant<'t, 'a>(tokens: &'t [Piece<'a>]) -> Read<'t, 'a, Limited<Constant>>
    ensures { IfOk result (λ read. read_view read ≡ counted (made to_plus (tok class_of (36 ∷ 37 ∷ [])) tokens.now)) }
{
    match token(&PLUS_NUMBERS, tokens) {
        Ok((number, rest)) => Ok(Ok((to_plus(number), rest))),
        Err(stop) => Ok(Err(stop)),
    }
}

#[tactic(auto, unfolding(grammar_words::specs::Reading::made, grammar_words::specs::Reading::chained))]
fn minus_constant<'t, 'a>(tokens: &'t [Piece<'a>]) -> Read<'t, 'a, Limited<Constant>>
    ensures { IfOk result (λ read. read_view read ≡ counted (made to_minus (past class_of (19 ∷ []) (tok class_of (36 ∷ 38 ∷ []))) tokens.now)) }
{
    match token(&MINUS, tokens) {
        Ok((_minus, rest)) => match token(&MINUS_NUMBERS, rest) {
            Ok((number, rest)) => Ok(Ok((to_minus(number), rest))),
            Err(stop) => Ok(Err(stop)),
        },
        Err(stop) => Ok(Err(stop)),
    }
}

#[tactic(auto, unfolding(grammar_words::specs::Reading::made))]
fn truth_constant<'t, 'a>(tokens: &'t [Piece<'a>]) -> Read<'t, 'a, Limited<Constant>>
    ensures { IfOk result (λ read. read_view read ≡ counted (made to_bool (tok class_of truths) tokens.now)) }
{
    match token(&TRUTHS, tokens) {
        Ok((word, rest)) => Ok(Ok((to_bool(word), rest))),
        Err(stop) => Ok(Err(stop)),
    }
}

#[tactic(auto, unfolding(grammar_words::specs::Reading::made))]
fn character_constant<'t, 'a>(tokens: &'t [Piece<'a>]) -> Read<'t, 'a, Limited<Constant>>
    ensures { IfOk result (λ read. read_view read ≡ counted (made to_char (tok class_of (41 ∷ [])) tokens.now)) }
{
    match token(&CHARACTERS, tokens) {
        Ok((character, rest)) => Ok(Ok((to_char(character), rest))),
        Err(stop) => Ok(Err(stop)),
    }
}

#[tactic(auto, unfolding(grammar_words::specs::Reading::made))]
fn text_constant<'t, 'a>(alloc: Global, tokens: &'t [Piece<'a>]) -> Read<'t, 'a, Limited<Constant>>
    ensures { IfOk result (λ read. read_view read ≡ counted (made to_text (tok class_of (40 ∷ [])) tokens.now)) }
{
    match token(&TEXTS, tokens) {
        Ok((text, rest)) => {
            let constant = to_text(alloc, text)?;
            Ok(Ok((constant, rest)))
        }
        Err(stop) => Ok(Err(stop)),
    }
}

#[tactic(auto, unfolding(grammar_words::specs::Reading::made, grammar_words::specs::Reading::chained))]
fn unit_constant<'t, 'a>(tokens: &'t [Piece<'a>]) -> Read<'t, 'a, Limited<Constant>>
    ensures { IfOk result (λ read. read_view read ≡ counted (made to_unit (past class_of (1 ∷ []) (tok class_of (2 ∷ []))) tokens.now)) }
{
    match token(&OPEN_PAREN, tokens) {
        Ok((_open, rest)) => match token(&CLOSE_PAREN, rest) {
            Ok((close, rest)) => Ok(Ok((to_unit(close), rest))),
            Err(stop) => Ok(Err(stop)),
        },
        Err(stop) => Ok(Err(stop)),
    }
}

/// A constant that is no path.
#[tactic(auto, unfolding(grammar_words::specs::Reading::choose))]
pub fn formed_constant<'t, 'a>(
    alloc: Global,
    tokens: &'t [Piece<'a>],
) -> Read<'t, 'a, Limited<Constant>>
    ensures { IfOk result (λ read. read_view read ≡ counted (formed_constant_at tokens.now)) }
{
    let read = if starts(&PLUS_NUMBERS, tokens) {
        plus_constant(tokens)?
    } else if starts(&MINUS, tokens) {
        minus_constant(tokens)?
    } else if starts(&TRUTHS, tokens) {
        truth_constant(tokens)?
    } else if starts(&CHARACTERS, tokens) {
        character_constant(tokens)?
    } else if starts(&TEXTS, tokens) {
        text_constant(alloc, tokens)?
    } else {
        unit_constant(tokens)?
    };
    Ok(read)
}

/// A token comes that begins a constant that is no path.
pub fn is_formed_constant(tokens: &[Piece<'_>]) -> bool
    ensures { result ≡ bare class_of constant_firsts truths colons tokens.now }
{
    match tokens {
        [] => false,
        [token, rest @ ..] => {
            if inside(&CONSTANT_FIRSTS, token) {
                !is_keyed_truth(token, rest)
            } else {
                false
            }
        }
    }
}

/// The token is `true` or `false` before `::`.
fn is_keyed_truth(token: &Piece<'_>, rest: &[Piece<'_>]) -> bool
    ensures { result ≡ inside class_of truths token.now && starts (inside class_of colons) rest.now }
{
    inside(&TRUTHS, token) && starts(&COLONS, rest)
}
