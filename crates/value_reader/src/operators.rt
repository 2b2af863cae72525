ghost use Rattle.std.specs.Prelude.{◌≡◌, ◌∷◌, [], IfOk};
ghost use Rattle.grammar_words.specs.Reading.{made, joined};
ghost use Rattle.grammar_words.specs.Classes.{past, ended};
ghost use Rattle.grammar_words.specs.Coded.{counted};
ghost use Rattle.mir_grammar.specs.Lexemes.{class_of};
ghost use Rattle.mir_grammar.specs.Types.{AnyType};
ghost use Rattle.mir_grammar.specs.Values.{operand_at, binary_at, unary_at, measured_at, sized_at, operator_at};
ghost use Rattle.mir_pieces.specs.Views.{read_view};
ghost use Rattle.value_reader.specs.Levels.{places, types};

use crate::operands::operand_at;
use crate::places::place;
use mir_grammar::{Limited, Named, Placed};
use mir_ir::{Operand, Rvalue};
use mir_pieces::{CLOSE_PAREN, COMMA, OPEN_PAREN, Piece, Read, Want, starts, token};
use std::alloc::Global;
use type_reader::type_at;
use value_pieces::{
    BINARIES, MEASURES, SIZES, UNARIES, to_binary, to_measured, to_sized, to_unary,
};

#[tactic(auto, unfolding(grammar_words::specs::Reading::made, grammar_words::specs::Reading::chained))]
fn second_operand<'t, 'a>(
    alloc: Global,
    turns: usize,
    depth: u32,
    tokens: &'t [Piece<'a>],
) -> Read<'t, 'a, Limited<Operand>>
    ensures { IfOk result (λ read. read_view read ≡ counted (past class_of (9 ∷ []) (ended class_of (operand_at turns (types turns depth) (places turns depth)) (2 ∷ [])) tokens.now)) }
{
    match token(&COMMA, tokens) {
        Ok((_comma, rest)) => match operand_at(alloc, turns, depth, rest)? {
            Ok((operand, rest)) => match token(&CLOSE_PAREN, rest) {
                Ok((_close, rest)) => Ok(Ok((operand, rest))),
                Err(stop) => Ok(Err(stop)),
            },
            Err(stop) => Ok(Err(stop)),
        },
        Err(stop) => Ok(Err(stop)),
    }
}

/// Two operands in parentheses.
#[tactic(auto, unfolding(grammar_words::specs::Reading::made, grammar_words::specs::Reading::chained))]
fn two_operands<'t, 'a>(
    alloc: Global,
    turns: usize,
    depth: u32,
    tokens: &'t [Piece<'a>],
) -> Read<'t, 'a, (Limited<Operand>, Limited<Operand>)>
    ensures { IfOk result (λ read. read_view read ≡ counted (past class_of (1 ∷ []) (joined (operand_at turns (types turns depth) (places turns depth)) (past class_of (9 ∷ []) (ended class_of (operand_at turns (types turns depth) (places turns depth)) (2 ∷ [])))) tokens.now)) }
{
    match token(&OPEN_PAREN, tokens) {
        Ok((_open, rest)) => match operand_at(alloc, turns, depth, rest)? {
            Ok((a, rest)) => match second_operand(alloc, turns, depth, rest)? {
                Ok((b, rest)) => Ok(Ok(((a, b), rest))),
                Err(stop) => Ok(Err(stop)),
            },
            Err(stop) => Ok(Err(stop)),
        },
        Err(stop) => Ok(Err(stop)),
    }
}

#[tactic(auto, unfolding(grammar_words::specs::Reading::made, grammar_words::specs::Reading::chained))]
fn binary<'t, 'a>(
    alloc: Global,
    turns: usize,
    depth: u32,
    tokens: &'t [Piece<'a>],
) -> Read<'t, 'a, Limited<Rvalue>>
    ensures { IfOk result (λ read. read_view read ≡ counted (binary_at turns (types turns depth) (places turns depth) tokens.now)) }
{
    match token(&BINARIES, tokens) {
        Ok((word, rest)) => match two_operands(alloc, turns, depth, rest)? {
            Ok(((a, b), rest)) => Ok(Ok((to_binary(word, a, b), rest))),
            Err(stop) => Ok(Err(stop)),
        },
        Err(stop) => Ok(Err(stop)),
    }
}

#[tactic(auto, unfolding(grammar_words::specs::Reading::made, grammar_words::specs::Reading::chained))]
fn operand_in_parentheses<'t, 'a>(
    alloc: Global,
    turns: usize,
    depth: u32,
    tokens: &'t [Piece<'a>],
) -> Read<'t, 'a, Limited<Operand>>
    ensures { IfOk result (λ read. read_view read ≡ counted (past class_of (1 ∷ []) (ended class_of (operand_at turns (types turns depth) (places turns depth)) (2 ∷ [])) tokens.now)) }
{
    match token(&OPEN_PAREN, tokens) {
        Ok((_open, rest)) => match operand_at(alloc, turns, depth, rest)? {
            Ok((operand, rest)) => match token(&CLOSE_PAREN, rest) {
                Ok((_close, rest)) => Ok(Ok((operand, rest))),
                Err(stop) => Ok(Err(stop)),
            },
            Err(stop) => Ok(Err(stop)),
        },
        Err(stop) => Ok(Err(stop)),
    }
}

#[tactic(auto, unfolding(grammar_words::specs::Reading::made, grammar_words::specs::Reading::chained))]
fn unary<'t, 'a>(
    alloc: Global,
    turns: usize,
    depth: u32,
    tokens: &'t [Piece<'a>],
) -> Read<'t, 'a, Limited<Rvalue>>
    ensures { IfOk result (λ read. read_view read ≡ counted (unary_at turns (types turns depth) (places turns depth) tokens.now)) }
{
    match token(&UNARIES, tokens) {
        Ok((word, rest)) => match operand_in_parentheses(alloc, turns, depth, rest)? {
            Ok((operand, rest)) => Ok(Ok((to_unary(word, operand), rest))),
            Err(stop) => Ok(Err(stop)),
        },
        Err(stop) => Ok(Err(stop)),
    }
}

#[tactic(auto, unfolding(grammar_words::specs::Reading::made, grammar_words::specs::Reading::chained))]
fn place_in_parentheses<'t, 'a>(
    alloc: Global,
    turns: usize,
    depth: u32,
    tokens: &'t [Piece<'a>],
) -> Read<'t, 'a, Placed>
    ensures { IfOk result (λ read. read_view read ≡ counted (past class_of (1 ∷ []) (ended class_of (places turns depth) (2 ∷ [])) tokens.now)) }
{
    match token(&OPEN_PAREN, tokens) {
        Ok((_open, rest)) => match place(alloc, turns, depth, rest)? {
            Ok((placed, rest)) => match token(&CLOSE_PAREN, rest) {
                Ok((_close, rest)) => Ok(Ok((placed, rest))),
                Err(stop) => Ok(Err(stop)),
            },
            Err(stop) => Ok(Err(stop)),
        },
        Err(stop) => Ok(Err(stop)),
    }
}

#[tactic(auto, unfolding(grammar_words::specs::Reading::made, grammar_words::specs::Reading::chained))]
fn measured<'t, 'a>(
    alloc: Global,
    turns: usize,
    depth: u32,
    tokens: &'t [Piece<'a>],
) -> Read<'t, 'a, Limited<Rvalue>>
    ensures { IfOk result (λ read. read_view read ≡ counted (measured_at (places turns depth) tokens.now)) }
{
    match token(&MEASURES, tokens) {
        Ok((word, rest)) => match place_in_parentheses(alloc, turns, depth, rest)? {
            Ok((placed, rest)) => Ok(Ok((to_measured(word, placed), rest))),
            Err(stop) => Ok(Err(stop)),
        },
        Err(stop) => Ok(Err(stop)),
    }
}

#[tactic(auto, unfolding(grammar_words::specs::Reading::made, grammar_words::specs::Reading::chained))]
fn type_in_parentheses<'t, 'a>(
    alloc: Global,
    turns: usize,
    depth: u32,
    tokens: &'t [Piece<'a>],
) -> Read<'t, 'a, Named>
    ensures { IfOk result (λ read. read_view read ≡ counted (past class_of (1 ∷ []) (ended class_of (types turns depth AnyType) (2 ∷ [])) tokens.now)) }
{
    match token(&OPEN_PAREN, tokens) {
        Ok((_open, rest)) => match type_at(alloc, turns, depth, Want::AnyType, rest)? {
            Ok((named, rest)) => match token(&CLOSE_PAREN, rest) {
                Ok((_close, rest)) => Ok(Ok((named, rest))),
                Err(stop) => Ok(Err(stop)),
            },
            Err(stop) => Ok(Err(stop)),
        },
        Err(stop) => Ok(Err(stop)),
    }
}

#[tactic(auto, unfolding(grammar_words::specs::Reading::made, grammar_words::specs::Reading::chained))]
fn sized<'t, 'a>(
    alloc: Global,
    turns: usize,
    depth: u32,
    tokens: &'t [Piece<'a>],
) -> Read<'t, 'a, Limited<Rvalue>>
    ensures { IfOk result (λ read. read_view read ≡ counted (sized_at (types turns depth) tokens.now)) }
{
    match token(&SIZES, tokens) {
        Ok((word, rest)) => match type_in_parentheses(alloc, turns, depth, rest)? {
            Ok((named, rest)) => Ok(Ok((to_sized(word, named), rest))),
            Err(stop) => Ok(Err(stop)),
        },
        Err(stop) => Ok(Err(stop)),
    }
}

/// A value that begins with the word of an operator.
#[tactic(auto, unfolding(grammar_words::specs::Reading::choose))]
pub fn operator<'t, 'a>(
    alloc: Global,
    turns: usize,
    depth: u32,
    tokens: &'t [Piece<'a>],
) -> Read<'t, 'a, Limited<Rvalue>>
    ensures { IfOk result (λ read. read_view read ≡ counted (operator_at turns (types turns depth) (places turns depth) tokens.now)) }
{
    let read = if starts(&BINARIES, tokens) {
        binary(alloc, turns, depth, tokens)?
    } else if starts(&UNARIES, tokens) {
        unary(alloc, turns, depth, tokens)?
    } else if starts(&MEASURES, tokens) {
        measured(alloc, turns, depth, tokens)?
    } else {
        sized(alloc, turns, depth, tokens)?
    };
    Ok(read)
}
