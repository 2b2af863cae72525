ghost use Rattle.std.specs.Prelude.{◌≡◌, ◌∷◌, [], IfOk};
ghost use Rattle.grammar_words.specs.Reading.{made, pick, joined, turned};
ghost use Rattle.grammar_words.specs.Classes.{tok, past, ended, inside};
ghost use Rattle.grammar_words.specs.Coded.{counted};
ghost use Rattle.mir_grammar.specs.Lexemes.{class_of};
ghost use Rattle.mir_grammar.specs.Values.{to_times, to_array_of, to_no_array, operand_at, array_rest_at, array_of_at};
ghost use Rattle.mir_grammar.specs.declared.trees.ArrayTail.TheVariants.{Others};
ghost use Rattle.mir_pieces.specs.Views.{read_view};
ghost use Rattle.value_reader.specs.Levels.{places, types};
ghost use Rattle.value_reader.specs.Lists.{operands_after, operands_closed};

use crate::operands::{operand_at, operands_behind};
use mir_grammar::Limited;
use mir_ir::{Operand, Rvalue};
use mir_pieces::{CLOSE_BRACKET, NUMBER, OPEN_BRACKET, Piece, Read, SEMICOLON, starts, token};
use sqlite_items::Items;
use std::alloc::Global;
use value_pieces::{to_array_of, to_no_array, to_repeat};

/// `;`, a number and `]`, behind the operand of an array.
#[tactic(auto, unfolding(grammar_words::specs::Reading::made, grammar_words::specs::Reading::chained, mir_grammar::specs::Values::to_times))]
fn repeat<'t, 'a>(
    operand: Limited<Operand>,
    tokens: &'t [Piece<'a>],
) -> Read<'t, 'a, Limited<Rvalue>>
    ensures { IfOk result (λ read. read_view read ≡ counted (made (λ tail. to_array_of (operand, tail)) (made to_times (past class_of (10 ∷ []) (ended class_of (tok class_of (35 ∷ [])) (4 ∷ [])))) tokens.now)) }
{
    match token(&SEMICOLON, tokens) {
        Ok((_semicolon, rest)) => match token(&NUMBER, rest) {
            Ok((number, rest)) => match token(&CLOSE_BRACKET, rest) {
                Ok((_close, rest)) => Ok(Ok((to_repeat(operand, number.number_value()), rest))),
                Err(stop) => Ok(Err(stop)),
            },
            Err(stop) => Ok(Err(stop)),
        },
        Err(stop) => Ok(Err(stop)),
    }
}

/// The operands of an array from the second one on, and `]`.
#[tactic(auto, unfolding(grammar_words::specs::Reading::made, grammar_words::specs::Reading::chained))]
fn closed_operands<'t, 'a>(
    alloc: Global,
    turns: usize,
    depth: u32,
    first: Limited<Operand>,
    tokens: &'t [Piece<'a>],
) -> Read<'t, 'a, Items<Limited<Operand>>>
    ensures { IfOk result (λ read. read_view read ≡ counted (ended class_of (operands_after turns (types turns depth) (places turns depth) first) (4 ∷ []) tokens.now)) }
{
    match operands_behind(alloc, turns, depth, first, tokens)? {
        Ok((operands, rest)) => match token(&CLOSE_BRACKET, rest) {
            Ok((_close, rest)) => Ok(Ok((operands, rest))),
            Err(stop) => Ok(Err(stop)),
        },
        Err(stop) => Ok(Err(stop)),
    }
}

fn listed_array<'t, 'a>(
    alloc: Global,
    turns: usize,
    depth: u32,
    first: Limited<Operand>,
    tokens: &'t [Piece<'a>],
) -> Read<'t, 'a, Limited<Rvalue>>
    ensures { IfOk result (λ read. read_view read ≡ counted (made (λ tail. to_array_of (first, tail)) (made Others (operands_closed turns (types turns depth) (places turns depth))) tokens.now)) }
{
    match closed_operands(alloc, turns, depth, first, tokens)? {
        Ok((operands, rest)) => {
            let array = to_array_of(alloc, operands)?;
            Ok(Ok((array, rest)))
        }
        Err(stop) => Ok(Err(stop)),
    }
}

/// What stands behind the first operand of an array.
#[tactic(auto, unfolding(grammar_words::specs::Reading::made, grammar_words::specs::Reading::choose))]
fn array_rest<'t, 'a>(
    alloc: Global,
    turns: usize,
    depth: u32,
    first: Limited<Operand>,
    tokens: &'t [Piece<'a>],
) -> Read<'t, 'a, Limited<Rvalue>>
    ensures { IfOk result (λ read. read_view read ≡ counted (turned (λ tail. to_array_of (first, tail)) (array_rest_at turns (types turns depth) (places turns depth) tokens.now))) }
{
    if starts(&SEMICOLON, tokens) {
        let read = repeat(first, tokens)?;
        Ok(read)
    } else {
        let read = listed_array(alloc, turns, depth, first, tokens)?;
        Ok(read)
    }
}

/// An array with an operand.
fn filled_array<'t, 'a>(
    alloc: Global,
    turns: usize,
    depth: u32,
    tokens: &'t [Piece<'a>],
) -> Read<'t, 'a, Limited<Rvalue>>
    ensures { IfOk result (λ read. read_view read ≡ counted (made to_array_of (joined (operand_at turns (types turns depth) (places turns depth)) (array_rest_at turns (types turns depth) (places turns depth))) tokens.now)) }
{
    match operand_at(alloc, turns, depth, tokens)? {
        Ok((first, rest)) => {
            let read = array_rest(alloc, turns, depth, first, rest)?;
            Ok(read)
        }
        Err(stop) => Ok(Err(stop)),
    }
}

#[tactic(auto, unfolding(grammar_words::specs::Reading::made))]
fn empty_array<'t, 'a>(alloc: Global, tokens: &'t [Piece<'a>]) -> Read<'t, 'a, Limited<Rvalue>>
    ensures { IfOk result (λ read. read_view read ≡ counted (made to_no_array (tok class_of (4 ∷ [])) tokens.now)) }
{
    match token(&CLOSE_BRACKET, tokens) {
        Ok((close, rest)) => Ok(Ok((to_no_array(alloc, close), rest))),
        Err(stop) => Ok(Err(stop)),
    }
}

/// What stands behind `[`.
#[tactic(auto, unfolding(grammar_words::specs::Reading::choose))]
fn behind_bracket<'t, 'a>(
    alloc: Global,
    turns: usize,
    depth: u32,
    tokens: &'t [Piece<'a>],
) -> Read<'t, 'a, Limited<Rvalue>>
    ensures { IfOk result (λ read. read_view read ≡ counted (pick (inside class_of (4 ∷ [])) (made to_no_array (tok class_of (4 ∷ []))) (made to_array_of (joined (operand_at turns (types turns depth) (places turns depth)) (array_rest_at turns (types turns depth) (places turns depth)))) tokens.now)) }
{
    let read = if starts(&CLOSE_BRACKET, tokens) {
        empty_array(alloc, tokens)?
    } else {
        filled_array(alloc, turns, depth, tokens)?
    };
    Ok(read)
}

/// An array, or one operand so many times.
#[tactic(auto, unfolding(grammar_words::specs::Reading::made, grammar_words::specs::Reading::chained))]
pub fn array<'t, 'a>(
    alloc: Global,
    turns: usize,
    depth: u32,
    tokens: &'t [Piece<'a>],
) -> Read<'t, 'a, Limited<Rvalue>>
    ensures { IfOk result (λ read. read_view read ≡ counted (array_of_at turns (types turns depth) (places turns depth) tokens.now)) }
{
    match token(&OPEN_BRACKET, tokens) {
        Ok((_open, rest)) => {
            let read = behind_bracket(alloc, turns, depth, rest)?;
            Ok(read)
        }
        Err(stop) => Ok(Err(stop)),
    }
}
