ghost use Rattle.std.specs.Prelude.{◌≡◌, ◌∷◌, [], IfOk};
ghost use Rattle.grammar_words.specs.Reading.{made, joined, cons};
ghost use Rattle.grammar_words.specs.Classes.{past, ended, listed};
ghost use Rattle.grammar_words.specs.Coded.{counted};
ghost use Rattle.mir_grammar.specs.Lexemes.{class_of};
ghost use Rattle.mir_grammar.specs.Types.{path_from_at};
ghost use Rattle.mir_grammar.specs.Values.{truths, constant_words, to_named, constant_at, to_copy, to_move, to_const, marked_at, operand_at, operand_firsts, operands_at};
ghost use Rattle.mir_pieces.specs.Views.{read_view};
ghost use Rattle.value_reader.specs.Levels.{places, types};
ghost use Rattle.value_reader.specs.Lists.{more_operands, operands_after};

use crate::places::{place, place_past};
use grammar_words::{Why, stop_before};
use mir_grammar::Limited;
use mir_ir::{Constant, Operand};
use mir_pieces::{CLOSE_PAREN, COMMA, CONST, OPEN_PAREN, Piece, Read, starts, token};
use sqlite_items::Items;
use std::alloc::Global;
use type_reader::path_from_at;
use value_pieces::{
    CONSTANT_WORDS, COPY, MOVE, OPERAND_FIRSTS, PLACE_FIRSTS, TRUTHS, formed_constant,
    is_formed_constant, same, to_const, to_copy, to_move, to_named,
};

/// A constant that is named by a path.
#[tactic(auto, unfolding(grammar_words::specs::Reading::made))]
fn named_constant<'t, 'a>(
    alloc: Global,
    turns: usize,
    depth: u32,
    tokens: &'t [Piece<'a>],
) -> Read<'t, 'a, Limited<Constant>>
    ensures { IfOk result (λ read. read_view read ≡ counted (made to_named (path_from_at turns truths constant_words (types turns depth)) tokens.now)) }
{
    match path_from_at(alloc, turns, depth, &TRUTHS, &CONSTANT_WORDS, tokens)? {
        Ok((named, rest)) => {
            let constant = to_named(alloc, named)?;
            Ok(Ok((constant, rest)))
        }
        Err(stop) => Ok(Err(stop)),
    }
}

#[tactic(auto, unfolding(grammar_words::specs::Reading::choose, mir_grammar::specs::Values::constant_at))]
fn constant<'t, 'a>(
    alloc: Global,
    turns: usize,
    depth: u32,
    tokens: &'t [Piece<'a>],
) -> Read<'t, 'a, Limited<Constant>>
    ensures { IfOk result (λ read. read_view read ≡ counted (constant_at turns (types turns depth) tokens.now)) }
{
    let read = if is_formed_constant(tokens) {
        formed_constant(alloc, tokens)?
    } else {
        named_constant(alloc, turns, depth, tokens)?
    };
    Ok(read)
}

#[tactic(auto, unfolding(grammar_words::specs::Reading::made))]
fn place_operand<'t, 'a>(
    alloc: Global,
    turns: usize,
    depth: u32,
    tokens: &'t [Piece<'a>],
) -> Read<'t, 'a, Limited<Operand>>
    ensures { IfOk result (λ read. read_view read ≡ counted (made to_copy (places turns depth) tokens.now)) }
{
    match place(alloc, turns, depth, tokens)? {
        Ok((placed, rest)) => Ok(Ok((to_copy(placed), rest))),
        Err(stop) => Ok(Err(stop)),
    }
}

#[tactic(auto, unfolding(grammar_words::specs::Reading::made, grammar_words::specs::Reading::chained))]
fn copy_operand<'t, 'a>(
    alloc: Global,
    turns: usize,
    depth: u32,
    tokens: &'t [Piece<'a>],
) -> Read<'t, 'a, Limited<Operand>>
    ensures { IfOk result (λ read. read_view read ≡ counted (made to_copy (past class_of (120 ∷ []) (places turns depth)) tokens.now)) }
{
    match place_past(alloc, turns, depth, &COPY, tokens)? {
        Ok((placed, rest)) => Ok(Ok((to_copy(placed), rest))),
        Err(stop) => Ok(Err(stop)),
    }
}

#[tactic(auto, unfolding(grammar_words::specs::Reading::made, grammar_words::specs::Reading::chained))]
fn move_operand<'t, 'a>(
    alloc: Global,
    turns: usize,
    depth: u32,
    tokens: &'t [Piece<'a>],
) -> Read<'t, 'a, Limited<Operand>>
    ensures { IfOk result (λ read. read_view read ≡ counted (made to_move (past class_of (121 ∷ []) (places turns depth)) tokens.now)) }
{
    match place_past(alloc, turns, depth, &MOVE, tokens)? {
        Ok((placed, rest)) => Ok(Ok((to_move(placed), rest))),
        Err(stop) => Ok(Err(stop)),
    }
}

#[tactic(auto, unfolding(grammar_words::specs::Reading::made, grammar_words::specs::Reading::chained))]
fn const_operand<'t, 'a>(
    alloc: Global,
    turns: usize,
    depth: u32,
    tokens: &'t [Piece<'a>],
) -> Read<'t, 'a, Limited<Operand>>
    ensures { IfOk result (λ read. read_view read ≡ counted (made to_const (past class_of (116 ∷ []) (constant_at turns (types turns depth))) tokens.now)) }
{
    match token(&CONST, tokens) {
        Ok((_word, rest)) => match constant(alloc, turns, depth, rest)? {
            Ok((constant, rest)) => Ok(Ok((to_const(constant), rest))),
            Err(stop) => Ok(Err(stop)),
        },
        Err(stop) => Ok(Err(stop)),
    }
}

/// An operand that begins with `copy`, `move` or `const`.
#[tactic(auto, unfolding(grammar_words::specs::Reading::choose))]
pub fn marked_operand<'t, 'a>(
    alloc: Global,
    turns: usize,
    depth: u32,
    tokens: &'t [Piece<'a>],
) -> Read<'t, 'a, Limited<Operand>>
    ensures { IfOk result (λ read. read_view read ≡ counted (marked_at turns (types turns depth) (places turns depth) tokens.now)) }
{
    let read = if starts(&COPY, tokens) {
        copy_operand(alloc, turns, depth, tokens)?
    } else if starts(&MOVE, tokens) {
        move_operand(alloc, turns, depth, tokens)?
    } else {
        const_operand(alloc, turns, depth, tokens)?
    };
    Ok(read)
}

/// An operand.
#[tactic(auto, unfolding(grammar_words::specs::Reading::choose, mir_grammar::specs::Values::operand_at))]
pub fn operand_at<'t, 'a>(
    alloc: Global,
    turns: usize,
    depth: u32,
    tokens: &'t [Piece<'a>],
) -> Read<'t, 'a, Limited<Operand>>
    ensures { IfOk result (λ read. read_view read ≡ counted (operand_at turns (types turns depth) (places turns depth) tokens.now)) }
{
    let read = if starts(&PLACE_FIRSTS, tokens) {
        place_operand(alloc, turns, depth, tokens)?
    } else {
        marked_operand(alloc, turns, depth, tokens)?
    };
    Ok(read)
}

#[tactic(auto, unfolding(grammar_words::specs::Reading::made, grammar_words::specs::Reading::chained))]
fn operand_behind_comma<'t, 'a>(
    alloc: Global,
    turns: usize,
    depth: u32,
    tokens: &'t [Piece<'a>],
) -> Read<'t, 'a, Limited<Operand>>
    ensures { IfOk result (λ read. read_view read ≡ counted (past class_of (9 ∷ []) (operand_at turns (types turns depth) (places turns depth)) tokens.now)) }
{
    match token(&COMMA, tokens) {
        Ok((_comma, rest)) => {
            let read = operand_at(alloc, turns, depth, rest)?;
            Ok(read)
        }
        Err(stop) => Ok(Err(stop)),
    }
}

/// Operands, each behind a comma, and the first before them.
pub fn operands_behind<'t, 'a>(
    alloc: Global,
    turns: usize,
    depth: u32,
    first: Limited<Operand>,
    tokens: &'t [Piece<'a>],
) -> Read<'t, 'a, Items<Limited<Operand>>>
    ensures { IfOk result (λ read. read_view read ≡ counted (operands_after turns (types turns depth) (places turns depth) first tokens.now)) }
{
    let mut operands = Vec::new(alloc);
    operands.push(first)?;
    let mut left = tokens;
    let mut done = 0;
    while starts(&COMMA, left) {
        if done == turns {
            return Ok(Err(stop_before(Why::Spent, left)));
        }
        match operand_behind_comma(alloc, turns, depth, left)? {
            Ok((operand, rest)) => {
                operands.push(operand)?;
                left = same(rest);
            }
            Err(stop) => return Ok(Err(stop)),
        }
        done += 1;
    }
    Ok(Ok((Items::from_vec(operands), left)))
}

/// Operands with commas between them, at least one.
fn some_operands<'t, 'a>(
    alloc: Global,
    turns: usize,
    depth: u32,
    tokens: &'t [Piece<'a>],
) -> Read<'t, 'a, Items<Limited<Operand>>>
    ensures { IfOk result (λ read. read_view read ≡ counted (made cons (joined (operand_at turns (types turns depth) (places turns depth)) (more_operands turns (types turns depth) (places turns depth))) tokens.now)) }
{
    match operand_at(alloc, turns, depth, tokens)? {
        Ok((first, rest)) => {
            let read = operands_behind(alloc, turns, depth, first, rest)?;
            Ok(read)
        }
        Err(stop) => Ok(Err(stop)),
    }
}

#[tactic(auto, unfolding(grammar_words::specs::Reading::choose))]
fn operand_list<'t, 'a>(
    alloc: Global,
    turns: usize,
    depth: u32,
    tokens: &'t [Piece<'a>],
) -> Read<'t, 'a, Items<Limited<Operand>>>
    ensures { IfOk result (λ read. read_view read ≡ counted (listed class_of operand_firsts (9 ∷ []) (operand_at turns (types turns depth) (places turns depth)) turns tokens.now)) }
{
    if starts(&OPERAND_FIRSTS, tokens) {
        let read = some_operands(alloc, turns, depth, tokens)?;
        Ok(read)
    } else {
        Ok(Ok((Items::new(alloc), tokens)))
    }
}

/// Operands in parentheses.
#[tactic(auto, unfolding(grammar_words::specs::Reading::made, grammar_words::specs::Reading::chained))]
pub fn operands_at<'t, 'a>(
    alloc: Global,
    turns: usize,
    depth: u32,
    tokens: &'t [Piece<'a>],
) -> Read<'t, 'a, Items<Limited<Operand>>>
    ensures { IfOk result (λ read. read_view read ≡ counted (operands_at turns (types turns depth) (places turns depth) tokens.now)) }
{
    match token(&OPEN_PAREN, tokens) {
        Ok((_open, rest)) => match operand_list(alloc, turns, depth, rest)? {
            Ok((operands, rest)) => match token(&CLOSE_PAREN, rest) {
                Ok((_close, rest)) => Ok(Ok((operands, rest))),
                Err(stop) => Ok(Err(stop)),
            },
            Err(stop) => Ok(Err(stop)),
        },
        Err(stop) => Ok(Err(stop)),
    }
}
