ghost use Rattle.std.specs.Prelude.{◌≡◌, ◌∷◌, [], true, false, Some, None, IfOk};
ghost use Rattle.grammar_words.specs.Reading.{made, pick, joined, turned, nothing};
ghost use Rattle.grammar_words.specs.Classes.{tok, past, ended, inside, lead, trail, trailed};
ghost use Rattle.grammar_words.specs.Coded.{counted};
ghost use Rattle.mir_grammar.specs.Lexemes.{class_of};
ghost use Rattle.mir_grammar.specs.Values.{marks, marked_at, tuple_of_at};
ghost use Rattle.mir_pieces.specs.Views.{read_view};
ghost use Rattle.value_reader.specs.Levels.{places, types};
ghost use Rattle.value_reader.specs.Trailing.{next_or_end};

use crate::operands::marked_operand;
use grammar_words::{Why, stop_before};
use mir_grammar::Limited;
use mir_ir::{Operand, Rvalue};
use mir_pieces::{CLOSE_PAREN, COMMA, OPEN_PAREN, Piece, Read, starts, token};
use sqlite_items::Items;
use std::alloc::Global;
use value_pieces::{MARKS, same, to_tuple_of};

#[tactic(auto, unfolding(grammar_words::specs::Reading::made))]
fn some_marked<'t, 'a>(
    alloc: Global,
    turns: usize,
    depth: u32,
    tokens: &'t [Piece<'a>],
) -> Read<'t, 'a, Option<Limited<Operand>>>
    ensures { IfOk result (λ read. read_view read ≡ counted (made Some (marked_at turns (types turns depth) (places turns depth)) tokens.now)) }
{
    match marked_operand(alloc, turns, depth, tokens)? {
        Ok((operand, rest)) => Ok(Ok((Some(operand), rest))),
        Err(stop) => Ok(Err(stop)),
    }
}

#[tactic(auto, unfolding(grammar_words::specs::Reading::choose))]
fn perhaps_marked<'t, 'a>(
    alloc: Global,
    turns: usize,
    depth: u32,
    tokens: &'t [Piece<'a>],
) -> Read<'t, 'a, Option<Limited<Operand>>>
    ensures { IfOk result (λ read. read_view read ≡ counted (pick (inside class_of marks) (made Some (marked_at turns (types turns depth) (places turns depth))) (nothing None) tokens.now)) }
{
    if starts(&MARKS, tokens) {
        let read = some_marked(alloc, turns, depth, tokens)?;
        Ok(read)
    } else {
        Ok(Ok((None, tokens)))
    }
}

/// A comma, and perhaps an operand behind it.
#[tactic(auto, unfolding(grammar_words::specs::Reading::made, grammar_words::specs::Reading::chained))]
fn marked_or_end<'t, 'a>(
    alloc: Global,
    turns: usize,
    depth: u32,
    tokens: &'t [Piece<'a>],
) -> Read<'t, 'a, Option<Limited<Operand>>>
    ensures { IfOk result (λ read. read_view read ≡ counted (next_or_end class_of marks (9 ∷ []) (marked_at turns (types turns depth) (places turns depth)) tokens.now)) }
{
    match token(&COMMA, tokens) {
        Ok((_comma, rest)) => {
            let read = perhaps_marked(alloc, turns, depth, rest)?;
            Ok(read)
        }
        Err(stop) => Ok(Err(stop)),
    }
}

/// The operands of a tuple behind the first, which stands before them, and whether a comma ends them.
fn marked_behind<'t, 'a>(
    alloc: Global,
    turns: usize,
    depth: u32,
    first: Limited<Operand>,
    tokens: &'t [Piece<'a>],
) -> Read<'t, 'a, (Items<Limited<Operand>>, bool)>
    ensures { IfOk result (λ read. read_view read ≡ counted (turned (λ more. lead (first, more)) (trail class_of marks (9 ∷ []) (marked_at turns (types turns depth) (places turns depth)) turns tokens.now))) }
{
    let mut operands = Vec::new(alloc);
    operands.push(first)?;
    let mut left = tokens;
    let mut done = 0;
    while starts(&COMMA, left) {
        if done == turns {
            return Ok(Err(stop_before(Why::Spent, left)));
        }
        match marked_or_end(alloc, turns, depth, left)? {
            Ok((next, rest)) => match next {
                Some(operand) => {
                    operands.push(operand)?;
                    left = same(rest);
                }
                None => return Ok(Ok(((Items::from_vec(operands), true), rest))),
            },
            Err(stop) => return Ok(Err(stop)),
        }
        done += 1;
    }
    Ok(Ok(((Items::from_vec(operands), false), left)))
}

fn filled_list<'t, 'a>(
    alloc: Global,
    turns: usize,
    depth: u32,
    tokens: &'t [Piece<'a>],
) -> Read<'t, 'a, (Items<Limited<Operand>>, bool)>
    ensures { IfOk result (λ read. read_view read ≡ counted (made lead (joined (marked_at turns (types turns depth) (places turns depth)) (trail class_of marks (9 ∷ []) (marked_at turns (types turns depth) (places turns depth)) turns)) tokens.now)) }
{
    match marked_operand(alloc, turns, depth, tokens)? {
        Ok((first, rest)) => {
            let read = marked_behind(alloc, turns, depth, first, rest)?;
            Ok(read)
        }
        Err(stop) => Ok(Err(stop)),
    }
}

#[tactic(auto, unfolding(grammar_words::specs::Reading::made))]
fn lone_comma<'t, 'a>(
    alloc: Global,
    tokens: &'t [Piece<'a>],
) -> Read<'t, 'a, (Items<Limited<Operand>>, bool)>
    ensures { IfOk result (λ read. read_view read ≡ counted (made (λ t. ([], true)) (tok class_of (9 ∷ [])) tokens.now)) }
{
    match token(&COMMA, tokens) {
        Ok((_comma, rest)) => Ok(Ok(((Items::new(alloc), true), rest))),
        Err(stop) => Ok(Err(stop)),
    }
}

/// The operands of a tuple, and whether a comma ends them.
#[tactic(auto, unfolding(grammar_words::specs::Reading::choose))]
fn marked_list<'t, 'a>(
    alloc: Global,
    turns: usize,
    depth: u32,
    tokens: &'t [Piece<'a>],
) -> Read<'t, 'a, (Items<Limited<Operand>>, bool)>
    ensures { IfOk result (λ read. read_view read ≡ counted (trailed class_of marks (9 ∷ []) (marked_at turns (types turns depth) (places turns depth)) turns tokens.now)) }
{
    if starts(&MARKS, tokens) {
        let read = filled_list(alloc, turns, depth, tokens)?;
        Ok(read)
    } else if starts(&COMMA, tokens) {
        let read = lone_comma(alloc, tokens)?;
        Ok(read)
    } else {
        Ok(Ok(((Items::new(alloc), false), tokens)))
    }
}

#[tactic(auto, unfolding(grammar_words::specs::Reading::made, grammar_words::specs::Reading::chained))]
fn list_in_parentheses<'t, 'a>(
    alloc: Global,
    turns: usize,
    depth: u32,
    tokens: &'t [Piece<'a>],
) -> Read<'t, 'a, (Items<Limited<Operand>>, bool)>
    ensures { IfOk result (λ read. read_view read ≡ counted (past class_of (1 ∷ []) (ended class_of (trailed class_of marks (9 ∷ []) (marked_at turns (types turns depth) (places turns depth)) turns) (2 ∷ [])) tokens.now)) }
{
    match token(&OPEN_PAREN, tokens) {
        Ok((_open, rest)) => match marked_list(alloc, turns, depth, rest)? {
            Ok((list, rest)) => match token(&CLOSE_PAREN, rest) {
                Ok((_close, rest)) => Ok(Ok((list, rest))),
                Err(stop) => Ok(Err(stop)),
            },
            Err(stop) => Ok(Err(stop)),
        },
        Err(stop) => Ok(Err(stop)),
    }
}

/// A tuple.
#[tactic(auto, unfolding(grammar_words::specs::Reading::made))]
pub fn tuple<'t, 'a>(
    alloc: Global,
    turns: usize,
    depth: u32,
    tokens: &'t [Piece<'a>],
) -> Read<'t, 'a, Limited<Rvalue>>
    ensures { IfOk result (λ read. read_view read ≡ counted (tuple_of_at turns (types turns depth) (places turns depth) tokens.now)) }
{
    match list_in_parentheses(alloc, turns, depth, tokens)? {
        Ok(((operands, comma), rest)) => {
            let tuple = to_tuple_of(alloc, operands, comma)?;
            Ok(Ok((tuple, rest)))
        }
        Err(stop) => Ok(Err(stop)),
    }
}
