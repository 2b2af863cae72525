ghost use Rattle.std.specs.Prelude.{◌≡◌, ◌∷◌, [], IfOk};
ghost use Rattle.grammar_words.specs.Reading.{made, joined, many};
ghost use Rattle.grammar_words.specs.Classes.{inside, past};
ghost use Rattle.grammar_words.specs.Coded.{counted};
ghost use Rattle.mir_grammar.specs.Lexemes.{class_of};
ghost use Rattle.mir_grammar.specs.Types.{perhaps_token};
ghost use Rattle.mir_grammar.specs.Values.{operand_at};
ghost use Rattle.mir_grammar.specs.Blocks.{to_assert};
ghost use Rattle.mir_pieces.specs.Views.{read_view};
ghost use Rattle.value_reader.specs.Levels.{places, types};
ghost use Rattle.line_reader.specs.Parts.{assert_inside_at, assert_part, assert_rest_at, shown_and_next_at, asserted};

use crate::labels::Seen;
use crate::sets::{ASSERT, NOT, SUCCESS};
use crate::terminators::{EndingAt, arrow_next};
use grammar_words::{Why, stop_before};
use mir_grammar::{Ending, Limited};
use mir_ir::{Operand, Terminator};
use mir_pieces::{CLOSE_PAREN, COMMA, OPEN_PAREN, Piece, Read, starts, token};
use sqlite_items::Items;
use std::alloc::Global;
use value_pieces::{TEXTS, all_passed, same, text_body, values_of};
use value_reader::operand_at;
use vk_core::{BlockId, NoMemory};

/// Whether `!` stands there.
#[tactic(auto, unfolding(grammar_words::specs::Reading::made, grammar_words::specs::Reading::choose))]
fn negation<'t, 'a>(tokens: &'t [Piece<'a>]) -> Seen<'t, 'a, bool>
    ensures { read_view result ≡ counted (perhaps_token (17 ∷ []) tokens.now) }
{
    if starts(&NOT, tokens) {
        let (_not, rest) = token(&NOT, tokens)?;
        Ok((true, rest))
    } else {
        Ok((false, tokens))
    }
}

/// A comma and an operand.
#[tactic(auto, unfolding(grammar_words::specs::Reading::made, grammar_words::specs::Reading::chained))]
fn comma_operand<'t, 'a>(
    alloc: Global,
    turns: usize,
    depth: u32,
    tokens: &'t [Piece<'a>],
) -> Read<'t, 'a, Limited<Operand>>
    ensures { IfOk result (λ read. read_view read ≡ counted (past class_of (9 ∷ []) (operand_at turns (types turns depth) (places turns depth)) tokens.now)) }
{
    let (_comma, rest) = read!(token(&COMMA, tokens));
    let (operand, rest) = read!(operand_at(alloc, turns, depth, rest)?);
    Ok(Ok((operand, rest)))
}

/// The operands that an assert shows.
fn shown<'t, 'a>(
    alloc: Global,
    turns: usize,
    depth: u32,
    tokens: &'t [Piece<'a>],
) -> Read<'t, 'a, Items<Limited<Operand>>>
    ensures { IfOk result (λ read. read_view read ≡ counted (many (inside class_of (9 ∷ [])) (past class_of (9 ∷ []) (operand_at turns (types turns depth) (places turns depth))) turns tokens.now)) }
{
    let mut found = Vec::new(alloc);
    let mut left = tokens;
    let mut done = 0;
    while starts(&COMMA, left) {
        if done == turns {
            return Ok(Err(stop_before(Why::Spent, left)));
        }
        let (operand, rest) = read!(comma_operand(alloc, turns, depth, left)?);
        found.push(operand)?;
        left = same(rest);
        done += 1;
    }
    Ok(Ok((Items::from_vec(found), left)))
}

/// The operands that are shown, and the next block.
#[tactic(auto, unfolding(grammar_words::specs::Reading::made, grammar_words::specs::Reading::chained, grammar_words::specs::Reading::choose, crate::specs::Parts::shown_and_next_at))]
fn shown_and_next<'t, 'a>(
    alloc: Global,
    turns: usize,
    depth: u32,
    tokens: &'t [Piece<'a>],
) -> Read<'t, 'a, (Items<Limited<Operand>>, Limited<BlockId>)>
    ensures { IfOk result (λ read. read_view read ≡ counted (shown_and_next_at (operand_at turns (types turns depth) (places turns depth)) turns tokens.now)) }
{
    let (shown, rest) = read!(shown(alloc, turns, depth, tokens)?);
    let (_close, rest) = read!(token(&CLOSE_PAREN, rest));
    let (next, rest) = read!(arrow_next(&SUCCESS, rest));
    Ok(Ok(((shown, next), rest)))
}

#[tactic(auto, unfolding(mir_grammar::specs::Blocks::to_assert))]
fn to_assert(
    alloc: Global,
    negated: bool,
    operand: Limited<Operand>,
    text: &Piece<'_>,
    shown: Items<Limited<Operand>>,
    next: Limited<BlockId>,
) -> Result<EndingAt, NoMemory>
    ensures { IfOk result (λ ending. ending ≡ to_assert (negated, (operand, (text.now, (shown, next))))) }
{
    let passed = operand
        .passed
        .both(all_passed(shown.as_slice()).both(next.passed));
    let text = text_body(alloc, text)?;
    let shown = values_of(alloc, shown)?;
    let Limited { value, .. } = operand;
    Ok(Limited {
        value: Ending::Settled(Terminator::Assert {
            operand: value,
            expected: !negated,
            text,
            shown,
            next: next.value,
        }),
        passed,
    })
}

/// What stands behind the operand of an assert.
#[tactic(auto, unfolding(grammar_words::specs::Reading::made, grammar_words::specs::Reading::chained, grammar_words::specs::Reading::choose, crate::specs::Parts::assert_rest_at))]
fn assert_rest<'t, 'a>(
    alloc: Global,
    turns: usize,
    depth: u32,
    negated: bool,
    operand: Limited<Operand>,
    tokens: &'t [Piece<'a>],
) -> Read<'t, 'a, EndingAt>
    ensures { IfOk result (λ read. read_view read ≡ counted (made (asserted negated operand) (assert_rest_at (operand_at turns (types turns depth) (places turns depth)) turns) tokens.now)) }
{
    let (_comma, rest) = read!(token(&COMMA, tokens));
    let (text, rest) = read!(token(&TEXTS, rest));
    let ((shown, next), rest) = read!(shown_and_next(alloc, turns, depth, rest)?);
    let ending = to_assert(alloc, negated, operand, text, shown, next)?;
    Ok(Ok((ending, rest)))
}

/// What stands behind the parenthesis of an assert.
#[tactic(auto, unfolding(grammar_words::specs::Reading::made, grammar_words::specs::Reading::chained, grammar_words::specs::Reading::choose, crate::specs::Parts::assert_inside_at))]
fn assert_inside<'t, 'a>(
    alloc: Global,
    turns: usize,
    depth: u32,
    tokens: &'t [Piece<'a>],
) -> Read<'t, 'a, EndingAt>
    ensures { IfOk result (λ read. read_view read ≡ counted (made to_assert (assert_inside_at (operand_at turns (types turns depth) (places turns depth)) turns) tokens.now)) }
{
    let (negated, rest) = read!(negation(tokens));
    let (operand, rest) = read!(operand_at(alloc, turns, depth, rest)?);
    let (ending, rest) = read!(assert_rest(alloc, turns, depth, negated, operand, rest)?);
    Ok(Ok((ending, rest)))
}

/// `assert ( !? operand , text (, operand)* ) -> next ;`
#[tactic(auto, unfolding(grammar_words::specs::Reading::made, grammar_words::specs::Reading::chained, grammar_words::specs::Reading::choose))]
pub fn asserting<'t, 'a>(
    alloc: Global,
    turns: usize,
    depth: u32,
    tokens: &'t [Piece<'a>],
) -> Read<'t, 'a, EndingAt>
    ensures { IfOk result (λ read. read_view read ≡ counted (assert_part (operand_at turns (types turns depth) (places turns depth)) turns tokens.now)) }
{
    let (_assert, rest) = read!(token(&ASSERT, tokens));
    let (_open, rest) = read!(token(&OPEN_PAREN, rest));
    let (ending, rest) = read!(assert_inside(alloc, turns, depth, rest)?);
    Ok(Ok((ending, rest)))
}
