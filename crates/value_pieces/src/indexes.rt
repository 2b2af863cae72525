ghost use Rattle.std.specs.Prelude.{◌≡◌, ◌∷◌, [], IfOk};
ghost use Rattle.grammar_words.specs.Reading.{made, turned, many};
ghost use Rattle.grammar_words.specs.Classes.{tok, past, inside};
ghost use Rattle.grammar_words.specs.Coded.{counted};
ghost use Rattle.mir_grammar.specs.Lexemes.{class_of};
ghost use Rattle.mir_grammar.specs.Types.{any_word};
ghost use Rattle.mir_grammar.specs.Places.{to_local_place, to_downcast, to_index, to_front, to_back, locals, number_of_at, index_inside_at, index_at, with_steps};
ghost use Rattle.mir_pieces.specs.Views.{read_view};
ghost use Rattle.value_pieces.specs.Pairs.{pair_view};

use crate::sets::{LOCALS, MINUS, OF};
use crate::steps::{to_back, to_downcast, to_front, to_index, to_local_place, with_step};
use crate::tokens::same;
use grammar_words::{Stop, Why, stop_before};
use mir_grammar::{Placed, Stepped};
use mir_pieces::{ANY_WORD, AS, CLOSE_BRACKET, NUMBER, OPEN_BRACKET, Piece, Read, starts, token};
use std::alloc::Global;
use vk_core::NoMemory;

/// A place that is a local.
#[tactic(auto, unfolding(grammar_words::specs::Reading::made))]
pub fn local_place<'t, 'a>(alloc: Global, tokens: &'t [Piece<'a>]) -> Read<'t, 'a, Placed>
    ensures { IfOk result (λ read. read_view read ≡ counted (made to_local_place (tok class_of locals) tokens.now)) }
{
    match token(&LOCALS, tokens) {
        Ok((local, rest)) => Ok(Ok((to_local_place(alloc, local), rest))),
        Err(stop) => Ok(Err(stop)),
    }
}

/// `as` and the name of a variant.
#[tactic(auto, unfolding(grammar_words::specs::Reading::made, grammar_words::specs::Reading::chained))]
pub fn downcast_step<'t, 'a>(alloc: Global, tokens: &'t [Piece<'a>]) -> Read<'t, 'a, Stepped>
    ensures { IfOk result (λ read. read_view read ≡ counted (made to_downcast (past class_of (118 ∷ []) (tok class_of any_word)) tokens.now)) }
{
    match token(&AS, tokens) {
        Ok((_as, rest)) => match token(&ANY_WORD, rest) {
            Ok((word, rest)) => {
                let stepped = to_downcast(alloc, word)?;
                Ok(Ok((stepped, rest)))
            }
            Err(stop) => Ok(Err(stop)),
        },
        Err(stop) => Ok(Err(stop)),
    }
}

/// A number, `of` and a number.
#[tactic(auto, unfolding(grammar_words::specs::Reading::made, grammar_words::specs::Reading::chained))]
fn number_of<'t, 'a>(
    tokens: &'t [Piece<'a>],
) -> Result<((&'t Piece<'a>, &'t Piece<'a>), &'t [Piece<'a>]), Stop>
    ensures { pair_view result ≡ counted (number_of_at tokens.now) }
{
    match token(&NUMBER, tokens) {
        Ok((at, rest)) => match token(&OF, rest) {
            Ok((_of, rest)) => match token(&NUMBER, rest) {
                Ok((least, rest)) => Ok(((at, least), rest)),
                Err(stop) => Err(stop),
            },
            Err(stop) => Err(stop),
        },
        Err(stop) => Err(stop),
    }
}

#[tactic(auto, unfolding(grammar_words::specs::Reading::made))]
fn local_index<'t, 'a>(tokens: &'t [Piece<'a>]) -> Read<'t, 'a, Stepped>
    ensures { IfOk result (λ read. read_view read ≡ counted (made to_index (tok class_of locals) tokens.now)) }
{
    match token(&LOCALS, tokens) {
        Ok((local, rest)) => Ok(Ok((to_index(local), rest))),
        Err(stop) => Ok(Err(stop)),
    }
}

#[tactic(auto, unfolding(grammar_words::specs::Reading::made))]
fn front_index<'t, 'a>(tokens: &'t [Piece<'a>]) -> Read<'t, 'a, Stepped>
    ensures { IfOk result (λ read. read_view read ≡ counted (made to_front number_of_at tokens.now)) }
{
    match number_of(tokens) {
        Ok(((at, least), rest)) => Ok(Ok((to_front(at, least), rest))),
        Err(stop) => Ok(Err(stop)),
    }
}

#[tactic(auto, unfolding(grammar_words::specs::Reading::made, grammar_words::specs::Reading::chained))]
fn back_index<'t, 'a>(tokens: &'t [Piece<'a>]) -> Read<'t, 'a, Stepped>
    ensures { IfOk result (λ read. read_view read ≡ counted (made to_back (past class_of (19 ∷ []) number_of_at) tokens.now)) }
{
    match token(&MINUS, tokens) {
        Ok((_minus, rest)) => match number_of(rest) {
            Ok(((at, least), rest)) => Ok(Ok((to_back(at, least), rest))),
            Err(stop) => Ok(Err(stop)),
        },
        Err(stop) => Ok(Err(stop)),
    }
}

/// What stands in the brackets of an index.
#[tactic(auto, unfolding(grammar_words::specs::Reading::choose))]
fn index_inside<'t, 'a>(tokens: &'t [Piece<'a>]) -> Read<'t, 'a, Stepped>
    ensures { IfOk result (λ read. read_view read ≡ counted (index_inside_at tokens.now)) }
{
    let read = if starts(&LOCALS, tokens) {
        local_index(tokens)?
    } else if starts(&NUMBER, tokens) {
        front_index(tokens)?
    } else {
        back_index(tokens)?
    };
    Ok(read)
}

#[tactic(auto, unfolding(grammar_words::specs::Reading::made, grammar_words::specs::Reading::chained))]
fn index<'t, 'a>(tokens: &'t [Piece<'a>]) -> Read<'t, 'a, Stepped>
    ensures { IfOk result (λ read. read_view read ≡ counted (index_at tokens.now)) }
{
    match token(&OPEN_BRACKET, tokens) {
        Ok((_open, rest)) => match index_inside(rest)? {
            Ok((stepped, rest)) => match token(&CLOSE_BRACKET, rest) {
                Ok((_close, rest)) => Ok(Ok((stepped, rest))),
                Err(stop) => Ok(Err(stop)),
            },
            Err(stop) => Ok(Err(stop)),
        },
        Err(stop) => Ok(Err(stop)),
    }
}

/// The indexes behind a place, at most so many.
pub fn indexes_behind<'t, 'a>(
    turns: usize,
    placed: Placed,
    tokens: &'t [Piece<'a>],
) -> Read<'t, 'a, Placed>
    ensures { IfOk result (λ read. read_view read ≡ counted (turned (with_steps placed) (many (inside class_of (3 ∷ [])) index_at turns tokens.now))) }
{
    let mut placed = placed;
    let mut left = tokens;
    let mut done = 0;
    while starts(&OPEN_BRACKET, left) {
        if done == turns {
            return Ok(Err(stop_before(Why::Spent, left)));
        }
        match index(left)? {
            Ok((stepped, rest)) => {
                placed = with_step(placed, stepped)?;
                left = same(rest);
            }
            Err(stop) => return Ok(Err(stop)),
        }
        done += 1;
    }
    Ok(Ok((placed, left)))
}
