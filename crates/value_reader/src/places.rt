ghost use Rattle.std.specs.Prelude.{◌≡◌, ◌∷◌, [], IfOk};
ghost use Rattle.grammar_words.specs.Reading.{made, joined};
ghost use Rattle.grammar_words.specs.Classes.{tok, past, ended};
ghost use Rattle.grammar_words.specs.Coded.{counted};
ghost use Rattle.mir_grammar.specs.Lexemes.{class_of};
ghost use Rattle.mir_grammar.specs.Places.{to_field, to_deref, to_stepped, selector_at, in_parentheses_at, base_at, place_body};
ghost use Rattle.mir_pieces.specs.Views.{read_view};
ghost use Rattle.value_reader.specs.Levels.{any_type, level_place, places};

use grammar_words::{Why, stop_before};
use mir_grammar::{Named, Placed, Stepped};
use mir_pieces::{CLOSE_PAREN, NUMBER, OPEN_PAREN, Piece, Read, STAR, Want, starts, token};
use std::alloc::Global;
use type_reader::type_at;
use value_pieces::{
    COLON, DOT, LOCALS, PLACE_FIRSTS, downcast_step, indexes_behind, local_place, to_deref,
    to_field, with_step,
};

/// `:` and a type.
#[tactic(auto, unfolding(grammar_words::specs::Reading::made, grammar_words::specs::Reading::chained))]
fn type_behind_colon<'t, 'a>(
    alloc: Global,
    turns: usize,
    depth: u32,
    tokens: &'t [Piece<'a>],
) -> Read<'t, 'a, Named>
    ensures { IfOk result (λ read. read_view read ≡ counted (past class_of (11 ∷ []) (any_type turns depth) tokens.now)) }
{
    match token(&COLON, tokens) {
        Ok((_colon, rest)) => {
            let read = type_at(alloc, turns, depth, Want::AnyType, rest)?;
            Ok(read)
        }
        Err(stop) => Ok(Err(stop)),
    }
}

/// `.`, the number of a field, `:` and its type.
#[tactic(auto, unfolding(grammar_words::specs::Reading::made, grammar_words::specs::Reading::chained))]
fn field_step<'t, 'a>(
    alloc: Global,
    turns: usize,
    depth: u32,
    tokens: &'t [Piece<'a>],
) -> Read<'t, 'a, Stepped>
    ensures { IfOk result (λ read. read_view read ≡ counted (made to_field (past class_of (13 ∷ []) (joined (tok class_of (35 ∷ [])) (past class_of (11 ∷ []) (any_type turns depth)))) tokens.now)) }
{
    match token(&DOT, tokens) {
        Ok((_dot, rest)) => match token(&NUMBER, rest) {
            Ok((number, rest)) => match type_behind_colon(alloc, turns, depth, rest)? {
                Ok((named, rest)) => Ok(Ok((to_field(number, named), rest))),
                Err(stop) => Ok(Err(stop)),
            },
            Err(stop) => Ok(Err(stop)),
        },
        Err(stop) => Ok(Err(stop)),
    }
}

/// What stands behind a place in parentheses.
#[tactic(auto, unfolding(grammar_words::specs::Reading::choose))]
fn selector<'t, 'a>(
    alloc: Global,
    turns: usize,
    depth: u32,
    tokens: &'t [Piece<'a>],
) -> Read<'t, 'a, Stepped>
    ensures { IfOk result (λ read. read_view read ≡ counted (selector_at (any_type turns depth) tokens.now)) }
{
    let read = if starts(&DOT, tokens) {
        field_step(alloc, turns, depth, tokens)?
    } else {
        downcast_step(alloc, tokens)?
    };
    Ok(read)
}

/// `*` and a place.
#[cycle(places)]
#[tactic(auto, unfolding(grammar_words::specs::Reading::made, grammar_words::specs::Reading::chained))]
fn deref_place<'t, 'a>(
    alloc: Global,
    turns: usize,
    depth: u32,
    level: u32,
    tokens: &'t [Piece<'a>],
) -> Read<'t, 'a, Placed>
    ensures { IfOk result (λ read. read_view read ≡ counted (made to_deref (past class_of (16 ∷ []) (level_place turns depth level)) tokens.now)) }
{
    match token(&STAR, tokens) {
        Ok((_star, rest)) => match place_in(alloc, turns, depth, level, rest)? {
            Ok((placed, rest)) => {
                let longer = to_deref(placed)?;
                Ok(Ok((longer, rest)))
            }
            Err(stop) => Ok(Err(stop)),
        },
        Err(stop) => Ok(Err(stop)),
    }
}

/// A place and one step from it.
#[cycle(places)]
#[tactic(auto, unfolding(grammar_words::specs::Reading::made, grammar_words::specs::Reading::chained, mir_grammar::specs::Places::to_stepped))]
fn stepped_place<'t, 'a>(
    alloc: Global,
    turns: usize,
    depth: u32,
    level: u32,
    tokens: &'t [Piece<'a>],
) -> Read<'t, 'a, Placed>
    ensures { IfOk result (λ read. read_view read ≡ counted (made to_stepped (joined (level_place turns depth level) (selector_at (any_type turns depth))) tokens.now)) }
{
    match place_in(alloc, turns, depth, level, tokens)? {
        Ok((placed, rest)) => match selector(alloc, turns, depth, rest)? {
            Ok((stepped, rest)) => {
                let longer = with_step(placed, stepped)?;
                Ok(Ok((longer, rest)))
            }
            Err(stop) => Ok(Err(stop)),
        },
        Err(stop) => Ok(Err(stop)),
    }
}

/// What stands in the parentheses of a place.
#[cycle(places)]
#[tactic(auto, unfolding(grammar_words::specs::Reading::choose))]
fn in_parentheses<'t, 'a>(
    alloc: Global,
    turns: usize,
    depth: u32,
    level: u32,
    tokens: &'t [Piece<'a>],
) -> Read<'t, 'a, Placed>
    ensures { IfOk result (λ read. read_view read ≡ counted (in_parentheses_at (any_type turns depth) (level_place turns depth level) tokens.now)) }
{
    if starts(&STAR, tokens) {
        let read = deref_place(alloc, turns, depth, level, tokens)?;
        Ok(read)
    } else {
        let read = stepped_place(alloc, turns, depth, level, tokens)?;
        Ok(read)
    }
}

/// A place in parentheses.
#[cycle(places)]
#[tactic(auto, unfolding(grammar_words::specs::Reading::made, grammar_words::specs::Reading::chained))]
fn enclosed_place<'t, 'a>(
    alloc: Global,
    turns: usize,
    depth: u32,
    level: u32,
    tokens: &'t [Piece<'a>],
) -> Read<'t, 'a, Placed>
    ensures { IfOk result (λ read. read_view read ≡ counted (past class_of (1 ∷ []) (ended class_of (in_parentheses_at (any_type turns depth) (level_place turns depth level)) (2 ∷ [])) tokens.now)) }
{
    match token(&OPEN_PAREN, tokens) {
        Ok((_open, rest)) => match in_parentheses(alloc, turns, depth, level, rest)? {
            Ok((placed, rest)) => match token(&CLOSE_PAREN, rest) {
                Ok((_close, rest)) => Ok(Ok((placed, rest))),
                Err(stop) => Ok(Err(stop)),
            },
            Err(stop) => Ok(Err(stop)),
        },
        Err(stop) => Ok(Err(stop)),
    }
}

/// A place without its indexes.
#[cycle(places)]
#[tactic(auto, unfolding(grammar_words::specs::Reading::choose))]
fn base<'t, 'a>(
    alloc: Global,
    turns: usize,
    depth: u32,
    level: u32,
    tokens: &'t [Piece<'a>],
) -> Read<'t, 'a, Placed>
    ensures { IfOk result (λ read. read_view read ≡ counted (base_at (any_type turns depth) (level_place turns depth level) tokens.now)) }
{
    if starts(&LOCALS, tokens) {
        let read = local_place(alloc, tokens)?;
        Ok(read)
    } else {
        let read = enclosed_place(alloc, turns, depth, level, tokens)?;
        Ok(read)
    }
}

/// A place with its indexes.
#[cycle(places)]
fn place_with_indexes<'t, 'a>(
    alloc: Global,
    turns: usize,
    depth: u32,
    level: u32,
    tokens: &'t [Piece<'a>],
) -> Read<'t, 'a, Placed>
    ensures { IfOk result (λ read. read_view read ≡ counted (place_body turns (any_type turns depth) (level_place turns depth level) tokens.now)) }
{
    match base(alloc, turns, depth, level, tokens)? {
        Ok((placed, rest)) => {
            let read = indexes_behind(turns, placed, rest)?;
            Ok(read)
        }
        Err(stop) => Ok(Err(stop)),
    }
}

/// A place, nested at most `level` deep, with types in it that are nested at most `depth` deep.
#[cycle(places)]
fn place_in<'t, 'a>(
    alloc: Global,
    turns: usize,
    depth: u32,
    level: u32,
    tokens: &'t [Piece<'a>],
) -> Read<'t, 'a, Placed>
    ensures { IfOk result (λ read. read_view read ≡ counted (level_place turns depth level tokens.now)) }
{
    if starts(&PLACE_FIRSTS, tokens) {
        if level == 0 {
            Ok(Err(stop_before(Why::Deep, tokens)))
        } else {
            let read = place_with_indexes(alloc, turns, depth, level - 1, tokens)?;
            Ok(read)
        }
    } else {
        Ok(Err(stop_before(Why::Wrong, tokens)))
    }
}

/// A place, nested at most `depth` deep, as its types are.
#[tactic(auto, unfolding(crate::specs::Levels::any_type, crate::specs::Levels::level_place))]
pub fn place<'t, 'a>(
    alloc: Global,
    turns: usize,
    depth: u32,
    tokens: &'t [Piece<'a>],
) -> Read<'t, 'a, Placed>
    ensures { IfOk result (λ read. read_view read ≡ counted (places turns depth tokens.now)) }
{
    let read = place_in(alloc, turns, depth, depth, tokens)?;
    Ok(read)
}

/// A token of these classes, and a place.
#[tactic(auto, unfolding(grammar_words::specs::Reading::made, grammar_words::specs::Reading::chained))]
pub fn place_past<'t, 'a>(
    alloc: Global,
    turns: usize,
    depth: u32,
    set: &[u32],
    tokens: &'t [Piece<'a>],
) -> Read<'t, 'a, Placed>
    ensures { IfOk result (λ read. read_view read ≡ counted (past class_of set.now (places turns depth) tokens.now)) }
{
    match token(set, tokens) {
        Ok((_token, rest)) => {
            let read = place(alloc, turns, depth, rest)?;
            Ok(read)
        }
        Err(stop) => Ok(Err(stop)),
    }
}
