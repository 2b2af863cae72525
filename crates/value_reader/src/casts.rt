ghost use Rattle.std.specs.Prelude.{◌≡◌, ◌∷◌, [], None, IfOk};
ghost use Rattle.grammar_words.specs.Reading.{made, turned};
ghost use Rattle.grammar_words.specs.Classes.{past, ended, perhaps};
ghost use Rattle.grammar_words.specs.Coded.{counted};
ghost use Rattle.mir_grammar.specs.Lexemes.{class_of};
ghost use Rattle.mir_grammar.specs.Values.{kind_at, cast_to_at, to_used, used_at};
ghost use Rattle.mir_pieces.specs.Views.{read_view};
ghost use Rattle.value_reader.specs.Levels.{places, types};

use crate::operands::operand_at;
use mir_grammar::Limited;
use mir_ir::{CastKind, Operand, Rvalue};
use mir_pieces::{AS, CLOSE_PAREN, OPEN_PAREN, Piece, Read, Want, starts, token};
use std::alloc::Global;
use type_reader::type_at;
use value_pieces::{cast_kind, to_cast, to_used};

#[tactic(auto, unfolding(grammar_words::specs::Reading::made, grammar_words::specs::Reading::chained))]
fn kind_in_parentheses<'t, 'a>(tokens: &'t [Piece<'a>]) -> Read<'t, 'a, CastKind>
    ensures { IfOk result (λ read. read_view read ≡ counted (past class_of (1 ∷ []) (ended class_of kind_at (2 ∷ [])) tokens.now)) }
{
    match token(&OPEN_PAREN, tokens) {
        Ok((_open, rest)) => match cast_kind(rest)? {
            Ok((kind, rest)) => match token(&CLOSE_PAREN, rest) {
                Ok((_close, rest)) => Ok(Ok((kind, rest))),
                Err(stop) => Ok(Err(stop)),
            },
            Err(stop) => Ok(Err(stop)),
        },
        Err(stop) => Ok(Err(stop)),
    }
}

/// `as`, a type and the kind of the cast, behind an operand.
#[tactic(auto, unfolding(grammar_words::specs::Reading::made, grammar_words::specs::Reading::chained))]
fn cast<'t, 'a>(
    alloc: Global,
    turns: usize,
    depth: u32,
    operand: Limited<Operand>,
    tokens: &'t [Piece<'a>],
) -> Read<'t, 'a, Limited<Rvalue>>
    ensures { IfOk result (λ read. read_view read ≡ counted (made (λ tail. to_used (operand, tail)) (cast_to_at (types turns depth)) tokens.now)) }
{
    match token(&AS, tokens) {
        Ok((_as, rest)) => match type_at(alloc, turns, depth, Want::AnyType, rest)? {
            Ok((named, rest)) => match kind_in_parentheses(rest)? {
                Ok((kind, rest)) => Ok(Ok((to_cast(operand, named, kind), rest))),
                Err(stop) => Ok(Err(stop)),
            },
            Err(stop) => Ok(Err(stop)),
        },
        Err(stop) => Ok(Err(stop)),
    }
}

/// What stands behind an operand: a cast, or nothing.
#[tactic(auto, unfolding(grammar_words::specs::Reading::made, grammar_words::specs::Reading::choose))]
fn perhaps_cast<'t, 'a>(
    alloc: Global,
    turns: usize,
    depth: u32,
    operand: Limited<Operand>,
    tokens: &'t [Piece<'a>],
) -> Read<'t, 'a, Limited<Rvalue>>
    ensures { IfOk result (λ read. read_view read ≡ counted (turned (λ tail. to_used (operand, tail)) (perhaps class_of (118 ∷ []) None (cast_to_at (types turns depth)) tokens.now))) }
{
    if starts(&AS, tokens) {
        let read = cast(alloc, turns, depth, operand, tokens)?;
        Ok(read)
    } else {
        Ok(Ok((to_used(operand), tokens)))
    }
}

/// An operand, or a cast of one.
pub fn used<'t, 'a>(
    alloc: Global,
    turns: usize,
    depth: u32,
    tokens: &'t [Piece<'a>],
) -> Read<'t, 'a, Limited<Rvalue>>
    ensures { IfOk result (λ read. read_view read ≡ counted (used_at turns (types turns depth) (places turns depth) tokens.now)) }
{
    match operand_at(alloc, turns, depth, tokens)? {
        Ok((operand, rest)) => {
            let read = perhaps_cast(alloc, turns, depth, operand, rest)?;
            Ok(read)
        }
        Err(stop) => Ok(Err(stop)),
    }
}
