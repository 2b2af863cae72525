ghost use Rattle.std.specs.Prelude.{◌≡◌, ◌∷◌, [], ◌&&◌, IfOk};
ghost use Rattle.grammar_words.specs.Grammar.{starts};
ghost use Rattle.grammar_words.specs.Classes.{inside, bare};
ghost use Rattle.grammar_words.specs.Coded.{counted};
ghost use Rattle.mir_grammar.specs.Lexemes.{class_of};
ghost use Rattle.mir_grammar.specs.Values.{operand_firsts, tuple_seconds, used_or_tuple_at, formed_value_at, value_path_at};
ghost use Rattle.mir_pieces.specs.Views.{read_view};
ghost use Rattle.value_reader.specs.Levels.{places, types};

use crate::arrays::array;
use crate::casts::used;
use crate::operators::operator;
use crate::references::reference;
use crate::tuples::tuple;
use mir_grammar::{Limited, Named};
use mir_ir::Rvalue;
use mir_pieces::{AMPERSAND, OPEN_PAREN, Piece, Read, inside, starts};
use std::alloc::Global;
use type_reader::path_from_at;
use value_pieces::{FREE_WORDS, OPERAND_FIRSTS, OPERATORS, TUPLE_SECONDS, VALUE_WORDS};

/// The token is the `(` of a tuple.
fn opens_tuple(token: &Piece<'_>, rest: &[Piece<'_>]) -> bool
    ensures { result ≡ inside class_of (1 ∷ []) token.now && starts (inside class_of tuple_seconds) rest.now }
{
    inside(&OPEN_PAREN, token) && starts(&TUPLE_SECONDS, rest)
}

/// A token comes that begins an operand, and no tuple.
fn is_used(tokens: &[Piece<'_>]) -> bool
    ensures { result ≡ bare class_of operand_firsts (1 ∷ []) tuple_seconds tokens.now }
{
    match tokens {
        [] => false,
        [token, rest @ ..] => {
            if inside(&OPERAND_FIRSTS, token) {
                !opens_tuple(token, rest)
            } else {
                false
            }
        }
    }
}

/// An operand, a cast or a tuple.
#[tactic(auto, unfolding(grammar_words::specs::Reading::choose, mir_grammar::specs::Values::used_or_tuple_at))]
fn used_or_tuple<'t, 'a>(
    alloc: Global,
    turns: usize,
    depth: u32,
    tokens: &'t [Piece<'a>],
) -> Read<'t, 'a, Limited<Rvalue>>
    ensures { IfOk result (λ read. read_view read ≡ counted (used_or_tuple_at turns (types turns depth) (places turns depth) tokens.now)) }
{
    let read = if is_used(tokens) {
        used(alloc, turns, depth, tokens)?
    } else {
        tuple(alloc, turns, depth, tokens)?
    };
    Ok(read)
}

/// A value that does not begin with a path.
#[tactic(auto, unfolding(grammar_words::specs::Reading::choose))]
pub fn formed_value_at<'t, 'a>(
    alloc: Global,
    turns: usize,
    depth: u32,
    tokens: &'t [Piece<'a>],
) -> Read<'t, 'a, Limited<Rvalue>>
    ensures { IfOk result (λ read. read_view read ≡ counted (formed_value_at turns (types turns depth) (places turns depth) tokens.now)) }
{
    let read = if starts(&OPERAND_FIRSTS, tokens) {
        used_or_tuple(alloc, turns, depth, tokens)?
    } else if starts(&OPERATORS, tokens) {
        operator(alloc, turns, depth, tokens)?
    } else if starts(&AMPERSAND, tokens) {
        reference(alloc, turns, depth, tokens)?
    } else {
        array(alloc, turns, depth, tokens)?
    };
    Ok(read)
}

/// The path that a value or a call begins with.
pub fn value_path_at<'t, 'a>(
    alloc: Global,
    turns: usize,
    depth: u32,
    tokens: &'t [Piece<'a>],
) -> Read<'t, 'a, Named>
    ensures { IfOk result (λ read. read_view read ≡ counted (value_path_at turns (types turns depth) tokens.now)) }
{
    let read = path_from_at(alloc, turns, depth, &VALUE_WORDS, &FREE_WORDS, tokens)?;
    Ok(read)
}
