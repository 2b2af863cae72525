ghost use Rattle.std.specs.Prelude.{◌≡◌, ◌&&◌, ◌∷◌, [], IfOk};
ghost use Rattle.grammar_words.specs.Grammar.{starts, More, Last};
ghost use Rattle.grammar_words.specs.Reading.{made};
ghost use Rattle.grammar_words.specs.Classes.{bare, ended, inside, tok};
ghost use Rattle.grammar_words.specs.Coded.{counted};
ghost use Rattle.mir_grammar.specs.Lexemes.{class_of};
ghost use Rattle.mir_grammar.specs.Places.{long_name};
ghost use Rattle.mir_grammar.specs.Types.{colons};
ghost use Rattle.mir_grammar.specs.Values.{formed_value_firsts, value_words};
ghost use Rattle.mir_grammar.specs.Blocks.{to_assign, to_call, to_assign_line, value_line_at, assign_line_at, word_statement_at, word_terminator_at, resumed_at, line_at, cleanup_line_at};
ghost use Rattle.mir_pieces.specs.Views.{read_view};
ghost use Rattle.value_reader.specs.Levels.{places, types};
ghost use Rattle.line_reader.specs.Parts.{formed_value_part};
ghost use Rattle.line_reader.specs.Views.{next_of, next_view};

use crate::asserts::asserting;
use crate::labels::Seen;
use crate::next::Next;
use crate::paths::{Called, path_line};
use crate::sets::{
    DROP, EQUALS, FORMED_VALUE_FIRSTS, GOTO, RESUME_WORDS, RETURN, STATEMENT_WORDS, SWITCH,
    UNREACHABLE,
};
use crate::statements::{Kept, word_statement};
use crate::switches::switching;
use crate::terminators::{EndingAt, dropping, goto, resumed, returning, unreached};
use mir_grammar::{Ending, Limited, Named, Passed, Placed};
use mir_ir::{Callee, Rvalue, Statement};
use mir_pieces::{COLONS, Piece, Read, SEMICOLON, inside, starts, token};
use std::alloc::Global;
use value_pieces::{PLACE_FIRSTS, VALUE_WORDS, all_passed, values_of};
use value_reader::{formed_value_at, place};
use vk_core::{Name, NoMemory};

/// A terminator that begins with a word.
#[tactic(auto, unfolding(grammar_words::specs::Reading::choose, crate::specs::Parts::next_part, crate::specs::Parts::switch_arms_part, crate::specs::Parts::shown_and_next_at, crate::specs::Parts::assert_rest_at, crate::specs::Parts::assert_inside_at))]
fn word_terminator<'t, 'a>(
    alloc: Global,
    turns: usize,
    depth: u32,
    tokens: &'t [Piece<'a>],
) -> Read<'t, 'a, EndingAt>
    ensures { IfOk result (λ read. read_view read ≡ counted (word_terminator_at turns (types turns depth) (places turns depth) tokens.now)) }
{
    if starts(&GOTO, tokens) {
        Ok(goto(tokens))
    } else if starts(&RETURN, tokens) {
        Ok(returning(tokens))
    } else if starts(&UNREACHABLE, tokens) {
        Ok(unreached(tokens))
    } else if starts(&SWITCH, tokens) {
        switching(alloc, turns, depth, tokens)
    } else if starts(&DROP, tokens) {
        dropping(alloc, turns, depth, tokens)
    } else {
        asserting(alloc, turns, depth, tokens)
    }
}

/// The token is a word of the values before `::`.
fn is_keyed(token: &Piece<'_>, rest: &[Piece<'_>]) -> bool
    ensures { result ≡ inside class_of value_words token.now && starts (inside class_of colons) rest.now }
{
    inside(&VALUE_WORDS, token) && starts(&COLONS, rest)
}

/// A token comes that begins a value that is no path.
fn is_formed(tokens: &[Piece<'_>]) -> bool
    ensures { result ≡ bare class_of formed_value_firsts value_words colons tokens.now }
{
    match tokens {
        [] => false,
        [token, rest @ ..] => {
            if inside(&FORMED_VALUE_FIRSTS, token) {
                !is_keyed(token, rest)
            } else {
                false
            }
        }
    }
}

/// A value that begins with no path.
#[tactic(auto, unfolding(crate::specs::Parts::formed_value_part))]
fn formed_value<'t, 'a>(
    alloc: Global,
    turns: usize,
    depth: u32,
    tokens: &'t [Piece<'a>],
) -> Read<'t, 'a, Limited<Rvalue>>
    ensures { IfOk result (λ read. read_view read ≡ counted (formed_value_part turns depth tokens.now)) }
{
    formed_value_at(alloc, turns, depth, tokens)
}

/// A value that `;` stands behind.
#[tactic(auto, unfolding(grammar_words::specs::Reading::made))]
fn ended<'t, 'a, T: Drop>(value: T, tokens: &'t [Piece<'a>]) -> Seen<'t, 'a, T>
    ensures { read_view result ≡ counted (made (λ end. value) (tok class_of (10 ∷ [])) tokens.now) }
{
    let (_end, rest) = token(&SEMICOLON, tokens)?;
    Ok((value, rest))
}

#[tactic(auto, unfolding(grammar_words::specs::Reading::made, grammar_words::specs::Reading::chained))]
fn formed_line<'t, 'a>(
    alloc: Global,
    turns: usize,
    depth: u32,
    tokens: &'t [Piece<'a>],
) -> Read<'t, 'a, Next<Limited<Rvalue>, Called>>
    ensures { IfOk result (λ read. next_view read ≡ counted (made More (ended class_of (formed_value_part turns depth) (10 ∷ [])) tokens.now)) }
{
    let (value, rest) = read!(formed_value(alloc, turns, depth, tokens)?);
    let (value, rest) = read!(ended(value, rest));
    Ok(Ok((Next::More(value), rest)))
}

/// What stands behind `=`: a value or a call, and `;`.
#[tactic(auto, unfolding(grammar_words::specs::Reading::choose, mir_grammar::specs::Blocks::value_line_at, crate::specs::Parts::formed_value_part, crate::specs::Parts::value_path_part, crate::specs::Parts::path_rest_part, crate::specs::Parts::fields_part, crate::specs::Parts::operands_part, crate::specs::Parts::call_end_part, crate::specs::Parts::arrow_target_at))]
fn value_line<'t, 'a>(
    alloc: Global,
    turns: usize,
    depth: u32,
    tokens: &'t [Piece<'a>],
) -> Read<'t, 'a, Next<Limited<Rvalue>, Called>>
    ensures { IfOk result (λ read. next_view read ≡ counted (value_line_at turns (types turns depth) (places turns depth) tokens.now)) }
{
    if is_formed(tokens) {
        formed_line(alloc, turns, depth, tokens)
    } else {
        path_line(alloc, turns, depth, tokens)
    }
}

#[tactic(auto, unfolding(mir_grammar::specs::Blocks::to_assign))]
fn to_assign(placed: Placed, value: Limited<Rvalue>) -> Kept
    ensures { result ≡ to_assign (placed, value) }
{
    let Placed { place, passed } = placed;
    let Limited {
        value,
        passed: others,
    } = value;
    Limited {
        value: Some(Statement::Assign { place, value }),
        passed: passed.both(others),
    }
}

/// What a path calls.
fn callee_of(alloc: Global, path: Named) -> Result<Limited<Callee>, NoMemory>
    ensures { IfOk result (λ callee. (callee.value.path ≡ path.text) × (callee.value.argument ≡ path.argument) × (callee.passed ≡ long_name path.is_long)) }
{
    let Named {
        text,
        argument,
        is_long,
        ..
    } = path;
    let path = Name::from_bytes(alloc, text.as_slice())?;
    Ok(Limited {
        value: Callee { path, argument },
        passed: Passed::of_name(is_long),
    })
}

#[tactic(auto, unfolding(mir_grammar::specs::Blocks::to_call))]
fn to_call(alloc: Global, placed: Placed, called: Called) -> Result<EndingAt, NoMemory>
    ensures { IfOk result (λ ending. ending ≡ to_call (placed, called)) }
{
    let (path, (operands, target)) = called;
    let callee = callee_of(alloc, path)?;
    let here = placed.passed.both(callee.passed);
    let passed = here.both(all_passed(operands.as_slice()).both(target.passed));
    let arguments = values_of(alloc, operands)?;
    Ok(Limited {
        value: Ending::Calling(placed.place, callee.value, arguments, target.value),
        passed,
    })
}

fn to_assign_line(
    alloc: Global,
    placed: Placed,
    next: Next<Limited<Rvalue>, Called>,
) -> Result<Next<Kept, EndingAt>, NoMemory>
    ensures { IfOk result (λ line. next_of line ≡ to_assign_line (placed, next_of next)) }
{
    match next {
        Next::More(value) => Ok(Next::More(to_assign(placed, value))),
        Next::Last(called) => {
            let ending = to_call(alloc, placed, called)?;
            Ok(Next::Last(ending))
        }
    }
}

/// `place =` and a value or a call.
#[tactic(auto, unfolding(grammar_words::specs::Reading::made, grammar_words::specs::Reading::chained))]
fn assign_line<'t, 'a>(
    alloc: Global,
    turns: usize,
    depth: u32,
    tokens: &'t [Piece<'a>],
) -> Read<'t, 'a, Next<Kept, EndingAt>>
    ensures { IfOk result (λ read. next_view read ≡ counted (assign_line_at turns (types turns depth) (places turns depth) tokens.now)) }
{
    let (placed, rest) = read!(place(alloc, turns, depth, tokens)?);
    let (_equals, rest) = read!(token(&EQUALS, rest));
    let (next, rest) = read!(value_line(alloc, turns, depth, rest)?);
    let line = to_assign_line(alloc, placed, next)?;
    Ok(Ok((line, rest)))
}

#[tactic(auto, unfolding(grammar_words::specs::Reading::made))]
fn statement_line<'t, 'a>(
    alloc: Global,
    turns: usize,
    depth: u32,
    tokens: &'t [Piece<'a>],
) -> Read<'t, 'a, Next<Kept, EndingAt>>
    ensures { IfOk result (λ read. next_view read ≡ counted (made More (word_statement_at (places turns depth)) tokens.now)) }
{
    let (kept, rest) = read!(word_statement(alloc, turns, depth, tokens)?);
    Ok(Ok((Next::More(kept), rest)))
}

#[tactic(auto, unfolding(grammar_words::specs::Reading::made))]
fn terminator_line<'t, 'a>(
    alloc: Global,
    turns: usize,
    depth: u32,
    tokens: &'t [Piece<'a>],
) -> Read<'t, 'a, Next<Kept, EndingAt>>
    ensures { IfOk result (λ read. next_view read ≡ counted (made Last (word_terminator_at turns (types turns depth) (places turns depth)) tokens.now)) }
{
    let (ending, rest) = read!(word_terminator(alloc, turns, depth, tokens)?);
    Ok(Ok((Next::Last(ending), rest)))
}

/// A line of a block.
#[tactic(auto, unfolding(grammar_words::specs::Reading::choose, mir_grammar::specs::Blocks::line_at))]
pub fn line<'t, 'a>(
    alloc: Global,
    turns: usize,
    depth: u32,
    tokens: &'t [Piece<'a>],
) -> Read<'t, 'a, Next<Kept, EndingAt>>
    ensures { IfOk result (λ read. next_view read ≡ counted (line_at turns (types turns depth) (places turns depth) tokens.now)) }
{
    if starts(&PLACE_FIRSTS, tokens) {
        assign_line(alloc, turns, depth, tokens)
    } else if starts(&STATEMENT_WORDS, tokens) {
        statement_line(alloc, turns, depth, tokens)
    } else {
        terminator_line(alloc, turns, depth, tokens)
    }
}

#[tactic(auto, unfolding(grammar_words::specs::Reading::made))]
fn resumed_line<'t, 'a>(tokens: &'t [Piece<'a>]) -> Read<'t, 'a, Next<Kept, EndingAt>>
    ensures { IfOk result (λ read. next_view read ≡ counted (made Last resumed_at tokens.now)) }
{
    let (ending, rest) = read!(resumed(tokens));
    Ok(Ok((Next::Last(ending), rest)))
}

/// A line of a cleanup block.
#[tactic(auto, unfolding(grammar_words::specs::Reading::choose, mir_grammar::specs::Blocks::cleanup_line_at))]
pub fn cleanup_line<'t, 'a>(
    alloc: Global,
    turns: usize,
    depth: u32,
    tokens: &'t [Piece<'a>],
) -> Read<'t, 'a, Next<Kept, EndingAt>>
    ensures { IfOk result (λ read. next_view read ≡ counted (cleanup_line_at turns (types turns depth) (places turns depth) tokens.now)) }
{
    if starts(&RESUME_WORDS, tokens) {
        resumed_line(tokens)
    } else {
        line(alloc, turns, depth, tokens)
    }
}
