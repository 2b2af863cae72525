ghost use Rattle.std.specs.Prelude.{◌≡◌, ◌∷◌, [], IfOk, None};
ghost use Rattle.grammar_words.specs.Reading.{made};
ghost use Rattle.grammar_words.specs.Classes.{ended};
ghost use Rattle.grammar_words.specs.Coded.{counted};
ghost use Rattle.mir_grammar.specs.Lexemes.{class_of};
ghost use Rattle.mir_grammar.specs.declared.trees.PathTail.TheVariants.{FieldTail};
ghost use Rattle.mir_grammar.specs.Places.{long_name};
ghost use Rattle.mir_grammar.specs.Values.{to_path_unit, to_path_tuple, to_path_fields};
ghost use Rattle.mir_grammar.specs.Blocks.{to_path_line};
ghost use Rattle.mir_pieces.specs.Views.{read_view};
ghost use Rattle.value_reader.specs.Levels.{places, types};
ghost use Rattle.line_reader.specs.Parts.{arrow_target_at, call_end_part, fields_part, operands_part, value_path_part, path_rest_part, to_operand_tail, path_line_part};
ghost use Rattle.line_reader.specs.Views.{next_of, next_view};

use crate::labels::{Seen, target_at};
use crate::next::Next;
use crate::sets::ARROW;
use mir_grammar::{Limited, Named, Passed, PathTail, Target};
use mir_ir::{NamedOperand, Operand, Rvalue};
use mir_pieces::{Piece, Read, SEMICOLON, starts, token};
use sqlite_items::Items;
use std::alloc::Global;
use value_pieces::{OPEN_BRACE, all_passed, values_of};
use value_reader::{fields_at, operands_at, value_path_at};
use vk_core::{Name, NoMemory};

/// What is called, with what, and where it goes on.
pub type Called = (Named, (Items<Limited<Operand>>, Limited<Target>));

/// `-> target ;`
#[tactic(auto, unfolding(grammar_words::specs::Reading::made, grammar_words::specs::Reading::chained, grammar_words::specs::Reading::choose, crate::specs::Parts::arrow_target_at))]
fn arrow_target<'t, 'a>(tokens: &'t [Piece<'a>]) -> Seen<'t, 'a, Limited<Target>>
    ensures { read_view result ≡ counted (arrow_target_at tokens.now) }
{
    let (_arrow, rest) = token(&ARROW, tokens)?;
    let (target, rest) = target_at(rest)?;
    let (_end, rest) = token(&SEMICOLON, rest)?;
    Ok((target, rest))
}

/// Where a call goes on, and `;`; or `;` alone, which is behind no call.
#[tactic(auto, unfolding(grammar_words::specs::Reading::made, grammar_words::specs::Reading::choose, crate::specs::Parts::call_end_part))]
fn call_end<'t, 'a>(tokens: &'t [Piece<'a>]) -> Seen<'t, 'a, Option<Limited<Target>>>
    ensures { read_view result ≡ counted (call_end_part tokens.now) }
{
    if starts(&SEMICOLON, tokens) {
        let (_end, rest) = token(&SEMICOLON, tokens)?;
        Ok((None, rest))
    } else {
        let (target, rest) = arrow_target(tokens)?;
        Ok((Some(target), rest))
    }
}

/// Fields in braces.
#[tactic(auto, unfolding(crate::specs::Parts::fields_part))]
fn fields<'t, 'a>(
    alloc: Global,
    turns: usize,
    depth: u32,
    tokens: &'t [Piece<'a>],
) -> Read<'t, 'a, Items<Limited<NamedOperand>>>
    ensures { IfOk result (λ read. read_view read ≡ counted (fields_part turns depth tokens.now)) }
{
    fields_at(alloc, turns, depth, tokens)
}

/// Operands in parentheses.
#[tactic(auto, unfolding(crate::specs::Parts::operands_part))]
fn operands<'t, 'a>(
    alloc: Global,
    turns: usize,
    depth: u32,
    tokens: &'t [Piece<'a>],
) -> Read<'t, 'a, Items<Limited<Operand>>>
    ensures { IfOk result (λ read. read_view read ≡ counted (operands_part turns depth tokens.now)) }
{
    operands_at(alloc, turns, depth, tokens)
}

/// A path that begins a value or is called.
#[tactic(auto, unfolding(crate::specs::Parts::value_path_part))]
fn value_path<'t, 'a>(
    alloc: Global,
    turns: usize,
    depth: u32,
    tokens: &'t [Piece<'a>],
) -> Read<'t, 'a, Named>
    ensures { IfOk result (λ read. read_view read ≡ counted (value_path_part turns depth tokens.now)) }
{
    value_path_at(alloc, turns, depth, tokens)
}

#[tactic(auto, unfolding(grammar_words::specs::Reading::made, grammar_words::specs::Reading::chained))]
fn field_tail<'t, 'a>(
    alloc: Global,
    turns: usize,
    depth: u32,
    tokens: &'t [Piece<'a>],
) -> Read<'t, 'a, PathTail>
    ensures { IfOk result (λ read. read_view read ≡ counted (made FieldTail (ended class_of (fields_part turns depth) (10 ∷ [])) tokens.now)) }
{
    let (fields, rest) = read!(fields(alloc, turns, depth, tokens)?);
    let (_end, rest) = read!(token(&SEMICOLON, rest));
    Ok(Ok((PathTail::FieldTail(fields), rest)))
}

#[tactic(auto, unfolding(grammar_words::specs::Reading::made, grammar_words::specs::Reading::chained))]
fn operand_tail<'t, 'a>(
    alloc: Global,
    turns: usize,
    depth: u32,
    tokens: &'t [Piece<'a>],
) -> Read<'t, 'a, PathTail>
    ensures { IfOk result (λ read. read_view read ≡ counted (to_operand_tail turns depth tokens.now)) }
{
    let (operands, rest) = read!(operands(alloc, turns, depth, tokens)?);
    let (end, rest) = read!(call_end(rest));
    Ok(Ok((PathTail::OperandTail(operands, end), rest)))
}

/// What stands behind the path of a value.
#[tactic(auto, unfolding(grammar_words::specs::Reading::made, grammar_words::specs::Reading::choose, crate::specs::Parts::path_rest_part))]
fn path_rest<'t, 'a>(
    alloc: Global,
    turns: usize,
    depth: u32,
    tokens: &'t [Piece<'a>],
) -> Read<'t, 'a, PathTail>
    ensures { IfOk result (λ read. read_view read ≡ counted (path_rest_part turns depth tokens.now)) }
{
    if starts(&SEMICOLON, tokens) {
        let (_end, rest) = read!(token(&SEMICOLON, tokens));
        Ok(Ok((PathTail::UnitTail, rest)))
    } else if starts(&OPEN_BRACE, tokens) {
        field_tail(alloc, turns, depth, tokens)
    } else {
        operand_tail(alloc, turns, depth, tokens)
    }
}

/// The text of a path as a name.
fn name_of(alloc: Global, path: Named) -> Result<Limited<Name>, NoMemory>
    ensures { IfOk result (λ name. (name.value ≡ path.text) × (name.passed ≡ long_name path.is_long)) }
{
    let passed = Passed::of_name(path.is_long);
    let value = Name::from_bytes(alloc, path.text.as_slice())?;
    Ok(Limited { value, passed })
}

#[tactic(auto, unfolding(mir_grammar::specs::Values::to_path_unit))]
fn to_path_unit(alloc: Global, path: Named) -> Result<Limited<Rvalue>, NoMemory>
    ensures { IfOk result (λ value. value ≡ to_path_unit path) }
{
    let Limited { value, passed } = name_of(alloc, path)?;
    Ok(Limited {
        value: Rvalue::PathUnit(value),
        passed,
    })
}

#[tactic(auto, unfolding(mir_grammar::specs::Values::to_path_tuple))]
fn to_path_tuple(
    alloc: Global,
    path: Named,
    operands: Items<Limited<Operand>>,
) -> Result<Limited<Rvalue>, NoMemory>
    ensures { IfOk result (λ value. value ≡ to_path_tuple (path, operands)) }
{
    let Limited {
        value: path,
        passed,
    } = name_of(alloc, path)?;
    let passed = passed.both(all_passed(operands.as_slice()));
    let operands = values_of(alloc, operands)?;
    Ok(Limited {
        value: Rvalue::PathTuple { path, operands },
        passed,
    })
}

#[tactic(auto, unfolding(mir_grammar::specs::Values::to_path_fields))]
fn to_path_fields(
    alloc: Global,
    path: Named,
    fields: Items<Limited<NamedOperand>>,
) -> Result<Limited<Rvalue>, NoMemory>
    ensures { IfOk result (λ value. value ≡ to_path_fields (path, fields)) }
{
    let Limited {
        value: path,
        passed,
    } = name_of(alloc, path)?;
    let passed = passed.both(all_passed(fields.as_slice()));
    let fields = values_of(alloc, fields)?;
    Ok(Limited {
        value: Rvalue::PathFields { path, fields },
        passed,
    })
}

/// What a path and its tail are: a value, or a call.
fn to_path_line(
    alloc: Global,
    path: Named,
    tail: PathTail,
) -> Result<Next<Limited<Rvalue>, Called>, NoMemory>
    ensures { IfOk result (λ next. next_of next ≡ to_path_line (path, tail)) }
{
    match tail {
        PathTail::UnitTail => {
            let value = to_path_unit(alloc, path)?;
            Ok(Next::More(value))
        }
        PathTail::FieldTail(fields) => {
            let value = to_path_fields(alloc, path, fields)?;
            Ok(Next::More(value))
        }
        PathTail::OperandTail(operands, end) => match end {
            None => {
                let value = to_path_tuple(alloc, path, operands)?;
                Ok(Next::More(value))
            }
            Some(target) => Ok(Next::Last((path, (operands, target)))),
        },
    }
}

/// A value that begins with a path, or a call.
#[tactic(auto, unfolding(grammar_words::specs::Reading::made, grammar_words::specs::Reading::chained))]
pub fn path_line<'t, 'a>(
    alloc: Global,
    turns: usize,
    depth: u32,
    tokens: &'t [Piece<'a>],
) -> Read<'t, 'a, Next<Limited<Rvalue>, Called>>
    ensures { IfOk result (λ read. next_view read ≡ counted (path_line_part turns depth tokens.now)) }
{
    let (path, rest) = read!(value_path(alloc, turns, depth, tokens)?);
    let (tail, rest) = read!(path_rest(alloc, turns, depth, rest)?);
    let line = to_path_line(alloc, path, tail)?;
    Ok(Ok((line, rest)))
}
