ghost use Rattle.std.specs.Prelude.{◌≡◌, ◌∷◌, [], IfOk};
ghost use Rattle.grammar_words.specs.Reading.{made};
ghost use Rattle.grammar_words.specs.Classes.{past};
ghost use Rattle.grammar_words.specs.Coded.{counted};
ghost use Rattle.mir_grammar.specs.Lexemes.{class_of};
ghost use Rattle.mir_grammar.specs.Types.{AnyType};
ghost use Rattle.mir_grammar.specs.Functions.{declared_at, function_at};
ghost use Rattle.mir_pieces.specs.Views.{read_view};
ghost use Rattle.value_reader.specs.Levels.{places, types};
ghost use Rattle.block_reader.specs.Scopes.{scopes};
ghost use Rattle.block_reader.specs.Signatures.{behind_first, more_parameters_at, perhaps_parameters_part, parameters_part, name_part, blocks_part, inside_part, result_part, signed, function_part};

use crate::blocks::block;
use crate::items::{all_items, declaration};
use crate::sets::{ARROW, FN, PARAMETERS};
use grammar_words::{Why, stop_before};
use line_reader::LABEL;
use mir_grammar::{Declared, Named, RawBlock, RawFunction};
use mir_pieces::{ANY_WORD, CLOSE_PAREN, COMMA, OPEN_PAREN, Piece, Read, Want, starts, token};
use sqlite_items::Items;
use std::alloc::Global;
use type_reader::{free_path_at, type_at};
use value_pieces::{CLOSE_BRACE, OPEN_BRACE, same};
use vk_core::NoMemory;

/// A comma and a parameter.
#[tactic(auto, unfolding(grammar_words::specs::Reading::made, grammar_words::specs::Reading::chained))]
fn comma_parameter<'t, 'a>(
    alloc: Global,
    turns: usize,
    depth: u32,
    tokens: &'t [Piece<'a>],
) -> Read<'t, 'a, Declared>
    ensures { IfOk result (λ read. read_view read ≡ counted (past class_of (9 ∷ []) (declared_at (31 ∷ []) (types turns depth AnyType)) tokens.now)) }
{
    let (_comma, rest) = read!(token(&COMMA, tokens));
    let (declared, rest) = read!(declaration(alloc, turns, depth, &PARAMETERS, rest)?);
    Ok(Ok((declared, rest)))
}

/// The first parameter and those behind it.
fn more_parameters<'t, 'a>(
    alloc: Global,
    turns: usize,
    depth: u32,
    first: Declared,
    tokens: &'t [Piece<'a>],
) -> Read<'t, 'a, Items<Declared>>
    ensures { IfOk result (λ read. read_view read ≡ counted (made (behind_first first) (more_parameters_at turns depth) tokens.now)) }
{
    let mut found = Items::new(alloc);
    found.push(first)?;
    let mut left = tokens;
    let mut done = 0;
    while starts(&COMMA, left) {
        if done == turns {
            return Ok(Err(stop_before(Why::Spent, left)));
        }
        let (declared, rest) = read!(comma_parameter(alloc, turns, depth, left)?);
        found.push(declared)?;
        left = same(rest);
        done += 1;
    }
    Ok(Ok((found, left)))
}

/// Parameters with commas between them.
#[tactic(auto, unfolding(grammar_words::specs::Reading::made, grammar_words::specs::Reading::chained, grammar_words::specs::Reading::choose, crate::specs::Signatures::perhaps_parameters_part))]
fn perhaps_parameters<'t, 'a>(
    alloc: Global,
    turns: usize,
    depth: u32,
    tokens: &'t [Piece<'a>],
) -> Read<'t, 'a, Items<Declared>>
    ensures { IfOk result (λ read. read_view read ≡ counted (perhaps_parameters_part turns depth tokens.now)) }
{
    if starts(&PARAMETERS, tokens) {
        let (first, rest) = read!(declaration(alloc, turns, depth, &PARAMETERS, tokens)?);
        let read = more_parameters(alloc, turns, depth, first, rest)?;
        Ok(read)
    } else {
        Ok(Ok((Items::new(alloc), tokens)))
    }
}

/// Parameters in parentheses.
#[tactic(auto, unfolding(grammar_words::specs::Reading::made, grammar_words::specs::Reading::chained, crate::specs::Signatures::parameters_part))]
fn parameters<'t, 'a>(
    alloc: Global,
    turns: usize,
    depth: u32,
    tokens: &'t [Piece<'a>],
) -> Read<'t, 'a, Items<Declared>>
    ensures { IfOk result (λ read. read_view read ≡ counted (parameters_part turns depth tokens.now)) }
{
    let (_open, rest) = read!(token(&OPEN_PAREN, tokens));
    let (parameters, rest) = read!(perhaps_parameters(alloc, turns, depth, rest)?);
    let (_close, rest) = read!(token(&CLOSE_PAREN, rest));
    Ok(Ok((parameters, rest)))
}

/// A function's name.
#[tactic(auto, unfolding(crate::specs::Signatures::name_part))]
fn name<'t, 'a>(
    alloc: Global,
    turns: usize,
    depth: u32,
    tokens: &'t [Piece<'a>],
) -> Read<'t, 'a, Named>
    ensures { IfOk result (λ read. read_view read ≡ counted (name_part turns depth tokens.now)) }
{
    free_path_at(alloc, turns, depth, &ANY_WORD, tokens)
}

/// Blocks in a row.
#[tactic(auto, unfolding(crate::specs::Signatures::blocks_part))]
fn blocks<'t, 'a>(
    alloc: Global,
    turns: usize,
    depth: u32,
    tokens: &'t [Piece<'a>],
) -> Read<'t, 'a, Items<RawBlock>>
    ensures { IfOk result (λ read. read_view read ≡ counted (blocks_part turns depth tokens.now)) }
{
    let mut found = Vec::new(alloc);
    let mut left = tokens;
    let mut done = 0;
    while starts(&LABEL, left) {
        if done == turns {
            return Ok(Err(stop_before(Why::Spent, left)));
        }
        let (block, rest) = read!(block(alloc, turns, depth, left)?);
        found.push(block)?;
        left = same(rest);
        done += 1;
    }
    Ok(Ok((Items::from_vec(found), left)))
}

/// What stands in the braces of a function.
#[tactic(auto, unfolding(grammar_words::specs::Reading::made, grammar_words::specs::Reading::chained, crate::specs::Signatures::inside_part))]
fn inside<'t, 'a>(
    alloc: Global,
    turns: usize,
    depth: u32,
    tokens: &'t [Piece<'a>],
) -> Read<'t, 'a, (Items<Declared>, Items<RawBlock>)>
    ensures { IfOk result (λ read. read_view read ≡ counted (inside_part turns depth tokens.now)) }
{
    let (_open, rest) = read!(token(&OPEN_BRACE, tokens));
    let (items, rest) = read!(all_items(alloc, turns, depth, depth, rest)?);
    let (blocks, rest) = read!(blocks(alloc, turns, depth, rest)?);
    let (_close, rest) = read!(token(&CLOSE_BRACE, rest));
    Ok(Ok(((items, blocks), rest)))
}

/// What stands behind the parameters of a function that has this name and them.
#[tactic(auto, unfolding(grammar_words::specs::Reading::made, grammar_words::specs::Reading::chained, crate::specs::Signatures::result_part, mir_grammar::specs::Functions::to_function))]
fn behind_parameters<'t, 'a>(
    alloc: Global,
    turns: usize,
    depth: u32,
    name: Named,
    parameters: Items<Declared>,
    tokens: &'t [Piece<'a>],
) -> Read<'t, 'a, RawFunction>
    ensures { IfOk result (λ read. read_view read ≡ counted (made (signed name parameters) (result_part turns depth) tokens.now)) }
{
    let (_arrow, rest) = read!(token(&ARROW, tokens));
    let (ty, rest) = read!(type_at(alloc, turns, depth, Want::AnyType, rest)?);
    let ((items, blocks), rest) = read!(inside(alloc, turns, depth, rest)?);
    let function = RawFunction {
        name,
        parameters,
        result: ty,
        items,
        blocks,
    };
    Ok(Ok((function, rest)))
}

#[tactic(auto, unfolding(grammar_words::specs::Reading::made, grammar_words::specs::Reading::chained))]
fn signature<'t, 'a>(
    alloc: Global,
    turns: usize,
    depth: u32,
    tokens: &'t [Piece<'a>],
) -> Read<'t, 'a, RawFunction>
    ensures { IfOk result (λ read. read_view read ≡ counted (function_part turns depth tokens.now)) }
{
    let (_fn, rest) = read!(token(&FN, tokens));
    let (name, rest) = read!(name(alloc, turns, depth, rest)?);
    let (parameters, rest) = read!(parameters(alloc, turns, depth, rest)?);
    let (function, rest) = read!(behind_parameters(alloc, turns, depth, name, parameters, rest)?);
    Ok(Ok((function, rest)))
}

/// A function.
#[tactic(auto, unfolding(mir_grammar::specs::Functions::function_at, crate::specs::Signatures::result_part, crate::specs::Signatures::inside_part, crate::specs::Signatures::blocks_part, crate::specs::Signatures::name_part, crate::specs::Signatures::parameters_part, crate::specs::Signatures::perhaps_parameters_part, crate::specs::Scopes::items_part))]
pub fn function<'t, 'a>(
    alloc: Global,
    turns: usize,
    depth: u32,
    tokens: &'t [Piece<'a>],
) -> Read<'t, 'a, RawFunction>
    ensures { IfOk result (λ read. read_view read ≡ counted (function_at turns (types turns depth) (places turns depth) (scopes turns depth depth) tokens.now)) }
{
    signature(alloc, turns, depth, tokens)
}
