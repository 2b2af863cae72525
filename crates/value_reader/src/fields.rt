ghost use Rattle.std.specs.Prelude.{◌≡◌, ◌∷◌, [], IfOk};
ghost use Rattle.grammar_words.specs.Reading.{made, joined, many, cons};
ghost use Rattle.grammar_words.specs.Classes.{past, inside, listed};
ghost use Rattle.grammar_words.specs.Coded.{counted, behind};
ghost use Rattle.mir_grammar.specs.Lexemes.{class_of};
ghost use Rattle.mir_grammar.specs.Types.{any_word};
ghost use Rattle.mir_grammar.specs.Values.{field_at, fields_at};
ghost use Rattle.mir_pieces.specs.Views.{read_view};
ghost use Rattle.value_reader.specs.Levels.{places, types};

use crate::operands::operand_at;
use grammar_words::{Why, stop_before};
use mir_grammar::Limited;
use mir_ir::NamedOperand;
use mir_pieces::{ANY_WORD, COMMA, Piece, Read, starts, token};
use sqlite_items::Items;
use std::alloc::Global;
use value_pieces::{CLOSE_BRACE, COLON, OPEN_BRACE, same, to_named_operand};

/// A name, `:` and an operand.
#[tactic(auto, unfolding(grammar_words::specs::Reading::made, grammar_words::specs::Reading::chained))]
fn field<'t, 'a>(
    alloc: Global,
    turns: usize,
    depth: u32,
    tokens: &'t [Piece<'a>],
) -> Read<'t, 'a, Limited<NamedOperand>>
    ensures { IfOk result (λ read. read_view read ≡ counted (field_at turns (types turns depth) (places turns depth) tokens.now)) }
{
    match token(&ANY_WORD, tokens) {
        Ok((word, rest)) => match token(&COLON, rest) {
            Ok((_colon, rest)) => match operand_at(alloc, turns, depth, rest)? {
                Ok((operand, rest)) => {
                    let field = to_named_operand(alloc, word, operand)?;
                    Ok(Ok((field, rest)))
                }
                Err(stop) => Ok(Err(stop)),
            },
            Err(stop) => Ok(Err(stop)),
        },
        Err(stop) => Ok(Err(stop)),
    }
}

#[tactic(auto, unfolding(grammar_words::specs::Reading::made, grammar_words::specs::Reading::chained))]
fn field_behind_comma<'t, 'a>(
    alloc: Global,
    turns: usize,
    depth: u32,
    tokens: &'t [Piece<'a>],
) -> Read<'t, 'a, Limited<NamedOperand>>
    ensures { IfOk result (λ read. read_view read ≡ counted (past class_of (9 ∷ []) (field_at turns (types turns depth) (places turns depth)) tokens.now)) }
{
    match token(&COMMA, tokens) {
        Ok((_comma, rest)) => {
            let read = field(alloc, turns, depth, rest)?;
            Ok(read)
        }
        Err(stop) => Ok(Err(stop)),
    }
}

/// Fields, each behind a comma, and the first before them.
fn fields_behind<'t, 'a>(
    alloc: Global,
    turns: usize,
    depth: u32,
    first: Limited<NamedOperand>,
    tokens: &'t [Piece<'a>],
) -> Read<'t, 'a, Items<Limited<NamedOperand>>>
    ensures { IfOk result (λ read. read_view read ≡ counted (behind (first ∷ []) (many (inside class_of (9 ∷ [])) (past class_of (9 ∷ []) (field_at turns (types turns depth) (places turns depth))) turns tokens.now))) }
{
    let mut fields = Vec::new(alloc);
    fields.push(first)?;
    let mut left = tokens;
    let mut done = 0;
    while starts(&COMMA, left) {
        if done == turns {
            return Ok(Err(stop_before(Why::Spent, left)));
        }
        match field_behind_comma(alloc, turns, depth, left)? {
            Ok((field, rest)) => {
                fields.push(field)?;
                left = same(rest);
            }
            Err(stop) => return Ok(Err(stop)),
        }
        done += 1;
    }
    Ok(Ok((Items::from_vec(fields), left)))
}

/// Fields with commas between them, at least one.
fn some_fields<'t, 'a>(
    alloc: Global,
    turns: usize,
    depth: u32,
    tokens: &'t [Piece<'a>],
) -> Read<'t, 'a, Items<Limited<NamedOperand>>>
    ensures { IfOk result (λ read. read_view read ≡ counted (made cons (joined (field_at turns (types turns depth) (places turns depth)) (many (inside class_of (9 ∷ [])) (past class_of (9 ∷ []) (field_at turns (types turns depth) (places turns depth))) turns)) tokens.now)) }
{
    match field(alloc, turns, depth, tokens)? {
        Ok((first, rest)) => {
            let read = fields_behind(alloc, turns, depth, first, rest)?;
            Ok(read)
        }
        Err(stop) => Ok(Err(stop)),
    }
}

#[tactic(auto, unfolding(grammar_words::specs::Reading::choose))]
fn field_list<'t, 'a>(
    alloc: Global,
    turns: usize,
    depth: u32,
    tokens: &'t [Piece<'a>],
) -> Read<'t, 'a, Items<Limited<NamedOperand>>>
    ensures { IfOk result (λ read. read_view read ≡ counted (listed class_of any_word (9 ∷ []) (field_at turns (types turns depth) (places turns depth)) turns tokens.now)) }
{
    if starts(&ANY_WORD, tokens) {
        let read = some_fields(alloc, turns, depth, tokens)?;
        Ok(read)
    } else {
        Ok(Ok((Items::new(alloc), tokens)))
    }
}

/// Fields in braces, each with its name.
#[tactic(auto, unfolding(grammar_words::specs::Reading::made, grammar_words::specs::Reading::chained))]
pub fn fields_at<'t, 'a>(
    alloc: Global,
    turns: usize,
    depth: u32,
    tokens: &'t [Piece<'a>],
) -> Read<'t, 'a, Items<Limited<NamedOperand>>>
    ensures { IfOk result (λ read. read_view read ≡ counted (fields_at turns (types turns depth) (places turns depth) tokens.now)) }
{
    match token(&OPEN_BRACE, tokens) {
        Ok((_open, rest)) => match field_list(alloc, turns, depth, rest)? {
            Ok((fields, rest)) => match token(&CLOSE_BRACE, rest) {
                Ok((_close, rest)) => Ok(Ok((fields, rest))),
                Err(stop) => Ok(Err(stop)),
            },
            Err(stop) => Ok(Err(stop)),
        },
        Err(stop) => Ok(Err(stop)),
    }
}
