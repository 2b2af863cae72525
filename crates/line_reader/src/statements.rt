ghost use Rattle.std.specs.Prelude.{◌≡◌, ◌∷◌, [], IfOk};
ghost use Rattle.grammar_words.specs.Reading.{made};
ghost use Rattle.grammar_words.specs.Classes.{tok, past, ended};
ghost use Rattle.grammar_words.specs.Coded.{counted};
ghost use Rattle.mir_grammar.specs.Lexemes.{class_of};
ghost use Rattle.mir_grammar.specs.Blocks.{to_live, to_dead, to_nothing, to_mention, to_variant, local_line_at, mention_at, variant_at, word_statement_at};
ghost use Rattle.mir_pieces.specs.Views.{read_view, token_view};
ghost use Rattle.value_reader.specs.Levels.{places};
ghost use Rattle.line_reader.specs.Parts.{parenthesized_at, variant_number_at};

use crate::labels::Seen;
use crate::sets::{DISCRIMINANT, EQUALS, NOTHING_WORDS, PLACE_MENTION, STORAGE_DEAD, STORAGE_LIVE};
use mir_grammar::{Limited, Passed, Placed};
use mir_ir::Statement;
use mir_pieces::{CLOSE_PAREN, NUMBER, OPEN_PAREN, Piece, Read, SEMICOLON, starts, token};
use std::alloc::Global;
use value_pieces::{LOCALS, local_number};
use value_reader::place;
use vk_core::{LocalId, NoMemory};

/// A statement that is kept or only read, and the limits that it passes.
pub type Kept = Limited<Option<Statement>>;

/// A local in parentheses, and `;`.
#[tactic(auto, unfolding(grammar_words::specs::Reading::made, grammar_words::specs::Reading::chained, grammar_words::specs::Reading::choose))]
fn local_line<'t, 'a>(tokens: &'t [Piece<'a>]) -> Seen<'t, 'a, &'t Piece<'a>>
    ensures { token_view result ≡ counted (local_line_at tokens.now) }
{
    let (_open, rest) = token(&OPEN_PAREN, tokens)?;
    let (local, rest) = token(&LOCALS, rest)?;
    let (_close, rest) = token(&CLOSE_PAREN, rest)?;
    let (_end, rest) = token(&SEMICOLON, rest)?;
    Ok((local, rest))
}

#[tactic(auto, unfolding(grammar_words::specs::Reading::made, grammar_words::specs::Reading::chained, grammar_words::specs::Reading::choose, mir_grammar::specs::Blocks::to_live))]
fn live<'t, 'a>(tokens: &'t [Piece<'a>]) -> Seen<'t, 'a, Kept>
    ensures { read_view result ≡ counted (made to_live (past class_of (157 ∷ []) local_line_at) tokens.now) }
{
    let (_word, rest) = token(&STORAGE_LIVE, tokens)?;
    let (local, rest) = local_line(rest)?;
    let number = local_number(local);
    Ok((
        Limited {
            value: Some(Statement::StorageLive(LocalId(number))),
            passed: Passed::of_local(number),
        },
        rest,
    ))
}

#[tactic(auto, unfolding(grammar_words::specs::Reading::made, grammar_words::specs::Reading::chained, grammar_words::specs::Reading::choose, mir_grammar::specs::Blocks::to_dead))]
fn dead<'t, 'a>(tokens: &'t [Piece<'a>]) -> Seen<'t, 'a, Kept>
    ensures { read_view result ≡ counted (made to_dead (past class_of (158 ∷ []) local_line_at) tokens.now) }
{
    let (_word, rest) = token(&STORAGE_DEAD, tokens)?;
    let (local, rest) = local_line(rest)?;
    let number = local_number(local);
    Ok((
        Limited {
            value: Some(Statement::StorageDead(LocalId(number))),
            passed: Passed::of_local(number),
        },
        rest,
    ))
}

#[tactic(auto, unfolding(grammar_words::specs::Reading::made, grammar_words::specs::Reading::chained, grammar_words::specs::Reading::choose, mir_grammar::specs::Blocks::to_nothing))]
fn nothing<'t, 'a>(tokens: &'t [Piece<'a>]) -> Seen<'t, 'a, Kept>
    ensures { read_view result ≡ counted (made to_nothing (past class_of (159 ∷ 160 ∷ []) (tok class_of (10 ∷ []))) tokens.now) }
{
    let (_word, rest) = token(&NOTHING_WORDS, tokens)?;
    let (_end, rest) = token(&SEMICOLON, rest)?;
    Ok((
        Limited {
            value: None,
            passed: Passed::none(),
        },
        rest,
    ))
}

/// A place in parentheses.
#[tactic(auto, unfolding(grammar_words::specs::Reading::made, grammar_words::specs::Reading::chained, grammar_words::specs::Reading::choose))]
fn parenthesized<'t, 'a>(
    alloc: Global,
    turns: usize,
    depth: u32,
    tokens: &'t [Piece<'a>],
) -> Read<'t, 'a, Placed>
    ensures { IfOk result (λ read. read_view read ≡ counted (parenthesized_at (places turns depth) tokens.now)) }
{
    let (_open, rest) = read!(token(&OPEN_PAREN, tokens));
    let (place, rest) = read!(place(alloc, turns, depth, rest)?);
    let (_close, rest) = read!(token(&CLOSE_PAREN, rest));
    Ok(Ok((place, rest)))
}

#[tactic(auto, unfolding(grammar_words::specs::Reading::made, grammar_words::specs::Reading::chained, grammar_words::specs::Reading::choose, mir_grammar::specs::Blocks::to_mention))]
fn mention<'t, 'a>(
    alloc: Global,
    turns: usize,
    depth: u32,
    tokens: &'t [Piece<'a>],
) -> Read<'t, 'a, Kept>
    ensures { IfOk result (λ read. read_view read ≡ counted (mention_at (places turns depth) tokens.now)) }
{
    let (_word, rest) = read!(token(&PLACE_MENTION, tokens));
    let (placed, rest) = read!(parenthesized(alloc, turns, depth, rest)?);
    let (_end, rest) = read!(token(&SEMICOLON, rest));
    let kept = Limited {
        value: None,
        passed: placed.passed,
    };
    Ok(Ok((kept, rest)))
}

/// What stands behind the place of a variant: `) = number ;`.
#[tactic(auto, unfolding(grammar_words::specs::Reading::made, grammar_words::specs::Reading::chained, grammar_words::specs::Reading::choose))]
fn variant_number<'t, 'a>(tokens: &'t [Piece<'a>]) -> Seen<'t, 'a, &'t Piece<'a>>
    ensures { token_view result ≡ counted (variant_number_at tokens.now) }
{
    let (_close, rest) = token(&CLOSE_PAREN, tokens)?;
    let (_equals, rest) = token(&EQUALS, rest)?;
    let (number, rest) = token(&NUMBER, rest)?;
    let (_end, rest) = token(&SEMICOLON, rest)?;
    Ok((number, rest))
}

#[tactic(auto, unfolding(grammar_words::specs::Reading::made, grammar_words::specs::Reading::chained, grammar_words::specs::Reading::choose, mir_grammar::specs::Blocks::to_variant))]
fn variant<'t, 'a>(
    alloc: Global,
    turns: usize,
    depth: u32,
    tokens: &'t [Piece<'a>],
) -> Read<'t, 'a, Kept>
    ensures { IfOk result (λ read. read_view read ≡ counted (variant_at (places turns depth) tokens.now)) }
{
    let (_word, rest) = read!(token(&DISCRIMINANT, tokens));
    let (_open, rest) = read!(token(&OPEN_PAREN, rest));
    let (placed, rest) = read!(place(alloc, turns, depth, rest)?);
    let (number, rest) = read!(variant_number(rest));
    let Placed { place, passed } = placed;
    let kept = Limited {
        value: Some(Statement::SetVariant {
            place,
            variant: number.number_value(),
        }),
        passed,
    };
    Ok(Ok((kept, rest)))
}

/// A statement that begins with a word.
#[tactic(auto, unfolding(grammar_words::specs::Reading::choose))]
pub fn word_statement<'t, 'a>(
    alloc: Global,
    turns: usize,
    depth: u32,
    tokens: &'t [Piece<'a>],
) -> Read<'t, 'a, Kept>
    ensures { IfOk result (λ read. read_view read ≡ counted (word_statement_at (places turns depth) tokens.now)) }
{
    if starts(&STORAGE_LIVE, tokens) {
        Ok(live(tokens))
    } else if starts(&STORAGE_DEAD, tokens) {
        Ok(dead(tokens))
    } else if starts(&NOTHING_WORDS, tokens) {
        Ok(nothing(tokens))
    } else if starts(&PLACE_MENTION, tokens) {
        mention(alloc, turns, depth, tokens)
    } else {
        variant(alloc, turns, depth, tokens)
    }
}
