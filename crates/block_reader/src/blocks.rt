ghost use Rattle.std.specs.Prelude.{◌≡◌, ◌∷◌, [], IfOk};
ghost use Rattle.grammar_words.specs.Reading.{made};
ghost use Rattle.grammar_words.specs.Classes.{past};
ghost use Rattle.grammar_words.specs.Coded.{counted};
ghost use Rattle.mir_grammar.specs.Lexemes.{class_of};
ghost use Rattle.mir_grammar.specs.Functions.{block_at, braces_at, kept_body, to_block};
ghost use Rattle.mir_pieces.specs.Views.{read_view};
ghost use Rattle.value_reader.specs.Levels.{places, types};
ghost use Rattle.block_reader.specs.Bodies.{lines_part, cleanup_lines_part, colon_cleanup_part, cleanup_body_at, block_body_part, block_part};

use crate::sets::CLEANUP;
use grammar_words::{Why, stop_before};
use line_reader::{EndingAt, Kept, LABEL, Next, cleanup_line, label_number, line};
use mir_grammar::RawBlock;
use mir_pieces::{CLOSE_PAREN, OPEN_PAREN, Piece, Read, starts, token};
use sqlite_items::Items;
use std::alloc::Global;
use value_pieces::{CLOSE_BRACE, COLON, OPEN_BRACE, same};
use vk_core::{BlockId, NoMemory};

/// Statements, and a terminator.
#[tactic(auto, unfolding(crate::specs::Bodies::lines_part))]
fn lines<'t, 'a>(
    alloc: Global,
    turns: usize,
    depth: u32,
    tokens: &'t [Piece<'a>],
) -> Read<'t, 'a, (Items<Kept>, EndingAt)>
    ensures { IfOk result (λ read. read_view read ≡ counted (lines_part turns depth tokens.now)) }
{
    let mut found = Vec::new(alloc);
    let mut left = tokens;
    let mut done = 0;
    while done < turns {
        let (next, rest) = read!(line(alloc, turns, depth, left)?);
        let kept = match next {
            Next::More(kept) => kept,
            Next::Last(ending) => return Ok(Ok(((Items::from_vec(found), ending), rest))),
        };
        found.push(kept)?;
        left = same(rest);
        done += 1;
    }
    Ok(Err(stop_before(Why::Spent, left)))
}

/// The same in a cleanup block.
#[tactic(auto, unfolding(crate::specs::Bodies::cleanup_lines_part))]
fn cleanup_lines<'t, 'a>(
    alloc: Global,
    turns: usize,
    depth: u32,
    tokens: &'t [Piece<'a>],
) -> Read<'t, 'a, (Items<Kept>, EndingAt)>
    ensures { IfOk result (λ read. read_view read ≡ counted (cleanup_lines_part turns depth tokens.now)) }
{
    let mut found = Vec::new(alloc);
    let mut left = tokens;
    let mut done = 0;
    while done < turns {
        let (next, rest) = read!(cleanup_line(alloc, turns, depth, left)?);
        let kept = match next {
            Next::More(kept) => kept,
            Next::Last(ending) => return Ok(Ok(((Items::from_vec(found), ending), rest))),
        };
        found.push(kept)?;
        left = same(rest);
        done += 1;
    }
    Ok(Err(stop_before(Why::Spent, left)))
}

/// `: { lines }`
#[tactic(auto, unfolding(grammar_words::specs::Reading::made, grammar_words::specs::Reading::chained))]
fn colon_lines<'t, 'a>(
    alloc: Global,
    turns: usize,
    depth: u32,
    tokens: &'t [Piece<'a>],
) -> Read<'t, 'a, (Items<Kept>, EndingAt)>
    ensures { IfOk result (λ read. read_view read ≡ counted (past class_of (11 ∷ []) (braces_at (lines_part turns depth)) tokens.now)) }
{
    let (_colon, rest) = read!(token(&COLON, tokens));
    let (_open, rest) = read!(token(&OPEN_BRACE, rest));
    let (body, rest) = read!(lines(alloc, turns, depth, rest)?);
    let (_close, rest) = read!(token(&CLOSE_BRACE, rest));
    Ok(Ok((body, rest)))
}

/// `: { lines }` of a cleanup block
#[tactic(auto, unfolding(grammar_words::specs::Reading::made, grammar_words::specs::Reading::chained, crate::specs::Bodies::colon_cleanup_part))]
fn colon_cleanup_lines<'t, 'a>(
    alloc: Global,
    turns: usize,
    depth: u32,
    tokens: &'t [Piece<'a>],
) -> Read<'t, 'a, (Items<Kept>, EndingAt)>
    ensures { IfOk result (λ read. read_view read ≡ counted (colon_cleanup_part turns depth tokens.now)) }
{
    let (_colon, rest) = read!(token(&COLON, tokens));
    let (_open, rest) = read!(token(&OPEN_BRACE, rest));
    let (body, rest) = read!(cleanup_lines(alloc, turns, depth, rest)?);
    let (_close, rest) = read!(token(&CLOSE_BRACE, rest));
    Ok(Ok((body, rest)))
}

#[tactic(auto, unfolding(grammar_words::specs::Reading::made))]
fn kept_body<'t, 'a>(
    alloc: Global,
    turns: usize,
    depth: u32,
    tokens: &'t [Piece<'a>],
) -> Read<'t, 'a, (bool, (Items<Kept>, EndingAt))>
    ensures { IfOk result (λ read. read_view read ≡ counted (made kept_body (past class_of (11 ∷ []) (braces_at (lines_part turns depth))) tokens.now)) }
{
    let (body, rest) = read!(colon_lines(alloc, turns, depth, tokens)?);
    Ok(Ok(((false, body), rest)))
}

/// `( cleanup ) : { lines }`
#[tactic(auto, unfolding(grammar_words::specs::Reading::made, grammar_words::specs::Reading::chained))]
fn cleanup_body<'t, 'a>(
    alloc: Global,
    turns: usize,
    depth: u32,
    tokens: &'t [Piece<'a>],
) -> Read<'t, 'a, (bool, (Items<Kept>, EndingAt))>
    ensures { IfOk result (λ read. read_view read ≡ counted (cleanup_body_at turns depth tokens.now)) }
{
    let (_open, rest) = read!(token(&OPEN_PAREN, tokens));
    let (_cleanup, rest) = read!(token(&CLEANUP, rest));
    let (_close, rest) = read!(token(&CLOSE_PAREN, rest));
    let (body, rest) = read!(colon_cleanup_lines(alloc, turns, depth, rest)?);
    Ok(Ok(((true, body), rest)))
}

/// What stands behind the label of a block.
#[tactic(auto, unfolding(grammar_words::specs::Reading::choose, crate::specs::Bodies::block_body_part))]
fn block_body<'t, 'a>(
    alloc: Global,
    turns: usize,
    depth: u32,
    tokens: &'t [Piece<'a>],
) -> Read<'t, 'a, (bool, (Items<Kept>, EndingAt))>
    ensures { IfOk result (λ read. read_view read ≡ counted (block_body_part turns depth tokens.now)) }
{
    if starts(&COLON, tokens) {
        kept_body(alloc, turns, depth, tokens)
    } else {
        cleanup_body(alloc, turns, depth, tokens)
    }
}

#[tactic(auto, unfolding(mir_grammar::specs::Functions::to_block))]
fn to_block(
    alloc: Global,
    label: &Piece<'_>,
    body: (bool, (Items<Kept>, EndingAt)),
) -> Result<RawBlock, NoMemory>
    ensures { IfOk result (λ block. block ≡ to_block (label.now, body)) }
{
    let word = Items::from_slice(alloc, label.text())?;
    let (is_cleanup, (statements, ending)) = body;
    Ok(RawBlock {
        id: BlockId(label_number(label)),
        word,
        start: label.start(),
        is_cleanup,
        statements,
        ending,
    })
}

#[tactic(auto, unfolding(grammar_words::specs::Reading::made, grammar_words::specs::Reading::chained))]
fn labelled<'t, 'a>(
    alloc: Global,
    turns: usize,
    depth: u32,
    tokens: &'t [Piece<'a>],
) -> Read<'t, 'a, RawBlock>
    ensures { IfOk result (λ read. read_view read ≡ counted (block_part turns depth tokens.now)) }
{
    let (label, rest) = read!(token(&LABEL, tokens));
    let (body, rest) = read!(block_body(alloc, turns, depth, rest)?);
    let block = to_block(alloc, label, body)?;
    Ok(Ok((block, rest)))
}

/// A block.
#[tactic(auto, unfolding(mir_grammar::specs::Functions::block_at, crate::specs::Bodies::block_body_part, crate::specs::Bodies::colon_cleanup_part, crate::specs::Bodies::cleanup_lines_part, crate::specs::Bodies::lines_part))]
pub fn block<'t, 'a>(
    alloc: Global,
    turns: usize,
    depth: u32,
    tokens: &'t [Piece<'a>],
) -> Read<'t, 'a, RawBlock>
    ensures { IfOk result (λ read. read_view read ≡ counted (block_at turns (types turns depth) (places turns depth) tokens.now)) }
{
    labelled(alloc, turns, depth, tokens)
}
