ghost use Rattle.std.specs.Prelude.{◌≡◌, ◌∷◌, [], IfOk};
ghost use Rattle.grammar_words.specs.Reading.{made};
ghost use Rattle.grammar_words.specs.Classes.{tok, past, ended};
ghost use Rattle.grammar_words.specs.Coded.{counted};
ghost use Rattle.mir_grammar.specs.Lexemes.{class_of};
ghost use Rattle.mir_grammar.specs.Types.{any_word};
ghost use Rattle.mir_grammar.specs.Places.{none_passed};
ghost use Rattle.mir_grammar.specs.declared.trees.Ending.TheVariants.{Settled};
ghost use Rattle.mir_grammar.specs.Blocks.{to_goto, to_return, to_unreachable, to_resume, label_at, arrow_at, resumed_at};
ghost use Rattle.line_reader.specs.Parts.{next_part, drop_part};
ghost use Rattle.mir_pieces.specs.Views.{read_view};
ghost use Rattle.value_reader.specs.Levels.{places};

use crate::labels::{Seen, label_at, next_at};
use crate::sets::{ARROW, DROP, GOTO, RESUME, RETURN, TERMINATE, UNREACHABLE};
use mir_grammar::{Ending, Limited, Passed, Placed};
use mir_ir::Terminator;
use mir_pieces::{ANY_WORD, CLOSE_PAREN, OPEN_PAREN, Piece, Read, SEMICOLON, starts, token};
use std::alloc::Global;
use value_reader::place;
use vk_core::{BlockId, NoMemory};

/// How a block ends, and the limits that it passes.
pub type EndingAt = Limited<Ending>;

/// `-> label ;`
#[tactic(auto, unfolding(grammar_words::specs::Reading::made, grammar_words::specs::Reading::chained, grammar_words::specs::Reading::choose))]
fn arrow_label<'t, 'a>(tokens: &'t [Piece<'a>]) -> Seen<'t, 'a, Limited<BlockId>>
    ensures { read_view result ≡ counted (arrow_at label_at tokens.now) }
{
    let (_arrow, rest) = token(&ARROW, tokens)?;
    let (label, rest) = label_at(rest)?;
    let (_end, rest) = token(&SEMICOLON, rest)?;
    Ok((label, rest))
}

/// `-> next ;`, where this word may stand in the next block's brackets.
#[tactic(auto, unfolding(grammar_words::specs::Reading::made, grammar_words::specs::Reading::chained, grammar_words::specs::Reading::choose))]
pub fn arrow_next<'t, 'a>(word: &[u32], tokens: &'t [Piece<'a>]) -> Seen<'t, 'a, Limited<BlockId>>
    ensures { read_view result ≡ counted (arrow_at (next_part word.now) tokens.now) }
{
    let (_arrow, rest) = token(&ARROW, tokens)?;
    let (next, rest) = next_at(word, rest)?;
    let (_end, rest) = token(&SEMICOLON, rest)?;
    Ok((next, rest))
}

pub fn settled(terminator: Terminator) -> EndingAt
    ensures { result ≡ record { value = Settled terminator; passed = none_passed } }
{
    Limited {
        value: Ending::Settled(terminator),
        passed: Passed::none(),
    }
}

#[tactic(auto, unfolding(grammar_words::specs::Reading::made, grammar_words::specs::Reading::chained, grammar_words::specs::Reading::choose, mir_grammar::specs::Blocks::to_goto))]
pub fn goto<'t, 'a>(tokens: &'t [Piece<'a>]) -> Seen<'t, 'a, EndingAt>
    ensures { read_view result ≡ counted (made to_goto (past class_of (162 ∷ []) (arrow_at label_at)) tokens.now) }
{
    let (_goto, rest) = token(&GOTO, tokens)?;
    let (label, rest) = arrow_label(rest)?;
    let ending = Limited {
        value: Ending::Settled(Terminator::Goto {
            target: label.value,
        }),
        passed: label.passed,
    };
    Ok((ending, rest))
}

#[tactic(auto, unfolding(grammar_words::specs::Reading::made, grammar_words::specs::Reading::chained, grammar_words::specs::Reading::choose, mir_grammar::specs::Blocks::to_return))]
pub fn returning<'t, 'a>(tokens: &'t [Piece<'a>]) -> Seen<'t, 'a, EndingAt>
    ensures { read_view result ≡ counted (made to_return (past class_of (163 ∷ []) (tok class_of (10 ∷ []))) tokens.now) }
{
    let (_return, rest) = token(&RETURN, tokens)?;
    let (_end, rest) = token(&SEMICOLON, rest)?;
    Ok((settled(Terminator::Return), rest))
}

#[tactic(auto, unfolding(grammar_words::specs::Reading::made, grammar_words::specs::Reading::chained, grammar_words::specs::Reading::choose, mir_grammar::specs::Blocks::to_unreachable))]
pub fn unreached<'t, 'a>(tokens: &'t [Piece<'a>]) -> Seen<'t, 'a, EndingAt>
    ensures { read_view result ≡ counted (made to_unreachable (past class_of (164 ∷ []) (tok class_of (10 ∷ []))) tokens.now) }
{
    let (_unreachable, rest) = token(&UNREACHABLE, tokens)?;
    let (_end, rest) = token(&SEMICOLON, rest)?;
    Ok((settled(Terminator::Unreachable), rest))
}

/// `drop ( place ) -> next ;`
#[tactic(auto, unfolding(grammar_words::specs::Reading::made, grammar_words::specs::Reading::chained, grammar_words::specs::Reading::choose, mir_grammar::specs::Blocks::to_drop))]
pub fn dropping<'t, 'a>(
    alloc: Global,
    turns: usize,
    depth: u32,
    tokens: &'t [Piece<'a>],
) -> Read<'t, 'a, EndingAt>
    ensures { IfOk result (λ read. read_view read ≡ counted (drop_part (places turns depth) tokens.now)) }
{
    let (_drop, rest) = read!(token(&DROP, tokens));
    let (_open, rest) = read!(token(&OPEN_PAREN, rest));
    let (placed, rest) = read!(place(alloc, turns, depth, rest)?);
    let (_close, rest) = read!(token(&CLOSE_PAREN, rest));
    let (next, rest) = read!(arrow_next(&RETURN, rest));
    let Placed { place, passed } = placed;
    let ending = Limited {
        value: Ending::Settled(Terminator::Drop {
            place,
            next: next.value,
        }),
        passed: passed.both(next.passed),
    };
    Ok(Ok((ending, rest)))
}

#[tactic(auto, unfolding(grammar_words::specs::Reading::made, grammar_words::specs::Reading::chained, grammar_words::specs::Reading::choose, mir_grammar::specs::Blocks::to_resume))]
fn resume<'t, 'a>(tokens: &'t [Piece<'a>]) -> Seen<'t, 'a, EndingAt>
    ensures { read_view result ≡ counted (made to_resume (past class_of (173 ∷ []) (tok class_of (10 ∷ []))) tokens.now) }
{
    let (_resume, rest) = token(&RESUME, tokens)?;
    let (_end, rest) = token(&SEMICOLON, rest)?;
    Ok((settled(Terminator::Unreachable), rest))
}

#[tactic(auto, unfolding(grammar_words::specs::Reading::made, grammar_words::specs::Reading::chained, grammar_words::specs::Reading::choose, mir_grammar::specs::Blocks::to_resume))]
fn terminate<'t, 'a>(tokens: &'t [Piece<'a>]) -> Seen<'t, 'a, EndingAt>
    ensures { read_view result ≡ counted (made to_resume (past class_of (172 ∷ []) (past class_of (1 ∷ []) (ended class_of (ended class_of (tok class_of any_word) (2 ∷ [])) (10 ∷ [])))) tokens.now) }
{
    let (_terminate, rest) = token(&TERMINATE, tokens)?;
    let (_open, rest) = token(&OPEN_PAREN, rest)?;
    let (_word, rest) = token(&ANY_WORD, rest)?;
    let (_close, rest) = token(&CLOSE_PAREN, rest)?;
    let (_end, rest) = token(&SEMICOLON, rest)?;
    Ok((settled(Terminator::Unreachable), rest))
}

/// How a cleanup block may end besides.
#[tactic(auto, unfolding(grammar_words::specs::Reading::choose))]
pub fn resumed<'t, 'a>(tokens: &'t [Piece<'a>]) -> Seen<'t, 'a, EndingAt>
    ensures { read_view result ≡ counted (resumed_at tokens.now) }
{
    if starts(&RESUME, tokens) {
        resume(tokens)
    } else {
        terminate(tokens)
    }
}
