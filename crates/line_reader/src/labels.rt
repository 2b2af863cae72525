ghost use Rattle.std.specs.Prelude.{◌≡◌, ◌∷◌, []};
ghost use Rattle.grammar_words.specs.Reading.{made};
ghost use Rattle.grammar_words.specs.Classes.{tok, past, ended, perhaps};
ghost use Rattle.grammar_words.specs.Coded.{counted};
ghost use Rattle.mir_grammar.specs.Lexemes.{class_of};
ghost use Rattle.mir_grammar.specs.Types.{any_word};
ghost use Rattle.mir_grammar.specs.Places.{none_passed};
ghost use Rattle.mir_grammar.specs.Blocks.{to_label, with_edge, label_at, no_label, edge_label, edge_at, bracketed_at, bare_target, block_target, edge_target, returns, target_at};
ghost use Rattle.line_reader.specs.Parts.{next_part, edge_action_at, label_and_edge_at};
ghost use Rattle.mir_pieces.specs.Views.{read_view, token_view};

use crate::sets::{EDGE_WORDS, LABEL, RETURN, TERMINATE, UNWIND};
use crate::words::label_number;
use grammar_words::Stop;
use mir_grammar::{Limited, Passed, Target};
use mir_pieces::{
    ANY_WORD, CLOSE_BRACKET, CLOSE_PAREN, COMMA, OPEN_BRACKET, OPEN_PAREN, Piece, starts, token,
};
use value_pieces::COLON;
use vk_core::BlockId;

/// A value and the tokens behind it, or where reading stops, where no memory is taken.
pub type Seen<'t, 'a, T> = Result<(T, &'t [Piece<'a>]), Stop>;

#[tactic(auto, unfolding(mir_grammar::specs::Blocks::to_label))]
fn to_label(label: &Piece<'_>) -> Limited<BlockId>
    ensures { result ≡ to_label label.now }
{
    let number = label_number(label);
    Limited {
        value: BlockId(number),
        passed: Passed::of_block(number),
    }
}

/// A label.
#[tactic(auto, unfolding(grammar_words::specs::Reading::made))]
pub fn label_at<'t, 'a>(tokens: &'t [Piece<'a>]) -> Seen<'t, 'a, Limited<BlockId>>
    ensures { read_view result ≡ counted (label_at tokens.now) }
{
    let (label, rest) = token(&LABEL, tokens)?;
    Ok((to_label(label), rest))
}

/// A word in parentheses.
#[tactic(auto, unfolding(grammar_words::specs::Reading::made, grammar_words::specs::Reading::chained, grammar_words::specs::Reading::choose))]
pub fn word_in_parentheses<'t, 'a>(tokens: &'t [Piece<'a>]) -> Seen<'t, 'a, &'t Piece<'a>>
    ensures { token_view result ≡ counted (past class_of (1 ∷ []) (ended class_of (tok class_of any_word) (2 ∷ [])) tokens.now) }
{
    let (_open, rest) = token(&OPEN_PAREN, tokens)?;
    let (word, rest) = token(&ANY_WORD, rest)?;
    let (_close, rest) = token(&CLOSE_PAREN, rest)?;
    Ok((word, rest))
}

#[tactic(auto, unfolding(grammar_words::specs::Reading::made, mir_grammar::specs::Blocks::no_label))]
fn edge_word<'t, 'a>(tokens: &'t [Piece<'a>]) -> Seen<'t, 'a, Passed>
    ensures { read_view result ≡ counted (made no_label (tok class_of (171 ∷ 164 ∷ [])) tokens.now) }
{
    let (_word, rest) = token(&EDGE_WORDS, tokens)?;
    Ok((Passed::none(), rest))
}

#[tactic(auto, unfolding(grammar_words::specs::Reading::made, grammar_words::specs::Reading::chained, grammar_words::specs::Reading::choose, mir_grammar::specs::Blocks::no_label))]
fn edge_terminate<'t, 'a>(tokens: &'t [Piece<'a>]) -> Seen<'t, 'a, Passed>
    ensures { read_view result ≡ counted (made no_label (past class_of (172 ∷ []) (past class_of (1 ∷ []) (ended class_of (tok class_of any_word) (2 ∷ [])))) tokens.now) }
{
    let (_terminate, rest) = token(&TERMINATE, tokens)?;
    let (_word, rest) = word_in_parentheses(rest)?;
    Ok((Passed::none(), rest))
}

#[tactic(auto, unfolding(grammar_words::specs::Reading::made, mir_grammar::specs::Blocks::edge_label))]
fn edge_label<'t, 'a>(tokens: &'t [Piece<'a>]) -> Seen<'t, 'a, Passed>
    ensures { read_view result ≡ counted (made edge_label (tok class_of (32 ∷ [])) tokens.now) }
{
    let (label, rest) = token(&LABEL, tokens)?;
    Ok((Passed::of_block(label_number(label)), rest))
}

#[tactic(auto, unfolding(grammar_words::specs::Reading::made, grammar_words::specs::Reading::chained, grammar_words::specs::Reading::choose, mir_grammar::specs::Blocks::edge_label))]
fn edge_behind_colon<'t, 'a>(tokens: &'t [Piece<'a>]) -> Seen<'t, 'a, Passed>
    ensures { read_view result ≡ counted (made edge_label (past class_of (11 ∷ []) (tok class_of (32 ∷ []))) tokens.now) }
{
    let (_colon, rest) = token(&COLON, tokens)?;
    let (label, rest) = token(&LABEL, rest)?;
    Ok((Passed::of_block(label_number(label)), rest))
}

/// What `unwind` does.
#[tactic(auto, unfolding(grammar_words::specs::Reading::choose))]
fn edge_action<'t, 'a>(tokens: &'t [Piece<'a>]) -> Seen<'t, 'a, Passed>
    ensures { read_view result ≡ counted (edge_action_at tokens.now) }
{
    if starts(&EDGE_WORDS, tokens) {
        edge_word(tokens)
    } else if starts(&TERMINATE, tokens) {
        edge_terminate(tokens)
    } else if starts(&COLON, tokens) {
        edge_behind_colon(tokens)
    } else {
        edge_label(tokens)
    }
}

/// `unwind` and what it does, which no run reads.
#[tactic(auto, unfolding(grammar_words::specs::Reading::made, grammar_words::specs::Reading::chained, grammar_words::specs::Reading::choose))]
fn edge_at<'t, 'a>(tokens: &'t [Piece<'a>]) -> Seen<'t, 'a, Passed>
    ensures { read_view result ≡ counted (edge_at tokens.now) }
{
    let (_unwind, rest) = token(&UNWIND, tokens)?;
    let (passed, rest) = edge_action(rest)?;
    Ok((passed, rest))
}

/// A comma and an edge, or nothing.
#[tactic(auto, unfolding(grammar_words::specs::Reading::made, grammar_words::specs::Reading::chained, grammar_words::specs::Reading::choose))]
fn perhaps_edge<'t, 'a>(tokens: &'t [Piece<'a>]) -> Seen<'t, 'a, Passed>
    ensures { read_view result ≡ counted (perhaps class_of (9 ∷ []) none_passed (past class_of (9 ∷ []) edge_at) tokens.now) }
{
    if starts(&COMMA, tokens) {
        let (_comma, rest) = token(&COMMA, tokens)?;
        let (passed, rest) = edge_at(rest)?;
        Ok((passed, rest))
    } else {
        Ok((Passed::none(), tokens))
    }
}

/// What stands behind the colon in brackets: a label, perhaps an edge, and `]`.
#[tactic(auto, unfolding(grammar_words::specs::Reading::made, grammar_words::specs::Reading::chained, grammar_words::specs::Reading::choose, mir_grammar::specs::Blocks::with_edge))]
fn label_and_edge<'t, 'a>(tokens: &'t [Piece<'a>]) -> Seen<'t, 'a, Limited<BlockId>>
    ensures { read_view result ≡ counted (made with_edge label_and_edge_at tokens.now) }
{
    let (label, rest) = label_at(tokens)?;
    let (edge, rest) = perhaps_edge(rest)?;
    let (_close, rest) = token(&CLOSE_BRACKET, rest)?;
    let label = Limited {
        value: label.value,
        passed: label.passed.both(edge),
    };
    Ok((label, rest))
}

/// A label in brackets behind a word, and perhaps an edge.
#[tactic(auto, unfolding(grammar_words::specs::Reading::made, grammar_words::specs::Reading::chained, grammar_words::specs::Reading::choose, mir_grammar::specs::Blocks::with_edge))]
fn bracketed_at<'t, 'a>(word: &[u32], tokens: &'t [Piece<'a>]) -> Seen<'t, 'a, Limited<BlockId>>
    ensures { read_view result ≡ counted (bracketed_at word.now tokens.now) }
{
    let (_open, rest) = token(&OPEN_BRACKET, tokens)?;
    let (_word, rest) = token(word, rest)?;
    let (_colon, rest) = token(&COLON, rest)?;
    let (label, rest) = label_and_edge(rest)?;
    Ok((label, rest))
}

/// The next block: a label, or one in brackets behind a word.
#[tactic(auto, unfolding(grammar_words::specs::Reading::choose, crate::specs::Parts::next_part))]
pub fn next_at<'t, 'a>(word: &[u32], tokens: &'t [Piece<'a>]) -> Seen<'t, 'a, Limited<BlockId>>
    ensures { read_view result ≡ counted (next_part word.now tokens.now) }
{
    if starts(&LABEL, tokens) {
        label_at(tokens)
    } else {
        bracketed_at(word, tokens)
    }
}

#[tactic(auto, unfolding(grammar_words::specs::Reading::made, mir_grammar::specs::Blocks::bare_target))]
fn bare_target<'t, 'a>(tokens: &'t [Piece<'a>]) -> Seen<'t, 'a, Limited<Target>>
    ensures { read_view result ≡ counted (made bare_target label_at tokens.now) }
{
    let (label, rest) = label_at(tokens)?;
    Ok((
        Limited {
            value: Target::ToLabel(label.value),
            passed: label.passed,
        },
        rest,
    ))
}

#[tactic(auto, unfolding(grammar_words::specs::Reading::made, mir_grammar::specs::Blocks::block_target))]
fn block_target<'t, 'a>(tokens: &'t [Piece<'a>]) -> Seen<'t, 'a, Limited<Target>>
    ensures { read_view result ≡ counted (made block_target (bracketed_at returns) tokens.now) }
{
    let (label, rest) = bracketed_at(&RETURN, tokens)?;
    Ok((
        Limited {
            value: Target::ToBlock(label.value),
            passed: label.passed,
        },
        rest,
    ))
}

#[tactic(auto, unfolding(grammar_words::specs::Reading::made, mir_grammar::specs::Blocks::edge_target))]
fn edge_target<'t, 'a>(tokens: &'t [Piece<'a>]) -> Seen<'t, 'a, Limited<Target>>
    ensures { read_view result ≡ counted (made edge_target edge_at tokens.now) }
{
    let (passed, rest) = edge_at(tokens)?;
    Ok((
        Limited {
            value: Target::ToNone,
            passed,
        },
        rest,
    ))
}

/// Where a call goes on.
#[tactic(auto, unfolding(grammar_words::specs::Reading::choose))]
pub fn target_at<'t, 'a>(tokens: &'t [Piece<'a>]) -> Seen<'t, 'a, Limited<Target>>
    ensures { read_view result ≡ counted (target_at tokens.now) }
{
    if starts(&LABEL, tokens) {
        bare_target(tokens)
    } else if starts(&OPEN_BRACKET, tokens) {
        block_target(tokens)
    } else {
        edge_target(tokens)
    }
}
