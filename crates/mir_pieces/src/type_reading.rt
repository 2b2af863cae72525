ghost use Rattle.std.specs.Prelude.{◌≡◌, ◌∷◌, [], ◌&&◌, IfOk};
ghost use Rattle.grammar_words.specs.Grammar.{starts};
ghost use Rattle.grammar_words.specs.Reading.{made};
ghost use Rattle.grammar_words.specs.Classes.{tok, bare, inside};
ghost use Rattle.grammar_words.specs.Coded.{counted};
ghost use Rattle.mir_grammar.specs.Lexemes.{class_of};
ghost use Rattle.mir_grammar.specs.Names.{word_step, impl_step, written_argument};
ghost use Rattle.mir_grammar.specs.Types.{any_word, plain_at, formed_firsts, type_words, colons};
ghost use Rattle.mir_pieces.specs.Views.{read_view};

use crate::piece::Piece;
use crate::reading::token;
use crate::sets::{
    ANY_WORD, COLONS, FORMED_FIRSTS, IMPL_SEGMENT, PLAIN, TYPE_WORDS, WRITTEN, inside, starts,
};
use crate::types::to_plain;
use grammar_words::Stop;
use mir_grammar::{Argument, Named, Step};
use sqlite_items::Items;
use std::alloc::Global;
use vk_core::NoMemory;

/// A value and the tokens behind it, or where reading stops.
pub type Read<'t, 'a, T> = Result<Result<(T, &'t [Piece<'a>]), Stop>, NoMemory>;

#[tactic(auto, unfolding(grammar_words::specs::Reading::made))]
pub fn word_step<'t, 'a>(alloc: Global, tokens: &'t [Piece<'a>]) -> Read<'t, 'a, Step>
    ensures { IfOk result (λ read. read_view read ≡ counted (made word_step (tok class_of any_word) tokens.now)) }
{
    match token(&ANY_WORD, tokens) {
        Ok((word, rest)) => {
            let text = Items::from_slice(alloc, word.text())?;
            Ok(Ok((Step::StepWord(text), rest)))
        }
        Err(stop) => Ok(Err(stop)),
    }
}

#[tactic(auto, unfolding(grammar_words::specs::Reading::made))]
pub fn impl_step<'t, 'a>(alloc: Global, tokens: &'t [Piece<'a>]) -> Read<'t, 'a, Step>
    ensures { IfOk result (λ read. read_view read ≡ counted (made impl_step (tok class_of (43 ∷ [])) tokens.now)) }
{
    match token(&IMPL_SEGMENT, tokens) {
        Ok((segment, rest)) => {
            let text = Items::from_slice(alloc, segment.text())?;
            Ok(Ok((Step::StepImpl(text), rest)))
        }
        Err(stop) => Ok(Err(stop)),
    }
}

#[tactic(auto, unfolding(grammar_words::specs::Reading::made))]
pub fn written_argument<'t, 'a>(alloc: Global, tokens: &'t [Piece<'a>]) -> Read<'t, 'a, Argument>
    ensures { IfOk result (λ read. read_view read ≡ counted (made written_argument (tok class_of (35 ∷ 42 ∷ [])) tokens.now)) }
{
    match token(&WRITTEN, tokens) {
        Ok((written, rest)) => {
            let text = Items::from_slice(alloc, written.text())?;
            Ok(Ok((Argument::OtherArgument(text), rest)))
        }
        Err(stop) => Ok(Err(stop)),
    }
}

#[tactic(auto, unfolding(grammar_words::specs::Reading::made))]
pub fn plain<'t, 'a>(alloc: Global, tokens: &'t [Piece<'a>]) -> Read<'t, 'a, Named>
    ensures { IfOk result (λ read. read_view read ≡ counted (plain_at tokens.now)) }
{
    match token(&PLAIN, tokens) {
        Ok((word, rest)) => {
            let named = to_plain(alloc, word)?;
            Ok(Ok((named, rest)))
        }
        Err(stop) => Ok(Err(stop)),
    }
}

/// The token is a word of the types before `::`.
fn is_keyed(token: &Piece<'_>, rest: &[Piece<'_>]) -> bool
    ensures { result ≡ inside class_of type_words token.now && starts (inside class_of colons) rest.now }
{
    inside(&TYPE_WORDS, token) && starts(&COLONS, rest)
}

/// A token comes that begins a type that is no path.
pub fn is_formed(tokens: &[Piece<'_>]) -> bool
    ensures { result ≡ bare class_of formed_firsts type_words colons tokens.now }
{
    match tokens {
        [] => false,
        [token, rest @ ..] => {
            if inside(&FORMED_FIRSTS, token) {
                !is_keyed(token, rest)
            } else {
                false
            }
        }
    }
}
