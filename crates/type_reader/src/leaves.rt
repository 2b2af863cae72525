ghost use Rattle.std.specs.Prelude.{◌≡◌, ◌∷◌, [], IfOk, drop};
ghost use Rattle.grammar_words.specs.Reading.{made};
ghost use Rattle.grammar_words.specs.Classes.{tok};
ghost use Rattle.grammar_words.specs.Coded.{counted};
ghost use Rattle.mir_grammar.specs.Lexemes.{class_of};
ghost use Rattle.mir_grammar.specs.Names.{word_head, impl_head, named_head, to_qualified};
ghost use Rattle.mir_pieces.specs.Views.{read_view};
ghost use Rattle.type_reader.specs.Parts.{item_end, with_items};
ghost use Rattle.type_reader.specs.Views.{items_view};

use grammar_words::Stop;
use mir_grammar::{Head, Named};
use mir_pieces::{COMMA, IMPL_SEGMENT, Piece, Read, starts, to_qualified, token};
use sqlite_items::Items;
use std::alloc::Global;
use vk_core::NoMemory;

/// The tokens behind the first one.
pub fn behind_first<'t, 'a>(tokens: &'t [Piece<'a>]) -> &'t [Piece<'a>]
    ensures { result.now ≡ drop 1 tokens.now }
{
    match tokens {
        [] => tokens,
        [_first, rest @ ..] => rest,
    }
}

/// These tokens, for a loop to go on with.
pub fn same<'t, 'a>(tokens: &'t [Piece<'a>]) -> &'t [Piece<'a>]
    ensures { result.now ≡ tokens.now }
{
    tokens
}

/// The end of a tuple behind these items.
#[tactic(auto, unfolding(grammar_words::specs::Reading::made, grammar_words::specs::Reading::choose, crate::specs::Parts::item_end))]
pub fn end_of_items<'t, 'a>(
    items: Vec<Named>,
    tokens: &'t [Piece<'a>],
) -> Result<((Vec<Named>, bool), &'t [Piece<'a>]), Stop>
    ensures { items_view result ≡ counted (with_items items.items (item_end items.items tokens.now)) }
{
    if !items.is_empty() {
        return Ok(((items, true), tokens));
    }
    if starts(&COMMA, tokens) {
        let (_comma, rest) = token(&COMMA, tokens)?;
        return Ok(((items, true), rest));
    }
    Ok(((items, false), tokens))
}

#[tactic(auto, unfolding(grammar_words::specs::Reading::made))]
pub fn word_head<'t, 'a>(
    alloc: Global,
    words: &[u32],
    tokens: &'t [Piece<'a>],
) -> Read<'t, 'a, Head>
    ensures { IfOk result (λ read. read_view read ≡ counted (made word_head (tok class_of words.now) tokens.now)) }
{
    let (word, rest) = match token(words, tokens) {
        Ok(read) => read,
        Err(stop) => return Ok(Err(stop)),
    };
    let text = Items::from_slice(alloc, word.text())?;
    Ok(Ok((Head::HeadWord(text, word.start()), rest)))
}

#[tactic(auto, unfolding(grammar_words::specs::Reading::made))]
pub fn impl_head<'t, 'a>(alloc: Global, tokens: &'t [Piece<'a>]) -> Read<'t, 'a, Head>
    ensures { IfOk result (λ read. read_view read ≡ counted (made impl_head (tok class_of (43 ∷ [])) tokens.now)) }
{
    let (segment, rest) = match token(&IMPL_SEGMENT, tokens) {
        Ok(read) => read,
        Err(stop) => return Ok(Err(stop)),
    };
    let text = Items::from_slice(alloc, segment.text())?;
    Ok(Ok((Head::HeadText(text, false, segment.start()), rest)))
}

/// `<T as P>` as a head.
pub fn to_head(named: Named) -> Head
    ensures { result ≡ named_head named }
{
    let Named {
        text,
        is_long,
        start,
        ..
    } = named;
    Head::HeadText(text, is_long, start)
}

/// `<T as P>`, which takes its parts apart.
pub fn qualify(
    alloc: Global,
    bracket: &Piece<'_>,
    ty: Named,
    path: Named,
) -> Result<Named, NoMemory>
    ensures { IfOk result (λ named. named ≡ to_qualified (bracket.now, (ty, path))) }
{
    let named = to_qualified(alloc, bracket, &ty, &path)?;
    Ok(named)
}
