ghost use Rattle.std.specs.Prelude.{◌≡◌, ◌∷◌, [], IfOk};
ghost use Rattle.grammar_words.specs.Reading.{made};
ghost use Rattle.grammar_words.specs.Coded.{counted};
ghost use Rattle.mir_grammar.specs.Types.{AnyType, perhaps_token};
ghost use Rattle.mir_grammar.specs.Functions.{to_declared, declared_at, let_at, debug_at, item_at};
ghost use Rattle.mir_pieces.specs.Views.{read_view};
ghost use Rattle.value_reader.specs.Levels.{types};
ghost use Rattle.block_reader.specs.Scopes.{no_value, passed_over, parenthesized_name_at, scope_name_part, scopes, items_part, braced_items_part, scope_inside_at};

use crate::sets::{DEBUG, DEBUG_TOKENS, ITEM_WORDS, LET, SCOPE, SCOPE_TOKENS};
use grammar_words::{Why, stop_before};
use line_reader::Seen;
use mir_grammar::{Declared, Named};
use mir_pieces::{
    CLOSE_PAREN, MUT, NUMBER, OPEN_PAREN, Piece, Read, SEMICOLON, Want, starts, token,
};
use sqlite_items::Items;
use std::alloc::Global;
use type_reader::type_at;
use value_pieces::{CLOSE_BRACE, COLON, LOCALS, OPEN_BRACE, local_number, same};
use vk_core::{LocalId, NoMemory};

#[tactic(auto, unfolding(mir_grammar::specs::Functions::to_declared))]
fn to_declared(alloc: Global, local: &Piece<'_>, ty: Named) -> Result<Declared, NoMemory>
    ensures { IfOk result (λ declared. declared ≡ to_declared (local.now, ty)) }
{
    let word = Items::from_slice(alloc, local.text())?;
    Ok(Declared {
        id: LocalId(local_number(local)),
        word,
        start: local.start(),
        ty,
    })
}

/// `local : type`, where these tokens are the locals.
#[tactic(auto, unfolding(grammar_words::specs::Reading::made, grammar_words::specs::Reading::chained))]
pub fn declaration<'t, 'a>(
    alloc: Global,
    turns: usize,
    depth: u32,
    set: &[u32],
    tokens: &'t [Piece<'a>],
) -> Read<'t, 'a, Declared>
    ensures { IfOk result (λ read. read_view read ≡ counted (declared_at set.now (types turns depth AnyType) tokens.now)) }
{
    let (local, rest) = read!(token(set, tokens));
    let (_colon, rest) = read!(token(&COLON, rest));
    let (ty, rest) = read!(type_at(alloc, turns, depth, Want::AnyType, rest)?);
    let declared = to_declared(alloc, local, ty)?;
    Ok(Ok((declared, rest)))
}

/// Whether `mut` stands there.
#[tactic(auto, unfolding(grammar_words::specs::Reading::made, grammar_words::specs::Reading::choose))]
fn mutability<'t, 'a>(tokens: &'t [Piece<'a>]) -> Seen<'t, 'a, bool>
    ensures { read_view result ≡ counted (perhaps_token (117 ∷ []) tokens.now) }
{
    if starts(&MUT, tokens) {
        let (_mut, rest) = token(&MUT, tokens)?;
        Ok((true, rest))
    } else {
        Ok((false, tokens))
    }
}

fn one_item(alloc: Global, declared: Declared) -> Result<Items<Declared>, NoMemory>
    ensures { IfOk result (λ items. items ≡ declared ∷ []) }
{
    let mut items = Items::new(alloc);
    items.push(declared)?;
    Ok(items)
}

/// `let mut? local : type ;`
#[tactic(auto, unfolding(grammar_words::specs::Reading::made, grammar_words::specs::Reading::chained))]
fn let_item<'t, 'a>(
    alloc: Global,
    turns: usize,
    depth: u32,
    tokens: &'t [Piece<'a>],
) -> Read<'t, 'a, Items<Declared>>
    ensures { IfOk result (λ read. read_view read ≡ counted (let_at (types turns depth AnyType) tokens.now)) }
{
    let (_let, rest) = read!(token(&LET, tokens));
    let (_mutable, rest) = read!(mutability(rest));
    let (declared, rest) = read!(declaration(alloc, turns, depth, &LOCALS, rest)?);
    let (_end, rest) = read!(token(&SEMICOLON, rest));
    let items = one_item(alloc, declared)?;
    Ok(Ok((items, rest)))
}

/// Any number of tokens of these classes.
#[tactic(auto, unfolding(crate::specs::Scopes::passed_over))]
fn passed_over<'t, 'a>(set: &[u32], turns: usize, tokens: &'t [Piece<'a>]) -> Seen<'t, 'a, ()>
    ensures { read_view result ≡ counted (passed_over set.now turns tokens.now) }
{
    let mut left = tokens;
    let mut done = 0;
    while starts(set, left) {
        if done == turns {
            return Err(stop_before(Why::Spent, left));
        }
        let (_token, rest) = match token(set, left) {
            Ok(read) => read,
            Err(stop) => return Err(stop),
        };
        left = same(rest);
        done += 1;
    }
    Ok(((), left))
}

/// `debug` and what stands behind it, which no run reads.
#[tactic(auto, unfolding(grammar_words::specs::Reading::made, grammar_words::specs::Reading::chained, crate::specs::Scopes::passed_over))]
fn debug_item<'t, 'a>(
    alloc: Global,
    turns: usize,
    tokens: &'t [Piece<'a>],
) -> Read<'t, 'a, Items<Declared>>
    ensures { IfOk result (λ read. read_view read ≡ counted (debug_at turns tokens.now)) }
{
    let (_debug, rest) = read!(token(&DEBUG, tokens));
    let (_nothing, rest) = read!(passed_over(&DEBUG_TOKENS, turns, rest));
    let (_end, rest) = read!(token(&SEMICOLON, rest));
    Ok(Ok((Items::new(alloc), rest)))
}

#[tactic(auto, unfolding(grammar_words::specs::Reading::made, grammar_words::specs::Reading::chained, crate::specs::Scopes::passed_over))]
fn parenthesized_name<'t, 'a>(turns: usize, tokens: &'t [Piece<'a>]) -> Seen<'t, 'a, ()>
    ensures { read_view result ≡ counted (made no_value (parenthesized_name_at turns) tokens.now) }
{
    let (_open, rest) = token(&OPEN_PAREN, tokens)?;
    let (_nothing, rest) = passed_over(&SCOPE_TOKENS, turns, rest)?;
    let (_close, rest) = token(&CLOSE_PAREN, rest)?;
    Ok(((), rest))
}

/// What stands in parentheses behind the number of a scope, which no run reads.
#[tactic(auto, unfolding(grammar_words::specs::Reading::made, grammar_words::specs::Reading::choose, crate::specs::Scopes::scope_name_part))]
fn scope_name<'t, 'a>(turns: usize, tokens: &'t [Piece<'a>]) -> Seen<'t, 'a, ()>
    ensures { read_view result ≡ counted (made no_value (scope_name_part turns) tokens.now) }
{
    if starts(&OPEN_PAREN, tokens) {
        parenthesized_name(turns, tokens)
    } else {
        Ok(((), tokens))
    }
}

/// A scope, nested at most `nest` deep.
#[cycle(scopes)]
fn scope<'t, 'a>(
    alloc: Global,
    turns: usize,
    depth: u32,
    nest: u32,
    tokens: &'t [Piece<'a>],
) -> Read<'t, 'a, Items<Declared>>
    ensures { IfOk result (λ read. read_view read ≡ counted (scopes turns depth nest tokens.now)) }
{
    if !starts(&SCOPE, tokens) {
        return Ok(Err(stop_before(Why::Wrong, tokens)));
    }
    if nest == 0 {
        return Ok(Err(stop_before(Why::Deep, tokens)));
    }
    let read = scope_inside(alloc, turns, depth, nest - 1, tokens)?;
    Ok(read)
}

/// A scope that has scopes nested at most `nest` deep in it.
#[cycle(scopes)]
#[tactic(auto, unfolding(grammar_words::specs::Reading::made, grammar_words::specs::Reading::chained))]
fn scope_inside<'t, 'a>(
    alloc: Global,
    turns: usize,
    depth: u32,
    nest: u32,
    tokens: &'t [Piece<'a>],
) -> Read<'t, 'a, Items<Declared>>
    ensures { IfOk result (λ read. read_view read ≡ counted (scope_inside_at turns depth nest tokens.now)) }
{
    let (_scope, rest) = read!(token(&SCOPE, tokens));
    let (_number, rest) = read!(token(&NUMBER, rest));
    let (_name, rest) = read!(scope_name(turns, rest));
    let (items, rest) = read!(braced_items(alloc, turns, depth, nest, rest)?);
    Ok(Ok((items, rest)))
}

/// Items in braces.
#[cycle(scopes)]
#[tactic(auto, unfolding(grammar_words::specs::Reading::made, grammar_words::specs::Reading::chained, crate::specs::Scopes::braced_items_part))]
fn braced_items<'t, 'a>(
    alloc: Global,
    turns: usize,
    depth: u32,
    nest: u32,
    tokens: &'t [Piece<'a>],
) -> Read<'t, 'a, Items<Declared>>
    ensures { IfOk result (λ read. read_view read ≡ counted (braced_items_part turns depth nest tokens.now)) }
{
    let (_open, rest) = read!(token(&OPEN_BRACE, tokens));
    let (items, rest) = read!(all_items(alloc, turns, depth, nest, rest)?);
    let (_close, rest) = read!(token(&CLOSE_BRACE, rest));
    Ok(Ok((items, rest)))
}

/// Items in a row, whose scopes are nested at most `nest` deep.
#[cycle(scopes)]
pub fn all_items<'t, 'a>(
    alloc: Global,
    turns: usize,
    depth: u32,
    nest: u32,
    tokens: &'t [Piece<'a>],
) -> Read<'t, 'a, Items<Declared>>
    ensures { IfOk result (λ read. read_view read ≡ counted (items_part turns depth nest tokens.now)) }
{
    let mut found = Items::new(alloc);
    let mut left = tokens;
    let mut done = 0;
    while starts(&ITEM_WORDS, left) {
        if done == turns {
            return Ok(Err(stop_before(Why::Spent, left)));
        }
        let (items, rest) = read!(item(alloc, turns, depth, nest, left)?);
        found.append(items)?;
        left = same(rest);
        done += 1;
    }
    Ok(Ok((found, left)))
}

/// An item, where scopes are nested at most `nest` deep.
#[cycle(scopes)]
#[tactic(auto, unfolding(grammar_words::specs::Reading::choose))]
fn item<'t, 'a>(
    alloc: Global,
    turns: usize,
    depth: u32,
    nest: u32,
    tokens: &'t [Piece<'a>],
) -> Read<'t, 'a, Items<Declared>>
    ensures { IfOk result (λ read. read_view read ≡ counted (item_at turns (types turns depth AnyType) (scopes turns depth nest) tokens.now)) }
{
    if starts(&LET, tokens) {
        let read = let_item(alloc, turns, depth, tokens)?;
        Ok(read)
    } else if starts(&DEBUG, tokens) {
        let read = debug_item(alloc, turns, tokens)?;
        Ok(read)
    } else {
        let read = scope(alloc, turns, depth, nest, tokens)?;
        Ok(read)
    }
}
