ghost use Rattle.std.specs.Prelude.{◌≡◌, ◌≤◌, ◌+◌, length, IfOk, MatchOption};
ghost use Rattle.grammar_words.specs.Coded.{counted};
ghost use Rattle.mir_grammar.specs.Places.{place_at};
ghost use Rattle.mir_grammar.specs.Types.{AnyType, any_word, free_path_at, type_at};
ghost use Rattle.mir_text.specs.Answers.{HasTokens};
ghost use Rattle.mir_text.specs.Coded.{HasNoTokens, ended, value_of};
ghost use Rattle.mir_text.specs.Parts.{IsFound, IsPartAnswer, IsPath, IsPlace, IsType, near_place, short_path, short_type};

use crate::fault::PartFault;
use crate::refusals::is_memory;
use crate::written::DEPTH;
use grammar_words::expect_end;
use mir_grammar::{Named, Placed};
use mir_ir::{PlaceExpr, Ty};
use mir_lex::{MAX_TEXT, tokens};
use mir_pieces::{ANY_WORD, Piece, Want, pieces};
use std::alloc::Global;
use type_reader::{free_path_at, type_at};
use value_reader::place;
use vk_core::{Name, NoMemory};

/// The tokens of a text, if it has any.
fn tokens_of<'a>(alloc: Global, text: &'a [u8]) -> Result<Option<Vec<Piece<'a>>>, NoMemory>
    requires { length text.now ≤ MAX_TEXT }
    ensures { IfOk result (λ found. MatchOption found (HasNoTokens text.now) (λ tokens. HasTokens text.now tokens.items)) }
{
    match tokens(alloc, text) {
        Ok(found) => {
            let pieces = pieces(alloc, text, found.as_slice())?;
            Ok(Some(pieces))
        }
        Err(fault) => {
            if is_memory(fault) {
                Err(NoMemory)
            } else {
                Ok(None)
            }
        }
    }
}

fn type_in(alloc: Global, tokens: &[Piece<'_>]) -> Result<Option<Named>, NoMemory>
    ensures { IfOk result (λ found. found ≡ value_of (ended (counted (type_at (length tokens.now + 1) 64 AnyType tokens.now)))) }
{
    match type_at(alloc, tokens.len() + 1, DEPTH + 1, Want::AnyType, tokens)? {
        Ok((named, rest)) => match expect_end(rest) {
            Ok(()) => Ok(Some(named)),
            Err(_stop) => Ok(None),
        },
        Err(_stop) => Ok(None),
    }
}

fn path_in(alloc: Global, tokens: &[Piece<'_>]) -> Result<Option<Named>, NoMemory>
    ensures { IfOk result (λ found. found ≡ value_of (ended (counted (free_path_at (length tokens.now + 1) any_word (type_at (length tokens.now + 1) 64) tokens.now)))) }
{
    match free_path_at(alloc, tokens.len() + 1, DEPTH + 1, &ANY_WORD, tokens)? {
        Ok((named, rest)) => match expect_end(rest) {
            Ok(()) => Ok(Some(named)),
            Err(_stop) => Ok(None),
        },
        Err(_stop) => Ok(None),
    }
}

fn place_in(alloc: Global, tokens: &[Piece<'_>]) -> Result<Option<Placed>, NoMemory>
    ensures { IfOk result (λ found. found ≡ value_of (ended (counted (place_at (length tokens.now + 1) (type_at (length tokens.now + 1) 64 AnyType) 64 tokens.now)))) }
{
    match place(alloc, tokens.len() + 1, DEPTH + 1, tokens)? {
        Ok((placed, rest)) => match expect_end(rest) {
            Ok(()) => Ok(Some(placed)),
            Err(_stop) => Ok(None),
        },
        Err(_stop) => Ok(None),
    }
}

fn short_type(named: Named) -> Option<Ty>
    ensures { result ≡ short_type (Some named) }
{
    let Named { ty, is_long, .. } = named;
    if is_long { None } else { Some(ty) }
}

fn short_path(alloc: Global, named: Named) -> Result<Option<Name>, NoMemory>
    ensures { IfOk result (λ found. found ≡ short_path (Some named)) }
{
    let Named { text, is_long, .. } = named;
    if is_long {
        return Ok(None);
    }
    let name = Name::from_bytes(alloc, text.as_slice())?;
    Ok(Some(name))
}

fn near_place(placed: Placed) -> Option<PlaceExpr>
    ensures { result ≡ near_place (Some placed) }
{
    let Placed { place, passed } = placed;
    if passed.locals || passed.blocks || passed.names {
        None
    } else {
        Some(place)
    }
}

fn find_type(alloc: Global, text: &[u8]) -> Result<Option<Ty>, NoMemory>
    requires { length text.now ≤ MAX_TEXT }
    ensures { IfOk result (λ found. IsFound (IsType text.now) found) }
{
    let Some(tokens) = tokens_of(alloc, text)? else {
        return Ok(None);
    };
    match type_in(alloc, tokens.as_slice())? {
        None => Ok(None),
        Some(named) => Ok(short_type(named)),
    }
}

fn find_path(alloc: Global, text: &[u8]) -> Result<Option<Name>, NoMemory>
    requires { length text.now ≤ MAX_TEXT }
    ensures { IfOk result (λ found. IsFound (IsPath text.now) found) }
{
    let Some(tokens) = tokens_of(alloc, text)? else {
        return Ok(None);
    };
    match path_in(alloc, tokens.as_slice())? {
        None => Ok(None),
        Some(named) => {
            let found = short_path(alloc, named)?;
            Ok(found)
        }
    }
}

fn find_place(alloc: Global, text: &[u8]) -> Result<Option<PlaceExpr>, NoMemory>
    requires { length text.now ≤ MAX_TEXT }
    ensures { IfOk result (λ found. IsFound (IsPlace text.now) found) }
{
    let Some(tokens) = tokens_of(alloc, text)? else {
        return Ok(None);
    };
    match place_in(alloc, tokens.as_slice())? {
        None => Ok(None),
        Some(placed) => Ok(near_place(placed)),
    }
}

/// The type that a text is, within the limits.
pub fn read_type(alloc: Global, text: &[u8]) -> Result<Ty, PartFault>
    requires { length text.now ≤ MAX_TEXT }
    ensures { IsPartAnswer (IsType text.now) result }
{
    match find_type(alloc, text) {
        Ok(Some(ty)) => Ok(ty),
        Ok(None) => Err(PartFault::NotOne),
        Err(_memory) => Err(PartFault::Memory),
    }
}

/// The canonical text of the path that a text is, within the limits.
pub fn read_path(alloc: Global, text: &[u8]) -> Result<Name, PartFault>
    requires { length text.now ≤ MAX_TEXT }
    ensures { IsPartAnswer (IsPath text.now) result }
{
    match find_path(alloc, text) {
        Ok(Some(name)) => Ok(name),
        Ok(None) => Err(PartFault::NotOne),
        Err(_memory) => Err(PartFault::Memory),
    }
}

/// The place that a text is, within the limits.
pub fn read_place(alloc: Global, text: &[u8]) -> Result<PlaceExpr, PartFault>
    requires { length text.now ≤ MAX_TEXT }
    ensures { IsPartAnswer (IsPlace text.now) result }
{
    match find_place(alloc, text) {
        Ok(Some(place)) => Ok(place),
        Ok(None) => Err(PartFault::NotOne),
        Err(_memory) => Err(PartFault::Memory),
    }
}
