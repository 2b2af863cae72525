ghost use Rattle.std.specs.Prelude.{◌≡◌, ◌∷◌, [], IfOk};
ghost use Rattle.grammar_words.specs.Reading.{made, pick};
ghost use Rattle.grammar_words.specs.Classes.{past, inside};
ghost use Rattle.grammar_words.specs.Coded.{counted};
ghost use Rattle.mir_grammar.specs.Lexemes.{class_of};
ghost use Rattle.mir_grammar.specs.Values.{mutable, immutable, to_ref_of, to_raw_of, reference_at};
ghost use Rattle.mir_pieces.specs.Views.{read_view};
ghost use Rattle.value_reader.specs.Levels.{places};

use crate::places::{place, place_past};
use mir_grammar::{Limited, Placed};
use mir_ir::Rvalue;
use mir_pieces::{AMPERSAND, CONST, MUT, Piece, Read, starts, token};
use std::alloc::Global;
use value_pieces::{RAW, to_raw_of, to_ref_of};

#[tactic(auto, unfolding(grammar_words::specs::Reading::made))]
fn mutable_place<'t, 'a>(
    alloc: Global,
    turns: usize,
    depth: u32,
    tokens: &'t [Piece<'a>],
) -> Read<'t, 'a, (bool, Placed)>
    ensures { IfOk result (λ read. read_view read ≡ counted (made mutable (past class_of (117 ∷ []) (places turns depth)) tokens.now)) }
{
    match place_past(alloc, turns, depth, &MUT, tokens)? {
        Ok((placed, rest)) => Ok(Ok(((true, placed), rest))),
        Err(stop) => Ok(Err(stop)),
    }
}

#[tactic(auto, unfolding(grammar_words::specs::Reading::made))]
fn const_place<'t, 'a>(
    alloc: Global,
    turns: usize,
    depth: u32,
    tokens: &'t [Piece<'a>],
) -> Read<'t, 'a, (bool, Placed)>
    ensures { IfOk result (λ read. read_view read ≡ counted (made immutable (past class_of (116 ∷ []) (places turns depth)) tokens.now)) }
{
    match place_past(alloc, turns, depth, &CONST, tokens)? {
        Ok((placed, rest)) => Ok(Ok(((false, placed), rest))),
        Err(stop) => Ok(Err(stop)),
    }
}

#[tactic(auto, unfolding(grammar_words::specs::Reading::made))]
fn shared_place<'t, 'a>(
    alloc: Global,
    turns: usize,
    depth: u32,
    tokens: &'t [Piece<'a>],
) -> Read<'t, 'a, (bool, Placed)>
    ensures { IfOk result (λ read. read_view read ≡ counted (made immutable (places turns depth) tokens.now)) }
{
    match place(alloc, turns, depth, tokens)? {
        Ok((placed, rest)) => Ok(Ok(((false, placed), rest))),
        Err(stop) => Ok(Err(stop)),
    }
}

/// `mut` or `const` and a place.
#[tactic(auto, unfolding(grammar_words::specs::Reading::choose))]
fn raw_target<'t, 'a>(
    alloc: Global,
    turns: usize,
    depth: u32,
    tokens: &'t [Piece<'a>],
) -> Read<'t, 'a, (bool, Placed)>
    ensures { IfOk result (λ read. read_view read ≡ counted (pick (inside class_of (117 ∷ [])) (made mutable (past class_of (117 ∷ []) (places turns depth))) (made immutable (past class_of (116 ∷ []) (places turns depth))) tokens.now)) }
{
    let read = if starts(&MUT, tokens) {
        mutable_place(alloc, turns, depth, tokens)?
    } else {
        const_place(alloc, turns, depth, tokens)?
    };
    Ok(read)
}

/// A place, or `mut` and a place.
#[tactic(auto, unfolding(grammar_words::specs::Reading::choose))]
fn ref_target<'t, 'a>(
    alloc: Global,
    turns: usize,
    depth: u32,
    tokens: &'t [Piece<'a>],
) -> Read<'t, 'a, (bool, Placed)>
    ensures { IfOk result (λ read. read_view read ≡ counted (pick (inside class_of (117 ∷ [])) (made mutable (past class_of (117 ∷ []) (places turns depth))) (made immutable (places turns depth)) tokens.now)) }
{
    let read = if starts(&MUT, tokens) {
        mutable_place(alloc, turns, depth, tokens)?
    } else {
        shared_place(alloc, turns, depth, tokens)?
    };
    Ok(read)
}

/// `raw`, `mut` or `const`, and a place.
#[tactic(auto, unfolding(grammar_words::specs::Reading::made, grammar_words::specs::Reading::chained))]
fn raw_place<'t, 'a>(
    alloc: Global,
    turns: usize,
    depth: u32,
    tokens: &'t [Piece<'a>],
) -> Read<'t, 'a, (bool, Placed)>
    ensures { IfOk result (λ read. read_view read ≡ counted (past class_of (151 ∷ []) (pick (inside class_of (117 ∷ [])) (made mutable (past class_of (117 ∷ []) (places turns depth))) (made immutable (past class_of (116 ∷ []) (places turns depth)))) tokens.now)) }
{
    match token(&RAW, tokens) {
        Ok((_raw, rest)) => {
            let read = raw_target(alloc, turns, depth, rest)?;
            Ok(read)
        }
        Err(stop) => Ok(Err(stop)),
    }
}

#[tactic(auto, unfolding(grammar_words::specs::Reading::made))]
fn raw_reference<'t, 'a>(
    alloc: Global,
    turns: usize,
    depth: u32,
    tokens: &'t [Piece<'a>],
) -> Read<'t, 'a, Limited<Rvalue>>
    ensures { IfOk result (λ read. read_view read ≡ counted (made to_raw_of (past class_of (151 ∷ []) (pick (inside class_of (117 ∷ [])) (made mutable (past class_of (117 ∷ []) (places turns depth))) (made immutable (past class_of (116 ∷ []) (places turns depth))))) tokens.now)) }
{
    match raw_place(alloc, turns, depth, tokens)? {
        Ok(((mutable, placed), rest)) => Ok(Ok((to_raw_of(mutable, placed), rest))),
        Err(stop) => Ok(Err(stop)),
    }
}

#[tactic(auto, unfolding(grammar_words::specs::Reading::made))]
fn plain_reference<'t, 'a>(
    alloc: Global,
    turns: usize,
    depth: u32,
    tokens: &'t [Piece<'a>],
) -> Read<'t, 'a, Limited<Rvalue>>
    ensures { IfOk result (λ read. read_view read ≡ counted (made to_ref_of (pick (inside class_of (117 ∷ [])) (made mutable (past class_of (117 ∷ []) (places turns depth))) (made immutable (places turns depth))) tokens.now)) }
{
    match ref_target(alloc, turns, depth, tokens)? {
        Ok(((mutable, placed), rest)) => Ok(Ok((to_ref_of(mutable, placed), rest))),
        Err(stop) => Ok(Err(stop)),
    }
}

#[tactic(auto, unfolding(grammar_words::specs::Reading::choose))]
fn behind_ampersand<'t, 'a>(
    alloc: Global,
    turns: usize,
    depth: u32,
    tokens: &'t [Piece<'a>],
) -> Read<'t, 'a, Limited<Rvalue>>
    ensures { IfOk result (λ read. read_view read ≡ counted (pick (inside class_of (151 ∷ [])) (made to_raw_of (past class_of (151 ∷ []) (pick (inside class_of (117 ∷ [])) (made mutable (past class_of (117 ∷ []) (places turns depth))) (made immutable (past class_of (116 ∷ []) (places turns depth)))))) (made to_ref_of (pick (inside class_of (117 ∷ [])) (made mutable (past class_of (117 ∷ []) (places turns depth))) (made immutable (places turns depth)))) tokens.now)) }
{
    let read = if starts(&RAW, tokens) {
        raw_reference(alloc, turns, depth, tokens)?
    } else {
        plain_reference(alloc, turns, depth, tokens)?
    };
    Ok(read)
}

/// A reference or a raw pointer to a place.
#[tactic(auto, unfolding(grammar_words::specs::Reading::made, grammar_words::specs::Reading::chained))]
pub fn reference<'t, 'a>(
    alloc: Global,
    turns: usize,
    depth: u32,
    tokens: &'t [Piece<'a>],
) -> Read<'t, 'a, Limited<Rvalue>>
    ensures { IfOk result (λ read. read_view read ≡ counted (reference_at (places turns depth) tokens.now)) }
{
    match token(&AMPERSAND, tokens) {
        Ok((_ampersand, rest)) => {
            let read = behind_ampersand(alloc, turns, depth, rest)?;
            Ok(read)
        }
        Err(stop) => Ok(Err(stop)),
    }
}
