ghost use Rattle.std.specs.Prelude.{◌≡◌, ◌≤◌, ◌∷◌, [], IfOk};
ghost use Rattle.grammar_words.specs.Reading.{many};
ghost use Rattle.grammar_words.specs.Classes.{inside};
ghost use Rattle.grammar_words.specs.Coded.{counted};
ghost use Rattle.mir_grammar.specs.Lexemes.{class_of};
ghost use Rattle.mir_grammar.specs.Functions.{function_at, text_at};
ghost use Rattle.mir_pieces.specs.Views.{read_view};
ghost use Rattle.value_reader.specs.Levels.{places, types};
ghost use Rattle.block_reader.specs.Scopes.{scopes};

use crate::functions::function;
use crate::sets::FN;
use grammar_words::{Why, stop_before};
use mir_grammar::RawFunction;
use mir_pieces::{Piece, Read, starts};
use sqlite_items::Items;
use std::alloc::Global;
use value_pieces::same;
use vk_core::NoMemory;

/// Functions in a row, whose types, places and scopes are nested at most `depth` deep.
fn functions<'t, 'a>(
    alloc: Global,
    turns: usize,
    depth: u32,
    tokens: &'t [Piece<'a>],
) -> Read<'t, 'a, Items<RawFunction>>
    ensures { IfOk result (λ read. read_view read ≡ counted (many (inside class_of (175 ∷ [])) (function_at turns (types turns depth) (places turns depth) (scopes turns depth depth)) turns tokens.now)) }
{
    let mut found = Vec::new(alloc);
    let mut left = tokens;
    let mut done = 0;
    while starts(&FN, left) {
        if done == turns {
            return Ok(Err(stop_before(Why::Spent, left)));
        }
        let (function, rest) = read!(function(alloc, turns, depth, left)?);
        found.push(function)?;
        left = same(rest);
        done += 1;
    }
    Ok(Ok((Items::from_vec(found), left)))
}

/// The functions of a text, whose types, places and scopes are nested at most `depth + 1` deep and each list of which has
/// at most `turns` parts.
#[tactic(auto, unfolding(mir_grammar::specs::Functions::text_at))]
pub fn text_at<'t, 'a>(
    alloc: Global,
    turns: usize,
    depth: u32,
    tokens: &'t [Piece<'a>],
) -> Read<'t, 'a, Items<RawFunction>>
    requires { depth ≤ 63 }
    ensures { IfOk result (λ read. read_view read ≡ counted (text_at turns depth tokens.now)) }
{
    functions(alloc, turns, depth + 1, tokens)
}
