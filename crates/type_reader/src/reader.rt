ghost use Rattle.std.specs.Prelude.{◌≡◌, ◌∷◌, [], IfOk};
ghost use Rattle.grammar_words.specs.Coded.{counted, behind};
ghost use Rattle.mir_grammar.specs.Types.{type_at, free_path_at, path_from_at};
ghost use Rattle.mir_pieces.specs.Views.{read_view};
ghost use Rattle.mir_pieces.specs.Wants.{want_of};
ghost use Rattle.type_reader.specs.Wrappers.{wrapped_at};
ghost use Rattle.type_reader.specs.Views.{items_view};
ghost use Rattle.type_reader.specs.Parts.{argument, more_arguments, argument_list, arguments, arguments_step, named_step, path_step, path_steps, keyed_steps, free_head, free_path, keyed_path, path_from, qualifier, qualified, tuple_items, tuple, dyn_type, formed, any_type, body};

use crate::leaves::{behind_first, end_of_items, impl_head, qualify, same, to_head, word_head};
use crate::wrapper::{close, close_dyn, wrapper_front};
use grammar_words::{Why, stop_before};
use mir_grammar::{Argument, Head, Named, Step};
use mir_pieces::{
    ANY_WORD, ARGUMENT_FIRSTS, AS, CLOSE_PAREN, COLONS, COMMA, DYN, GREATER, IMPL_SEGMENT, LESS,
    OPEN_PAREN, PATH_WORDS, PATH_WORDS_BUT_MUT, PLAIN, Piece, Read, STEP_FIRSTS, TYPE_FIRSTS,
    TYPE_WORDS, WRITTEN, Want, firsts, impl_step, is_formed, plain, starts, to_keyed_path,
    to_mut_path, to_path, to_tuple, token, word_step, written_argument,
};
use sqlite_items::Items;
use std::alloc::Global;
use vk_core::NoMemory;

/// What begins a type that has another one inside.
const WRAPPERS: [u32; 3] = [3, 15, 16];

/// A type, nested at most `depth` deep, each list of which has at most `turns` parts.
#[cycle(types)]
pub fn type_at<'t, 'a>(
    alloc: Global,
    turns: usize,
    depth: u32,
    want: Want,
    tokens: &'t [Piece<'a>],
) -> Read<'t, 'a, Named>
    ensures { IfOk result (λ read. read_view read ≡ counted (type_at turns depth (want_of want) tokens.now)) }
{
    if !starts(firsts(want), tokens) {
        return Ok(Err(stop_before(Why::Wrong, tokens)));
    }
    if depth == 0 {
        return Ok(Err(stop_before(Why::Deep, tokens)));
    }
    let read = body(alloc, turns, depth - 1, want, tokens)?;
    Ok(read)
}

/// What is wanted, over types of this depth.
#[cycle(types)]
#[tactic(auto, unfolding(grammar_words::specs::Reading::made, crate::specs::Parts::body))]
fn body<'t, 'a>(
    alloc: Global,
    turns: usize,
    depth: u32,
    want: Want,
    tokens: &'t [Piece<'a>],
) -> Read<'t, 'a, Named>
    ensures { IfOk result (λ read. read_view read ≡ counted (body turns (type_at turns depth) (want_of want) tokens.now)) }
{
    match want {
        Want::AnyType => {
            let read = any_type(alloc, turns, depth, &PATH_WORDS, tokens)?;
            Ok(read)
        }
        Want::NotMut => {
            let read = any_type(alloc, turns, depth, &PATH_WORDS_BUT_MUT, tokens)?;
            Ok(read)
        }
        Want::BehindMut => {
            let (steps, rest) = match keyed_steps(alloc, turns, depth, tokens)? {
                Ok(read) => read,
                Err(stop) => return Ok(Err(stop)),
            };
            let named = to_mut_path(alloc, steps)?;
            Ok(Ok((named, rest)))
        }
        Want::Qualified => {
            let read = qualified(alloc, turns, depth, tokens)?;
            Ok(read)
        }
    }
}

/// A type, or a path that begins with one of these words.
#[cycle(types)]
#[tactic(auto, unfolding(grammar_words::specs::Reading::choose, crate::specs::Parts::any_type))]
fn any_type<'t, 'a>(
    alloc: Global,
    turns: usize,
    depth: u32,
    words: &[u32],
    tokens: &'t [Piece<'a>],
) -> Read<'t, 'a, Named>
    ensures { IfOk result (λ read. read_view read ≡ counted (any_type turns words.now (type_at turns depth) tokens.now)) }
{
    if is_formed(tokens) {
        let read = formed(alloc, turns, depth, tokens)?;
        Ok(read)
    } else {
        let read = path_from(alloc, turns, depth, &TYPE_WORDS, words, tokens)?;
        Ok(read)
    }
}

/// A type that is no path.
#[cycle(types)]
#[tactic(auto, unfolding(grammar_words::specs::Reading::choose, crate::specs::Parts::formed))]
fn formed<'t, 'a>(
    alloc: Global,
    turns: usize,
    depth: u32,
    tokens: &'t [Piece<'a>],
) -> Read<'t, 'a, Named>
    ensures { IfOk result (λ read. read_view read ≡ counted (formed turns (type_at turns depth) tokens.now)) }
{
    if starts(&PLAIN, tokens) {
        let read = plain(alloc, tokens)?;
        Ok(read)
    } else if starts(&OPEN_PAREN, tokens) {
        let read = tuple(alloc, turns, depth, tokens)?;
        Ok(read)
    } else if starts(&WRAPPERS, tokens) {
        let read = wrapped(alloc, turns, depth, tokens)?;
        Ok(read)
    } else {
        let read = dyn_type(alloc, turns, depth, tokens)?;
        Ok(read)
    }
}

/// An array, a slice, a reference or a pointer.
#[cycle(types)]
#[tactic(auto, unfolding(crate::specs::Wrappers::wrapped_at))]
fn wrapped<'t, 'a>(
    alloc: Global,
    turns: usize,
    depth: u32,
    tokens: &'t [Piece<'a>],
) -> Read<'t, 'a, Named>
    ensures { IfOk result (λ read. read_view read ≡ counted (wrapped_at (type_at turns depth) tokens.now)) }
{
    let ((wrapper, want), rest) = match wrapper_front(tokens) {
        Ok(read) => read,
        Err(stop) => return Ok(Err(stop)),
    };
    let (inner, rest) = match type_at(alloc, turns, depth, want, rest)? {
        Ok(read) => read,
        Err(stop) => return Ok(Err(stop)),
    };
    let read = close(alloc, wrapper, inner, rest)?;
    Ok(read)
}

#[cycle(types)]
#[tactic(auto, unfolding(grammar_words::specs::Reading::made, grammar_words::specs::Reading::chained, crate::specs::Parts::dyn_type))]
fn dyn_type<'t, 'a>(
    alloc: Global,
    turns: usize,
    depth: u32,
    tokens: &'t [Piece<'a>],
) -> Read<'t, 'a, Named>
    ensures { IfOk result (λ read. read_view read ≡ counted (dyn_type turns (type_at turns depth) tokens.now)) }
{
    let (_dyn, rest) = match token(&DYN, tokens) {
        Ok(read) => read,
        Err(stop) => return Ok(Err(stop)),
    };
    let (path, rest) = match free_path(alloc, turns, depth, &ANY_WORD, rest)? {
        Ok(read) => read,
        Err(stop) => return Ok(Err(stop)),
    };
    let read = close_dyn(alloc, path, rest)?;
    Ok(read)
}

#[cycle(types)]
#[tactic(auto, unfolding(grammar_words::specs::Reading::made, grammar_words::specs::Reading::chained, crate::specs::Parts::tuple))]
fn tuple<'t, 'a>(
    alloc: Global,
    turns: usize,
    depth: u32,
    tokens: &'t [Piece<'a>],
) -> Read<'t, 'a, Named>
    ensures { IfOk result (λ read. read_view read ≡ counted (tuple turns (type_at turns depth) tokens.now)) }
{
    let (_open, rest) = match token(&OPEN_PAREN, tokens) {
        Ok(read) => read,
        Err(stop) => return Ok(Err(stop)),
    };
    let ((items, comma), rest) = match tuple_items(alloc, turns, depth, rest)? {
        Ok(read) => read,
        Err(stop) => return Ok(Err(stop)),
    };
    let (_close, rest) = match token(&CLOSE_PAREN, rest) {
        Ok(read) => read,
        Err(stop) => return Ok(Err(stop)),
    };
    let named = to_tuple(alloc, items, comma)?;
    Ok(Ok((named, rest)))
}

/// The types of a tuple, and whether a comma stands behind the last one.
#[cycle(types)]
fn tuple_items<'t, 'a>(
    alloc: Global,
    turns: usize,
    depth: u32,
    tokens: &'t [Piece<'a>],
) -> Read<'t, 'a, (Vec<Named>, bool)>
    ensures { IfOk result (λ read. items_view read ≡ counted (tuple_items turns (type_at turns depth) tokens.now)) }
{
    let mut items = Vec::new(alloc);
    let mut rest = tokens;
    let mut done = 0;
    while starts(&TYPE_FIRSTS, rest) {
        let (item, behind) = match type_at(alloc, turns, depth, Want::AnyType, rest)? {
            Ok(read) => read,
            Err(stop) => return Ok(Err(stop)),
        };
        items.push(item)?;
        if !starts(&COMMA, behind) {
            return Ok(Ok(((items, false), behind)));
        }
        if done == turns {
            return Ok(Err(stop_before(Why::Spent, behind)));
        }
        rest = behind_first(behind);
        done += 1;
    }
    let read = end_of_items(items, rest);
    Ok(read)
}

#[cycle(types)]
#[tactic(auto, unfolding(grammar_words::specs::Reading::made, grammar_words::specs::Reading::choose, crate::specs::Parts::argument))]
fn argument<'t, 'a>(
    alloc: Global,
    turns: usize,
    depth: u32,
    tokens: &'t [Piece<'a>],
) -> Read<'t, 'a, Argument>
    ensures { IfOk result (λ read. read_view read ≡ counted (argument (type_at turns depth) tokens.now)) }
{
    if starts(&WRITTEN, tokens) {
        let read = written_argument(alloc, tokens)?;
        Ok(read)
    } else {
        let (named, rest) = match type_at(alloc, turns, depth, Want::AnyType, tokens)? {
            Ok(read) => read,
            Err(stop) => return Ok(Err(stop)),
        };
        Ok(Ok((Argument::TypeArgument(named), rest)))
    }
}

/// `,` and an argument, any number of times.
#[cycle(types)]
fn more_arguments<'t, 'a>(
    alloc: Global,
    turns: usize,
    depth: u32,
    first: Argument,
    tokens: &'t [Piece<'a>],
) -> Read<'t, 'a, Items<Argument>>
    ensures { IfOk result (λ read. read_view read ≡ counted (behind (first ∷ []) (more_arguments turns (type_at turns depth) tokens.now))) }
{
    let mut arguments = Items::new(alloc);
    arguments.push(first)?;
    let mut rest = tokens;
    let mut done = 0;
    while starts(&COMMA, rest) {
        if done == turns {
            return Ok(Err(stop_before(Why::Spent, rest)));
        }
        let (next, behind) = match argument(alloc, turns, depth, behind_first(rest))? {
            Ok(read) => read,
            Err(stop) => return Ok(Err(stop)),
        };
        arguments.push(next)?;
        rest = same(behind);
        done += 1;
    }
    Ok(Ok((arguments, rest)))
}

#[cycle(types)]
#[tactic(auto, unfolding(grammar_words::specs::Reading::made, grammar_words::specs::Reading::choose, grammar_words::specs::Reading::chained, crate::specs::Parts::argument_list))]
fn argument_list<'t, 'a>(
    alloc: Global,
    turns: usize,
    depth: u32,
    tokens: &'t [Piece<'a>],
) -> Read<'t, 'a, Items<Argument>>
    ensures { IfOk result (λ read. read_view read ≡ counted (argument_list turns (type_at turns depth) tokens.now)) }
{
    if !starts(&ARGUMENT_FIRSTS, tokens) {
        return Ok(Ok((Items::new(alloc), tokens)));
    }
    let (first, rest) = match argument(alloc, turns, depth, tokens)? {
        Ok(read) => read,
        Err(stop) => return Ok(Err(stop)),
    };
    let read = more_arguments(alloc, turns, depth, first, rest)?;
    Ok(read)
}

/// Arguments in angle brackets.
#[cycle(types)]
#[tactic(auto, unfolding(grammar_words::specs::Reading::made, grammar_words::specs::Reading::chained, crate::specs::Parts::arguments))]
fn arguments<'t, 'a>(
    alloc: Global,
    turns: usize,
    depth: u32,
    tokens: &'t [Piece<'a>],
) -> Read<'t, 'a, Items<Argument>>
    ensures { IfOk result (λ read. read_view read ≡ counted (arguments turns (type_at turns depth) tokens.now)) }
{
    let (_less, rest) = match token(&LESS, tokens) {
        Ok(read) => read,
        Err(stop) => return Ok(Err(stop)),
    };
    let (arguments, rest) = match argument_list(alloc, turns, depth, rest)? {
        Ok(read) => read,
        Err(stop) => return Ok(Err(stop)),
    };
    let (_greater, rest) = match token(&GREATER, rest) {
        Ok(read) => read,
        Err(stop) => return Ok(Err(stop)),
    };
    Ok(Ok((arguments, rest)))
}

/// Arguments as a step of a path.
#[cycle(types)]
#[tactic(auto, unfolding(grammar_words::specs::Reading::made, crate::specs::Parts::arguments_step))]
fn arguments_step<'t, 'a>(
    alloc: Global,
    turns: usize,
    depth: u32,
    tokens: &'t [Piece<'a>],
) -> Read<'t, 'a, Step>
    ensures { IfOk result (λ read. read_view read ≡ counted (arguments_step turns (type_at turns depth) tokens.now)) }
{
    let (arguments, rest) = match arguments(alloc, turns, depth, tokens)? {
        Ok(read) => read,
        Err(stop) => return Ok(Err(stop)),
    };
    Ok(Ok((Step::StepArguments(arguments), rest)))
}

/// `::` and what stands behind it.
#[cycle(types)]
#[tactic(auto, unfolding(grammar_words::specs::Reading::made, grammar_words::specs::Reading::choose, grammar_words::specs::Reading::chained, crate::specs::Parts::named_step, crate::specs::Parts::segment))]
fn named_step<'t, 'a>(
    alloc: Global,
    turns: usize,
    depth: u32,
    tokens: &'t [Piece<'a>],
) -> Read<'t, 'a, Step>
    ensures { IfOk result (λ read. read_view read ≡ counted (named_step turns (type_at turns depth) tokens.now)) }
{
    let (_colons, rest) = match token(&COLONS, tokens) {
        Ok(read) => read,
        Err(stop) => return Ok(Err(stop)),
    };
    if starts(&ANY_WORD, rest) {
        let read = word_step(alloc, rest)?;
        Ok(read)
    } else if starts(&IMPL_SEGMENT, rest) {
        let read = impl_step(alloc, rest)?;
        Ok(read)
    } else {
        let read = arguments_step(alloc, turns, depth, rest)?;
        Ok(read)
    }
}

#[cycle(types)]
#[tactic(auto, unfolding(grammar_words::specs::Reading::choose, crate::specs::Parts::path_step))]
fn path_step<'t, 'a>(
    alloc: Global,
    turns: usize,
    depth: u32,
    tokens: &'t [Piece<'a>],
) -> Read<'t, 'a, Step>
    ensures { IfOk result (λ read. read_view read ≡ counted (path_step turns (type_at turns depth) tokens.now)) }
{
    if starts(&COLONS, tokens) {
        let read = named_step(alloc, turns, depth, tokens)?;
        Ok(read)
    } else {
        let read = arguments_step(alloc, turns, depth, tokens)?;
        Ok(read)
    }
}

/// Steps of a path, as many as there are, behind those that stand before them.
#[cycle(types)]
fn path_steps<'t, 'a>(
    alloc: Global,
    turns: usize,
    depth: u32,
    before: Items<Step>,
    tokens: &'t [Piece<'a>],
) -> Read<'t, 'a, Items<Step>>
    ensures { IfOk result (λ read. read_view read ≡ counted (behind before (path_steps turns (type_at turns depth) tokens.now))) }
{
    let mut steps = before;
    let mut rest = tokens;
    let mut done = 0;
    while starts(&STEP_FIRSTS, rest) {
        if done == turns {
            return Ok(Err(stop_before(Why::Spent, rest)));
        }
        let (step, behind) = match path_step(alloc, turns, depth, rest)? {
            Ok(read) => read,
            Err(stop) => return Ok(Err(stop)),
        };
        steps.push(step)?;
        rest = same(behind);
        done += 1;
    }
    Ok(Ok((steps, rest)))
}

/// How a path goes on behind a word that begins one only before `::`.
#[cycle(types)]
#[tactic(auto, unfolding(grammar_words::specs::Reading::made, grammar_words::specs::Reading::chained, crate::specs::Parts::keyed_steps))]
fn keyed_steps<'t, 'a>(
    alloc: Global,
    turns: usize,
    depth: u32,
    tokens: &'t [Piece<'a>],
) -> Read<'t, 'a, Items<Step>>
    ensures { IfOk result (λ read. read_view read ≡ counted (keyed_steps turns (type_at turns depth) tokens.now)) }
{
    let (step, rest) = match named_step(alloc, turns, depth, tokens)? {
        Ok(read) => read,
        Err(stop) => return Ok(Err(stop)),
    };
    let mut steps = Items::new(alloc);
    steps.push(step)?;
    let read = path_steps(alloc, turns, depth, steps, rest)?;
    Ok(read)
}

#[cycle(types)]
#[tactic(auto, unfolding(grammar_words::specs::Reading::made, grammar_words::specs::Reading::choose, crate::specs::Parts::free_head))]
fn free_head<'t, 'a>(
    alloc: Global,
    turns: usize,
    depth: u32,
    words: &[u32],
    tokens: &'t [Piece<'a>],
) -> Read<'t, 'a, Head>
    ensures { IfOk result (λ read. read_view read ≡ counted (free_head words.now (type_at turns depth) tokens.now)) }
{
    if starts(words, tokens) {
        let read = word_head(alloc, words, tokens)?;
        Ok(read)
    } else if starts(&IMPL_SEGMENT, tokens) {
        let read = impl_head(alloc, tokens)?;
        Ok(read)
    } else {
        let (named, rest) = match type_at(alloc, turns, depth, Want::Qualified, tokens)? {
            Ok(read) => read,
            Err(stop) => return Ok(Err(stop)),
        };
        Ok(Ok((to_head(named), rest)))
    }
}

#[cycle(types)]
#[tactic(auto, unfolding(grammar_words::specs::Reading::made, grammar_words::specs::Reading::chained, crate::specs::Parts::free_path))]
fn free_path<'t, 'a>(
    alloc: Global,
    turns: usize,
    depth: u32,
    words: &[u32],
    tokens: &'t [Piece<'a>],
) -> Read<'t, 'a, Named>
    ensures { IfOk result (λ read. read_view read ≡ counted (free_path turns words.now (type_at turns depth) tokens.now)) }
{
    let (head, rest) = match free_head(alloc, turns, depth, words, tokens)? {
        Ok(read) => read,
        Err(stop) => return Ok(Err(stop)),
    };
    let (steps, rest) = match path_steps(alloc, turns, depth, Items::new(alloc), rest)? {
        Ok(read) => read,
        Err(stop) => return Ok(Err(stop)),
    };
    let named = to_path(alloc, head, steps)?;
    Ok(Ok((named, rest)))
}

#[cycle(types)]
#[tactic(auto, unfolding(grammar_words::specs::Reading::made, grammar_words::specs::Reading::chained, crate::specs::Parts::keyed_path))]
fn keyed_path<'t, 'a>(
    alloc: Global,
    turns: usize,
    depth: u32,
    keys: &[u32],
    tokens: &'t [Piece<'a>],
) -> Read<'t, 'a, Named>
    ensures { IfOk result (λ read. read_view read ≡ counted (keyed_path turns keys.now (type_at turns depth) tokens.now)) }
{
    let (word, rest) = match token(keys, tokens) {
        Ok(read) => read,
        Err(stop) => return Ok(Err(stop)),
    };
    let (steps, rest) = match keyed_steps(alloc, turns, depth, rest)? {
        Ok(read) => read,
        Err(stop) => return Ok(Err(stop)),
    };
    let named = to_keyed_path(alloc, word, steps)?;
    Ok(Ok((named, rest)))
}

#[cycle(types)]
#[tactic(auto, unfolding(grammar_words::specs::Reading::choose, crate::specs::Parts::path_from))]
fn path_from<'t, 'a>(
    alloc: Global,
    turns: usize,
    depth: u32,
    keys: &[u32],
    words: &[u32],
    tokens: &'t [Piece<'a>],
) -> Read<'t, 'a, Named>
    ensures { IfOk result (λ read. read_view read ≡ counted (path_from turns keys.now words.now (type_at turns depth) tokens.now)) }
{
    if starts(keys, tokens) {
        let read = keyed_path(alloc, turns, depth, keys, tokens)?;
        Ok(read)
    } else {
        let read = free_path(alloc, turns, depth, words, tokens)?;
        Ok(read)
    }
}

/// `<T as P>`
#[cycle(types)]
#[tactic(auto, unfolding(grammar_words::specs::Reading::made, grammar_words::specs::Reading::chained, crate::specs::Parts::qualified))]
fn qualified<'t, 'a>(
    alloc: Global,
    turns: usize,
    depth: u32,
    tokens: &'t [Piece<'a>],
) -> Read<'t, 'a, Named>
    ensures { IfOk result (λ read. read_view read ≡ counted (qualified turns (type_at turns depth) tokens.now)) }
{
    let (less, rest) = match token(&LESS, tokens) {
        Ok(read) => read,
        Err(stop) => return Ok(Err(stop)),
    };
    let (ty, rest) = match type_at(alloc, turns, depth, Want::AnyType, rest)? {
        Ok(read) => read,
        Err(stop) => return Ok(Err(stop)),
    };
    let (path, rest) = match qualifier(alloc, turns, depth, rest)? {
        Ok(read) => read,
        Err(stop) => return Ok(Err(stop)),
    };
    let named = qualify(alloc, less, ty, path)?;
    Ok(Ok((named, rest)))
}

/// `as P>`
#[cycle(types)]
#[tactic(auto, unfolding(grammar_words::specs::Reading::made, grammar_words::specs::Reading::chained, crate::specs::Parts::qualifier))]
fn qualifier<'t, 'a>(
    alloc: Global,
    turns: usize,
    depth: u32,
    tokens: &'t [Piece<'a>],
) -> Read<'t, 'a, Named>
    ensures { IfOk result (λ read. read_view read ≡ counted (qualifier turns (type_at turns depth) tokens.now)) }
{
    let (_as, rest) = match token(&AS, tokens) {
        Ok(read) => read,
        Err(stop) => return Ok(Err(stop)),
    };
    let (path, rest) = match free_path(alloc, turns, depth, &ANY_WORD, rest)? {
        Ok(read) => read,
        Err(stop) => return Ok(Err(stop)),
    };
    let (_greater, rest) = match token(&GREATER, rest) {
        Ok(read) => read,
        Err(stop) => return Ok(Err(stop)),
    };
    Ok(Ok((path, rest)))
}

/// A path that begins with one of these words, an impl segment or `<T as P>`.
pub fn free_path_at<'t, 'a>(
    alloc: Global,
    turns: usize,
    depth: u32,
    words: &[u32],
    tokens: &'t [Piece<'a>],
) -> Read<'t, 'a, Named>
    ensures { IfOk result (λ read. read_view read ≡ counted (free_path_at turns words.now (type_at turns depth) tokens.now)) }
{
    let read = free_path(alloc, turns, depth, words, tokens)?;
    Ok(read)
}

/// A path that begins with one of the keys before `::`, or as above.
pub fn path_from_at<'t, 'a>(
    alloc: Global,
    turns: usize,
    depth: u32,
    keys: &[u32],
    words: &[u32],
    tokens: &'t [Piece<'a>],
) -> Read<'t, 'a, Named>
    ensures { IfOk result (λ read. read_view read ≡ counted (path_from_at turns keys.now words.now (type_at turns depth) tokens.now)) }
{
    let read = path_from(alloc, turns, depth, keys, words, tokens)?;
    Ok(read)
}
