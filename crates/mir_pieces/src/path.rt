ghost use Rattle.std.specs.Prelude.{◌≡◌, IfOk};
ghost use Rattle.mir_grammar.specs.Names.{to_path, to_keyed_path, to_mut_path};

use crate::boxes::{box_or_name, types_in};
use crate::names::{has_long_step, head_is_long, head_start, is_over, path_text};
use crate::piece::Piece;
use mir_grammar::{Head, Named, Step};
use sqlite_items::Items;
use std::alloc::Global;
use vk_core::NoMemory;

/// A path, from its head and its steps.
#[tactic(auto, unfolding(mir_grammar::specs::Names::to_path))]
pub fn to_path(alloc: Global, head: Head, steps: Items<Step>) -> Result<Named, NoMemory>
    ensures { IfOk result (λ named. named ≡ to_path (head, steps)) }
{
    let text = path_text(alloc, &head, steps.as_slice())?;
    let is_long = is_over(text.as_slice())
        || head_is_long(&head)
        || has_long_step(steps.as_slice());
    let start = head_start(&head);
    let (boxed, argument) = types_in(&head, steps);
    let ty = box_or_name(alloc, boxed, text.as_slice())?;
    Ok(Named {
        ty,
        text,
        is_long,
        argument,
        start,
    })
}

/// A path whose first word is this token.
#[tactic(auto, unfolding(mir_grammar::specs::Names::to_keyed_path))]
pub fn to_keyed_path(alloc: Global, word: &Piece<'_>, steps: Items<Step>) -> Result<Named, NoMemory>
    ensures { IfOk result (λ named. named ≡ to_keyed_path (word.now, steps)) }
{
    let text = Items::from_slice(alloc, word.text())?;
    let named = to_path(alloc, Head::HeadWord(text, word.start()), steps)?;
    Ok(named)
}

/// A path whose first word is `mut`.
#[tactic(auto, unfolding(mir_grammar::specs::Names::to_mut_path))]
pub fn to_mut_path(alloc: Global, steps: Items<Step>) -> Result<Named, NoMemory>
    ensures { IfOk result (λ named. named ≡ to_mut_path steps) }
{
    let text = Items::from_slice(alloc, b"mut")?;
    let named = to_path(alloc, Head::HeadWord(text, 0), steps)?;
    Ok(named)
}
