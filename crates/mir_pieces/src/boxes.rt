ghost use Rattle.std.specs.Prelude.{◌≡◌, ◌∷◌, [], is_some, IfOk, codes};
ghost use Rattle.mir_grammar.specs.Names.{only_type, only_arguments, boxed_behind, boxed_type, box_or_name, words_then, argument_of};
ghost use Rattle.mir_pieces.specs.Boxes.{argument_type, last_argument, step_type, last_type, inner_type, is_word_step};

use mir_grammar::{Argument, Head, Named, Step};
use mir_ir::Ty;
use sqlite_items::{Boxed, Items};
use std::alloc::Global;
use vk_core::{Name, NoMemory};

fn is_type(argument: &Argument) -> bool
    ensures { result ≡ is_some (argument_type argument.now) }
{
    match argument {
        Argument::TypeArgument(_named) => true,
        Argument::OtherArgument(_text) => false,
    }
}

fn is_only_type(arguments: &[Argument]) -> bool
    ensures { result ≡ is_some (only_type arguments.now) }
{
    match arguments {
        [] => false,
        [argument] => is_type(argument),
        [_, _, ..] => false,
    }
}

fn is_one_type(step: &Step) -> bool
    ensures { result ≡ is_some (only_arguments (step.now ∷ [])) }
{
    match step {
        Step::StepWord(_word) => false,
        Step::StepArguments(arguments) => is_only_type(arguments.as_slice()),
        Step::StepImpl(_text) => false,
    }
}

fn is_only_arguments(steps: &[Step]) -> bool
    ensures { result ≡ is_some (only_arguments steps.now) }
{
    match steps {
        [] => false,
        [step] => is_one_type(step),
        [_, _, ..] => false,
    }
}

/// The step is this word.
fn is_word(step: &Step, word: &[u8]) -> bool
    ensures { result ≡ is_word_step word.now step.now }
{
    match step {
        Step::StepWord(text) => word == text.as_slice(),
        Step::StepArguments(_arguments) => false,
        Step::StepImpl(_text) => false,
    }
}

fn is_boxed_behind(steps: &[Step]) -> bool
    ensures { result ≡ is_some (boxed_behind steps.now) }
{
    match steps {
        [] => false,
        [_] => false,
        [first, second, rest @ ..] => {
            is_word(first, b"boxed") && is_word(second, b"Box") && is_only_arguments(rest)
        }
    }
}

/// The path is `Box<T>` or `std::boxed::Box<T>`.
fn is_boxed(head: &Head, steps: &[Step]) -> bool
    ensures { result ≡ is_some (boxed_type head.now steps.now) }
{
    match head {
        Head::HeadWord(word, _start) => {
            if b"Box".as_slice() == word.as_slice() {
                is_only_arguments(steps)
            } else if b"std".as_slice() == word.as_slice() {
                is_boxed_behind(steps)
            } else {
                false
            }
        }
        Head::HeadText(_text, _long, _start) => false,
    }
}

fn argument_type(argument: Argument) -> Option<Ty>
    ensures { result ≡ argument_type argument }
{
    match argument {
        Argument::TypeArgument(named) => {
            let Named { ty, .. } = named;
            Some(ty)
        }
        Argument::OtherArgument(_text) => None,
    }
}

fn last_argument(arguments: Items<Argument>) -> Option<Ty>
    ensures { result ≡ last_argument arguments }
{
    let mut arguments = arguments;
    let argument = arguments.pop()?;
    argument_type(argument)
}

fn step_type(step: Step) -> Option<Ty>
    ensures { result ≡ step_type step }
{
    match step {
        Step::StepWord(_word) => None,
        Step::StepArguments(arguments) => last_argument(arguments),
        Step::StepImpl(_text) => None,
    }
}

fn last_type(steps: Items<Step>) -> Option<Ty>
    ensures { result ≡ last_type steps }
{
    let mut steps = steps;
    let step = steps.pop()?;
    step_type(step)
}

fn inner_type(steps: Items<Step>) -> Option<Ty>
    ensures { result ≡ inner_type steps }
{
    let mut steps = steps;
    let step = steps.pop()?;
    match step {
        Step::StepWord(_word) => last_type(steps),
        Step::StepArguments(arguments) => last_argument(arguments),
        Step::StepImpl(_text) => None,
    }
}

/// One type in angle brackets.
fn is_type_alone(steps: &[Step]) -> bool
    ensures { result ≡ is_some (words_then [] [] steps.now) }
{
    match steps {
        [] => false,
        [step] => is_one_type(step),
        [_, _, ..] => false,
    }
}

/// One type in angle brackets, and `::new`.
fn is_type_and_new(steps: &[Step]) -> bool
    ensures { result ≡ is_some (words_then [] (codes "new" ∷ []) steps.now) }
{
    match steps {
        [] => false,
        [_] => false,
        [first, second] => is_one_type(first) && is_word(second, b"new"),
        [_, _, _, ..] => false,
    }
}

fn is_any(steps: &[Step]) -> bool
    ensures { result ≡ is_some (words_then (codes "any" ∷ []) [] steps.now) }
{
    match steps {
        [] => false,
        [first, rest @ ..] => is_word(first, b"any") && is_type_alone(rest),
    }
}

fn is_boxed_new(steps: &[Step]) -> bool
    ensures { result ≡ is_some (words_then (codes "boxed" ∷ codes "Box" ∷ []) (codes "new" ∷ []) steps.now) }
{
    match steps {
        [] => false,
        [_] => false,
        [first, second, rest @ ..] => {
            is_word(first, b"boxed") && is_word(second, b"Box") && is_type_and_new(rest)
        }
    }
}

fn is_null(steps: &[Step]) -> bool
    ensures { result ≡ is_some (words_then (codes "ptr" ∷ codes "null" ∷ []) [] steps.now) }
{
    match steps {
        [] => false,
        [_] => false,
        [first, second, rest @ ..] => {
            is_word(first, b"ptr") && is_word(second, b"null") && is_type_alone(rest)
        }
    }
}

fn is_null_mut(steps: &[Step]) -> bool
    ensures { result ≡ is_some (words_then (codes "ptr" ∷ codes "null_mut" ∷ []) [] steps.now) }
{
    match steps {
        [] => false,
        [_] => false,
        [first, second, rest @ ..] => {
            is_word(first, b"ptr") && is_word(second, b"null_mut") && is_type_alone(rest)
        }
    }
}

/// The path is a built-in callee with a type argument.
fn has_argument(head: &Head, steps: &[Step]) -> bool
    ensures { result ≡ is_some (argument_of head.now steps.now) }
{
    match head {
        Head::HeadWord(word, _start) => {
            if b"kani".as_slice() == word.as_slice() {
                is_any(steps)
            } else if b"Box".as_slice() == word.as_slice() {
                is_type_and_new(steps)
            } else if b"std".as_slice() == word.as_slice() {
                is_boxed_new(steps) || is_null(steps) || is_null_mut(steps)
            } else {
                false
            }
        }
        Head::HeadText(_text, _long, _start) => false,
    }
}

/// The T of `Box<T>` and `std::boxed::Box<T>`, and the type argument of a built-in callee.
pub fn types_in(head: &Head, steps: Items<Step>) -> (Option<Ty>, Option<Ty>)
    ensures { result ≡ (boxed_type head.now steps, argument_of head.now steps) }
{
    if is_boxed(head, steps.as_slice()) {
        (last_type(steps), None)
    } else if has_argument(head, steps.as_slice()) {
        (None, inner_type(steps))
    } else {
        (None, None)
    }
}

pub fn box_or_name(alloc: Global, boxed: Option<Ty>, text: &[u8]) -> Result<Ty, NoMemory>
    ensures { IfOk result (λ ty. ty ≡ box_or_name boxed text.now) }
{
    match boxed {
        None => {
            let name = Name::from_bytes(alloc, text)?;
            Ok(Ty::Named(name))
        }
        Some(ty) => {
            let boxed = Boxed::new(alloc, ty)?;
            Ok(Ty::BoxOf(boxed))
        }
    }
}
