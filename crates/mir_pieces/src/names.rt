ghost use Rattle.std.specs.Prelude.{◌≡◌, ◌++◌, ◌||◌, ◌∷◌, [], List, IfOk, OnOk, is_some, codes};
ghost use Rattle.mir_grammar.specs.Names.{argument_text, argument_is_long, comma_text, list_text, texts_of, some_is, head_text, head_is_long, step_text, step_is_long, steps_text, path_text, is_over, head_start};

use mir_grammar::{Argument, Head, Step};
use sqlite_items::Items;
use std::alloc::Global;
use vk_core::NoMemory;

/// The most bytes that a name has.
const MAX_NAME: usize = 256;

fn push_argument(out: &mut Vec<u8>, argument: &Argument) -> Result<(), NoMemory>
    ensures { OnOk result (out.new.items ≡ out.old.items ++ argument_text argument.now) }
{
    match argument {
        Argument::TypeArgument(named) => {
            out.extend_from_slice(named.text.as_slice())?;
            Ok(())
        }
        Argument::OtherArgument(text) => {
            out.extend_from_slice(text.as_slice())?;
            Ok(())
        }
    }
}

fn push_more_arguments(out: &mut Vec<u8>, arguments: &[Argument]) -> Result<(), NoMemory>
    ensures { OnOk result (out.new.items ≡ out.old.items ++ comma_text (texts_of argument_text arguments.now)) }
{
    let mut left = arguments;
    while let [argument, rest @ ..] = left {
        out.extend_from_slice(b", ")?;
        push_argument(out, argument)?;
        left = rest;
    }
    Ok(())
}

fn push_arguments(out: &mut Vec<u8>, arguments: &[Argument]) -> Result<(), NoMemory>
    ensures { OnOk result (out.new.items ≡ out.old.items ++ list_text (texts_of argument_text arguments.now)) }
{
    match arguments {
        [] => Ok(()),
        [argument, rest @ ..] => {
            push_argument(out, argument)?;
            push_more_arguments(out, rest)?;
            Ok(())
        }
    }
}

fn push_step(out: &mut Vec<u8>, step: &Step) -> Result<(), NoMemory>
    ensures { OnOk result (out.new.items ≡ out.old.items ++ step_text step.now) }
{
    match step {
        Step::StepWord(word) => {
            out.extend_from_slice(b"::")?;
            out.extend_from_slice(word.as_slice())?;
            Ok(())
        }
        Step::StepArguments(arguments) => {
            out.extend_from_slice(b"<")?;
            push_arguments(out, arguments.as_slice())?;
            out.extend_from_slice(b">")?;
            Ok(())
        }
        Step::StepImpl(text) => {
            out.extend_from_slice(b"::")?;
            out.extend_from_slice(text.as_slice())?;
            Ok(())
        }
    }
}

fn push_steps(out: &mut Vec<u8>, steps: &[Step]) -> Result<(), NoMemory>
    ensures { OnOk result (out.new.items ≡ out.old.items ++ steps_text steps.now) }
{
    let mut left = steps;
    while let [step, rest @ ..] = left {
        push_step(out, step)?;
        left = rest;
    }
    Ok(())
}

fn push_head(out: &mut Vec<u8>, head: &Head) -> Result<(), NoMemory>
    ensures { OnOk result (out.new.items ≡ out.old.items ++ head_text head.now) }
{
    match head {
        Head::HeadWord(word, _start) => {
            out.extend_from_slice(word.as_slice())?;
            Ok(())
        }
        Head::HeadText(text, _long, _start) => {
            out.extend_from_slice(text.as_slice())?;
            Ok(())
        }
    }
}

/// The canonical text of a path.
pub fn path_text(alloc: Global, head: &Head, steps: &[Step]) -> Result<Items<u8>, NoMemory>
    ensures { IfOk result (λ text. text ≡ path_text head.now steps.now) }
{
    let mut out = Vec::new(alloc);
    push_head(&mut out, head)?;
    push_steps(&mut out, steps)?;
    Ok(Items::from_vec(out))
}

fn argument_is_long(argument: &Argument) -> bool
    ensures { result ≡ argument_is_long argument.now }
{
    match argument {
        Argument::TypeArgument(named) => named.is_long,
        Argument::OtherArgument(_text) => false,
    }
}

fn has_long_argument(arguments: &[Argument]) -> bool
    ensures { result ≡ some_is argument_is_long arguments.now }
{
    let mut left = arguments;
    while let [argument, rest @ ..] = left {
        if argument_is_long(argument) {
            return true;
        }
        left = rest;
    }
    false
}

fn step_is_long(step: &Step) -> bool
    ensures { result ≡ step_is_long step.now }
{
    match step {
        Step::StepWord(_word) => false,
        Step::StepArguments(arguments) => has_long_argument(arguments.as_slice()),
        Step::StepImpl(_text) => false,
    }
}

pub fn has_long_step(steps: &[Step]) -> bool
    ensures { result ≡ some_is step_is_long steps.now }
{
    let mut left = steps;
    while let [step, rest @ ..] = left {
        if step_is_long(step) {
            return true;
        }
        left = rest;
    }
    false
}

pub fn head_is_long(head: &Head) -> bool
    ensures { result ≡ head_is_long head.now }
{
    match head {
        Head::HeadWord(_word, _start) => false,
        Head::HeadText(_text, long, _start) => *long,
    }
}

pub fn is_over(text: &[u8]) -> bool
    ensures { result ≡ is_over text.now }
{
    text.len() > MAX_NAME
}

pub fn head_start(head: &Head) -> usize
    ensures { result ≡ head_start head.now }
{
    match head {
        Head::HeadWord(_word, start) => *start,
        Head::HeadText(_text, _long, start) => *start,
    }
}
