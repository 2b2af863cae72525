ghost use Rattle.std.specs.Prelude.{◌≡◌, option_copied};
ghost use Rattle.type_rules.specs.Calls.{called, called_alone, called_with, dyn_head, dynamic_method, head_name, is_box_new, is_panic, text_place};
ghost use Rattle.function_types.specs.Steps.{behind, behind_names};
ghost use Rattle.function_types.specs.Views.{called_seen, some_method};

use crate::forms::is_text;
use code_types::halves_of;
use mir_ir::{Callee, Ty};

/// A method of a trait that is called on a `dyn` value.
#[derive(Clone, Copy)]
pub struct Method<'a> {
    pub trait_name: &'a [u8],
    pub method: &'a [u8],
}

/// What a callee is: a function of `kani` or of the standard library, a method behind a `dyn` type, or a function of the text.
#[derive(Clone, Copy)]
pub enum Called<'a> {
    AnyOf(&'a Ty),
    Assume,
    Assert,
    NewBox(&'a Ty),
    NullOf { mutable: bool, ty: &'a Ty },
    Panic,
    Dynamic(Method<'a>),
    Named(&'a [u8]),
}

fn is_box_new(path: &[u8]) -> bool
    ensures { result ≡ is_box_new path.now }
{
    (path.starts_with(b"Box<") || path.starts_with(b"std::boxed::Box<"))
        && path.ends_with(b">::new")
}

fn called_with<'a>(path: &'a [u8], ty: &'a Ty) -> Called<'a>
    ensures { called_seen result ≡ called_with path.now ty.now }
{
    if path.starts_with(b"kani::any<") {
        Called::AnyOf(ty)
    } else if path.starts_with(b"std::ptr::null<") {
        Called::NullOf { mutable: false, ty }
    } else if path.starts_with(b"std::ptr::null_mut<") {
        Called::NullOf { mutable: true, ty }
    } else if is_box_new(path) {
        Called::NewBox(ty)
    } else {
        Called::Named(path)
    }
}

/// What stands behind a front, where the text begins with it.
fn behind<'a>(text: &'a [u8], front: &[u8]) -> Option<&'a [u8]>
    ensures { option_copied result ≡ behind front.now text.now }
{
    text.strip_prefix(front)
}

/// What stands behind `<dyn NAME as NAME`.
fn behind_names<'a>(head: &'a [u8], name: &[u8]) -> Option<&'a [u8]>
    ensures { option_copied result ≡ behind_names name.now head.now }
{
    let rest = behind(head, b"<dyn ")?;
    let rest = behind(rest, name)?;
    let rest = behind(rest, b" as ")?;
    behind(rest, name)
}

/// Whether the head is `<dyn NAME as NAME>`.
fn dyn_head(name: &[u8], head: &[u8]) -> bool
    ensures { result ≡ dyn_head name.now head.now }
{
    match behind_names(head, name) {
        None => false,
        Some(rest) => is_text(rest, b">"),
    }
}

/// The name in such a head, which stands there twice.
fn head_name(head: &[u8]) -> &[u8]
    ensures { result.now ≡ head_name head.now }
{
    let front = 5;
    let around = 10;
    if head.len() < around {
        &[]
    } else {
        let count = (head.len() - around) / 2;
        &head[front..front + count]
    }
}

/// The method that a path `<dyn Trait as Trait>::method` calls.
fn dynamic_method(path: &[u8]) -> Option<Method<'_>>
    ensures { some_method result ≡ dynamic_method path.now }
{
    match halves_of(path) {
        None => None,
        Some(halves) => {
            let trait_name = head_name(halves.front);
            if dyn_head(trait_name, halves.front) {
                Some(Method {
                    trait_name,
                    method: halves.word,
                })
            } else {
                None
            }
        }
    }
}

fn is_panic(path: &[u8]) -> bool
    ensures { result ≡ is_panic path.now }
{
    is_text(path, b"core::panicking::panic") || is_text(path, b"std::panicking::panic")
}

fn called_alone<'a>(path: &'a [u8]) -> Called<'a>
    ensures { called_seen result ≡ called_alone path.now }
{
    if is_text(path, b"kani::assume") {
        Called::Assume
    } else if is_text(path, b"kani::assert") {
        Called::Assert
    } else if is_panic(path) {
        Called::Panic
    } else {
        match dynamic_method(path) {
            Some(method) => Called::Dynamic(method),
            None => Called::Named(path),
        }
    }
}

/// What the callee is. A built-in name comes before a function of the text.
pub fn called_by<'a>(callee: &'a Callee) -> Called<'a>
    ensures { called_seen result ≡ called callee.now }
{
    match &callee.argument {
        Some(ty) => called_with(callee.path.as_bytes(), ty),
        None => called_alone(callee.path.as_bytes()),
    }
}

/// Where a text may stand among the arguments: 1 is the first place, and 0 none.
pub fn text_place(callee: Called<'_>) -> usize
    ensures { result ≡ text_place (called_seen callee.entry) }
{
    match callee {
        Called::Assert => 2,
        Called::Panic => 1,
        Called::AnyOf(_)
        | Called::Assume
        | Called::NewBox(_)
        | Called::NullOf { .. }
        | Called::Dynamic(_)
        | Called::Named(_) => 0,
    }
}
