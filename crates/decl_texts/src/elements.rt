ghost use Rattle.decl_texts.specs.Elements.{path_element, word_element, place_element, local_element};

use crate::texts::{local_in, path_in, place_in, word_in};
use decl_tree::{Element, Labels, Read, one_label};
use mir_ir::PlaceExpr;
use sqlite_items::Items;
use std::alloc::Global;
use toml::Value;
use vk_core::{LocalId, Name};

/// Paths, which may stand twice.
#[derive(Clone, Copy, Debug)]
pub struct Paths;

/// Words, no two of them equal.
#[derive(Clone, Copy, Debug)]
pub struct Words;

/// Places, which may stand twice.
#[derive(Clone, Copy, Debug)]
pub struct Places;

/// Locals, which may stand twice.
#[derive(Clone, Copy, Debug)]
pub struct Locals;

impl Element for Paths {
    type Out = Name;

    ghost meaning = { λ _. path_element };

    fn read(&self, alloc: Global, _at: usize, value: &Value) -> Read<(Name, Labels)> {
        match path_in(alloc, value)? {
            Ok(path) => Ok(Ok((path, Items::new(alloc)))),
            Err(fault) => Ok(Err(fault)),
        }
    }
}

impl Element for Words {
    type Out = Name;

    ghost meaning = { λ _. word_element };

    fn read(&self, alloc: Global, _at: usize, value: &Value) -> Read<(Name, Labels)> {
        match word_in(alloc, value)? {
            Ok(word) => {
                let labels = one_label(alloc, word.as_bytes(), b"")?;
                Ok(Ok((word, labels)))
            }
            Err(fault) => Ok(Err(fault)),
        }
    }
}

impl Element for Places {
    type Out = PlaceExpr;

    ghost meaning = { λ _. place_element };

    fn read(&self, alloc: Global, _at: usize, value: &Value) -> Read<(PlaceExpr, Labels)> {
        match place_in(alloc, value)? {
            Ok(place) => Ok(Ok((place, Items::new(alloc)))),
            Err(fault) => Ok(Err(fault)),
        }
    }
}

impl Element for Locals {
    type Out = LocalId;

    ghost meaning = { λ _. local_element };

    fn read(&self, alloc: Global, _at: usize, value: &Value) -> Read<(LocalId, Labels)> {
        match local_in(alloc, value)? {
            Ok(local) => Ok(Ok((local, Items::new(alloc)))),
            Err(fault) => Ok(Err(fault)),
        }
    }
}
