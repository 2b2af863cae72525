ghost use Rattle.std.specs.Prelude.{◌≡◌, OnOk};
ghost use Rattle.raw_functions.specs.Doubles.{earlier};
ghost use Rattle.raw_functions.specs.Noted.{none_noted, noted};

use indexmap::IndexSet;
use std::alloc::Global;
use std::marker::Model;
use vk_core::NoMemory;

/// The names so far, and where the earliest starts that stood before.
#[derive(Drop)]
pub struct Names<'a> {
    names: IndexSet<&'a [u8]>,
    second: Option<usize>,
}

impl<'a> Model for Names<'a> {
    ghost use Rattle.raw_functions.specs.Noted.{Noted, names_now};

    ghost Value = { Noted };

    ghost view = { λ n. record { names = names_now n.names.keys; second = n.second } };
}

/// The lesser of two numbers, where there are two.
pub fn earlier(a: Option<usize>, b: Option<usize>) -> Option<usize>
    ensures { result ≡ earlier a b }
{
    match a {
        None => b,
        Some(m) => match b {
            None => Some(m),
            Some(n) => Some(m.min(n)),
        },
    }
}

impl<'a> Names<'a> {
    pub fn new(alloc: Global) -> Names<'a>
        ensures { result ≡ none_noted }
    {
        Names {
            names: IndexSet::new(alloc),
            second: None,
        }
    }

    /// Adds a name that starts at `start`.
    pub fn note(&mut self, name: &'a [u8], start: usize) -> Result<(), NoMemory>
        ensures { OnOk result (self.new ≡ noted self.old (name.now, start)) }
    {
        let is_new = self.names.insert(name)?;
        if !is_new {
            self.second = earlier(self.second, Some(start));
        }
        Ok(())
    }

    pub fn second(&self) -> Option<usize>
        ensures { result ≡ self.now.second }
    {
        self.second
    }
}
