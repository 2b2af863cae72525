ghost use Rattle.std.specs.Prelude.{◌≡◌, ◌<◌, [], length, slice_index_or, OnOk, OnErr, IfOk};
ghost use Rattle.typed_program.specs.Files.{AreEmpty, with_number};

use std::alloc::Global;
use std::marker::Model;
use vk_core::NoMemory;

/// Lists of numbers.
#[derive(Drop)]
pub struct Files {
    files: Vec<Vec<usize>>,
}

impl Model for Files {
    ghost use Rattle.std.specs.Prelude.{ℕ, List, map};

    ghost Value = { List (List ℕ) };

    ghost view = { λ f. map (λ v. v.items) f.files.items };
}

impl Files {
    /// So many empty lists.
    pub fn new(alloc: Global, count: usize) -> Result<Files, NoMemory>
        ensures { IfOk result (AreEmpty count) }
    {
        let mut files = Vec::new(alloc);
        for _ in 0..count {
            files.push(Vec::new(alloc))?;
        }
        Ok(Files { files })
    }

    /// How many lists there are.
    pub fn len(&self) -> usize
        ensures { result ≡ length self.now }
    {
        self.files.len()
    }

    /// One of them.
    pub fn file(&self, at: usize) -> &[usize]
        requires { at < length self.now }
        ensures { result.now ≡ slice_index_or self.now at [] }
    {
        self.files[at].as_slice()
    }

    /// Appends a number to one of them.
    pub fn push(&mut self, at: usize, number: usize) -> Result<(), NoMemory>
        requires { at < length self.old }
        ensures ok { OnOk result (self.new ≡ with_number self.old at number) }
        ensures err { OnErr result (self.new ≡ self.old) }
    {
        self.files[at].push(number)?;
        Ok(())
    }
}
