ghost use Rattle.std.specs.Prelude.{◌≡◌, ◌<◌, ◌≤◌, ◌↔◌, ℕ, [], List, Some, IsTrue, IsErr, IsSome, IfOk, IfSome, is_some, false, length, take, drop};
ghost use Rattle.vk_files.specs.Calls.{next_fails, after_call};
ghost use Rattle.vk_files.specs.Causes.{HasCause};
ghost use Rattle.vk_files.specs.Files.{Opens};
ghost use Rattle.vk_files.specs.Memory.{first_named, unread, opened_as, moved};

use crate::calls::Calls;
use crate::files::{Files, Opened, ReadFailed};
use crate::shelf::Shelf;

/// Files in memory, some of whose calls fail.
#[derive(Drop)]
pub struct MemoryFiles {
    shelf: Shelf,
    calls: Calls,
}

impl MemoryFiles {
    /// Names with their bytes, the numbers of the calls that are to fail, and the most bytes of one read. All calls
    /// are numbered together from 1. Where a name stands twice, its first entry is the file.
    pub fn new(files: Vec<(String, Vec<u8>)>, failing: Vec<u64>, piece: usize) -> MemoryFiles
        requires { 0 < piece }
        ensures holds { (name : List ℕ) → ⟦<MemoryFiles as Files>⟧.held result name ≡ Some (first_named files.items name) }
        ensures none_found { ⟦<MemoryFiles as Files>⟧.found result ≡ false }
        ensures no_faults { ⟦<MemoryFiles as Files>⟧.faults result ≡ 0 }
        ensures calls { result.calls ≡ record { failing = failing; made = 0; faults = 0 } }
        ensures piece { result.shelf.piece ≡ piece }
    {
        MemoryFiles {
            shelf: Shelf::new(files, piece),
            calls: Calls::new(failing),
        }
    }
}

impl Files for MemoryFiles {
    ghost held = { λ f name. Some (first_named f.shelf.files.items name) };

    ghost left = { λ f. Some (unread f.shelf.files.items f.shelf.reading) };

    ghost found = { λ f. is_some f.shelf.reading };

    ghost faults = { λ f. f.calls.faults };

    fn open_file(&mut self, name: &str) -> Result<Opened, ReadFailed>
        // It fails exactly where its number is one that is to fail, and else the name decides.
        ensures fails { IsErr result ↔ IsTrue (next_fails self.old.calls) }
        ensures answers { IfOk result (λ answer. answer ≡ opened_as (first_named self.old.shelf.files.items name.now)) }
        ensures counts { self.new.calls ≡ after_call self.old.calls }
        ensures cause { HasCause self.old.calls.faults self.new.calls.faults result }
        ensures left { IfOk result (λ _. IfSome (first_named self.old.shelf.files.items name.now) (λ bytes. unread self.new.shelf.files.items self.new.shelf.reading ≡ bytes)) }
        ensures finds { IsSome self.new.shelf.reading ↔ (result ≡ Ok Opened.Found) }
        ensures files { self.new.shelf.files ≡ self.old.shelf.files }
        ensures piece { self.new.shelf.piece ≡ self.old.shelf.piece }
    {
        if self.calls.count() {
            self.shelf.close();
            return Err(ReadFailed);
        }
        Ok(self.shelf.open_file(name))
    }

    fn read(&mut self, buf: &mut [u8]) -> Result<usize, ReadFailed>
        requires { IsSome self.old.shelf.reading }

        // It fails exactly where its number is one that is to fail, and else gives as much as it can.
        ensures fails { IsErr result ↔ IsTrue (next_fails self.old.calls) }
        ensures answers { IfOk result (λ n. n ≡ moved self.old.shelf.piece (length buf.old) (length (unread self.old.shelf.files.items self.old.shelf.reading))) }
        ensures counts { self.new.calls ≡ after_call self.old.calls }
        ensures cause { HasCause self.old.calls.faults self.new.calls.faults result }
        ensures front { IfOk result (λ n. take n buf.new ≡ take n (unread self.old.shelf.files.items self.old.shelf.reading)) }
        ensures rest { IfOk result (λ n. unread self.new.shelf.files.items self.new.shelf.reading ≡ drop n (unread self.old.shelf.files.items self.old.shelf.reading)) }
        ensures end { IfOk result (λ n. n ≡ 0 → 0 < length buf.new → unread self.old.shelf.files.items self.old.shelf.reading ≡ []) }
        ensures stays_found { IsSome self.new.shelf.reading }
        ensures files { self.new.shelf.files ≡ self.old.shelf.files }
        ensures piece { self.new.shelf.piece ≡ self.old.shelf.piece }
    {
        if self.calls.count() {
            return Err(ReadFailed);
        }
        Ok(self.shelf.read(buf))
    }
}

/// Files in memory that never fail.
#[derive(Drop)]
pub struct NeverFailFiles {
    shelf: Shelf,
}

impl NeverFailFiles {
    /// Names with their bytes, and the most bytes of one read. Where a name stands twice, its first entry is the
    /// file.
    pub fn new(files: Vec<(String, Vec<u8>)>, piece: usize) -> NeverFailFiles
        requires { 0 < piece }
        ensures holds { (name : List ℕ) → ⟦<NeverFailFiles as Files>⟧.held result name ≡ Some (first_named files.items name) }
        ensures none_found { ⟦<NeverFailFiles as Files>⟧.found result ≡ false }
        ensures piece { result.shelf.piece ≡ piece }
    {
        NeverFailFiles {
            shelf: Shelf::new(files, piece),
        }
    }
}

impl Files for NeverFailFiles {
    ghost held = { λ f name. Some (first_named f.shelf.files.items name) };

    ghost left = { λ f. Some (unread f.shelf.files.items f.shelf.reading) };

    ghost found = { λ f. is_some f.shelf.reading };

    ghost faults = { λ _. 0 };

    fn open_file(&mut self, name: &str) -> Result<Opened, ReadFailed>
        ensures answers { result ≡ Ok (opened_as (first_named self.old.shelf.files.items name.now)) }
        ensures left { IfOk result (λ _. IfSome (first_named self.old.shelf.files.items name.now) (λ bytes. unread self.new.shelf.files.items self.new.shelf.reading ≡ bytes)) }
        ensures finds { IsSome self.new.shelf.reading ↔ (result ≡ Ok Opened.Found) }
        ensures files { self.new.shelf.files ≡ self.old.shelf.files }
        ensures piece { self.new.shelf.piece ≡ self.old.shelf.piece }
    {
        Ok(self.shelf.open_file(name))
    }

    fn read(&mut self, buf: &mut [u8]) -> Result<usize, ReadFailed>
        requires { IsSome self.old.shelf.reading }
        ensures answers { result ≡ Ok (moved self.old.shelf.piece (length buf.old) (length (unread self.old.shelf.files.items self.old.shelf.reading))) }
        ensures front { IfOk result (λ n. take n buf.new ≡ take n (unread self.old.shelf.files.items self.old.shelf.reading)) }
        ensures rest { IfOk result (λ n. unread self.new.shelf.files.items self.new.shelf.reading ≡ drop n (unread self.old.shelf.files.items self.old.shelf.reading)) }
        ensures end { IfOk result (λ n. n ≡ 0 → 0 < length buf.new → unread self.old.shelf.files.items self.old.shelf.reading ≡ []) }
        ensures stays_found { IsSome self.new.shelf.reading }
        ensures files { self.new.shelf.files ≡ self.old.shelf.files }
        ensures piece { self.new.shelf.piece ≡ self.old.shelf.piece }
    {
        Ok(self.shelf.read(buf))
    }
}
