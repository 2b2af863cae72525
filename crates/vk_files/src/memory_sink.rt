ghost use Rattle.std.specs.Prelude.{◌≡◌, ◌<◌, ◌≤◌, ◌+◌, ◌-◌, ◌++◌, ◌↔◌, ◌||◌, Some, [], IsTrue, IsErr, IfOk, IfSome, OnErr, length, take, vec_len, vec_capacity, if◌then◌else◌};
ghost use Rattle.vk_files.specs.Calls.{next_fails, after_write};
ghost use Rattle.vk_files.specs.Causes.{HasCause};
ghost use Rattle.vk_files.specs.Memory.{moved, is_full};

use crate::calls::Calls;
use crate::sink::{Sink, WriteFailed};
use std::alloc::Global;
use vk_core::NoMemory;

/// A sink in memory, with so much room, some of whose calls fail.
#[derive(Drop)]
pub struct MemorySink {
    taken: Vec<u8>,
    room: usize,
    piece: usize,
    calls: Calls,
    ghost gives_some: { 0 < piece },
    ghost has_room: { vec_len taken + room ≤ vec_capacity taken },
}

impl MemorySink {
    /// A sink that takes `room` bytes in all and at most `piece` of one write, and the numbers of the writes that are
    /// to fail, which count from 1. A write without room for a byte fails too.
    pub fn new(
        alloc: Global,
        room: usize,
        failing: Vec<u64>,
        piece: usize,
    ) -> Result<MemorySink, NoMemory>
        requires { 0 < piece }
        ensures empty { IfOk result (λ sink. ⟦<MemorySink as Sink>⟧.written sink ≡ Some []) }
        ensures no_faults { IfOk result (λ sink. ⟦<MemorySink as Sink>⟧.faults sink ≡ 0) }
        ensures calls { IfOk result (λ sink. sink.calls ≡ record { failing = failing; made = 0; faults = 0 }) }
        ensures room { IfOk result (λ sink. sink.room ≡ room) }
        ensures piece { IfOk result (λ sink. sink.piece ≡ piece) }
    {
        let taken = Vec::with_capacity(alloc, room)?;
        Ok(MemorySink {
            taken,
            room,
            piece,
            calls: Calls::new(failing),
        })
    }

    /// The bytes taken so far.
    pub fn written(&self) -> &[u8]
        ensures { Some result.now ≡ ⟦<MemorySink as Sink>⟧.written self.now }
    {
        &self.taken
    }
}

impl Sink for MemorySink {
    ghost written = { λ s. Some s.taken.items };

    ghost faults = { λ s. s.calls.faults };

    fn write(&mut self, bytes: &[u8]) -> Result<usize, WriteFailed>
        ensures taken { IfOk result (λ n. self.new.taken.items ≡ self.old.taken.items ++ take n bytes.now) }
        ensures err { OnErr result (self.new.taken.items ≡ self.old.taken.items) }

        // It fails exactly where its number is one that is to fail or no room is left, and else takes as much as it can.
        ensures fails { IsErr result ↔ IsTrue (next_fails self.old.calls || is_full self.old.piece self.old.room bytes.now) }
        ensures answers { IfOk result (λ n. n ≡ moved self.old.piece self.old.room (length bytes.now)) }
        ensures room { IfOk result (λ n. self.new.room + n ≡ self.old.room) }
        ensures room_kept { OnErr result (self.new.room ≡ self.old.room) }
        ensures cause { HasCause self.old.calls.faults self.new.calls.faults result }
        ensures counts { self.new.calls ≡ after_write self.old.calls (is_full self.old.piece self.old.room bytes.now) }
        ensures piece { self.new.piece ≡ self.old.piece }
    {
        if self.calls.count() {
            return Err(WriteFailed);
        }
        let count = self.piece.min(self.room).min(bytes.len());
        if count == 0 && !bytes.is_empty() {
            self.calls.count_fault();
            return Err(WriteFailed);
        }
        match self.taken.extend_from_slice(&bytes[..count]) {
            Ok(()) => {
                self.room -= count;
                Ok(count)
            }
            Err(_) => unreachable!(),
        }
    }
}
