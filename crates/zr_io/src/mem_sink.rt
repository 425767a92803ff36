//! A sink over memory.
ghost use Rattle.std.specs.Prelude.{◌≡◌, ◌<◌, ◌+◌, ◌-◌, ◌++◌, ◌⊎◌, ◌↔◌, [], Some, length, IsErr, IsSome, IfOk, MatchResult};
ghost use Rattle.zr_io.specs.{Moved.{AddsPiece, HasCause}, Memory.{raised, next_entry, front_out}};

use crate::calls::{entry_for, raise, receive};
use crate::traits::{Failed, Sink};
use std::alloc::{AllocError, Global};
use std::marker::Model;

/// Keeps the bytes that went out, up to its room, with calls of which some fail.
#[derive(Drop)]
pub struct MemSink {
    bytes: Vec<u8>,
    room: usize,
    fails: Vec<(u64, usize)>,
    calls: u64,
    faults: u64,
}

impl Model for MemSink {
    ghost use Rattle.std.specs.Prelude.{◌≤◌, length, vec_capacity};
    ghost use Rattle.zr_io.specs.Memory.{Drain};

    ghost Value = { Drain };

    ghost view = { λ s. record {
      bytes = s.bytes.items;
      room = s.room;
      fails = s.fails.items;
      calls = s.calls;
      faults = s.faults;
    } };

    ghost invariant = { λ s. (length s.bytes.items ≤ s.room) × (s.room ≤ vec_capacity s.bytes) };
}

impl MemSink {
    /// Has room for `room` bytes in all, and takes their memory here. Each of `fails` is the number of a call
    /// that fails, the first call being number 1, and how many bytes go out before its fault.
    pub fn new(alloc: Global, room: usize, fails: Vec<(u64, usize)>) -> Result<MemSink, AllocError>
        ensures { IfOk result (λ s. s
            ≡ record { bytes = []; room = room; fails = fails.items; calls = 0; faults = 0 }) }
    {
        Ok(MemSink {
            bytes: Vec::with_capacity(alloc, room)?,
            room,
            fails,
            calls: 0,
            faults: 0,
        })
    }

    /// What went out so far.
    pub fn bytes(&self) -> &[u8]
        ensures { result.now ≡ self.now.bytes }
    {
        &self.bytes
    }
}

impl Sink for MemSink {
    ghost sent = { λ s. Some s.bytes };

    ghost faults = { λ s. s.faults };

    fn write_all(&mut self, piece: &[u8]) -> Result<(), Failed>
        ensures bytes { AddsPiece (Some self.old.bytes) (Some self.new.bytes) result piece.now }
        ensures cause { HasCause self.old.faults self.new.faults result }

        ensures fails { IsErr result ↔ (self.old.room < length self.old.bytes + length piece.now)
            ⊎ IsSome (next_entry self.old.fails self.old.calls) }
        ensures after { let calls = raised self.old.calls in MatchResult result
            (λ _. self.new ≡ record self.old { bytes = self.old.bytes ++ piece.now; calls = calls })
            (λ _. self.new ≡ record self.old {
              bytes = self.old.bytes
                  ++ front_out (self.old.room - length self.old.bytes)
                  (next_entry self.old.fails self.old.calls) piece.now;
              calls = calls;
              faults = raised self.old.faults;
            }) }
    {
        raise(&mut self.calls);
        let entry = entry_for(&self.fails, self.calls);
        let result = receive(&mut self.bytes, self.room, entry, piece);
        if result.is_err() {
            raise(&mut self.faults);
        }
        result
    }
}
