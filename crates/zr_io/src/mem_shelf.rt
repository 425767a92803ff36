//! A shelf over memory.
ghost use Rattle.std.specs.{Prelude.{◌≡◌, ℕ, ◌<◌, ◌+◌, ◌-◌, ◌++◌, ◌≢◌, ◌⊎◌, ◌↔◌, [], Some, length, replicate, nat_lt, slice_index_or, slice_set, IsErr, IsOk, IsSome, IfOk, MatchResult, if◌then◌else◌}, Io.KnownBytes.{Keeps}};
ghost use Rattle.zr_io.specs.{Moved.{AddsPiece, CountsPiece, HasCause, raised_by}, Memory.{raised, next_entry, front_out, kept_of, room_of, rack_with}, Reserved.{AreReserved, bytes_of}};

use crate::calls::{entry_for, raise, receive};
use crate::traits::{Failed, Shelf};
use std::alloc::{AllocError, Global};
use std::marker::Model;

/// Keeps the bytes of its flows, up to its room for each, with calls of which some fail.
#[derive(Drop)]
pub struct MemShelf {
    flows: Vec<Vec<u8>>,
    room: usize,
    fails: Vec<(u64, usize)>,
    calls: u64,
    faults: u64,
    appended: u64,
}

impl Model for MemShelf {
    ghost use Rattle.zr_io.specs.{Memory.{Rack}, Reserved.{AreReserved, bytes_of}};

    ghost Value = { Rack };

    ghost view = { λ s. record {
      flows = bytes_of s.flows.items;
      room = s.room;
      fails = s.fails.items;
      calls = s.calls;
      faults = s.faults;
      appended = s.appended;
    } };

    ghost invariant = { λ s. AreReserved s.room s.flows.items };
}

impl MemShelf {
    /// Has room for `room` bytes of each flow below `flows` and for none of the others, and takes their memory
    /// here. Each of `fails` is the number of a call that fails, the first call being number 1, and how many
    /// bytes go out before its fault.
    pub fn new(
        alloc: Global,
        flows: u32,
        room: usize,
        fails: Vec<(u64, usize)>,
    ) -> Result<MemShelf, AllocError>
        ensures { IfOk result (λ s. s
            ≡ record {
              flows = replicate flows [];
              room = room;
              fails = fails.items;
              calls = 0;
              faults = 0;
              appended = 0;
            }) }
    {
        Ok(MemShelf {
            flows: reserve(alloc, flows, room)?,
            room,
            fails,
            calls: 0,
            faults: 0,
            appended: 0,
        })
    }

    /// What is kept of a flow.
    pub fn flow(&self, flow: u32) -> &[u8]
        ensures { result.now ≡ kept_of self.now flow }
    {
        match self.flows.get(flow as usize) {
            Some(bytes) => bytes,
            None => &[],
        }
    }
}

impl Shelf for MemShelf {
    ghost kept = { λ s flow. Some (kept_of s flow) };

    ghost counts = { λ s. record { faults = s.faults; appended = s.appended } };

    fn append(&mut self, flow: u32, piece: &[u8]) -> Result<(), Failed>
        ensures bytes { AddsPiece (Some (kept_of self.old flow)) (Some (kept_of self.new flow))
            result piece.now }
        ensures others { (other : ℕ) → other ≢ flow →
            Keeps (Some (kept_of self.old other)) (Some (kept_of self.new other)) }
        ensures cause { HasCause self.old.faults self.new.faults result }
        ensures counted { CountsPiece self.old.appended self.new.appended result piece.now }

        ensures fails { IsErr result
            ↔ (room_of self.old flow < length (kept_of self.old flow) + length piece.now)
            ⊎ IsSome (next_entry self.old.fails self.old.calls) }
        ensures after { let calls = raised self.old.calls in MatchResult result
            (λ _. self.new ≡ record self.old {
              flows = rack_with self.old flow piece.now;
              calls = calls;
              appended = raised_by self.old.appended (length piece.now);
            })
            (λ _. self.new ≡ record self.old {
              flows = rack_with self.old flow
                  (front_out (room_of self.old flow - length (kept_of self.old flow))
                  (next_entry self.old.fails self.old.calls) piece.now);
              calls = calls;
              faults = raised self.old.faults;
            }) }
    {
        raise(&mut self.calls);
        let entry = entry_for(&self.fails, self.calls);
        let result = store(&mut self.flows, self.room, flow, entry, piece);
        if result.is_err() {
            raise(&mut self.faults);
        } else {
            self.appended = self.appended.saturating_add(piece.len() as u64);
        }
        result
    }

    /// Nothing is kept back, so it is none of the calls that may fail.
    fn flush(&mut self) -> Result<(), Failed>
        ensures bytes { (flow : ℕ) →
            Keeps (Some (kept_of self.old flow)) (Some (kept_of self.new flow)) }
        ensures cause { HasCause self.old.faults self.new.faults result }
        ensures counted { self.new.appended ≡ self.old.appended }

        ensures after { IsOk result × (self.new ≡ self.old) }
    {
        Ok(())
    }
}

/// Empty flows, each with the memory for `room` bytes.
fn reserve(alloc: Global, count: u32, room: usize) -> Result<Vec<Vec<u8>>, AllocError>
    ensures empty { IfOk result (λ flows. bytes_of flows.items ≡ replicate count []) }
    ensures reserved { IfOk result (λ flows. AreReserved room flows.items) }
{
    let mut flows = Vec::with_capacity(alloc, count as usize)?;
    for _index in 0..count {
        flows.push(Vec::with_capacity(alloc, room)?)?;
    }
    Ok(flows)
}

/// Adds a piece to one of the flows, or at a listed fault its front.
fn store(
    flows: &mut Vec<Vec<u8>>,
    room: usize,
    flow: u32,
    entry: Option<usize>,
    piece: &[u8],
) -> Result<(), Failed>
    requires { AreReserved room flows.old.items }
    ensures fails { let held = slice_index_or (bytes_of flows.old.items) flow [] in
        IsErr result
        ↔ ((if nat_lt flow (length (bytes_of flows.old.items)) then room else 0)
        < length held + length piece.now) ⊎ IsSome entry }
    ensures after { let held = slice_index_or (bytes_of flows.old.items) flow [] in
        MatchResult result
        (λ _. bytes_of flows.new.items
        ≡ slice_set (bytes_of flows.old.items) flow (held ++ piece.now))
        (λ _. bytes_of flows.new.items ≡ slice_set (bytes_of flows.old.items) flow
        (held ++ front_out
        ((if nat_lt flow (length (bytes_of flows.old.items)) then room else 0) - length held)
        entry piece.now)) }
    ensures reserved { AreReserved room flows.new.items }
{
    match flows.get_mut(flow as usize) {
        Some(bytes) => receive(bytes, room, entry, piece),
        None if entry.is_none() && piece.is_empty() => Ok(()),
        None => Err(Failed),
    }
}
