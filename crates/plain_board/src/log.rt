//! A log with room for so many events.
ghost use Rattle.std.specs.Prelude.{◌≡◌, ◌≤◌, true, [], IfOk};
ghost use Rattle.zr_kinds.specs.{Setting.{most_events}, LegalRun.{HasSmallNumbers}};
ghost use Rattle.plain_board.specs.Logs.{logged};

use std::alloc::{AllocError, Global};
use std::marker::Model;
use zr_kinds::{Event, Log};

/// The first events of a board, up to a number of them.
#[derive(Debug, Drop)]
pub struct EventLog {
    log: Log,
    room: u32,
}

impl Model for EventLog {
    ghost use Rattle.std.specs.Prelude.{◌≤◌, length, vec_capacity};
    ghost use Rattle.plain_board.specs.Logs.{KeptEvents};

    ghost Value = { KeptEvents };

    ghost view = { λ s. record { events = s.log.events.items; whole = s.log.whole; room = s.room } };

    ghost invariant = { λ s. (length s.log.events.items ≤ s.room) × (s.room ≤ vec_capacity s.log.events) };
}

impl EventLog {
    /// Has room for `room` events, and takes their memory here.
    pub fn open(alloc: Global, room: u32) -> Result<EventLog, AllocError>
        requires few { room ≤ most_events }
        ensures { IfOk result (λ log. log ≡ record { events = []; whole = true; room = room }) }
    {
        let events = Vec::with_capacity(alloc, room as usize)?;
        Ok(EventLog {
            log: Log {
                events,
                whole: true,
            },
            room,
        })
    }

    /// Appends the event, or closes the log for good where it has no room.
    pub fn push(&mut self, event: Event)
        ensures log { self.new ≡ logged self.old event }
        ensures small { HasSmallNumbers event }
    {
        if self.log.whole && self.log.events.len() < self.room as usize {
            self.log.events.push_reserved(event);
        } else {
            self.log.whole = false;
        }
    }

    /// The events so far, and whether they are all.
    pub fn log(&self) -> &Log
        ensures events { result.now.events.items ≡ self.now.events }
        ensures whole { result.now.whole ≡ self.now.whole }
    {
        &self.log
    }
}
