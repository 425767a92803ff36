//! The shelf.
ghost use Rattle.std.specs.{Prelude.{◌≡◌, ℕ, ◌≢◌, None, length, IfOk, MatchResult}, Io.KnownBytes.{Keeps}};
ghost use Rattle.zr_io.specs.{Moved.{AddsPiece, CountsPiece, HasCause, raised_by}, Memory.{raised}};

use crate::files::FlowFiles;
use crate::{Failed, Shelf};
use std::alloc::AllocError;
use std::io;
use std::marker::Model;
use std::rt::Files;
use std::sync::atomic::{AtomicU64, Ordering};

/// The first append of a shelf that failed.
#[derive(Clone, Copy, Debug)]
pub struct Lost {
    /// The flow. Its file is `flow-<number>.bin`.
    pub flow: u32,
    /// The system's reason.
    pub error: io::Error,
}

/// Keeps flow n in the file `flow-n.bin` of the current folder, for n below `MOST_FLOWS`. The file is made anew at the flow's first
/// append. What is appended is gathered, up to so many bytes of each open file, and written as there is more, as the file is
/// closed, and at `flush`. It tells no bytes, and counts the errors of the system and of memory, and the bytes of the appends that
/// went well; an append to any other flow counts as an error.
#[derive(Drop)]
pub struct FileShelf<'a, R: Files + AllocGlobal> {
    rt: R,
    files: FlowFiles<R::File>,
    /// How many flows have a file, over all shelves that share the count.
    flows: &'a AtomicU64,
    lost: Option<Lost>,
    faults: u64,
    appended: u64,
}

impl<'a, R: Files + AllocGlobal> Model for FileShelf<'a, R> {
    ghost use Rattle.zr_io.specs.Moved.{ShelfCounts};

    ghost Value = { ShelfCounts };

    ghost view = { λ s. record { faults = s.faults; appended = s.appended } };
}

impl<'a, R: Files + AllocGlobal + Drop> FileShelf<'a, R> {
    /// No flow has a file of this run yet. At most `most` files are open at a time, or one where that is 0: the one that was used
    /// longest ago is closed before another is opened. Of each open file `gathered` bytes are gathered; where that is 0 each piece
    /// is written by the append that brings it. `flows` rises with each flow that gets a file.
    pub fn new(
        rt: R,
        most: usize,
        gathered: usize,
        flows: &'a AtomicU64,
    ) -> Result<FileShelf<'a, R>, AllocError>
        ensures { IfOk result (λ s. s ≡ record { faults = 0; appended = 0 }) }
    {
        let files = FlowFiles::new(&rt, most, gathered)?;
        Ok(FileShelf {
            rt,
            files,
            flows,
            lost: None,
            faults: 0,
            appended: 0,
        })
    }

    /// What failed first, if anything did. It is for people to read: no clause speaks of it.
    pub fn lost(&self) -> Option<Lost> {
        self.lost
    }
}

impl<R: Files + AllocGlobal> FileShelf<'_, R> {
    /// Counts what failed.
    fn count<V>(&mut self, outcome: Result<V, Lost>) -> Result<V, Failed>
        ensures cause { HasCause self.old.faults self.new.faults result }
        ensures after { MatchResult result (λ _. self.new ≡ self.old)
            (λ _. self.new ≡ record self.old { faults = raised self.old.faults }) }
    {
        match outcome {
            Ok(value) => Ok(value),
            Err(lost) => {
                self.lost = self.lost.or(Some(lost));
                self.faults = self.faults.saturating_add(1);
                Err(Failed)
            }
        }
    }
}

impl<R: Files + AllocGlobal> Shelf for FileShelf<'_, R> {
    ghost kept = { λ _ _. None };

    ghost counts = { λ s. s };

    fn append(&mut self, flow: u32, piece: &[u8]) -> Result<(), Failed>
        ensures bytes { AddsPiece None None result piece.now }
        ensures others { (other : ℕ) → other ≢ flow → Keeps None None }
        ensures cause { HasCause self.old.faults self.new.faults result }
        ensures counted { CountsPiece self.old.appended self.new.appended result piece.now }

        ensures after { MatchResult result
            (λ _. self.new ≡ record
            self.old { appended = raised_by self.old.appended (length piece.now) })
            (λ _. self.new ≡ record self.old { faults = raised self.old.faults }) }
    {
        let added = self.files.add(&self.rt, flow, piece);
        let made = self.count(added)?;
        self.flows.fetch_add(u64::from(made), Ordering::SeqCst);
        self.appended = self.appended.saturating_add(piece.len() as u64);
        Ok(())
    }

    /// Writes what is gathered, and closes all files. Where that fails at several, it is one fault.
    fn flush(&mut self) -> Result<(), Failed>
        ensures bytes { (flow : ℕ) → Keeps None None }
        ensures cause { HasCause self.old.faults self.new.faults result }
        ensures counted { self.new.appended ≡ self.old.appended }

        ensures after { MatchResult result (λ _. self.new ≡ self.old)
            (λ _. self.new ≡ record self.old { faults = raised self.old.faults }) }
    {
        let closed = self.files.close_all();
        self.count(closed)
    }
}
