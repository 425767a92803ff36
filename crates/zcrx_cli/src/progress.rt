//! A line that shows how far a replay or a check has come, on standard error where that is a terminal. No clause speaks of it.

ghost use Rattle.std.specs.Prelude.{◌<◌};

use std::io::IsTerminal;
use std::sync::atomic::{AtomicU64, Ordering};
use std::time::{Duration, Instant};

/// What takes no longer shows nothing, in milliseconds.
const PATIENCE: u64 = 1000;

/// The line is drawn again no sooner, in milliseconds.
const PAUSE: u64 = 100;

/// The clock is looked at behind so many pieces of a capture.
const CAPTURE_PIECES: u32 = 256;

/// And behind so many of a record, which are larger.
const RECORD_PIECES: u32 = 16;

/// Moves to the begin of the line and clears it (ECMA-48, EL).
const CLEAR: &str = "\r\x1b[K";

/// What is read.
#[derive(Clone, Copy)]
pub(crate) enum Input {
    Capture,
    /// The record of a run.
    Record,
}

impl Input {
    /// Behind so many pieces the clock is looked at.
    fn pieces(self) -> u32
        ensures { 0 < result }
    {
        match self {
            Input::Capture => CAPTURE_PIECES,
            Input::Record => RECORD_PIECES,
        }
    }
}

/// What was read so far, and when the line was drawn last.
#[derive(Drop)]
pub(crate) struct Progress<'a> {
    rt: &'a HostRuntime,
    input: Input,
    /// How many flows have a file, which the shelves count.
    flows: &'a AtomicU64,
    /// When the line is drawn next.
    next: Instant,
    drawn: bool,
    pieces: u32,
    bytes: u64,
    lines: u64,
}

impl<'a> Progress<'a> {
    /// Begins now, where something is read and standard error is a terminal.
    pub(crate) fn new(
        rt: &'a HostRuntime,
        input: Option<Input>,
        flows: &'a AtomicU64,
    ) -> Option<Progress<'a>> {
        let input = input?;
        if !rt.stderr().is_terminal() {
            return None;
        }
        let next = Instant::now(rt)
            .ok()?
            .checked_add(Duration::from_millis(PATIENCE))?;
        Some(Progress {
            rt,
            input,
            flows,
            next,
            drawn: false,
            pieces: 0,
            bytes: 0,
            lines: 0,
        })
    }

    /// These bytes more were read, of so many records in all.
    pub(crate) fn count(&mut self, piece: &[u8], records: u64) {
        self.bytes = self.bytes.saturating_add(piece.len() as u64);
        if matches!(self.input, Input::Record) {
            let lines = piece.iter().filter(|byte| **byte == b'\n').count();
            self.lines = self.lines.saturating_add(lines as u64);
        }
        self.pieces = self.pieces.wrapping_add(1);
        if self.pieces % self.input.pieces() == 0 {
            self.draw(records);
        }
    }

    fn draw(&mut self, records: u64) {
        let Ok(now) = Instant::now(self.rt) else {
            return;
        };
        if now < self.next {
            return;
        }
        if let Some(next) = now.checked_add(Duration::from_millis(PAUSE)) {
            self.next = next;
        }
        self.drawn = true;
        let (bytes, lines) = (self.bytes, self.lines);
        let _ = match self.input {
            Input::Capture => {
                let flows = self.flows.load(Ordering::SeqCst);
                eprint!(self.rt; "{CLEAR}zcrx: {records} records, {bytes} bytes, {flows} flows")
            }
            Input::Record => eprint!(self.rt; "{CLEAR}zcrx: {lines} lines, {bytes} bytes"),
        };
    }

    /// Clears the line, if it was drawn.
    pub(crate) fn clear(&self) {
        if self.drawn {
            let _ = eprint!(self.rt; "{CLEAR}");
        }
    }
}
