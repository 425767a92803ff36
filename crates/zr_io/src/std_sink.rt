//! A sink over a writer of the system.
ghost use Rattle.std.specs.Prelude.{◌≡◌, MatchResult};
ghost use Rattle.zr_io.specs.{Moved.{AddsPiece, HasCause}, Memory.{raised}};

use crate::calls::raise;
use crate::send::send;
use crate::traits::{Failed, Sink};
use std::io::Write;
use std::marker::Model;

/// Sends to a writer, and flushes it after each piece. It tells its bytes where the writer does, and counts the
/// writer's errors.
#[derive(Drop)]
pub struct StdSink<W: Write> {
    writer: W,
    faults: u64,
}

impl<W: Write> Model for StdSink<W> {
    ghost use Rattle.zr_io.specs.Memory.{Stream};

    ghost Value = { Stream };

    ghost view = { λ s. record { bytes = W.contents s.writer; faults = s.faults } };
}

impl<W: Write> StdSink<W> {
    /// Sends to `writer`.
    pub fn new(writer: W) -> StdSink<W>
        ensures { result ≡ record { bytes = W.contents writer; faults = 0 } }
    {
        StdSink { writer, faults: 0 }
    }
}

impl<W: Write> Sink for StdSink<W> {
    ghost sent = { λ s. s.bytes };

    ghost faults = { λ s. s.faults };

    fn write_all(&mut self, piece: &[u8]) -> Result<(), Failed>
        ensures bytes { AddsPiece self.old.bytes self.new.bytes result piece.now }
        ensures cause { HasCause self.old.faults self.new.faults result }

        ensures after { MatchResult result (λ _. self.new.faults ≡ self.old.faults)
            (λ _. self.new.faults ≡ raised self.old.faults) }
    {
        let result = send(&mut self.writer, piece);
        if result.is_err() {
            raise(&mut self.faults);
        }
        result
    }
}
