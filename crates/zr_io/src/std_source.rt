//! A source over a reader of the system.
ghost use Rattle.std.specs.{Prelude.{◌≡◌, ◌<◌, length, MatchResult}, Io.{ReadsAtMost, KnownBytes.{ReadConsumes}}};
ghost use Rattle.zr_io.specs.{Moved.{HasCause}, Memory.{raised}};

use crate::calls::raise;
use crate::traits::{Failed, Source};
use std::io::Read;
use std::marker::Model;

/// What a reader gives. It tells its bytes where the reader does, and counts the reader's errors.
#[derive(Drop)]
pub struct StdSource<R: Read> {
    reader: R,
    faults: u64,
}

impl<R: Read> Model for StdSource<R> {
    ghost use Rattle.zr_io.specs.Memory.{Stream};

    ghost Value = { Stream };

    ghost view = { λ s. record { bytes = R.remaining s.reader; faults = s.faults } };
}

impl<R: Read> StdSource<R> {
    /// Reads what `reader` gives from here on.
    pub fn new(reader: R) -> StdSource<R>
        ensures { result ≡ record { bytes = R.remaining reader; faults = 0 } }
    {
        StdSource { reader, faults: 0 }
    }
}

impl<R: Read> Source for StdSource<R> {
    ghost left = { λ s. s.bytes };

    ghost faults = { λ s. s.faults };

    fn read(&mut self, into: &mut [u8]) -> Result<usize, Failed>
        requires { 0 < length into.old }
        ensures bound { ReadsAtMost result into.new }
        ensures bytes { ReadConsumes self.old.bytes self.new.bytes result into.new }
        ensures cause { HasCause self.old.faults self.new.faults result }

        ensures after { MatchResult result (λ _. self.new.faults ≡ self.old.faults)
            (λ _. self.new.faults ≡ raised self.old.faults) }
    {
        match self.reader.read(into) {
            Ok(count) => Ok(count),
            Err(_) => {
                raise(&mut self.faults);
                Err(Failed)
            }
        }
    }
}
