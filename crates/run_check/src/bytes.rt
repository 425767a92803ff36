//! A source byte by byte.
ghost use Rattle.std.specs.Prelude.{◌≡◌, [], IfOk};
ghost use Rattle.run_check.specs.{Judged.{HasCheckCause}, Coming.{GivesByte, IsLeftEmpty, ahead}};

use std::alloc::{AllocError, Global};
use std::marker::Model;
use zr_io::Source;
use zr_kinds::Fault;

/// How many bytes are asked of the source at once.
const BUFFER: usize = 4096;

/// The bytes that were read and wait to be given.
#[derive(Drop)]
pub(crate) struct Bytes {
    buffer: Vec<u8>,
    /// How many bytes of the buffer were given.
    given: usize,
    /// How many were read.
    read: usize,
}

impl Model for Bytes {
    ghost use Rattle.std.specs.Prelude.{ℕ, List, ◌<◌, ◌≤◌, length, take, drop};

    ghost Value = { List ℕ };

    ghost view = { λ b. drop b.given (take b.read b.buffer.items) };

    ghost invariant = { λ b. (b.given ≤ b.read) × (b.read ≤ length b.buffer.items) × (0 < length b.buffer.items) };
}

impl Bytes {
    pub(crate) fn new(alloc: Global) -> Result<Bytes, AllocError>
        ensures { IfOk result (λ bytes. bytes ≡ []) }
    {
        Ok(Bytes {
            buffer: vec![in alloc; 0u8; BUFFER]?,
            given: 0,
            read: 0,
        })
    }

    /// The next byte. `Ok(None)` is the end.
    pub(crate) fn next<S: Source>(&mut self, source: &mut S) -> Result<Option<u8>, Fault>
        ensures gives { IfOk result
            (GivesByte (ahead self.old (S.left source.old)) (ahead self.new (S.left source.new))) }
        ensures end { IfOk result (IsLeftEmpty (S.left source.new)) }
        ensures cause { HasCheckCause (S.faults source.old) (S.faults source.new) result }
    {
        if self.given == self.read {
            let Ok(count) = source.read(&mut self.buffer) else {
                return Err(Fault::Read);
            };
            self.given = 0;
            self.read = count;
            if count == 0 {
                return Ok(None);
            }
        }
        let byte = self.buffer[self.given];
        self.given += 1;
        Ok(Some(byte))
    }
}
