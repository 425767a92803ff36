//! A source line by line.
ghost use Rattle.std.specs.{Prelude.{◌≡◌, [], IfOk, IsTrue}, Io.KnownBytes.{IsAtEnd}};
ghost use Rattle.run_check.specs.{Judged.{HasCheckCause}, Coming.{ReadsLine, ahead, IsOver}};

use crate::bytes::Bytes;
use std::alloc::{AllocError, Global};
use zr_io::Source;
use zr_kinds::Fault;

/// The most bytes of a line, without its line feed.
const MOST_BYTES: usize = 128;

/// The lines of a source.
#[derive(Drop)]
pub(crate) struct Lines {
    bytes: Bytes,
    line: Vec<u8>,
}

impl Lines {
    pub(crate) fn new(alloc: Global) -> Result<Lines, AllocError>
        ensures { IfOk result (λ lines. lines.bytes ≡ []) }
    {
        Ok(Lines {
            bytes: Bytes::new(alloc)?,
            line: Vec::with_capacity(alloc, MOST_BYTES + 1)?,
        })
    }

    /// Reads the next line, and answers whether there is one: some bytes up to a line feed, at most 128.
    pub(crate) fn read<S: Source>(&mut self, source: &mut S) -> Result<bool, Fault>
        ensures reads { IfOk result
            (ReadsLine (ahead self.old.bytes (S.left source.old))
            (ahead self.new.bytes (S.left source.new)) self.new.line.items) }
        ensures cause { HasCheckCause (S.faults source.old) (S.faults source.new) result }
    {
        self.line.clear();
        for _ in 0..=MOST_BYTES {
            match self.bytes.next(source)? {
                None => return Ok(false),
                Some(b'\n') => return Ok(true),
                Some(byte) => {
                    if self.line.push(byte).is_err() {
                        return Err(Fault::Memory);
                    }
                }
            }
        }
        Ok(false)
    }

    /// The line that was read last.
    pub(crate) fn line(&self) -> &[u8]
        ensures { result.now ≡ self.now.line.items }
    {
        &self.line
    }

    /// Whether the source is at its end.
    pub(crate) fn is_over<S: Source>(&mut self, source: &mut S) -> Result<bool, Fault>
        ensures over { IfOk result (IsOver (ahead self.old.bytes (S.left source.old))) }
        ensures end { IfOk result (λ over. IsTrue over → IsAtEnd (S.left source.new)) }
        ensures cause { HasCheckCause (S.faults source.old) (S.faults source.new) result }
    {
        Ok(self.bytes.next(source)?.is_none())
    }
}
