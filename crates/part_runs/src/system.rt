//! A source over a reader, and a sink over a writer.
ghost use Rattle.std.specs.Prelude.{◌≤◌, IfOk};

use crate::calls::{expect_bytes, expect_reads, expect_writes};
use std::io::{self, ErrorKind, Read, Write};
use std::process::Abort;
use zr_io::{Failed, StdSink, StdSource};

/// Gives or takes one byte a call, until it is used up.
#[derive(Drop)]
struct Worn {
    calls: u8,
    end: End,
}

/// How a worn stream ends.
#[derive(Clone, Copy)]
enum End {
    Error,
    Nothing,
}

impl Worn {
    fn step(&mut self) -> io::Result<usize>
        ensures { IfOk result (λ n. n ≤ 1) }
    {
        if self.calls > 0 {
            self.calls -= 1;
            return Ok(1);
        }
        match self.end {
            End::Error => Err(io::Error::from(ErrorKind::BrokenPipe)),
            End::Nothing => Ok(0),
        }
    }
}

impl Read for Worn {
    fn read(&mut self, into: &mut [u8]) -> io::Result<usize> {
        let count = self.step()?.min(into.len());
        into[..count].fill(b'w');
        Ok(count)
    }
}

impl Write for Worn {
    fn write(&mut self, from: &[u8]) -> io::Result<usize> {
        Ok(self.step()?.min(from.len()))
    }

    fn flush(&mut self) -> io::Result<()> {
        Ok(())
    }
}

/// Fails at its first call, and gives one byte at each later one.
#[derive(Drop)]
struct Late {
    error: Option<ErrorKind>,
}

impl Read for Late {
    fn read(&mut self, into: &mut [u8]) -> io::Result<usize> {
        if let Some(kind) = self.error.take() {
            return Err(io::Error::from(kind));
        }
        let count = into.len().min(1);
        into[..count].fill(b'l');
        Ok(count)
    }
}

/// Takes all bytes, and loses them when it is flushed.
#[derive(Drop)]
struct Lossy;

impl Write for Lossy {
    fn write(&mut self, from: &[u8]) -> io::Result<usize> {
        Ok(from.len())
    }

    fn flush(&mut self) -> io::Result<()> {
        Err(io::Error::from(ErrorKind::StorageFull))
    }
}

/// A source fails once with this error, and gives what comes behind it only at the next call.
fn expect_late(rt: &impl Abort, kind: ErrorKind) {
    let mut source = StdSource::new(Late { error: Some(kind) });
    expect_reads(rt, &mut source, &[Err(Failed), Ok(b"l")]);
}

/// A sink whose writer takes so many bytes, one at a call, answers so.
fn expect_worn(rt: &impl Abort, calls: u8, end: End, pieces: &[(&[u8], Result<(), Failed>)]) {
    let mut sink = StdSink::new(Worn { calls, end });
    expect_writes(rt, &mut sink, pieces);
}

#[test]
fn a_source_reads_a_slice(rt: HostRuntime) {
    let mut source = StdSource::new(&b"hello"[..]);
    expect_reads(&rt, &mut source, &[Ok(b"hello"), Ok(b"")]);
}

#[test]
fn a_source_fails_with_its_reader(rt: HostRuntime) {
    let mut source = StdSource::new(Worn {
        calls: 1,
        end: End::Error,
    });
    expect_reads(&rt, &mut source, &[Ok(b"w"), Err(Failed)]);
}

/// The reader would give bytes at a second try.
#[test]
fn a_source_tries_no_failed_read_again(rt: HostRuntime) {
    expect_late(&rt, ErrorKind::Interrupted);
    expect_late(&rt, ErrorKind::BrokenPipe);
}

#[test]
fn a_sink_sends_the_whole_piece(rt: HostRuntime) {
    let mut bytes = Vec::new(rt.alloc());
    let mut sink = StdSink::new(&mut bytes);
    expect_writes(&rt, &mut sink, &[(b"hello", Ok(()))]);
    drop(sink);
    expect_bytes(&rt, &bytes, b"hello");
}

#[test]
fn a_sink_fails_with_its_writer(rt: HostRuntime) {
    expect_worn(
        &rt,
        3,
        End::Error,
        &[(b"he", Ok(())), (b"llo", Err(Failed))],
    );
}

#[test]
fn a_sink_fails_where_nothing_is_taken(rt: HostRuntime) {
    expect_worn(
        &rt,
        0,
        End::Nothing,
        &[(b"", Ok(())), (b"hello", Err(Failed))],
    );
}

#[test]
fn a_sink_fails_where_its_writer_cannot_be_flushed(rt: HostRuntime) {
    let mut sink = StdSink::new(Lossy);
    expect_writes(
        &rt,
        &mut sink,
        &[(b"hello", Err(Failed)), (b"", Err(Failed))],
    );
}
