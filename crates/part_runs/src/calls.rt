//! Calls of a source, a sink or a shelf, one after another, each with what it has to answer.

use std::process::Abort;
use zr_io::{Failed, Shelf, Sink, Source};

/// The bytes that one call of a source gives.
fn next<'a, S: Source>(source: &mut S, into: &'a mut [u8; 8]) -> Result<&'a [u8], Failed> {
    let count = source.read(into)?;
    Ok(&into[..count])
}

/// The source gives these, each in a call that has room for 8 bytes.
pub fn expect_reads<S: Source>(rt: &impl Abort, source: &mut S, answers: &[Result<&[u8], Failed>]) {
    for (at, answer) in answers.iter().enumerate() {
        let mut room = [0; 8];
        assert!(rt; next(source, &mut room) == *answer, "read {at}");
    }
}

/// The sink is sent these pieces, each with its answer.
pub fn expect_writes<S: Sink>(
    rt: &impl Abort,
    sink: &mut S,
    pieces: &[(&[u8], Result<(), Failed>)],
) {
    for (at, (piece, answer)) in pieces.iter().enumerate() {
        assert!(rt; sink.write_all(piece) == *answer, "piece {at}");
    }
}

/// These pieces are appended to the flows that stand before them, each with its answer.
pub fn expect_appends<S: Shelf>(
    rt: &impl Abort,
    shelf: &mut S,
    pieces: &[(u32, &[u8], Result<(), Failed>)],
) {
    for (at, (flow, piece, answer)) in pieces.iter().enumerate() {
        assert!(rt; shelf.append(*flow, piece) == *answer, "piece {at}");
    }
}

pub fn expect_bytes(rt: &impl Abort, bytes: &[u8], wanted: &[u8]) {
    assert!(rt; bytes == wanted, "{bytes:?}");
}
