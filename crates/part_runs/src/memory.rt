//! Sources, sinks and shelves over memory.

use crate::calls::{expect_appends, expect_bytes, expect_reads, expect_writes};
use std::alloc::{AllocError, Global};
use std::process::Abort;
use zr_io::{Failed, MemShelf, MemSink, MemSource, Shelf, SureSource};

/// A source of `hello` that gives at most 3 bytes at a call, and of which the listed calls fail.
fn hello(alloc: Global, fails: &[u64]) -> Result<MemSource, AllocError> {
    let bytes = Vec::from_slice(alloc, b"hello")?;
    Ok(MemSource::new(bytes, 3, fails.to_vec(alloc)?))
}

/// That source gives these.
fn expect_source(
    rt: &(impl Abort + AllocGlobal),
    fails: &[u64],
    answers: &[Result<&[u8], Failed>],
) {
    let mut source = hello(rt.alloc(), fails).expect(rt, "memory");
    expect_reads(rt, &mut source, answers);
}

/// A sink with room for so many bytes is sent these, and has those in the end.
fn expect_sink(
    rt: &(impl Abort + AllocGlobal),
    room: usize,
    fails: &[(u64, usize)],
    pieces: &[(&[u8], Result<(), Failed>)],
    bytes: &[u8],
) {
    let fails = fails.to_vec(rt.alloc()).expect(rt, "memory");
    let mut sink = MemSink::new(rt.alloc(), room, fails).expect(rt, "memory");
    expect_writes(rt, &mut sink, pieces);
    expect_bytes(rt, sink.bytes(), bytes);
}

/// A shelf for two flows, with room for so many bytes of each, gets these pieces and is flushed, and has those of both in
/// the end.
fn expect_shelf(
    rt: &(impl Abort + AllocGlobal),
    room: usize,
    fails: &[(u64, usize)],
    pieces: &[(u32, &[u8], Result<(), Failed>)],
    flows: [&[u8]; 2],
) {
    let fails = fails.to_vec(rt.alloc()).expect(rt, "memory");
    let mut shelf = MemShelf::new(rt.alloc(), 2, room, fails).expect(rt, "memory");
    expect_appends(rt, &mut shelf, pieces);
    assert!(rt; shelf.flush().is_ok());
    expect_bytes(rt, shelf.flow(0), flows[0]);
    expect_bytes(rt, shelf.flow(1), flows[1]);
}

#[test]
fn a_source_gives_its_most_at_a_time(rt: HostRuntime) {
    expect_source(&rt, &[], &[Ok(b"hel"), Ok(b"lo"), Ok(b"")]);
}

#[test]
fn a_source_fails_at_a_listed_call(rt: HostRuntime) {
    expect_source(&rt, &[2], &[Ok(b"hel"), Err(Failed), Ok(b"lo")]);
}

#[test]
fn a_sure_source_gives_all_that_fits(rt: HostRuntime) {
    let bytes = Vec::from_slice(rt.alloc(), b"hello, world").expect(&rt, "memory");
    let mut source = SureSource::new(bytes);
    expect_reads(&rt, &mut source, &[Ok(b"hello, w"), Ok(b"orld")]);
}

#[test]
fn a_sink_keeps_what_went_out(rt: HostRuntime) {
    let pieces: [(&[u8], Result<(), Failed>); 3] = [
        (b"he", Ok(())),
        (b"llo!", Err(Failed)),
        (b"llo", Ok(())),
    ];
    expect_sink(&rt, 5, &[], &pieces, b"hello");
}

#[test]
fn a_sink_fails_after_the_listed_bytes(rt: HostRuntime) {
    expect_sink(&rt, 10, &[(1, 2)], &[(b"hello", Err(Failed))], b"he");
}

#[test]
fn a_shelf_keeps_each_flow(rt: HostRuntime) {
    expect_shelf(
        &rt,
        5,
        &[],
        &[
            (1, b"he", Ok(())),
            (1, b"llo!", Err(Failed)),
            (2, b"x", Err(Failed)),
            (1, b"llo", Ok(())),
        ],
        [b"", b"hello"],
    );
}

#[test]
fn a_shelf_fails_after_the_listed_bytes(rt: HostRuntime) {
    expect_shelf(
        &rt,
        10,
        &[(1, 2)],
        &[(0, b"hello", Err(Failed))],
        [b"he", b""],
    );
}
