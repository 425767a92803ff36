//! One call over memory, and what it left.
ghost use Rattle.top_call.specs.Cards.{IsClosed};

use replay_threads::{Gate, NoGate};
use std::alloc::{AllocError, Global};
use std::collections::hash_map::RandomState;
use std::random::RandomSource;
use std::sync::Wait;
use std::test::Fail;
use std::thread::Threads;
use top_call::{Card, SHELVES, zcrx};
use zr_io::{MemShelf, MemSink, MemSource, Source};

/// How many flows a shelf has room for.
pub const FLOWS: u32 = 12;

/// How many bytes of a flow a shelf has room for: more than a small test's stream.
const STREAM_ROOM: usize = 200;

/// How many bytes a sink has room for: more than a small test's report.
const REPORT_ROOM: usize = 2000;

/// The most bytes of a small test's capture.
const MOST: usize = 3000;

/// A call of an application's shelf that fails, and how many bytes go out before.
#[derive(Clone, Copy)]
pub struct ShelfFail {
    pub app: usize,
    /// From 1.
    pub call: u64,
    pub bytes: usize,
}

/// What a call is given.
#[derive(Clone, Copy)]
pub struct Given<'a> {
    pub words: &'a [&'a str],
    /// The source's bytes.
    pub bytes: &'a [u8],
    /// How many of them a call gives at most, at least 1.
    pub most: usize,
    /// The calls of the source that fail, from 1.
    pub source_fails: &'a [u64],
    /// The calls of shelves that fail.
    pub shelf_fails: &'a [ShelfFail],
    /// The calls of the sink that fail, with how many bytes go out before.
    pub sink_fails: &'a [(u64, usize)],
    /// How many bytes of each flow a shelf has room for.
    pub stream_room: usize,
    /// How many bytes the sink has room for.
    pub sink_room: usize,
}

/// What a call left.
#[derive(Drop)]
pub struct Left {
    pub status: u8,
    /// The free buffers of the run's board. There is no board where nothing was replayed.
    pub free: Option<Vec<u32>>,
    /// What the sink got.
    pub sent: Vec<u8>,
    pub shelves: Vec<MemShelf>,
    /// What the source's next call gives.
    pub next: Vec<u8>,
}

/// A replay of port 9000 where no call fails.
pub const fn faultless(bytes: &[u8]) -> Given<'_> {
    Given {
        words: &["replay", "9000"],
        bytes,
        most: MOST,
        source_fails: &[],
        shelf_fails: &[],
        sink_fails: &[],
        stream_room: STREAM_ROOM,
        sink_room: REPORT_ROOM,
    }
}

/// The calls of this application's shelf that fail.
fn fails_of(
    alloc: Global,
    app: usize,
    fails: &[ShelfFail],
) -> Result<Vec<(u64, usize)>, AllocError> {
    let mut own = Vec::new(alloc);
    for fail in fails {
        if fail.app == app {
            own.push((fail.call, fail.bytes))?;
        }
    }
    Ok(own)
}

/// Eight shelves with room for so many bytes of each of so many flows.
pub fn shelves_for(
    alloc: Global,
    flows: u32,
    room: usize,
    fails: &[ShelfFail],
) -> Result<Vec<MemShelf>, AllocError> {
    let mut shelves = Vec::with_capacity(alloc, SHELVES)?;
    for app in 0..SHELVES {
        let own = fails_of(alloc, app, fails)?;
        shelves.push(MemShelf::new(alloc, flows, room, own)?)?;
    }
    Ok(shelves)
}

/// What the source's next call gives.
fn next_of(alloc: Global, source: &mut MemSource) -> Result<Vec<u8>, Fail> {
    let mut next = [0; MOST];
    let count = source.read(&mut next)?;
    Ok(next[..count].to_vec(alloc)?)
}

/// The free buffers of the board that is left, if there is one.
pub fn free_buffers(card: Card) -> Option<Vec<u32>>
    requires { IsClosed card }
{
    match card {
        Card::Blank | Card::Found(_) => None,
        card => Some(card.free().free),
    }
}

/// Runs the command. The gate is asked before each turn on threads.
pub fn run_behind<G: Gate + Sync>(
    rt: &(impl AllocGlobal + RandomSource + Threads + Wait + Sync),
    given: &Given<'_>,
    gate: &G,
) -> Result<Left, Fail> {
    let alloc = rt.alloc();
    if given.most < 1 {
        return Err(Fail::new("no byte a call"));
    }
    let bytes = given.bytes.to_vec(alloc)?;
    let mut source = MemSource::new(bytes, given.most, given.source_fails.to_vec(alloc)?);
    let mut shelves = shelves_for(alloc, FLOWS, given.stream_room, given.shelf_fails)?;
    if shelves.len() != SHELVES {
        return Err(Fail::new("another number of shelves"));
    }
    let mut out = MemSink::new(alloc, given.sink_room, given.sink_fails.to_vec(alloc)?)?;
    let random = RandomState::new(rt)?;
    let mut card = Card::Blank;
    let status = zcrx(
        rt,
        alloc,
        random,
        given.words,
        &mut source,
        &mut shelves,
        &mut out,
        gate,
        &mut card,
    );
    Ok(Left {
        status,
        free: free_buffers(card),
        sent: out.bytes().to_vec(alloc)?,
        shelves,
        next: next_of(alloc, &mut source)?,
    })
}

/// Runs the command.
pub fn run(
    rt: &(impl AllocGlobal + RandomSource + Threads + Wait + Sync),
    given: &Given<'_>,
) -> Result<Left, Fail> {
    run_behind(rt, given, &NoGate)
}
