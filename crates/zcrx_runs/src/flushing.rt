//! Shelves whose flush fails, behind a run in which all went well.
ghost use Rattle.std.specs.{Prelude.{◌≡◌, ℕ, ◌≢◌, None}, Io.KnownBytes.{Keeps}};
ghost use Rattle.zr_io.specs.Moved.{AddsPiece, CountsPiece, HasCause};

use replay_threads::NoGate;
use run_driver::samples::{PSH_ACK, capture_of, to_9000, to_9001};
use std::alloc::Global;
use std::collections::hash_map::RandomState;
use std::random::RandomSource;
use std::sync::Wait;
use std::test::Fail;
use std::thread::Threads;
use top_call::{Card, SHELVES, zcrx};
use zr_io::{Failed, MemShelf, MemSink, MemSource, Shelf};

/// How many bytes of each flow a shelf has room for.
const STREAM_ROOM: usize = 100;

/// How many bytes the sink has room for.
const REPORT_ROOM: usize = 1000;

/// A shelf over memory, which counts its flushes. It tells no bytes.
#[derive(Drop)]
struct Flushed {
    shelf: MemShelf,
    /// Whether a flush fails.
    fails: bool,
    flushes: u32,
    faults: u64,
    appended: u64,
}

impl Flushed {
    /// Counts what failed.
    fn count(&mut self, outcome: Result<(), Failed>) -> Result<(), Failed>
        ensures cause { HasCause self.old.faults self.new.faults result }
        ensures same { self.new.appended ≡ self.old.appended }
    {
        match outcome {
            Ok(()) => Ok(()),
            Err(Failed) => {
                self.faults = self.faults.saturating_add(1);
                Err(Failed)
            }
        }
    }
}

impl Shelf for Flushed {
    ghost kept = { λ _ _. None };

    ghost counts = { λ s. record { faults = s.faults; appended = s.appended } };

    fn append(&mut self, flow: u32, piece: &[u8]) -> Result<(), Failed>
        ensures bytes { AddsPiece None None result piece.now }
        ensures others { (other : ℕ) → other ≢ flow → Keeps None None }
        ensures cause { HasCause self.old.faults self.new.faults result }
        ensures counted { CountsPiece self.old.appended self.new.appended result piece.now }
    {
        let added = self.shelf.append(flow, piece);
        self.count(added)?;
        self.appended = self.appended.saturating_add(piece.len() as u64);
        Ok(())
    }

    fn flush(&mut self) -> Result<(), Failed>
        ensures bytes { (flow : ℕ) → Keeps None None }
        ensures cause { HasCause self.old.faults self.new.faults result }
        ensures counted { self.new.appended ≡ self.old.appended }
    {
        self.flushes = self.flushes.saturating_add(1);
        self.count(if self.fails { Err(Failed) } else { Ok(()) })
    }
}

/// A replay of `hello` to port 9000 and `whole` to port 9001.
#[derive(Clone, Copy)]
struct Row<'a> {
    words: &'a [&'a str],
    /// The shelf whose flush fails.
    fails: usize,
    /// What the two applications say that stopped them.
    stopped: [&'a str; 2],
    status: u8,
}

/// Eight shelves, of which the flush of one fails.
fn shelves(alloc: Global, fails: usize) -> Result<Vec<Flushed>, Fail> {
    let mut shelves = Vec::with_capacity(alloc, SHELVES)?;
    for app in 0..SHELVES {
        shelves.push(Flushed {
            shelf: MemShelf::new(alloc, 2, STREAM_ROOM, Vec::new(alloc))?,
            fails: app == fails,
            flushes: 0,
            faults: 0,
            appended: 0,
        })?;
    }
    Ok(shelves)
}

/// Those of the two applications were flushed once and have what was sent, and no other was touched.
fn check_shelves(shelves: &[Flushed]) -> Result<(), Fail> {
    for (app, shelf) in shelves.iter().enumerate() {
        let (flushes, first, second): (u32, &[u8], &[u8]) = match app {
            0 => (1, b"hello", b""),
            1 => (1, b"", b"whole"),
            _ => (0, b"", b""),
        };
        if shelf.flushes != flushes {
            return Err(Fail::new(format_args!("shelf {app}: flushed {} times", shelf.flushes)));
        }
        if shelf.shelf.flow(0) != first || shelf.shelf.flow(1) != second {
            return Err(Fail::new(format_args!("shelf {app}: other streams")));
        }
    }
    Ok(())
}

/// Replays, and compares status, report and shelves.
fn check_row(
    rt: &(impl AllocGlobal + RandomSource + Threads + Wait + Sync),
    row: &Row<'_>,
) -> Result<(), Fail> {
    let alloc = rt.alloc();
    let sent = [
        to_9000(1001, PSH_ACK, b"hello"),
        to_9001(500, PSH_ACK, b"whole"),
    ];
    let mut source = MemSource::new(capture_of(alloc, &sent)?, REPORT_ROOM, Vec::new(alloc));
    let mut shelves = shelves(alloc, row.fails)?;
    if shelves.len() != SHELVES {
        return Err(Fail::new("another number of shelves"));
    }
    let mut out = MemSink::new(alloc, REPORT_ROOM, Vec::new(alloc))?;
    let random = RandomState::new(rt)?;
    let mut card = Card::Blank;
    let status = zcrx(
        rt,
        alloc,
        random,
        row.words,
        &mut source,
        &mut shelves,
        &mut out,
        &NoGate,
        &mut card,
    );
    if status != row.status {
        return Err(Fail::new(format_args!("status {status}")));
    }
    let [first, second] = row.stopped;
    let report = format!(in alloc;
        "\
capture records 2 tcp 2 steered 2 other 0 fragment 0 cut 0 bad 0
app 0 port 9000 written 5 loans 1 copied 0 stopped {first}
app 1 port 9001 written 5 loans 1 copied 0 stopped {second}
flow 0 port 9000 base 1001 bytes 5 fin no end open
flow 1 port 9001 base 500 bytes 5 fin no end open
pool fast 0 refill 0 slow 1 empty 0 strays 0
status {status}
"
    )?;
    let told = str::from_utf8(out.bytes())?;
    if told != report.as_str() {
        return Err(Fail::new(format_args!("{told}")));
    }
    check_shelves(&shelves)
}

/// Replays one after another.
fn check_rows(
    rt: &(impl AllocGlobal + RandomSource + Threads + Wait + Sync),
    rows: &[Row<'_>],
) -> Result<(), Fail> {
    for row in rows {
        check_row(rt, row)?;
    }
    Ok(())
}

/// A flush that fails is told by its application's line, and by the status; the other shelves are flushed all the same.
#[test]
fn a_failed_flush_is_told(rt: HostRuntime) -> Result<(), Fail> {
    let words: &[&str] = &["replay", "9000", "9001"];
    let turns: &[&str] = &["replay", "--turns", "n", "9000", "9001"];
    let row = Row {
        words,
        fails: 0,
        stopped: ["write", "no"],
        status: 9,
    };
    let second = Row {
        fails: 1,
        stopped: ["no", "write"],
        ..row
    };
    check_rows(
        &rt,
        &[
            row,
            second,
            Row {
                words: turns,
                ..row
            },
            Row {
                words: turns,
                ..second
            },
        ],
    )
}

/// One that had quit says so still, and the status tells of the flush.
#[test]
fn one_that_quit_says_so(rt: HostRuntime) -> Result<(), Fail> {
    let row = Row {
        words: &["replay", "--quit", "5", "9000", "9001"],
        fails: 1,
        stopped: ["quit", "quit"],
        status: 9,
    };
    let turns = Row {
        words: &["replay", "--quit", "5", "--turns", "n", "9000", "9001"],
        ..row
    };
    check_rows(&rt, &[row, turns])
}

/// The shelf of no application isn't flushed.
#[test]
fn others_are_not_flushed(rt: HostRuntime) -> Result<(), Fail> {
    let row = Row {
        words: &["replay", "9000", "9001"],
        fails: 2,
        stopped: ["no", "no"],
        status: 0,
    };
    let turns = Row {
        words: &["replay", "--turns", "n", "9000", "9001"],
        ..row
    };
    check_rows(&rt, &[row, turns])
}
