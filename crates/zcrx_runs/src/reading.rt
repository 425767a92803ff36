//! Captures with a flow too many, which are read beside the card.
ghost use Rattle.std.specs.Prelude.{Some};

use super::checks::check_number;
use super::gates::{APART, waits_for};
use super::limits::{check_report, report_of_syns, syns};
use replay_threads::{Gate, NoGate};
use run_driver::samples::{SYN, frame, record_of, to_9000};
use std::alloc::Global;
use std::random::RandomSource;
use std::sync::Wait;
use std::sync::atomic::{AtomicU64, Ordering};
use std::test::Fail;
use std::thread::Threads;
use zr_io::{Failed, MemSource, Source};

/// More bytes than a call of a source is asked for.
const ALL: usize = 65_536;

/// The number of the record that would begin a flow too many.
const LAST: u64 = 65_536;

/// The first call of a source behind so many records: the file header takes two, and each record takes two.
const fn call_behind(records: u64) -> u64 {
    records.saturating_mul(2).saturating_add(3)
}

/// A source whose calls are counted where others see it.
#[derive(Drop)]
struct Watched<'a> {
    source: MemSource,
    calls: &'a AtomicU64,
}

impl Source for Watched<'_> {
    ghost left = { λ s. Some s.source.left };

    ghost faults = { λ s. s.source.faults };

    fn read(&mut self, into: &mut [u8]) -> Result<usize, Failed> {
        self.calls.fetch_add(1, Ordering::SeqCst);
        self.source.read(into)
    }
}

/// Holds the card before each turn until its record was sent, and before the one that ends the reading until so many calls were
/// made.
#[derive(Drop)]
struct Ahead<'a> {
    calls: &'a AtomicU64,
    end: u64,
}

impl Gate for Ahead<'_> {
    fn at(&self, who: u32, turn: u64) {
        if who != 0 {
            return;
        }
        let records = turn.saturating_add(1);
        let wanted = if records < LAST {
            call_behind(records)
        } else {
            self.end
        };
        waits_for(self.calls, wanted);
    }

    fn processors(&self) -> Option<usize> {
        APART
    }
}

/// A capture whose reading ends by this call, behind the record that would begin a flow too many and before the card takes that.
fn check_ahead(
    rt: &(impl AllocGlobal + RandomSource + Threads + Wait + Sync),
    bytes: &[u8],
    fails: &[u64],
    end: u64,
    report: &str,
) -> Result<(), Fail> {
    let alloc = rt.alloc();
    let calls = AtomicU64::new(0);
    let mut source = Watched {
        source: MemSource::new(bytes.to_vec(alloc)?, ALL, fails.to_vec(alloc)?),
        calls: &calls,
    };
    let gate = Ahead { calls: &calls, end };
    check_report(rt, &mut source, 10, report, &gate)?;
    check_number("calls", end, calls.load(Ordering::SeqCst))
}

/// A SYN from each port there is, and so many records more.
fn syns_and_more(alloc: Global, more: u32) -> Result<Vec<u8>, Fail> {
    let record = record_of(alloc, &frame(alloc, &to_9000(999, SYN, b""))?)?;
    let mut bytes = syns(alloc)?;
    for _ in 0..more {
        bytes.extend_from_slice(&record)?;
    }
    Ok(bytes)
}

/// The call that fails is the first behind that record, the second, or one further on.
#[test]
fn a_failed_read_behind_a_flow_too_many_is_not_told(rt: HostRuntime) -> Result<(), Fail> {
    let alloc = rt.alloc();
    let report = report_of_syns(alloc)?;
    let bytes = syns_and_more(alloc, 60)?;
    let first = call_behind(LAST);
    for more in [0, 1, 100] {
        let call = first.saturating_add(more);
        check_ahead(&rt, &bytes, &[call], call, &report)?;
    }
    Ok(())
}

/// The rows are how many bytes of a record more are missing, and how many calls more than the first find that.
#[test]
fn a_cut_record_behind_a_flow_too_many_is_not_told(rt: HostRuntime) -> Result<(), Fail> {
    let alloc = rt.alloc();
    let report = report_of_syns(alloc)?;
    let whole = syns_and_more(alloc, 1)?;
    for (missing, more) in [(70, 0), (62, 1), (50, 2)] {
        let left = whole.len().saturating_sub(missing);
        let bytes = whole.get(..left).ok_or("too short")?;
        let end = call_behind(LAST).saturating_add(more);
        check_ahead(&rt, bytes, &[], end, &report)?;
    }
    Ok(())
}

/// Behind that record at most 256 are sent and one is held: the ring has no more places, and the card takes none of them.
#[test]
fn a_flow_too_many_stops_the_reading(rt: HostRuntime) -> Result<(), Fail> {
    let alloc = rt.alloc();
    let calls = AtomicU64::new(0);
    let mut source = Watched {
        source: MemSource::new(syns_and_more(alloc, 1000)?, ALL, Vec::new(alloc)),
        calls: &calls,
    };
    let report = report_of_syns(alloc)?;
    check_report(&rt, &mut source, 10, &report, &NoGate)?;
    if calls.load(Ordering::SeqCst) >= call_behind(LAST + 257) {
        return Err(Fail::new("too many calls"));
    }
    Ok(())
}
