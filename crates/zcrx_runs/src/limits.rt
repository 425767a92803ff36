//! Captures with more flows or more records than a replay numbers.
use super::checks::{check_free, check_number, check_text};
use super::gates::{Names, TOGETHER};
use replay_threads::{Gate, NoGate};
use run_driver::samples::{FILE_HEADER, SYN, Sent, frame, record_of, to_9000};
use run_driver::{free_buffers, shelves_for};
use std::alloc::Global;
use std::collections::hash_map::RandomState;
use std::io::{self, Read};
use std::random::RandomSource;
use std::sync::Wait;
use std::test::Fail;
use std::thread::Threads;
use top_call::{Card, SHELVES, zcrx};
use zr_io::{MemSink, MemSource, Source, StdSource};

/// How many bytes the report of 65,535 flows has at most.
const ROOM: usize = 4_000_000;

/// A replay of port 9000 whose report has to be this. The gate is asked before each turn.
pub fn check_report<S: Source + Send, G: Gate + Sync>(
    rt: &(impl AllocGlobal + RandomSource + Threads + Wait + Sync),
    source: &mut S,
    status: u8,
    report: &str,
    gate: &G,
) -> Result<(), Fail> {
    let alloc = rt.alloc();
    let mut shelves = shelves_for(alloc, 0, 0, &[])?;
    if shelves.len() != SHELVES {
        return Err(Fail::new("another number of shelves"));
    }
    let mut out = MemSink::new(alloc, ROOM, Vec::new(alloc))?;
    let random = RandomState::new(rt)?;
    let mut card = Card::Blank;
    let answer = zcrx(
        rt,
        alloc,
        random,
        &["replay", "9000"],
        source,
        &mut shelves,
        &mut out,
        gate,
        &mut card,
    );
    let free = free_buffers(card);
    check_text("a long capture", report, str::from_utf8(out.bytes())?)?;
    check_number("a long capture", u64::from(status), u64::from(answer))?;
    check_free(alloc, "a long capture", free, 64)
}

/// A SYN from each port there is, with the port as its sequence number.
pub fn syns(alloc: Global) -> Result<Vec<u8>, Fail> {
    let mut bytes = FILE_HEADER.to_vec(alloc)?;
    for sport in 0..=u16::MAX {
        let sent = Sent {
            sport,
            ..to_9000(u32::from(sport), SYN, b"")
        };
        bytes.extend_from_slice(&record_of(alloc, &frame(alloc, &sent)?)?)?;
    }
    Ok(bytes)
}

/// The report of these: the last would begin a flow too many.
pub fn report_of_syns(alloc: Global) -> Result<String, Fail> {
    let mut report = format!(in alloc;
        "\
capture records 65535 tcp 65535 steered 65535 other 0 fragment 0 cut 0 bad 0
app 0 port 9000 written 0 loans 0 copied 0 stopped no
"
    )?;
    for flow in 0..65_535u32 {
        let base = flow + 1;
        let line = format!(in alloc;
            "flow {flow} port 9000 base {base} bytes 0 fin no end open\n"
        )?;
        report.push_str(&line)?;
    }
    report.push_str("pool fast 0 refill 0 slow 0 empty 0 strays 0\nstatus 10\n")?;
    Ok(report)
}

#[test]
fn flows_come_to_an_end(rt: HostRuntime) -> Result<(), Fail> {
    let alloc = rt.alloc();
    let report = report_of_syns(alloc)?;
    let mut source = MemSource::new(syns(alloc)?, 65_536, Vec::new(alloc));
    check_report(&rt, &mut source, 10, &report, &NoGate)
}

/// 16,777,217 records without a byte: a record's header is then 16 bytes of 0. Read in one thread, which takes less time.
#[test]
fn records_come_to_an_end(rt: HostRuntime) -> Result<(), Fail> {
    let records = io::repeat(0).take(16_777_217 * 16);
    let mut source = StdSource::new(FILE_HEADER.as_slice().chain(records));
    let report = "\
capture records 16777216 tcp 0 steered 0 other 0 fragment 0 cut 16777216 bad 0
app 0 port 9000 written 0 loans 0 copied 0 stopped no
pool fast 0 refill 0 slow 0 empty 0 strays 0
status 11
";
    let gate = Names {
        processors: TOGETHER,
    };
    check_report(&rt, &mut source, 11, report, &gate)
}
