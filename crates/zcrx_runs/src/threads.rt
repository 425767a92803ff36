//! Replays by threads, whose turns a gate holds up.
use super::checks::{
    Stream, bytes_from, check_left, check_number, check_text, one_for_each, words_of,
};
use super::gates::{Delay, Meeting};
use super::making::{LONG, bytes_of, made};
use replay_threads::Gate;
use run_driver::samples::{PSH_ACK, capture_of, to_9000, to_9001};
use run_driver::{Given, faultless, run_behind};
use std::alloc::Global;
use std::random::RandomSource;
use std::sync::Wait;
use std::test::Fail;
use std::thread::Threads;

/// How often a short run is held up in another way. Each role is, also where all go round in one thread.
const RUNS: u32 = 40;

/// How often a long one is.
const LONG_RUNS: u32 = 10;

/// What comes of two applications that keep their first two loans and stop at 100 bytes, each with two pieces of 80.
const LEFT_EARLY: &str = "\
capture records 4 tcp 4 steered 4 other 0 fragment 0 cut 0 bad 0
app 0 port 9000 written 100 loans 2 copied 0 stopped quit
app 1 port 9001 written 100 loans 2 copied 0 stopped quit
flow 0 port 9000 base 100 bytes 100 fin no end open
flow 1 port 9001 base 100 bytes 100 fin no end open
pool fast 0 refill 0 slow 1 empty 0 strays 0
status 0
";

/// Replays these. The gate is asked before each turn.
fn check_leak_and_quit<G: Gate + Sync>(
    rt: &(impl AllocGlobal + RandomSource + Threads + Wait + Sync),
    gate: &G,
) -> Result<(), Fail> {
    let alloc = rt.alloc();
    let (front, back) = (bytes_from(alloc, 0, 80)?, bytes_from(alloc, 80, 80)?);
    let sent = [
        to_9000(100, PSH_ACK, &front),
        to_9001(100, PSH_ACK, &front),
        to_9000(180, PSH_ACK, &back),
        to_9001(180, PSH_ACK, &back),
    ];
    let capture = capture_of(alloc, &sent)?;
    let given = Given {
        words: &["replay", "--leak", "2", "--quit", "100", "9000", "9001"],
        ..faultless(&capture)
    };
    let left = run_behind(rt, &given, gate)?;
    check_text("two that quit", LEFT_EARLY, str::from_utf8(&left.sent)?)?;
    let stream = bytes_from(alloc, 0, 100)?;
    let first = Stream {
        app: 0,
        flow: 0,
        bytes: &stream,
    };
    let second = Stream {
        app: 1,
        flow: 1,
        ..first
    };
    check_left(alloc, "two that quit", &[first, second], 64, left)
}

/// Each of two applications comes to its first turn while the other waits at its own.
#[test]
fn applications_have_threads_of_their_own(rt: HostRuntime) -> Result<(), Fail> {
    let gate = Meeting::of_turns((1, 0), (2, 0));
    check_leak_and_quit(&rt, &gate)?;
    check_number("applications that met", 2, gate.met())
}

/// The report says the same whoever is held up.
#[test]
fn leak_and_quit_go_alike_whoever_is_held_up(rt: HostRuntime) -> Result<(), Fail> {
    for run in 0..RUNS {
        check_leak_and_quit(&rt, &Delay::of_run(run, 2))?;
    }
    Ok(())
}

/// The report without the counts of searches that found enough: these depend on when buffers come back.
fn without_searches(alloc: Global, report: &str) -> Result<String, Fail> {
    let mut text = String::new(alloc);
    for line in report.lines() {
        match line.split_once(" empty ") {
            Some((_, counts)) => {
                text.push_str("pool empty ")?;
                text.push_str(counts)?;
            }
            None => text.push_str(line)?,
        }
        text.push_str("\n")?;
    }
    Ok(text)
}

/// One replay of four flows, whose report but for its searches is this.
fn check_once(
    rt: &(impl AllocGlobal + RandomSource + Threads + Wait + Sync),
    given: &Given<'_>,
    gate: &Delay,
    streams: &[Stream<'_>],
    report: &str,
) -> Result<(), Fail> {
    let alloc = rt.alloc();
    let left = run_behind(rt, given, gate)?;
    let told = without_searches(alloc, str::from_utf8(&left.sent)?)?;
    check_text("four flows", report, &told)?;
    check_left(alloc, "four flows", streams, 2000, left)
}

/// The four streams of a made capture, or so many bytes of each.
fn four_streams(alloc: Global, count: usize) -> Result<Vec<Vec<u8>>, Fail> {
    let mut all = Vec::new(alloc);
    for flow in 0..4 {
        all.push(bytes_of(alloc, flow, count)?)?;
    }
    Ok(all)
}

/// Replays four flows with these options, held up in each way: each stream has so many bytes.
fn check_four(
    rt: &(impl AllocGlobal + RandomSource + Threads + Wait + Sync),
    options: &str,
    count: usize,
    report: &str,
) -> Result<(), Fail> {
    let alloc = rt.alloc();
    let made = made(rt, &["make", "7", "2000"])?;
    let bytes = four_streams(alloc, count)?;
    let streams = one_for_each(alloc, &bytes)?;
    let line = format!(in alloc; "replay --buffers 2000 {options}9000 9001 9002 9003")?;
    let words = words_of(alloc, &line)?;
    let given = Given {
        words: &words,
        most: 65_536,
        stream_room: LONG,
        ..faultless(&made)
    };
    for number in 0..LONG_RUNS {
        check_once(rt, &given, &Delay::of_run(number, 4), &streams, report)?;
    }
    Ok(())
}

/// What four flows of 500 pieces come to with as many buffers as pieces.
const FOUR_FLOWS: &str = "\
capture records 2000 tcp 2000 steered 2000 other 0 fragment 0 cut 0 bad 0
app 0 port 9000 written 500000 loans 500 copied 0 stopped no
app 1 port 9001 written 500000 loans 500 copied 0 stopped no
app 2 port 9002 written 500000 loans 500 copied 0 stopped no
app 3 port 9003 written 500000 loans 500 copied 0 stopped no
flow 0 port 9000 base 4294960000 bytes 500000 fin no end open
flow 1 port 9001 base 4294960000 bytes 500000 fin no end open
flow 2 port 9002 base 4294960000 bytes 500000 fin no end open
flow 3 port 9003 base 4294960000 bytes 500000 fin no end open
pool empty 0 strays 0
status 0
";

/// The same where each application keeps three loans and quits at 100,000 bytes: with its hundredth piece, whatever the order.
const FOUR_LEFT_EARLY: &str = "\
capture records 2000 tcp 2000 steered 2000 other 0 fragment 0 cut 0 bad 0
app 0 port 9000 written 100000 loans 100 copied 0 stopped quit
app 1 port 9001 written 100000 loans 100 copied 0 stopped quit
app 2 port 9002 written 100000 loans 100 copied 0 stopped quit
app 3 port 9003 written 100000 loans 100 copied 0 stopped quit
flow 0 port 9000 base 4294960000 bytes 100000 fin no end open
flow 1 port 9001 base 4294960000 bytes 100000 fin no end open
flow 2 port 9002 base 4294960000 bytes 100000 fin no end open
flow 3 port 9003 base 4294960000 bytes 100000 fin no end open
pool empty 0 strays 0
status 0
";

/// Four applications with threads of their own have the same streams and counts whoever is held up.
#[test]
fn four_flows_go_alike_whoever_is_held_up(rt: HostRuntime) -> Result<(), Fail> {
    check_four(&rt, "", LONG, FOUR_FLOWS)
}

/// So have four that are polled.
#[test]
fn four_polled_flows_go_alike_whoever_is_held_up(rt: HostRuntime) -> Result<(), Fail> {
    check_four(&rt, "--polled ", LONG, FOUR_FLOWS)
}

/// And four that forward.
#[test]
fn four_forwarded_flows_go_alike_whoever_is_held_up(rt: HostRuntime) -> Result<(), Fail> {
    check_four(&rt, "--forward=5 ", LONG, FOUR_FLOWS)
}

/// Four applications that quit scrub beside a card that goes on, take the rest of their notes, and leave every buffer free.
#[test]
fn four_applications_leave_early(rt: HostRuntime) -> Result<(), Fail> {
    check_four(&rt, "--leak 3 --quit 100000 ", 100_000, FOUR_LEFT_EARLY)
}
