//! Replays that are compared with the plain slow programs.
ghost use Rattle.std.specs.Prelude.{◌<◌, ◌^◌, length};

use super::checks::{Stream, check_left, check_text};
use flow_table::plain::{PlainFlow, plain_flows, plain_stream};
use frame_headers::{Seen, read_frame};
use run_driver::samples::capture;
use run_driver::{Given, faultless, run};
use std::alloc::Global;
use std::random::RandomSource;
use std::sync::Wait;
use std::test::Fail;
use std::thread::Threads;

/// The ports that are replayed.
const PORTS: [u16; 2] = [9000, 9001];

/// How many frames there are of each class, in all, and to one of the ports.
#[derive(Clone, Copy, Default)]
struct Counts {
    tcp: u32,
    steered: u32,
    other: u32,
    fragment: u32,
    cut: u32,
    bad: u32,
}

fn count(seen: &[Seen<'_>]) -> Counts {
    let mut counts = Counts::default();
    for one in seen {
        match one {
            Seen::Tcp(segment) => {
                let is_steered = PORTS.contains(&segment.dport);
                counts.tcp = counts.tcp.saturating_add(1);
                counts.steered = counts.steered.saturating_add(u32::from(is_steered));
            }
            Seen::Other => counts.other = counts.other.saturating_add(1),
            Seen::Fragment => counts.fragment = counts.fragment.saturating_add(1),
            Seen::CutShort => counts.cut = counts.cut.saturating_add(1),
            Seen::Bad => counts.bad = counts.bad.saturating_add(1),
        }
    }
    counts
}

/// How many bytes the flows of an application have.
fn written(app: usize, streams: &[Stream<'_>]) -> usize {
    let mut written = 0usize;
    for stream in streams {
        if stream.app == app {
            written = written.saturating_add(stream.bytes.len());
        }
    }
    written
}

/// How a flow ended that has these bytes. They are few, so they reach the FIN's number at most once.
fn end_of(flow: &PlainFlow, bytes: usize) -> &'static str {
    match flow.close.fin {
        _ if flow.close.reset => "reset",
        None => "open",
        Some(fin) if fin.wrapping_sub(flow.base) as usize == bytes => "whole",
        Some(_) => "short",
    }
}

/// The report of a replay of all of these frames, without loans and the pool's line: these the plain programs don't know.
fn report(
    alloc: Global,
    seen: &[Seen<'_>],
    flows: &[PlainFlow],
    streams: &[Stream<'_>],
) -> Result<String, Fail> {
    let Counts {
        tcp,
        steered,
        other,
        fragment,
        cut,
        bad,
    } = count(seen);
    let records = seen.len();
    let mut text = format!(in alloc;
        "capture records {records} tcp {tcp} steered {steered} other {other} fragment {fragment} cut {cut} bad {bad}\n"
    )?;
    for (app, port) in PORTS.iter().enumerate() {
        let written = written(app, streams);
        let line = format!(in alloc;
            "app {app} port {port} written {written} copied 0 stopped no\n"
        )?;
        text.push_str(&line)?;
    }
    for (flow, stream) in flows.iter().zip(streams) {
        let PlainFlow { dport, base, .. } = *flow;
        let number = stream.flow;
        let bytes = stream.bytes.len();
        let fin = match flow.close.fin {
            Some(_) => "yes",
            None => "no",
        };
        let end = end_of(flow, bytes);
        let line = format!(in alloc;
            "flow {number} port {dport} base {base} bytes {bytes} fin {fin} end {end}\n"
        )?;
        text.push_str(&line)?;
    }
    text.push_str("status 0\n")?;
    Ok(text)
}

/// The report without loans and the pool's line.
fn without_loans(alloc: Global, report: &str) -> Result<String, Fail> {
    let mut text = String::new(alloc);
    for line in report.lines() {
        if line.starts_with("pool ") {
            continue;
        }
        match line.split_once(" loans ") {
            Some((front, loans)) => {
                let (_, rest) = loans.split_once(' ').ok_or("loans end the line")?;
                text.push_str(front)?;
                text.push_str(" ")?;
                text.push_str(rest)?;
            }
            None => text.push_str(line)?,
        }
        text.push_str("\n")?;
    }
    Ok(text)
}

/// The streams of so many flows.
fn plain_streams(alloc: Global, seen: &[Seen<'_>], count: usize) -> Result<Vec<Vec<u8>>, Fail>
    requires { length seen.now < 2 ^ 32 }
{
    let mut streams = Vec::new(alloc);
    for number in 0..u32::try_from(count)? {
        streams.push(plain_stream(alloc, &PORTS, seen, &[], number)?)?;
    }
    Ok(streams)
}

/// Replays the two ports of these frames by these words: streams, and the report but for loans and the pool's line, have to be
/// what the plain programs say.
pub fn check_by(
    rt: &(impl AllocGlobal + RandomSource + Threads + Wait + Sync),
    words: &[&str],
    name: &str,
    frames: &[Vec<u8>],
) -> Result<(), Fail> {
    let alloc = rt.alloc();
    let seen: Vec<Seen<'_>> = frames.iter().map(|frame| read_frame(frame)).collect(alloc)?;
    if seen.len() >= 100 {
        return Err(Fail::new(format_args!("{name}: too many frames")));
    }
    let flows = plain_flows(alloc, &PORTS, &seen)?;
    let bytes = plain_streams(alloc, &seen, flows.len())?;
    let mut streams = Vec::new(alloc);
    for (flow, bytes) in flows.iter().zip(&bytes) {
        let number = u32::try_from(streams.len())?;
        streams.push(Stream {
            app: flow.app,
            flow: number,
            bytes,
        })?;
    }
    let report = report(alloc, &seen, &flows, &streams)?;
    let capture = capture(alloc, frames)?;
    let given = Given {
        words,
        ..faultless(&capture)
    };
    let left = run(rt, &given)?;
    let told = without_loans(alloc, str::from_utf8(&left.sent)?)?;
    check_text(name, &report, &told)?;
    check_left(alloc, name, &streams, 64, left)
}
