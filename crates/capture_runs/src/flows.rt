//! Segments of flows, what the table says of each, and the streams, of which a text has a line each: `SEQ FLAGS TEXT = WANTED`.
//!
//! A segment goes from port 4000 to port 80, the second of the ports; others are named behind its text, as `4001>80`, and a text
//! may be `-`. Wanted are `begins`, where it begins a flow, the flow and its application, as `0@1`, the flow's base, the number of
//! the segment's first byte, and how many of its bytes count. Other lines ask for the number of flows, for a flow, or for its
//! stream, with or without a record.
ghost use Rattle.std.specs.Prelude.{◌≡◌, ◌≤◌, length, []};
ghost use Rattle.zr_kinds.specs.Limits.{longest_payload};
ghost use Rattle.frame_headers.specs.Seen.{shown};

use flow_table::plain::{plain_flows, plain_stream};
use flow_table::{FlowFault, FlowTable, Steered};
use frame_headers::{Addr, Seen, Segment, read_frame};
use run_driver::samples::{Sent, frame};
use std::alloc::Global;
use std::collections::hash_map::RandomState;
use std::process::Abort;
use std::random::RandomSource;
use std::test::*;

const PORTS: [u16; 2] = [443, 80];

/// The flags of these letters.
fn flags_of(letters: &str) -> Result<u8, Fail> {
    let mut flags = 0;
    for letter in letters.bytes() {
        flags |= match letter {
            b'F' => 1,
            b'S' => 2,
            b'R' => 4,
            b'A' => 16,
            _ => return Err(Fail::new("no such flag")),
        };
    }
    Ok(flags)
}

/// The frame of a segment, as a line has it.
fn frame_of(alloc: Global, line: &str) -> Result<Vec<u8>, Fail> {
    let mut words = line.split(' ');
    let seq = words.next().ok_or("no number")?.parse::<u32>()?;
    let flags = flags_of(words.next().ok_or("no flags")?)?;
    let text = words.next().unwrap_or("-");
    let text = if text == "-" { "" } else { text };
    let ports = words.next().unwrap_or("4000>80");
    let (sport, dport) = ports.split_once('>').ok_or("one port")?;
    let sent = Sent {
        sport: sport.parse::<u16>()?,
        dport: dport.parse::<u16>()?,
        seq,
        flags,
        text: text.as_bytes(),
    };
    frame(alloc, &sent)
}

/// What the table says of a segment before it is placed, and then.
fn placed(alloc: Global, table: &mut FlowTable, segment: &Segment<'_>) -> Result<String, Fail>
    requires { length (shown segment.now).payload ≤ longest_payload }
{
    let begins = if table.begins(segment) { "begins " } else { "" };
    let admits = table.admits(segment);
    let Steered::Flow {
        flow,
        app,
        base,
        seq,
        len,
        fin,
    } = table.place(segment)?
    else {
        return Ok(format!(in alloc; "{begins}elsewhere")?);
    };
    if admits != Some(len) || fin != (segment.flags & 1 != 0) {
        return Err(Fail::new("another length before, or another FIN"));
    }
    Ok(format!(in alloc; "{begins}{flow}@{app} {base} {seq} {len}")?)
}

/// A flow's application, its base, and how it was closed.
fn line_of(
    alloc: Global,
    app: usize,
    base: u32,
    fin: Option<u32>,
    reset: bool,
) -> Result<String, Fail> {
    let reset = if reset { " reset" } else { "" };
    Ok(match fin {
        Some(fin) => format!(in alloc; "app {app} base {base} fin {fin}{reset}")?,
        None => format!(in alloc; "app {app} base {base}{reset}")?,
    })
}

/// What the table tells of a flow.
fn told(alloc: Global, table: &FlowTable, flow: u32) -> Result<String, Fail> {
    if flow >= table.count() {
        return Err(Fail::new("no such flow in the table"));
    }
    let line = table.line(flow);
    line_of(alloc, line.app as usize, line.base, line.fin, line.reset)
}

/// What is told by the book of the flows of these frames: how many there are, one of them, or its stream.
fn by_the_book(alloc: Global, frames: &[Vec<u8>], what: &str, rest: &str) -> Result<String, Fail> {
    let seen: Vec<Seen<'_>> = frames.iter().map(|frame| read_frame(frame)).collect(alloc)?;
    if seen.len() >= 100 {
        return Err(Fail::new("too many frames"));
    }
    if what == "stream" {
        let (flow, left_out) = rest.split_once(" without ").unwrap_or((rest, "0"));
        let left_out = [left_out.parse::<u32>()?];
        let stream = plain_stream(alloc, &PORTS, &seen, &left_out, flow.parse::<u32>()?)?;
        let stream = str::from_utf8(&stream)?;
        return Ok(format!(in alloc; "{stream}")?);
    }
    let flows = plain_flows(alloc, &PORTS, &seen)?;
    if what == "flows" {
        return Ok(format!(in alloc; "{}", flows.len())?);
    }
    let flow = flows
        .get(rest.parse::<usize>()?)
        .ok_or("no such flow by the book")?;
    line_of(alloc, flow.app, flow.base, flow.close.fin, flow.close.reset)
}

/// What comes of a line.
fn answer(
    alloc: Global,
    table: &mut FlowTable,
    frames: &mut Vec<Vec<u8>>,
    line: &str,
) -> Result<String, Fail> {
    let (what, rest) = line.split_once(' ').unwrap_or((line, ""));
    if what == "stream" {
        return by_the_book(alloc, frames, what, rest);
    }
    if what == "flow" || what == "flows" {
        let book = by_the_book(alloc, frames, what, rest)?;
        let told = match what {
            "flow" => told(alloc, table, rest.parse::<u32>()?)?,
            _ => format!(in alloc; "{}", table.count())?,
        };
        if told.as_str() != book.as_str() {
            return Ok(format!(in alloc; "{told}, and {book} by the book")?);
        }
        return Ok(told);
    }
    let frame = frame_of(alloc, line)?;
    let told = match read_frame(&frame) {
        Seen::Tcp(segment) => placed(alloc, table, &segment)?,
        _ => return Err(Fail::new("no segment")),
    };
    frames.push(frame)?;
    Ok(told)
}

fn table(rt: &(impl AllocGlobal + RandomSource)) -> Result<FlowTable, Fail> {
    let random = RandomState::new(rt)?;
    Ok(FlowTable::new(rt.alloc(), random, &PORTS)?)
}

/// Each line is told so.
fn expect(rt: &(impl Abort + AllocGlobal + RandomSource), lines: &str) -> Result<(), Fail> {
    let alloc = rt.alloc();
    let mut table = table(rt)?;
    let mut frames = Vec::new(alloc);
    for line in lines.lines() {
        let (what, wanted) = line.split_once(" = ").ok_or("nothing is wanted")?;
        let told = answer(alloc, &mut table, &mut frames, what)?;
        assert!(rt; told.as_str() == wanted, "{line}: {told}");
    }
    Ok(())
}

/// "XYcd" doesn't take the place of what came first.
#[test]
fn first_received_counts(rt: HostRuntime) -> Result<(), Fail> {
    let lines = "\
999 S = begins 0@1 1000 1000 0
1000 A abc = 0@1 1000 1000 3
1001 A XYcd = 0@1 1000 1001 4
stream 0 = abccd";
    expect(&rt, lines)
}

/// The sequence numbers wrap between "ab" and "cd".
#[test]
fn sequence_numbers_wrap(rt: HostRuntime) -> Result<(), Fail> {
    let lines = "\
4294967293 S = begins 0@1 4294967294 4294967294 0
0 A cd = 0@1 4294967294 0 2
4294967294 A ab = 0@1 4294967294 4294967294 2
stream 0 = abcd";
    expect(&rt, lines)
}

/// "ef" waits behind a gap, and what was before the base doesn't count.
#[test]
fn stream_ends_at_a_gap(rt: HostRuntime) -> Result<(), Fail> {
    let lines = "\
999 S = begins 0@1 1000 1000 0
998 A xya = 0@1 1000 998 3
1001 A b = 0@1 1000 1001 1
1004 A ef = 0@1 1000 1004 2
stream 0 = ab";
    expect(&rt, lines)
}

/// A SYN again is of the same flow, and one of another base begins a flow, also where that is 0.
#[test]
fn each_base_is_a_flow(rt: HostRuntime) -> Result<(), Fail> {
    let lines = "\
999 S = begins 0@1 1000 1000 0
1000 A = 0@1 1000 1000 0
999 S = 0@1 1000 1000 0
4294967295 S = begins 1@1 0 0 0
1002 A = 1@1 0 1002 0
999 S = begins 2@1 1000 1000 0
7 A - 4001>80 = begins 3@1 7 7 0
1003 A = 2@1 1000 1003 0
flows = 4";
    expect(&rt, lines)?;
    let lines = "\
999 S = begins 0@1 1000 1000 0
1000 A ab = 0@1 1000 1000 2
4999 S = begins 1@1 5000 5000 0
5000 A cd = 1@1 5000 5000 2
stream 0 = ab
stream 1 = cd
stream 2 = ";
    expect(&rt, lines)
}

/// Record 3 goes to a port that isn't steered, and record 4 is left out.
#[test]
fn other_ports_and_records_left_out_add_nothing(rt: HostRuntime) -> Result<(), Fail> {
    let lines = "\
999 S = begins 0@1 1000 1000 0
1000 A ab = 0@1 1000 1000 2
1000 A zz 4000>81 = elsewhere
1002 A xx = 0@1 1000 1002 2
1002 A cd = 0@1 1000 1002 2
stream 0 without 4 = abcd";
    expect(&rt, lines)
}

#[test]
fn flows_are_told(rt: HostRuntime) -> Result<(), Fail> {
    let lines = "\
5 SF - 4000>81 = elsewhere
flows = 0
999 S = begins 0@1 1000 1000 0
1000 AF ab = 0@1 1000 1000 2
flows = 1
flow 0 = app 1 base 1000 fin 1002";
    expect(&rt, lines)
}

/// Both sides close: data, FIN, and the acknowledgement of the other side's FIN. A segment sent again counts, and a byte past the
/// FIN doesn't.
#[test]
fn a_full_close(rt: HostRuntime) -> Result<(), Fail> {
    let lines = "\
999 S = begins 0@1 1000 1000 0
1000 A = 0@1 1000 1000 0
1000 A GET_/ = 0@1 1000 1000 5
1005 AF _done = 0@1 1000 1005 5
1011 A = 0@1 1000 1011 0
1003 A _/_done = 0@1 1000 1003 7
1003 A _/_done. = 0@1 1000 1003 7
1010 A . = 0@1 1000 1010 0
flows = 1
flow 0 = app 1 base 1000 fin 1010";
    expect(&rt, lines)
}

/// A FIN without payload comes before what stands in front of it; then this side only acknowledges, and its FIN comes again. A
/// second number doesn't take the place of the first.
#[test]
fn a_half_close(rt: HostRuntime) -> Result<(), Fail> {
    let lines = "\
999 S = begins 0@1 1000 1000 0
1004 AF = 0@1 1000 1004 0
1002 A cd = 0@1 1000 1002 2
1000 A ab = 0@1 1000 1000 2
1005 A = 0@1 1000 1005 0
1005 A = 0@1 1000 1005 0
1004 AF = 0@1 1000 1004 0
1004 AF xy = 0@1 1000 1004 0
1000 A abcdxy = 0@1 1000 1000 4
flows = 1
flow 0 = app 1 base 1000 fin 1004";
    expect(&rt, lines)?;
    let lines = "\
999 S = begins 0@1 1000 1000 0
1004 AF = 0@1 1000 1004 0
1002 A cdxy = 0@1 1000 1002 2
1000 A ab = 0@1 1000 1000 2
stream 0 = abcd";
    expect(&rt, lines)
}

/// From an RST on nothing counts, also of the segment that has it, and no FIN sets a number.
#[test]
fn an_rst_in_the_middle(rt: HostRuntime) -> Result<(), Fail> {
    let lines = "\
999 S = begins 0@1 1000 1000 0
1000 A ab = 0@1 1000 1000 2
1002 R x = 0@1 1000 1002 0
1002 A cd = 0@1 1000 1002 0
1004 AF e = 0@1 1000 1004 0
flows = 1
flow 0 = app 1 base 1000 reset
1000 RF ab 4001>80 = begins 1@1 1000 1000 0
flow 1 = app 1 base 1000 reset
1000 AF ab 4002>80 = begins 2@1 1000 1000 2
1000 A ab 4002>80 = 2@1 1000 1000 2
1003 AR - 4002>80 = 2@1 1000 1003 0
1000 A ab 4002>80 = 2@1 1000 1000 0
flows = 3
flow 2 = app 1 base 1000 fin 1002 reset";
    expect(&rt, lines)
}

/// The FIN's number lies behind the wrap of the sequence numbers, and what comes late in front of it.
#[test]
fn a_fin_behind_the_wrap(rt: HostRuntime) -> Result<(), Fail> {
    let lines = "\
4294967289 S = begins 0@1 4294967290 4294967290 0
2 AF ij = 0@1 4294967290 2 2
4294967294 A efghijxyz = 0@1 4294967290 4294967294 6
4294967290 A abcd = 0@1 4294967290 4294967290 4
stream 0 = abcdefghij
4 A xyz = 0@1 4294967290 4 0
2147483652 A xyz = 0@1 4294967290 2147483652 0
2147483653 A xyz = 0@1 4294967290 2147483653 3
flows = 1
flow 0 = app 1 base 4294967290 fin 4";
    expect(&rt, lines)
}

/// The pair of ports is used again behind an RST: the other flow has its own close. A segment that is left out closes its flow.
#[test]
fn a_pair_of_ports_used_again(rt: HostRuntime) -> Result<(), Fail> {
    let lines = "\
1000 S = begins 0@1 1001 1001 0
1001 A ab = 0@1 1001 1001 2
1003 R x = 0@1 1001 1003 0
1003 A cd = 0@1 1001 1003 0
5000 S = begins 1@1 5001 5001 0
5001 AF ef = 1@1 5001 5001 2
5003 A gh = 1@1 5001 5003 0
stream 0 = ab
stream 1 = ef
stream 0 without 3 = ab
stream 1 without 6 = ";
    expect(&rt, lines)
}

/// Nothing counts behind a FIN with payload, and of a segment that reaches past its number what comes before. A stream whose FIN
/// stands behind a gap ends at the gap.
#[test]
fn nothing_counts_behind_a_fin(rt: HostRuntime) -> Result<(), Fail> {
    let lines = "\
1000 S = begins 0@1 1001 1001 0
1001 AF ab = 0@1 1001 1001 2
1003 A cd = 0@1 1001 1003 0
1001 A abX = 0@1 1001 1001 2
flows = 1
flow 0 = app 1 base 1001 fin 1003
stream 0 = ab
1000 S - 4001>80 = begins 1@1 1001 1001 0
1003 AF cd 4001>80 = 1@1 1001 1003 2
flows = 2
flow 1 = app 1 base 1001 fin 1005
stream 1 = ";
    expect(&rt, lines)
}

/// A segment without payload that goes to port 80 of 10.0.0.2.
const fn from(src: Addr, sport: u16, seq: u32, flags: u8) -> Segment<'static>
    ensures { (shown result).payload ≡ [] }
{
    Segment {
        src,
        dst: Addr::V4([10, 0, 0, 2]),
        sport,
        dport: 80,
        seq,
        flags,
        payload: &[],
    }
}

/// Addresses of both versions are apart, where all their bytes are 0 too.
#[test]
fn addresses_of_both_versions_are_apart(rt: HostRuntime) -> Result<(), Fail> {
    let alloc = rt.alloc();
    let mut table = table(&rt)?;
    table.place(&from(Addr::V4([0; 4]), 4000, 7, 16))?;
    table.place(&from(Addr::V6([0; 16]), 4000, 8, 17))?;
    assert!(rt; table.count() == 2);
    assert!(rt; told(alloc, &table, 0)?.as_str() == "app 1 base 7");
    assert!(rt; told(alloc, &table, 1)?.as_str() == "app 1 base 8 fin 8");
    Ok(())
}

/// A segment belongs to this flow, whose base is 7.
fn is_of(placed: Result<Steered, FlowFault>, wanted: u32, first: u32) -> bool {
    match placed {
        Ok(
            Steered::Flow {
                flow,
                app: 1,
                base: 7,
                seq,
                len: 0,
                fin: false,
            },
        ) => flow == wanted && seq == first,
        _ => false,
    }
}

/// There are 65,535 flows at most. A segment that would begin one more changes nothing.
#[test]
fn flows_come_to_an_end(rt: HostRuntime) -> Result<(), Fail> {
    let mut table = table(&rt)?;
    let host = Addr::V4([10, 0, 0, 1]);
    for sport in 0..u16::MAX {
        let placed = table.place(&from(host, sport, 7, 16));
        assert!(rt; is_of(placed, u32::from(sport), 7), "{sport}");
    }
    let last = table.place(&from(host, u16::MAX, 7, 16));
    assert!(rt; matches!(last, Err(FlowFault::TooManyFlows)));
    assert!(rt; table.count() == 65535);
    assert!(rt; is_of(table.place(&from(host, 9, 8, 16)), 9, 8));
    Ok(())
}
