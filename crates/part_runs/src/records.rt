//! The record of a run, as it is written.
use std::alloc::Global;
use std::process::Abort;
use std::test::*;
use top_call::write_record;
use zr_io::MemSink;
use zr_kinds::{Event, Log};

/// Writes the record of a run with these areas, applications and events, where a call of the sink fails behind seven bytes, and
/// tells whether it went out, and what did. Call 0 is none.
fn write(
    alloc: Global,
    areas: &[(u32, u32)],
    apps: u32,
    log: &Log,
    call: u64,
) -> Result<(bool, Vec<u8>), Fail> {
    let mut sink = MemSink::new(alloc, 100_000, vec![in alloc; (call, 7)]?)?;
    if areas.len() > 4 {
        return Err(Fail::new("more areas than there may be"));
    }
    let written = write_record(areas, apps, log, &mut sink);
    Ok((written.is_ok(), sink.bytes().to_vec(alloc)?))
}

/// Events that a small run doesn't have, with the greatest numbers too.
const OTHERS: [Event; 6] = [
    Event::Cut {
        app: 7,
        buffer: 4095,
        offset: 4294967232,
        len: 4294967295,
        at: 4294967294,
        pool: 4294967295,
    },
    Event::Stray { app: 3 },
    Event::Free {
        app: 1,
        buffer: 20,
        offset: 64,
        len: 10,
        pool: 100,
    },
    Event::Spare {
        app: 2,
        buffer: 9,
        pool: 1,
    },
    Event::Own {
        app: 2,
        buffer: 9,
        len: 256,
        pool: 1,
        user: 1,
    },
    Event::Scrub {
        app: 2,
        buffer: 9,
        pool: 0,
        user: 0,
    },
];

/// These aren't all of the run.
#[test]
fn other_events(rt: HostRuntime) -> Result<(), Fail> {
    let log = Log {
        events: OTHERS.to_vec(rt.alloc())?,
        whole: false,
    };
    let areas = [(16, 1024), (4, 4096), (1, 65536), (4075, 1024)];
    let (written, bytes) = write(rt.alloc(), &areas, 8, &log, 0)?;
    let wanted = b"\
run 16:1024,4:4096,1:65536,4075:1024 8
cut 7 4095 4294967232 4294967295 4294967294 4294967295
stray 3
free 1 20 64 10 100
spare 2 9 1
own 2 9 256 1 1
scrub 2 9 0 0
more
";
    assert!(&rt; written && bytes.as_slice() == wanted.as_slice());
    Ok(())
}

/// A call fails that the record needs: what went out is a front of it.
fn ends_early(
    rt: &(impl Abort + AllocGlobal),
    log: &Log,
    call: u64,
    whole: &[u8],
) -> Result<(), Fail> {
    let (written, bytes) = write(rt.alloc(), &[(1, 1024)], 1, log, call)?;
    assert!(rt; !written && bytes.len() < whole.len(), "call {call}");
    assert!(rt; whole.starts_with(&bytes), "call {call}");
    Ok(())
}

/// A record goes out in several pieces, here by four calls of the sink, and each of them may fail.
#[test]
fn each_call_fails_in_turn(rt: HostRuntime) -> Result<(), Fail> {
    let alloc = rt.alloc();
    let event = Event::Place {
        buffer: 0,
        offset: 0,
        len: 5,
        pool: 2,
    };
    let log = Log {
        events: vec![in alloc; event; 1875]?,
        whole: true,
    };
    let (written, whole) = write(alloc, &[(1, 1024)], 1, &log, 5)?;
    assert!(&rt; written && whole.len() == 13 + 1875 * 14 + 4);
    for call in 1..5 {
        ends_early(&rt, &log, call, &whole)?;
    }
    Ok(())
}
