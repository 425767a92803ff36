//! The card waits for buffers that are on their way back, and the loops of the roles go on side by side.
ghost use Rattle.std.specs.Prelude.{Some};

use super::checks::{bytes_from, check_left, check_number, one_for_each, words_of};
use super::gates::{APART, Meeting, TOGETHER, waits_for};
use super::limits::check_report;
use super::making::{LONG, made};
use replay_threads::Gate;
use run_driver::samples::{PSH_ACK, Sent, capture, frame, to_9000};
use run_driver::{Given, faultless, run_behind};
use std::alloc::Global;
use std::hint::spin_loop;
use std::random::RandomSource;
use std::sync::Wait;
use std::sync::atomic::{AtomicU64, Ordering};
use std::test::Fail;
use std::thread::Threads;
use zr_io::{Failed, MemSource, Source};

/// How often each case runs.
const RUNS: u32 = 5;

/// Flows to ports from 9000 on, whose frames all have as many bytes, over buffers of 1,024.
#[derive(Clone, Copy)]
struct Case {
    /// The words that stand before the ports.
    options: &'static str,
    buffers: u32,
    ports: u16,
    /// How many bytes each of its first frames has.
    short: usize,
    payload: usize,
    /// How many frames it has behind these.
    frames: usize,
}

/// How many short frames come first.
const SHORT_FRAMES: usize = 3;

/// Each payload fits in the buffers that nobody keeps.
const CASES: [Case; 11] = [
    Case {
        options: "--buffers 2",
        buffers: 2,
        ports: 1,
        short: 0,
        payload: 1024,
        frames: 100,
    },
    Case {
        options: "--buffers 1",
        buffers: 1,
        ports: 1,
        short: 0,
        payload: 1000,
        frames: 100,
    },
    Case {
        options: "--buffers 32",
        buffers: 32,
        ports: 1,
        short: 0,
        payload: 16_384,
        frames: 20,
    },
    Case {
        options: "--buffers 64",
        buffers: 64,
        ports: 1,
        short: 0,
        payload: 32_768,
        frames: 12,
    },
    Case {
        options: "--buffers 126",
        buffers: 126,
        ports: 1,
        short: 0,
        payload: 64_512,
        frames: 7,
    },
    Case {
        options: "--buffers 128 --ring 256",
        buffers: 128,
        ports: 2,
        short: 0,
        payload: 65_495,
        frames: 7,
    },
    Case {
        options: "--buffers 64 --ring 1",
        buffers: 64,
        ports: 2,
        short: 0,
        payload: 32_000,
        frames: 7,
    },
    // Each frame needs all buffers.
    Case {
        options: "--buffers 32 --ring 1",
        buffers: 32,
        ports: 1,
        short: 0,
        payload: 32_768,
        frames: 14,
    },
    // An application copies what came in notes, into buffers of the pool.
    Case {
        options: "--buffers 1 --split 64",
        buffers: 1,
        ports: 1,
        short: 60,
        payload: 1000,
        frames: 50,
    },
    Case {
        options: "--buffers 64 --split 256",
        buffers: 64,
        ports: 2,
        short: 250,
        payload: 60_000,
        frames: 8,
    },
    // Each application keeps one loan unread.
    Case {
        options: "--buffers 4 --hold 1",
        buffers: 4,
        ports: 2,
        short: 0,
        payload: 1000,
        frames: 100,
    },
];

/// How many bytes each frame of a flow has.
fn lengths_for(alloc: Global, case: &Case) -> Result<Vec<usize>, Fail> {
    let mut lengths = Vec::new(alloc);
    if case.short > 0 {
        for _ in 0..SHORT_FRAMES {
            lengths.push(case.short)?;
        }
    }
    for _ in 0..case.frames {
        lengths.push(case.payload)?;
    }
    Ok(lengths)
}

/// The flows' frames, one of each flow in turn, and how many bytes each flow has.
fn capture_for(alloc: Global, case: &Case) -> Result<(Vec<u8>, usize), Fail> {
    let mut frames = Vec::new(alloc);
    let mut position = 0usize;
    for len in &lengths_for(alloc, case)? {
        let text = bytes_from(alloc, position, *len)?;
        for flow in 0..case.ports {
            let sent = Sent {
                dport: 9000u16.saturating_add(flow),
                ..to_9000(u32::try_from(position)?, PSH_ACK, &text)
            };
            frames.push(frame(alloc, &sent)?)?;
        }
        position = position.saturating_add(*len);
    }
    Ok((capture(alloc, &frames)?, position))
}

/// Holds the applications up before each turn, so that the card runs ahead of them.
#[derive(Drop)]
struct Slow {
    processors: Option<usize>,
}

impl Gate for Slow {
    fn at(&self, who: u32, _turn: u64) {
        if who != 0 {
            for _ in 0..2000 {
                spin_loop();
            }
        }
    }

    fn processors(&self) -> Option<usize> {
        self.processors
    }
}

/// So many copies of a stream.
fn copies(alloc: Global, count: u16, len: usize) -> Result<Vec<Vec<u8>>, Fail> {
    let mut all = Vec::new(alloc);
    for _ in 0..count {
        all.push(bytes_from(alloc, 0, len)?)?;
    }
    Ok(all)
}

/// So many runs in which no frame is refused, and each stream is whole.
fn check_case(
    rt: &(impl AllocGlobal + RandomSource + Threads + Wait + Sync),
    case: &Case,
    runs: u32,
    gate: &Slow,
) -> Result<(), Fail> {
    let alloc = rt.alloc();
    let (bytes, whole) = capture_for(alloc, case)?;
    let all = copies(alloc, case.ports, whole)?;
    let streams = one_for_each(alloc, &all)?;
    let ports = if case.ports == 1 { "9000" } else { "9000 9001" };
    let text = format!(in alloc; "replay --size 1024 {} {ports}", case.options)?;
    let words = words_of(alloc, &text)?;
    let given = Given {
        words: &words,
        most: LONG,
        stream_room: LONG,
        ..faultless(&bytes)
    };
    for _ in 0..runs {
        let left = run_behind(rt, &given, gate)?;
        if !str::from_utf8(&left.sent)?.contains(" empty 0 strays 0\n") {
            return Err(Fail::new(format_args!("{text}: refused")));
        }
        check_left(alloc, &text, &streams, case.buffers, left)?;
    }
    Ok(())
}

/// Even where the applications are slow.
#[test]
fn no_frame_is_refused_while_buffers_come_back(rt: HostRuntime) -> Result<(), Fail> {
    let gate = Slow { processors: APART };
    for case in &CASES {
        check_case(&rt, case, RUNS, &gate)?;
    }
    Ok(())
}

/// Nor where all go round in one thread.
#[test]
fn no_frame_is_refused_in_one_thread(rt: HostRuntime) -> Result<(), Fail> {
    let gate = Slow {
        processors: TOGETHER,
    };
    for case in &CASES {
        check_case(&rt, case, 1, &gate)?;
    }
    Ok(())
}

/// A turn of the card meets one of an application, over as many buffers as frames, so that the card doesn't wait for the
/// application that waits.
fn check_meeting(
    rt: &(impl AllocGlobal + RandomSource + Threads + Wait + Sync),
    made: &[u8],
    card_turn: u64,
    app_turn: u64,
) -> Result<(), Fail> {
    let gate = Meeting::of_turns((0, card_turn), (1, app_turn));
    let given = Given {
        words: &["replay", "--buffers", "2000", "9000"],
        most: LONG,
        stream_room: LONG,
        ..faultless(made)
    };
    let left = run_behind(rt, &given, &gate)?;
    check_number("status", 0, u64::from(left.status))?;
    check_number("card and application that met", 2, gate.met())
}

/// The card's first turn meets the first of an application, and a turn far behind its first notes another: the loops of both go
/// on in threads of their own.
#[test]
fn the_card_and_an_application_go_on_side_by_side(rt: HostRuntime) -> Result<(), Fail> {
    let made = made(&rt, &["make", "7", "2000"])?;
    check_meeting(&rt, &made, 0, 0)?;
    check_meeting(&rt, &made, 400, 100)
}

/// A source that gives one record only once the card has begun its turns.
#[derive(Drop)]
struct Held<'a> {
    source: MemSource,
    /// How many calls come before the one that waits.
    calls: u64,
    /// Whether the card has begun.
    begun: &'a AtomicU64,
    /// How often it was waited for in vain.
    late: &'a AtomicU64,
}

impl Source for Held<'_> {
    ghost left = { λ s. Some s.source.left };

    ghost faults = { λ s. s.source.faults };

    fn read(&mut self, into: &mut [u8]) -> Result<usize, Failed> {
        if self.calls == 0 {
            self.wait();
        }
        self.calls = self.calls.wrapping_sub(1);
        self.source.read(into)
    }
}

impl Held<'_> {
    fn wait(&self) {
        if !waits_for(self.begun, 1) {
            self.late.fetch_add(1, Ordering::SeqCst);
        }
    }
}

/// Tells when the card begins its turns.
#[derive(Drop)]
struct Begins<'a> {
    begun: &'a AtomicU64,
}

impl Gate for Begins<'_> {
    fn at(&self, who: u32, _turn: u64) {
        if who == 0 {
            self.begun.store(1, Ordering::SeqCst);
        }
    }

    fn processors(&self) -> Option<usize> {
        APART
    }
}

/// What 200 empty segments of a flow come to.
const NOTHING_SENT: &str = "\
capture records 200 tcp 200 steered 200 other 0 fragment 0 cut 0 bad 0
app 0 port 9000 written 0 loans 0 copied 0 stopped no
flow 0 port 9000 base 0 bytes 0 fin no end open
pool fast 0 refill 0 slow 0 empty 0 strays 0
status 0
";

/// The reading waits at its 50th record for the card, which has begun by then: neither comes after the other.
#[test]
fn the_reading_and_the_card_go_on_side_by_side(rt: HostRuntime) -> Result<(), Fail> {
    let alloc = rt.alloc();
    let mut frames = Vec::new(alloc);
    for _ in 0..200 {
        frames.push(frame(alloc, &to_9000(0, PSH_ACK, b""))?)?;
    }
    let (begun, late) = (AtomicU64::new(0), AtomicU64::new(0));
    let mut source = Held {
        source: MemSource::new(capture(alloc, &frames)?, LONG, Vec::new(alloc)),
        calls: 100,
        begun: &begun,
        late: &late,
    };
    check_report(&rt, &mut source, 0, NOTHING_SENT, &Begins { begun: &begun })?;
    check_number("calls in vain", 0, late.load(Ordering::SeqCst))
}
