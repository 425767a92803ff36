//! Small captures, plans and texts that are drawn, and compared with plain copying without the refused frames.
ghost use Rattle.std.specs.Prelude.{◌<◌, ◌^◌, length};

use super::runs::{FLOWS, Given, Left, Setup, run};
use flow_table::plain::{PlainFlow, plain_flows, plain_stream};
use frame_headers::{Seen, read_frame};
use run_driver::samples::{ACK, FIN, PSH_ACK, RST, SYN, Sent, capture, frame, stream_bytes};
use std::alloc::Global;
use std::process::Abort;
use std::random::RandomSource;
use std::test::*;
use zr_kinds::{AppLine, Behaviour, FlowEnd, FlowLine, Stopped, Tally};

/// How many captures are drawn.
const CAPTURES: u32 = 300;

/// How many frames each has.
const FRAMES: u32 = 14;

/// The ports that are replayed.
const PORTS: [u16; 2] = [9000, 9001];

/// How a frame stands to those before it.
#[derive(Clone, Copy)]
enum Kind {
    NextBytes,
    SameBytesAgain,
    OtherBytesBefore,
    BytesAhead,
    NoPayload,
    SynAnew,
    Fin,
    Rst,
    CutShort,
}

/// What is drawn from.
const KINDS: [Kind; 24] = [
    Kind::NextBytes,
    Kind::NextBytes,
    Kind::NextBytes,
    Kind::NextBytes,
    Kind::NextBytes,
    Kind::NextBytes,
    Kind::NextBytes,
    Kind::NextBytes,
    Kind::NextBytes,
    Kind::NextBytes,
    Kind::SameBytesAgain,
    Kind::SameBytesAgain,
    Kind::OtherBytesBefore,
    Kind::OtherBytesBefore,
    Kind::BytesAhead,
    Kind::BytesAhead,
    Kind::NoPayload,
    Kind::NoPayload,
    Kind::SynAnew,
    Kind::SynAnew,
    Kind::Fin,
    Kind::Rst,
    Kind::CutShort,
    Kind::CutShort,
];

/// Source and destination ports. The last isn't replayed.
const ENDS: [(u16, u16); 6] = [
    (40000, 9000),
    (40000, 9000),
    (40001, 9000),
    (40000, 9001),
    (40000, 9001),
    (40000, 80),
];

/// How long payloads are: those of several buffers are rare.
const LENGTHS: [usize; 8] = [1, 3, 20, 64, 65, 300, 500, 1100];

/// Draws frames, all of them near one sequence number, and how they are played.
#[derive(Clone, Copy)]
struct Drawer {
    /// Where the linear congruential generator stands.
    state: u32,
    /// The sequence number of the next byte.
    next: u32,
}

impl Drawer {
    /// The sequence numbers of the first ones wrap.
    fn new(seed: u32) -> Self {
        Drawer {
            state: seed,
            next: seed.wrapping_sub(9),
        }
    }

    fn draw(&mut self) -> u32 {
        self.state = self
            .state
            .wrapping_mul(1_664_525)
            .wrapping_add(1_013_904_223);
        self.state >> 16
    }

    fn below(&mut self, end: u32) -> u32 {
        self.draw() % end.max(1)
    }

    /// A segment of a kind: these bytes, or a front of them.
    fn sent<'a>(&mut self, kind: Kind, bytes: &'a [u8]) -> Sent<'a> {
        let (sport, dport) = ENDS[self.draw() as usize % ENDS.len()];
        let skip = self.draw() as usize % 7;
        let len = LENGTHS[self.draw() as usize % LENGTHS.len()];
        let text = bytes.get(skip..skip.saturating_add(len)).unwrap_or(&[]);
        let next = self.next;
        let (seq, flags, text): (u32, u8, &'a [u8]) = match kind {
            Kind::SameBytesAgain => (next.wrapping_sub(len as u32), PSH_ACK, text),
            Kind::OtherBytesBefore => (next.wrapping_sub(3), PSH_ACK, text),
            Kind::BytesAhead => (next.wrapping_add(2), PSH_ACK, text),
            Kind::NoPayload => (next, ACK, &[]),
            Kind::SynAnew => (next.wrapping_add(7), SYN, &[]),
            Kind::Fin => (next, ACK | FIN, text),
            Kind::Rst => (next, RST, &[]),
            Kind::NextBytes | Kind::CutShort => {
                self.next = next.wrapping_add(text.len() as u32);
                (next, PSH_ACK, text)
            }
        };
        Sent {
            sport,
            dport,
            seq,
            flags,
            text,
        }
    }

    fn frames(&mut self, alloc: Global) -> Result<Vec<Vec<u8>>, Fail> {
        let bytes = stream_bytes(alloc, 1200)?;
        let mut frames = Vec::new(alloc);
        for _ in 0..FRAMES {
            let kind = KINDS[self.draw() as usize % KINDS.len()];
            let sent = self.sent(kind, &bytes);
            let mut made = frame(alloc, &sent)?;
            if matches!(kind, Kind::CutShort) {
                made.truncate(50);
            }
            frames.push(made)?;
        }
        Ok(frames)
    }

    fn setup(&mut self) -> Setup {
        Setup {
            both: true,
            buffers: self.below(4).saturating_add(1),
            size: 1024,
            ring: [1, 2, 64][self.draw() as usize % 3],
            split: [0, 3, 64, 256][self.draw() as usize % 4],
            how: Behaviour {
                hold: self.below(4),
                leak: self.below(3),
                stray: self.below(3),
                quit: [None, None, Some(70), Some(400)][self.draw() as usize % 4],
            },
        }
    }

    /// Up to twelve turns.
    fn turns(&mut self, alloc: Global) -> Result<String, Fail> {
        let mut turns = String::new(alloc);
        for _ in 0..self.below(13) {
            turns.push(['n', 'n', '0', '1'][self.draw() as usize % 4])?;
        }
        Ok(turns)
    }
}

/// How many records there are of each class, in all, and to one of the ports.
fn tally_of(seen: &[Seen<'_>]) -> Tally {
    let mut tally = Tally {
        records: 0,
        tcp: 0,
        steered: 0,
        other: 0,
        fragment: 0,
        cut: 0,
        bad: 0,
    };
    for one in seen {
        tally.records = tally.records.saturating_add(1);
        match one {
            Seen::Tcp(segment) => {
                let to_us = u32::from(PORTS.contains(&segment.dport));
                tally.tcp = tally.tcp.saturating_add(1);
                tally.steered = tally.steered.saturating_add(to_us);
            }
            Seen::Other => tally.other = tally.other.saturating_add(1),
            Seen::Fragment => tally.fragment = tally.fragment.saturating_add(1),
            Seen::CutShort => tally.cut = tally.cut.saturating_add(1),
            Seen::Bad => tally.bad = tally.bad.saturating_add(1),
        }
    }
    tally
}

/// How a flow ended, of which so many bytes came out. They are few, so they reach the FIN's number at most once.
fn end_of(flow: &PlainFlow, bytes: usize) -> FlowEnd {
    match flow.close.fin {
        _ if flow.close.reset => FlowEnd::Reset,
        None => FlowEnd::Going,
        Some(fin) if fin.wrapping_sub(flow.base) as usize == bytes => FlowEnd::Whole,
        Some(_) => FlowEnd::Short,
    }
}

/// The flow's shelf has a front of its stream, all of it if nothing stopped the application, and the line says so.
/// It answers how long that is.
fn check_flow(
    rt: &impl Abort,
    name: &str,
    left: &Left,
    number: u32,
    flow: &PlainFlow,
    stream: &[u8],
) -> Result<u64, Fail> {
    let app = left.outcome.apps.get(flow.app).ok_or("no line")?;
    let shelf = left.shelves.get(flow.app).ok_or("no shelf")?;
    let kept = shelf.flow(number);
    assert!(rt;
        stream.starts_with(kept),
        "{name}: flow {number} is no front"
    );
    let whole = kept.len() == stream.len();
    assert!(rt;
        whole || app.stopped != Stopped::No,
        "{name}: flow {number} isn't whole"
    );
    let line = FlowLine {
        port: flow.dport,
        base: flow.base,
        bytes: kept.len() as u64,
        fin: flow.close.fin.is_some(),
        end: end_of(flow, kept.len()),
    };
    let told = left.outcome.flows.get(number as usize).ok_or("no line")?;
    assert!(rt; *told == line, "{name}: the line of flow {number}");
    for (other, shelf) in left.shelves.iter().enumerate() {
        let empty = shelf.flow(number).is_empty();
        assert!(rt;
            other == flow.app || empty,
            "{name}: flow {number} of shelf {other}"
        );
    }
    Ok(line.bytes)
}

/// Each line has the bytes of its flows, and the application quits where it is to.
fn check_apps(rt: &impl Abort, name: &str, left: &Left, quit: Option<u64>, written: &[u64; 2]) {
    assert!(rt; left.outcome.apps.len() == 2, "{name}");
    for (app, line) in left.outcome.apps.iter().enumerate() {
        let AppLine {
            port,
            written: told,
            stopped,
            ..
        } = *line;
        let wanted = if quit == Some(told) {
            Stopped::Quit
        } else {
            Stopped::No
        };
        assert!(rt; PORTS.get(app) == Some(&port), "{name}: port {port}");
        assert!(rt;
            written.get(app) == Some(&told),
            "{name}: {told} are written"
        );
        assert!(rt; stopped == wanted, "{name}: what stopped application {app}");
    }
}

/// What is counted over all captures, so that much of each is seen.
#[derive(Clone, Copy, Default)]
struct Sums {
    refused: u64,
    quits: u64,
    copied: u64,
    strays: u64,
    refills: u64,
    whole: u64,
    short: u64,
    reset: u64,
}

impl Sums {
    fn add(&mut self, left: &Left) {
        let outcome = &left.outcome;
        self.refused = self.refused.saturating_add(outcome.refused.len() as u64);
        self.strays = self.strays.saturating_add(outcome.pool.strays);
        self.refills = self.refills.saturating_add(outcome.pool.refill);
        for line in &outcome.apps {
            let quits = u64::from(line.stopped == Stopped::Quit);
            self.quits = self.quits.saturating_add(quits);
            self.copied = self.copied.saturating_add(line.copied);
        }
        for line in &outcome.flows {
            match line.end {
                FlowEnd::Going => {}
                FlowEnd::Whole => self.whole = self.whole.saturating_add(1),
                FlowEnd::Short => self.short = self.short.saturating_add(1),
                FlowEnd::Reset => self.reset = self.reset.saturating_add(1),
            }
        }
    }
}

/// Everything that is left is as plain copying without the refused frames has it.
pub fn check_plain(
    rt: &(impl Abort + AllocGlobal + RandomSource),
    name: &str,
    given: &Given<'_>,
    seen: &[Seen<'_>],
) -> Result<Left, Fail>
    requires { length seen.now < 2 ^ 32 }
{
    let alloc = rt.alloc();
    let left = run(rt, name, given)?;
    let outcome = &left.outcome;
    assert!(rt;
        outcome.tally == tally_of(seen),
        "{name}: the capture's line"
    );
    assert!(rt; outcome.end.is_none(), "{name}: a fault");
    let refused = outcome.refused.len() as u64;
    assert!(rt;
        outcome.pool.empty == refused,
        "{name}: {refused} frames are refused"
    );
    let flows = plain_flows(alloc, &PORTS, seen)?;
    assert!(rt;
        outcome.flows.len() == flows.len(),
        "{name}: another number of flows"
    );
    assert!(rt; flows.len() <= FLOWS as usize, "{name}: too many flows");
    let mut written = [0u64; 2];
    for (number, flow) in flows.iter().enumerate() {
        let number = number as u32;
        let stream = plain_stream(alloc, &PORTS, seen, &outcome.refused, number)?;
        let bytes = check_flow(rt, name, &left, number, flow, &stream)?;
        if let Some(sum) = written.get_mut(flow.app) {
            *sum = sum.saturating_add(bytes);
        }
    }
    check_apps(rt, name, &left, given.setup.how.quit, &written);
    Ok(left)
}

fn check_drawn(
    rt: &(impl Abort + AllocGlobal + RandomSource),
    seed: u32,
    sums: &mut Sums,
) -> Result<(), Fail> {
    let alloc = rt.alloc();
    let mut drawer = Drawer::new(seed);
    let frames = drawer.frames(alloc)?;
    let bytes = capture(alloc, &frames)?;
    let turns = drawer.turns(alloc)?;
    let given = Given {
        setup: drawer.setup(),
        turns: &turns,
        bytes: &bytes,
    };
    let seen: Vec<Seen<'_>> = frames.iter().map(|frame| read_frame(frame)).collect(alloc)?;
    assert!(rt; seen.len() < 100);
    let name = format!(in alloc; "seed {seed}")?;
    let left = check_plain(rt, &name, &given, &seen)?;
    sums.add(&left);
    Ok(())
}

#[test]
fn drawn_runs_copy_all_but_the_refused(rt: HostRuntime) -> Result<(), Fail> {
    let mut sums = Sums::default();
    for seed in 0..CAPTURES {
        check_drawn(&rt, seed, &mut sums)?;
    }
    let Sums {
        refused,
        quits,
        copied,
        strays,
        refills,
        whole,
        short,
        reset,
    } = sums;
    assert!(&rt;
        refused > 300 && quits > 100 && copied > 200 && strays > 300 && refills > 10,
        "{refused} {quits} {copied} {strays} {refills}"
    );
    assert!(&rt;
        whole > 30 && short > 30 && reset > 30,
        "{whole} {short} {reset}"
    );
    Ok(())
}
