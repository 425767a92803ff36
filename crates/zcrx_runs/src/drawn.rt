//! Small captures that are drawn, and compared with the plain slow programs.
use super::plain::check_by;
use run_driver::samples::{ACK, FIN, PSH_ACK, RST, SYN, Sent, frame, over_ipv6, tagged};
use std::alloc::Global;
use std::random::RandomSource;
use std::sync::Wait;
use std::test::Fail;
use std::thread::Threads;

/// How many captures are drawn.
const CAPTURES: u32 = 40;

/// How many frames each has.
const FRAMES: u32 = 14;

/// How a frame stands to those before it.
#[derive(Clone, Copy)]
enum Kind {
    NextBytes,
    SameBytesAgain,
    OtherBytesBefore,
    BytesAhead,
    NoPayload,
    SynOfTheNextByte,
    SynAnew,
    Fin,
    Rst,
    Tagged,
    OverIpv6,
    PaddingBehind,
    CutShort,
}

/// What is drawn from.
const KINDS: [Kind; 18] = [
    Kind::NextBytes,
    Kind::NextBytes,
    Kind::NextBytes,
    Kind::SameBytesAgain,
    Kind::OtherBytesBefore,
    Kind::OtherBytesBefore,
    Kind::BytesAhead,
    Kind::BytesAhead,
    Kind::NoPayload,
    Kind::SynOfTheNextByte,
    Kind::SynAnew,
    Kind::Fin,
    Kind::Rst,
    Kind::NextBytes,
    Kind::Tagged,
    Kind::OverIpv6,
    Kind::PaddingBehind,
    Kind::CutShort,
];

/// Source and destination ports. The last isn't replayed.
const PORTS: [(u16, u16); 6] = [
    (40000, 9000),
    (40000, 9000),
    (40001, 9000),
    (40000, 9001),
    (40001, 9001),
    (40000, 80),
];

/// The bytes are drawn from these, so that the same position may have other bytes.
const PIECES: [&[u8]; 4] = [b"ab", b"cde", b"f", b"ghij"];

/// Draws frames, all of them near one sequence number.
#[derive(Clone, Copy)]
struct Drawer {
    /// Where the linear congruential generator stands.
    state: u32,
    /// The sequence number of the next byte.
    next: u32,
}

impl Drawer {
    /// The sequence numbers of the first ones wrap.
    fn new(seed: u32) -> Self {
        Drawer {
            state: seed,
            next: seed.wrapping_sub(9),
        }
    }

    fn draw(&mut self) -> usize {
        self.state = self
            .state
            .wrapping_mul(1_664_525)
            .wrapping_add(1_013_904_223);
        (self.state >> 16) as usize
    }

    /// Where the segment begins, its flags and its bytes.
    fn placed(&mut self, kind: Kind) -> (u32, u8, &'static [u8]) {
        let next = self.next;
        let piece = PIECES[self.draw() % PIECES.len()];
        match kind {
            Kind::SameBytesAgain => (next.wrapping_sub(piece.len() as u32), PSH_ACK, piece),
            Kind::OtherBytesBefore => (next.wrapping_sub(3), PSH_ACK, b"VWXYZ"),
            Kind::BytesAhead => (next.wrapping_add(2), PSH_ACK, piece),
            Kind::NoPayload => (next, ACK, b""),
            Kind::SynOfTheNextByte => (next.wrapping_sub(1), SYN, b""),
            Kind::SynAnew => (next.wrapping_add(7), SYN, b""),
            Kind::Fin => (next, ACK | FIN, piece),
            Kind::Rst => (next, RST, b""),
            _ => {
                self.next = next.wrapping_add(piece.len() as u32);
                (next, PSH_ACK, piece)
            }
        }
    }

    fn frame(&mut self, alloc: Global) -> Result<Vec<u8>, Fail> {
        let kind = KINDS[self.draw() % KINDS.len()];
        let (sport, dport) = PORTS[self.draw() % PORTS.len()];
        let (seq, flags, text) = self.placed(kind);
        let sent = Sent {
            sport,
            dport,
            seq,
            flags,
            text,
        };
        let mut made = frame(alloc, &sent)?;
        match kind {
            Kind::Tagged => return tagged(alloc, &made),
            Kind::OverIpv6 => return over_ipv6(alloc, &made),
            Kind::PaddingBehind => made.extend_from_slice(&[0; 6])?,
            Kind::CutShort => made.truncate(50),
            _ => {}
        }
        Ok(made)
    }
}

/// Replays drawn captures by these words: each goes as the plain programs say.
fn check_drawn(
    rt: &(impl AllocGlobal + RandomSource + Threads + Wait + Sync),
    words: &[&str],
) -> Result<(), Fail> {
    let alloc = rt.alloc();
    for seed in 0..CAPTURES {
        let mut drawer = Drawer::new(seed);
        let mut frames = Vec::new(alloc);
        for _ in 0..FRAMES {
            frames.push(drawer.frame(alloc)?)?;
        }
        let name = format!(in alloc; "seed {seed}")?;
        check_by(rt, words, &name, &frames)?;
    }
    Ok(())
}

#[test]
fn drawn_captures_go_as_the_plain_programs_say(rt: HostRuntime) -> Result<(), Fail> {
    check_drawn(&rt, &["replay", "9000", "9001"])
}

#[test]
fn polled_drawn_captures_go_as_the_plain_programs_say(rt: HostRuntime) -> Result<(), Fail> {
    check_drawn(&rt, &["replay", "9000", "--polled", "9001"])
}

#[test]
fn forwarded_drawn_captures_go_as_the_plain_programs_say(rt: HostRuntime) -> Result<(), Fail> {
    for delay in ["0", "2", "63"] {
        check_drawn(&rt, &["replay", "9000", "--forward", delay, "9001"])?;
    }
    Ok(())
}
