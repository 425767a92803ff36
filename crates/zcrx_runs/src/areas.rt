//! Drawn captures over pools of several areas.
use super::checks::{Stream, bytes_from, check_left, words_of};
use super::gates::Delay;
use replay_threads::{Gate, NoGate};
use run_driver::samples::{PSH_ACK, SYN, Sent, capture, frame};
use run_driver::{Given, faultless, run_behind};
use std::alloc::Global;
use std::random::RandomSource;
use std::sync::Wait;
use std::test::Fail;
use std::thread::Threads;

/// How many captures are drawn.
const CAPTURES: u32 = 100;

/// How many frames with a payload each has.
const FRAMES: usize = 12;

/// How many flows there are.
const FLOWS: usize = 3;

/// Their source ports, applications and destination ports.
const ENDS: [(u16, usize, u16); FLOWS] = [(40000, 0, 9000), (40001, 0, 9000), (40000, 1, 9001)];

/// The sequence number of the first byte of each: the numbers wrap.
const BASE: u32 = 4_294_960_000;

/// How many bytes a stream here has at most.
const ROOM: usize = 160_000;

/// How long buffers are: short ones are drawn more often.
const SIZES: [u32; 9] = [1024, 1024, 1024, 2048, 4096, 8192, 16_384, 32_768, 65_536];

/// Bytes of a flow, which are the payload of a frame.
#[derive(Clone, Copy)]
struct Piece {
    flow: usize,
    /// Where they begin in its stream.
    begin: usize,
    len: usize,
}

impl Piece {
    fn end(&self) -> usize {
        self.begin.saturating_add(self.len)
    }
}

/// So many bytes of a flow, from a position on. Those of different flows differ at each position.
fn bytes_of(alloc: Global, flow: usize, begin: usize, len: usize) -> Result<Vec<u8>, Fail> {
    let shift = flow.saturating_mul(17);
    bytes_from(alloc, begin.saturating_add(shift), len)
}

/// Draws captures, and how they are replayed.
#[derive(Clone, Copy)]
struct Drawer {
    /// Where the linear congruential generator stands.
    state: u32,
    /// How many bytes of each flow were sent.
    sent: [usize; FLOWS],
}

impl Drawer {
    fn new(seed: u32) -> Self {
        Drawer {
            state: seed,
            sent: [0; FLOWS],
        }
    }

    fn draw(&mut self) -> u32 {
        self.state = self
            .state
            .wrapping_mul(1_664_525)
            .wrapping_add(1_013_904_223);
        self.state >> 16
    }

    fn below(&mut self, end: u32) -> u32 {
        self.draw() % end.max(1)
    }

    /// The next bytes of a flow, or some that came before, or some ahead.
    fn piece(&mut self) -> Piece {
        let flow = self.draw() as usize % FLOWS;
        let most = [80, 1500, 10_000, 10_000][self.draw() as usize % 4];
        let len = self.below(most) as usize + 1;
        let shift = self.below(3000) as usize;
        let sent = self.sent[flow];
        let begin = match self.below(6) {
            0 => sent.saturating_sub(shift),
            1 => sent.saturating_add(shift),
            _ => sent,
        };
        let piece = Piece { flow, begin, len };
        if begin <= sent {
            self.sent[flow] = sent.max(piece.end());
        }
        piece
    }

    /// The sizes of one to four areas.
    fn sizes(&mut self, alloc: Global) -> Result<Vec<u32>, Fail> {
        let mut sizes = Vec::new(alloc);
        for _ in 0..=self.below(4) {
            sizes.push(SIZES[self.draw() as usize % SIZES.len()])?;
        }
        Ok(sizes)
    }

    /// Areas of these sizes, as words have them, with so many buffers in all.
    fn areas(&mut self, alloc: Global, sizes: &[u32], buffers: u32) -> Result<String, Fail> {
        let mut text = String::new(alloc);
        let mut left = buffers;
        for (place, size) in sizes.iter().enumerate() {
            let is_last = place.saturating_add(1) == sizes.len();
            let count = if is_last {
                left
            } else {
                self.below(buffers / 4).saturating_add(1)
            };
            left = left.saturating_sub(count);
            let comma = if is_last { "" } else { "," };
            text.push_str(&format!(in alloc; "{count}:{size}{comma}")?)?;
        }
        Ok(text)
    }

    /// Up to forty turns.
    fn turns(&mut self, alloc: Global) -> Result<String, Fail> {
        let mut turns = String::new(alloc);
        for _ in 0..=self.below(40) {
            turns.push(['n', 'n', '0', '1'][self.draw() as usize % 4])?;
        }
        Ok(turns)
    }
}

/// A capture of pieces, and the words by which it is replayed.
#[derive(Drop)]
struct Drawn {
    pieces: Vec<Piece>,
    words: String,
    buffers: u32,
    /// Whether the pool has as many buffers as are needed whatever the turns are.
    is_enough: bool,
}

/// How many buffers are enough: as many of the least size as each payload longer than `split` fills, and one for each byte of
/// the others.
fn need_of(pieces: &[Piece], split: usize, least: usize) -> Result<u32, Fail> {
    let mut need = 0usize;
    for piece in pieces {
        let part = if piece.len > split {
            piece.len.div_ceil(least.max(1))
        } else {
            piece.len
        };
        need = need.saturating_add(part);
    }
    Ok(u32::try_from(need)?)
}

/// Draws a capture, and how it is replayed: by drawn turns or by threads.
fn draw(alloc: Global, seed: u32, by_turns: bool) -> Result<Drawn, Fail> {
    let mut drawer = Drawer::new(seed);
    let mut pieces = Vec::new(alloc);
    for _ in 0..FRAMES {
        pieces.push(drawer.piece())?;
    }
    let sizes = drawer.sizes(alloc)?;
    let least = sizes.iter().copied().min().ok_or("no area")?;
    let split = [0, 0, 3, 64][drawer.draw() as usize % 4];
    let need = need_of(&pieces, split, least as usize)?;
    let few = drawer.below(9).saturating_add(4);
    let buffers = if drawer.below(2) == 0 { need } else { few };
    let areas = drawer.areas(alloc, &sizes, buffers)?;
    let ring = [1, 2, 3, 64][drawer.draw() as usize % 4];
    let hold = drawer.below(8);
    let leak = drawer.below(3);
    let stray = drawer.below(3);
    let mut words = format!(in alloc;
        "replay --areas {areas} --ring {ring} --split {split} --hold {hold} --leak {leak} --stray {stray}"
    )?;
    if by_turns {
        words.push_str(" --turns ")?;
        words.push_str(&drawer.turns(alloc)?)?;
    }
    words.push_str(" 9000 9001")?;
    Ok(Drawn {
        pieces,
        words,
        buffers,
        is_enough: buffers >= need,
    })
}

/// A SYN of each flow, and then a frame of each piece.
fn capture_of(alloc: Global, pieces: &[Piece]) -> Result<Vec<u8>, Fail> {
    let mut frames = Vec::new(alloc);
    for (sport, _, dport) in ENDS {
        let syn = Sent {
            sport,
            dport,
            seq: BASE.wrapping_sub(1),
            flags: SYN,
            text: b"",
        };
        frames.push(frame(alloc, &syn)?)?;
    }
    for piece in pieces {
        let (sport, _, dport) = *ENDS.get(piece.flow).ok_or("no flow")?;
        let text = bytes_of(alloc, piece.flow, piece.begin, piece.len)?;
        let sent = Sent {
            sport,
            dport,
            seq: BASE.wrapping_add(u32::try_from(piece.begin)?),
            flags: PSH_ACK,
            text: &text,
        };
        frames.push(frame(alloc, &sent)?)?;
    }
    capture(alloc, &frames)
}

/// The numbers of the refused frames.
fn refused_in(alloc: Global, report: &str) -> Result<Vec<usize>, Fail> {
    let mut refused = Vec::new(alloc);
    for line in report.lines() {
        if let Some(number) = line.strip_prefix("refused ") {
            refused.push(number.parse::<usize>()?)?;
        }
    }
    Ok(refused)
}

/// Where the taken pieces of a flow begin and end, in order. The frames of the pieces are numbered behind those of the flows'
/// begins, from 1.
fn taken_of(
    alloc: Global,
    pieces: &[Piece],
    refused: &[usize],
    flow: usize,
) -> Result<Vec<(usize, usize)>, Fail> {
    let mut taken = Vec::new(alloc);
    for (place, piece) in pieces.iter().enumerate() {
        let number = place.saturating_add(FLOWS + 1);
        if piece.flow == flow && !refused.contains(&number) {
            taken.push((piece.begin, piece.end()))?;
        }
    }
    taken.sort()?;
    Ok(taken)
}

/// How many bytes come before the first that none of these pieces has. They are in order.
fn front_of(taken: &[(usize, usize)]) -> usize {
    let mut front = 0usize;
    for (begin, end) in taken {
        if *begin <= front {
            front = front.max(*end);
        }
    }
    front
}

/// The front of each flow that the taken pieces have.
fn fronts_of(alloc: Global, pieces: &[Piece], refused: &[usize]) -> Result<Vec<Vec<u8>>, Fail> {
    let mut fronts = Vec::new(alloc);
    for flow in 0..FLOWS {
        let taken = taken_of(alloc, pieces, refused, flow)?;
        fronts.push(bytes_of(alloc, flow, 0, front_of(&taken))?)?;
    }
    Ok(fronts)
}

/// The streams of these flows, each with its application.
fn streams_of(alloc: Global, fronts: &[Vec<u8>]) -> Result<Vec<Stream<'_>>, Fail> {
    let mut streams = Vec::new(alloc);
    for (bytes, (_, app, _)) in fronts.iter().zip(&ENDS) {
        let flow = u32::try_from(streams.len())?;
        streams.push(Stream {
            app: *app,
            flow,
            bytes,
        })?;
    }
    Ok(streams)
}

/// The report counts these refused frames, and there is none where buffers are enough.
fn check_refused(drawn: &Drawn, report: &str, count: usize) -> Result<(), Fail> {
    let mut is_told = false;
    for line in report.lines() {
        if let Some((_, numbers)) = line.split_once(" empty ") {
            let (empty, _) = numbers.split_once(' ').ok_or("nothing behind `empty`")?;
            is_told = empty.parse::<usize>()? == count;
        }
    }
    if !is_told || (count > 0 && drawn.is_enough) {
        let words = drawn.words.as_str();
        return Err(Fail::new(format_args!("{words}: {count} refused")));
    }
    Ok(())
}

/// Replays a drawn capture: streams have to be those of plain copying without the refused frames, none may be refused where
/// buffers are enough, and each buffer has to be free once. It answers how many are refused.
fn check_drawn<G: Gate + Sync>(
    rt: &(impl AllocGlobal + RandomSource + Threads + Wait + Sync),
    drawn: &Drawn,
    gate: &G,
) -> Result<usize, Fail> {
    let alloc = rt.alloc();
    let name = drawn.words.as_str();
    let words = words_of(alloc, name)?;
    let capture = capture_of(alloc, &drawn.pieces)?;
    let given = Given {
        words: &words,
        most: ROOM,
        stream_room: ROOM,
        ..faultless(&capture)
    };
    let left = run_behind(rt, &given, gate)?;
    let report = str::from_utf8(&left.sent)?;
    let refused = refused_in(alloc, report)?;
    check_refused(drawn, report, refused.len())?;
    let fronts = fronts_of(alloc, &drawn.pieces, &refused)?;
    let streams = streams_of(alloc, &fronts)?;
    check_left(alloc, name, &streams, drawn.buffers, left)?;
    Ok(refused.len())
}

/// Under drawn turns. Enough buffers and too few are seen often.
#[test]
fn drawn_areas_go_as_plain_copying_by_turns(rt: HostRuntime) -> Result<(), Fail> {
    let mut enough = 0usize;
    let mut refused = 0usize;
    for seed in 0..CAPTURES {
        let drawn = draw(rt.alloc(), seed, true)?;
        let count = check_drawn(&rt, &drawn, &NoGate)?;
        enough = enough.saturating_add(usize::from(drawn.is_enough));
        refused = refused.saturating_add(count);
    }
    if enough <= 40 || refused <= 50 {
        return Err(Fail::new("one of both is seldom seen"));
    }
    Ok(())
}

/// Whichever role is held up.
#[test]
fn drawn_areas_go_as_plain_copying_by_threads(rt: HostRuntime) -> Result<(), Fail> {
    for seed in 0..CAPTURES {
        let drawn = draw(rt.alloc(), seed, false)?;
        check_drawn(&rt, &drawn, &Delay::of_run(seed, 2))?;
    }
    Ok(())
}
