//! Pools of as many buffers as a capture needs, and of fewer.
use super::checks::{Stream, bytes_from, check_left, check_text, words_of};
use super::gates::Delay;
use replay_threads::{Gate, NoGate};
use run_driver::samples::{PSH_ACK, SYN, capture, frame, to_9000};
use run_driver::{Given, faultless, run_behind};
use std::alloc::Global;
use std::random::RandomSource;
use std::sync::Wait;
use std::test::Fail;
use std::thread::Threads;

/// How many texts there are of eight turns of two roles.
const TEXTS: u32 = 256;

/// How often each capture is replayed by threads.
const RUNS: u32 = 200;

/// How many bytes a stream here has at most.
const ROOM: usize = 4000;

/// A flow to port 9000 whose application keeps all its loans unread, over buffers of 1,024 bytes.
#[derive(Clone, Copy)]
struct Case {
    split: &'static str,
    /// Where the payloads begin in the stream, and how many bytes they have. A SYN comes before them.
    payloads: &'static [(u32, usize)],
    /// How many bytes the stream has.
    whole: usize,
    /// How many buffers are needed: as many as each payload longer than `split` fills, and one for each byte of the others.
    need: u32,
    /// With so many these turns leave too few for the last payload, and then so many bytes of the stream come out.
    fewer: u32,
    turns: &'static str,
    refused: &'static str,
    front: usize,
}

const CASES: [Case; 5] = [
    // Each long payload fills a buffer and begins another.
    Case {
        split: "0",
        payloads: &[(0, 1100), (1100, 1100), (2200, 1100)],
        whole: 3300,
        need: 6,
        fewer: 5,
        turns: "nnnn",
        refused: "refused 4",
        front: 2200,
    },
    // Bytes that came before need a buffer again.
    Case {
        split: "0",
        payloads: &[(0, 600), (0, 600)],
        whole: 600,
        need: 2,
        fewer: 1,
        turns: "nnn",
        refused: "refused 3",
        front: 600,
    },
    // Each copy of a short payload takes a buffer before the long one looks for its own.
    Case {
        split: "1",
        payloads: &[(0, 1), (1, 1), (2, 1), (3, 1100)],
        whole: 1103,
        need: 5,
        fewer: 4,
        turns: "nn0n0n0n",
        refused: "refused 5",
        front: 3,
    },
    // Every second byte came before, so that four pieces of seven bytes are copied, and three of one byte.
    Case {
        split: "7",
        payloads: &[(1, 1), (3, 1), (5, 1), (0, 7), (7, 1100)],
        whole: 1107,
        need: 12,
        fewer: 8,
        turns: "nnnnn0000n",
        refused: "refused 6",
        front: 7,
    },
    // Short and long ones by turns, with the card ahead.
    Case {
        split: "1",
        payloads: &[(0, 1), (1, 1100), (1101, 1), (1102, 1100)],
        whole: 2202,
        need: 6,
        fewer: 3,
        turns: "nnnnn",
        refused: "refused 5",
        front: 1102,
    },
];

/// The capture of a case.
fn capture_of_case(alloc: Global, case: &Case) -> Result<Vec<u8>, Fail> {
    let stream = bytes_from(alloc, 0, case.whole)?;
    let mut frames = Vec::new(alloc);
    frames.push(frame(alloc, &to_9000(999, SYN, b""))?)?;
    for (begin, count) in case.payloads {
        let first = *begin as usize;
        let text = stream
            .get(first..first.saturating_add(*count))
            .ok_or("too short")?;
        let seq = begin.wrapping_add(1000);
        frames.push(frame(alloc, &to_9000(seq, PSH_ACK, text))?)?;
    }
    capture(alloc, &frames)
}

/// The lines of refused frames.
fn refused_in(alloc: Global, report: &str) -> Result<String, Fail> {
    let mut lines = String::new(alloc);
    for line in report.lines() {
        if line.starts_with("refused ") {
            lines.push_str(line)?;
        }
    }
    Ok(lines)
}

/// Replays a capture by these options, and compares the lines of refused frames and the stream.
fn check_run<G: Gate + Sync>(
    rt: &(impl AllocGlobal + RandomSource + Threads + Wait + Sync),
    bytes: &[u8],
    options: &str,
    buffers: u32,
    gate: &G,
    refused: &str,
    stream: &[u8],
) -> Result<(), Fail> {
    let alloc = rt.alloc();
    let line = format!(in alloc;
        "replay --size 1024 --hold 64 --buffers {buffers} {options} 9000"
    )?;
    let words = words_of(alloc, &line)?;
    let given = Given {
        words: &words,
        stream_room: ROOM,
        ..faultless(bytes)
    };
    let left = run_behind(rt, &given, gate)?;
    let told = refused_in(alloc, str::from_utf8(&left.sent)?)?;
    check_text(&line, refused, &told)?;
    let stream = Stream {
        app: 0,
        flow: 0,
        bytes: stream,
    };
    check_left(alloc, &line, &[stream], buffers, left)
}

/// A text of eight turns, each the card's or the application's: the first is the card's in every second text.
fn text_of(alloc: Global, number: u32) -> Result<String, Fail> {
    let mut text = String::new(alloc);
    let mut left = number;
    for _ in 0..8 {
        text.push(if left % 2 == 0 { 'n' } else { '0' })?;
        left /= 2;
    }
    Ok(text)
}

/// With the buffers that are needed each text of eight turns leaves enough, and with fewer the case's text leaves too few.
fn check_by_turns(
    rt: &(impl AllocGlobal + RandomSource + Threads + Wait + Sync),
    case: &Case,
) -> Result<(), Fail> {
    let alloc = rt.alloc();
    let bytes = capture_of_case(alloc, case)?;
    let stream = bytes_from(alloc, 0, case.whole)?;
    let split = case.split;
    for number in 0..TEXTS {
        let turns = text_of(alloc, number)?;
        let options = format!(in alloc; "--split {split} --turns {turns}")?;
        check_run(rt, &bytes, &options, case.need, &NoGate, "", &stream)?;
    }
    let options = format!(in alloc; "--split {split} --turns {}", case.turns)?;
    let front = bytes_from(alloc, 0, case.front)?;
    check_run(
        rt,
        &bytes,
        &options,
        case.fewer,
        &NoGate,
        case.refused,
        &front,
    )
}

/// With the buffers that are needed there are enough, whichever role is held up.
fn check_by_threads(
    rt: &(impl AllocGlobal + RandomSource + Threads + Wait + Sync),
    case: &Case,
) -> Result<(), Fail> {
    let alloc = rt.alloc();
    let bytes = capture_of_case(alloc, case)?;
    let stream = bytes_from(alloc, 0, case.whole)?;
    let options = format!(in alloc; "--split {}", case.split)?;
    for run in 0..RUNS {
        let gate = Delay::of_run(run, 1);
        check_run(rt, &bytes, &options, case.need, &gate, "", &stream)?;
    }
    Ok(())
}

#[test]
fn as_many_buffers_as_needed_are_enough_by_turns(rt: HostRuntime) -> Result<(), Fail> {
    for case in CASES {
        check_by_turns(&rt, &case)?;
    }
    Ok(())
}

#[test]
fn as_many_buffers_as_needed_are_enough_by_threads(rt: HostRuntime) -> Result<(), Fail> {
    for case in CASES {
        check_by_threads(&rt, &case)?;
    }
    Ok(())
}
