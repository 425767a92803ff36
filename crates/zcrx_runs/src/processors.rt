//! Over which board a replay without a text of turns goes.

use super::gates::{APART, Names, TOGETHER};
use run_driver::samples::{PSH_ACK, capture_of, to_9000};
use run_driver::shelves_for;
use std::collections::hash_map::RandomState;
use std::random::RandomSource;
use std::sync::Wait;
use std::test::Fail;
use std::thread::Threads;
use top_call::{Card, SHELVES, zcrx};
use zr_io::{MemSink, MemSource};

/// Words, and for how many processors they are run.
#[derive(Clone, Copy)]
struct Case {
    words: &'static [&'static str],
    processors: Option<usize>,
    /// Whether it is the board for one thread.
    plain: bool,
}

const CASES: [Case; 4] = [
    Case {
        words: &["replay", "9000"],
        processors: TOGETHER,
        plain: true,
    },
    Case {
        words: &["replay", "9000"],
        processors: APART,
        plain: false,
    },
    Case {
        words: &["replay", "--polled", "9000"],
        processors: TOGETHER,
        plain: false,
    },
    Case {
        words: &["replay", "--forward", "0", "9000"],
        processors: TOGETHER,
        plain: false,
    },
];

/// One segment goes over the board of the case.
fn check_board(
    rt: &(impl AllocGlobal + RandomSource + Threads + Wait + Sync),
    case: &Case,
) -> Result<(), Fail> {
    let alloc = rt.alloc();
    let bytes = capture_of(alloc, &[to_9000(1001, PSH_ACK, b"hello")])?;
    let mut source = MemSource::new(bytes, 1000, Vec::new(alloc));
    let mut shelves = shelves_for(alloc, 1, 100, &[])?;
    if shelves.len() != SHELVES {
        return Err(Fail::new("another number of shelves"));
    }
    let mut out = MemSink::new(alloc, 2000, Vec::new(alloc))?;
    let mut card = Card::Blank;
    let gate = Names {
        processors: case.processors,
    };
    let status = zcrx(
        rt,
        alloc,
        RandomState::new(rt)?,
        case.words,
        &mut source,
        &mut shelves,
        &mut out,
        &gate,
        &mut card,
    );
    if status != 0 || matches!(card, Card::Plain(_)) != case.plain {
        return Err(Fail::new(format_args!("{status}, or another board")));
    }
    Ok(())
}

/// On one processor it is the board for one thread, where applications take turns of their own; else the board on words.
#[test]
fn on_one_processor_it_is_the_board_for_one_thread(rt: HostRuntime) -> Result<(), Fail> {
    for case in &CASES {
        check_board(&rt, case)?;
    }
    Ok(())
}
