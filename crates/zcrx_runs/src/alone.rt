//! Commands that need no threads.
use super::checks::{check_number, check_text};
use run_driver::samples::{PSH_ACK, capture_of, to_9000};
use run_driver::{free_buffers, shelves_for};
use std::collections::hash_map::RandomState;
use std::random::RandomSource;
use std::test::Fail;
use top_call::{Card, SHELVES, zcrx_alone};
use zr_io::{MemSink, MemSource};

/// What a call left.
#[derive(Drop)]
struct Left {
    answer: Option<u8>,
    sent: Vec<u8>,
    stream: Vec<u8>,
    /// Whether there is a board.
    ran: bool,
}

/// Runs a command over a capture of one segment, `hello` to port 9000.
fn run_alone(rt: &(impl AllocGlobal + RandomSource), words: &[&str]) -> Result<Left, Fail> {
    let alloc = rt.alloc();
    let bytes = capture_of(alloc, &[to_9000(1001, PSH_ACK, b"hello")])?;
    let mut source = MemSource::new(bytes, 1000, Vec::new(alloc));
    let mut shelves = shelves_for(alloc, 1, 100, &[])?;
    if shelves.len() != SHELVES {
        return Err(Fail::new("another number of shelves"));
    }
    let mut out = MemSink::new(alloc, 2000, Vec::new(alloc))?;
    let random = RandomState::new(rt)?;
    let mut card = Card::Blank;
    let answer = zcrx_alone(
        alloc,
        random,
        words,
        &mut source,
        &mut shelves,
        &mut out,
        &mut card,
    );
    let ran = free_buffers(card).is_some();
    let stream = match shelves.first() {
        Some(shelf) => shelf.flow(0).to_vec(alloc)?,
        None => Vec::new(alloc),
    };
    Ok(Left {
        answer,
        sent: out.bytes().to_vec(alloc)?,
        stream,
        ran,
    })
}

/// A command is answered by a status, writes a text and a stream, and has a board or none.
fn check_alone(
    rt: &(impl AllocGlobal + RandomSource),
    words: &[&str],
    answer: Option<u8>,
    text: &str,
    stream: &str,
    ran: bool,
) -> Result<(), Fail> {
    let left = run_alone(rt, words)?;
    if left.answer != answer || left.ran != ran {
        return Err(Fail::new("another answer or board"));
    }
    check_text("what went out", text, str::from_utf8(&left.sent)?)?;
    check_text("stream", stream, str::from_utf8(&left.stream)?)
}

#[test]
fn a_replay_by_turns_needs_no_threads(rt: HostRuntime) -> Result<(), Fail> {
    let report = "\
capture records 1 tcp 1 steered 1 other 0 fragment 0 cut 0 bad 0
app 0 port 9000 written 5 loans 1 copied 0 stopped no
flow 0 port 9000 base 1001 bytes 5 fin no end open
pool fast 0 refill 0 slow 1 empty 0 strays 0
status 0
";
    let words = ["replay", "--turns", "n", "9000"];
    check_alone(&rt, &words, Some(0), report, "hello", true)
}

#[test]
fn a_replay_by_threads_is_not_begun(rt: HostRuntime) -> Result<(), Fail> {
    check_alone(&rt, &["replay", "9000"], None, "", "", false)
}

#[test]
fn other_commands_need_no_threads(rt: HostRuntime) -> Result<(), Fail> {
    check_alone(&rt, &["check"], Some(14), "bad 1\n", "", false)?;
    check_alone(&rt, &["replay"], Some(2), "", "", false)?;
    let made = run_alone(&rt, &["make", "7", "1"])?;
    if made.answer != Some(0) {
        return Err(Fail::new("another answer"));
    }
    check_number("bytes of a capture", 1094, made.sent.len() as u64)
}
