//! `zcrx replay PORT..` replays the capture on standard input: it writes the stream of each TCP flow to one of the ports
//! into `flow-<number>.bin` in the current folder, and a report to standard output. The status that ends the report is
//! the exit status too. `zcrx make SEED FRAMES` writes a capture to standard output, and `zcrx check` says whether the record
//! on standard input is that of a legal run.
#![tactic(auto)]

ghost use Rattle.std.specs.Prelude.{◌≡◌, IfOk, vec_len};
ghost use Rattle.top_call.specs.Cards.{IsClosed};

mod descriptors;
mod front;
mod messages;
mod progress;
mod records;
mod refused;
mod unfit;

use command_words::{Command, read_words};
use descriptors::{hold_closed_streams, spare_files};
use front::Front;
use messages::{say_lost, say_none, say_refused, say_status, say_unfit, say_usage};
use progress::{Input, Progress};
use refused::RefusedCounter;
use replay_threads::NoGate;
use std::alloc::AllocError;
use std::collections::hash_map::RandomState;
use std::io::BufReader;
use std::process::ExitCode;
use std::rt::{Env, Files};
use std::sync::Wait;
use std::sync::atomic::{AtomicU64, Ordering};
use std::thread::Threads;
use std::{env, fs, io};
use top_call::{Card, SHELVES, zcrx};
use zr_io::{FileShelf, StdSink, StdSource};
use zr_kinds::Fault;

/// How many bytes of standard input are read at a time.
const INPUT_BUFFER: usize = 65_536;

/// How many bytes of each open file are gathered before they are written, where standard input is a file.
const GATHERED: usize = 65_536;

/// All arguments. One that isn't UTF-8 is a faulty command line.
fn read_arguments(rt: &(impl Env + AllocGlobal)) -> Result<Vec<String>, Fault> {
    let arguments = env::args(rt).map_err(|error| memory_or(Fault::Usage, &error))?;
    arguments.collect(rt.alloc()).map_err(|_| Fault::Memory)
}

/// Want of memory, or else this fault.
fn memory_or(other: Fault, error: &io::Error) -> Fault {
    match error.kind() {
        io::ErrorKind::OutOfMemory => Fault::Memory,
        _ => other,
    }
}

/// What the command of the words reads.
fn input_of(words: &[&str]) -> Option<Input> {
    match words {
        ["replay", ..] => Some(Input::Capture),
        ["check", ..] => Some(Input::Record),
        _ => None,
    }
}

/// How many bytes of each open file are gathered. What comes by a pipe, a socket or a terminal may still be going on, so its streams
/// are written as they come.
fn gathered(rt: &impl Files) -> usize {
    match fs::metadata(rt, "/dev/stdin") {
        Ok(input) if input.is_file() => GATHERED,
        _ => 0,
    }
}

/// Shelves that together keep no more than `files` open, gather so many bytes of each, and count their flows.
fn make_shelves<'a, R: Files + AllocGlobal>(
    rt: &'a R,
    files: usize,
    gathered: usize,
    flows: &'a AtomicU64,
) -> Result<Vec<FileShelf<'a, &'a R>>, AllocError>
    ensures { IfOk result (λ shelves. vec_len shelves ≡ 8) }
{
    let mut shelves = Vec::with_capacity(rt.alloc(), SHELVES)?;
    for _ in 0..SHELVES {
        shelves.push(FileShelf::new(rt, files / SHELVES, gathered, flows)?)?;
    }
    Ok(shelves)
}

/// Tells of the frames that were refused where notices stay behind.
fn tell_refused(rt: &HostRuntime, words: &[&str], refused: usize) {
    if refused == 0 {
        return;
    }
    // Where there is no memory to read the words again nothing is said.
    if let Ok(Some(Command::Replay(replay))) = read_words(rt.alloc(), words) {
        say_refused(rt, replay.options.forward.unwrap_or(0), refused);
    }
}

/// Runs the command over standard input, standard output and the files of the current folder, by these threads.
fn start(rt: &HostRuntime, threads: &(impl Threads + Wait + Sync)) -> Result<u8, Fault> {
    let _held = hold_closed_streams(rt).map_err(|error| memory_or(Fault::Write, &error))?;
    let arguments = read_arguments(rt)?;
    let words: Vec<&str> = arguments
        .iter()
        .skip(1)
        .map(|word| word.as_str())
        .collect(rt.alloc())
        .map_err(|_| Fault::Memory)?;
    let input = BufReader::with_capacity(rt.alloc(), INPUT_BUFFER, rt.reader());
    let flows = AtomicU64::new(0);
    let read = input_of(&words);
    let progress = Progress::new(rt, read, &flows);
    let mut source = Front::new(StdSource::new(input.map_err(|_| Fault::Memory)?), progress);
    let shelves = make_shelves(rt, spare_files(rt), gathered(rt), &flows);
    let mut shelves = shelves.map_err(|_| Fault::Memory)?;
    let mut out = RefusedCounter::new(StdSink::new(io::writer(rt)));
    let random = RandomState::new(rt).map_err(|_| Fault::Read)?;
    let mut card = Card::Blank;
    let status = zcrx(
        threads,
        rt.alloc(),
        random,
        &words,
        &mut source,
        &mut shelves,
        &mut out,
        &NoGate,
        &mut card,
    );
    source.clear();
    if let Card::Found(found) = &card {
        say_unfit(rt, *found);
    }
    close(card);
    if status == Fault::Usage.number() {
        say_usage(rt, &words);
    }
    say_lost(rt, &shelves);
    tell_refused(rt, &words, out.count());
    let replays = matches!(read, Some(Input::Capture));
    if replays && status == 0 && flows.load(Ordering::SeqCst) == 0 {
        say_none(rt);
    }
    say_status(rt, replays, status, source.bytes(), source.place());
    Ok(status)
}

/// Ends the board of the run, if there was one.
fn close(card: Card)
    requires { IsClosed card }
{
    match card {
        Card::Blank | Card::Found(_) => {}
        card => {
            let _ended = card.free();
        }
    }
}

fn main(rt: HostRuntime) -> ExitCode {
    // The system's value serves for threads only where `main` lends it for that, so it comes a second time.
    let status = match start(&rt, &rt) {
        Ok(status) => status,
        Err(fault) => {
            say_status(&rt, false, fault.number(), &[], None);
            fault.number()
        }
    };
    ExitCode::from(status)
}
