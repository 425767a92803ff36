//! A stream of notes through a board: the card sends, applications take. Both halves are proved from the faces' contracts
//! alone (`card.rt`, `app.rt`), and run on any board. `board_race NOTES BYTES` sends so many notes of so many bytes to one
//! application through each board, and prints how long that took: through the board for one thread, through the board on
//! words by one thread, and by a thread for the card and one for the application. A note has 1 to 16,384 bytes. Without
//! words it sends a few notes through each, and tells no times.
#![tactic(auto)]

mod app;
mod card;
mod lanes;
mod plain;
mod plan;
#[cfg(test)]
mod streams;
mod texts;
mod threads;
mod words;

ghost use Rattle.std.specs.Prelude.{◌≤◌, IfOk};

use crate::plain::run_plain;
use crate::plan::Plan;
use crate::threads::run_threads;
use crate::words::run_words;
use anyhow::{Context, bail};
use area_layout::Layout;
use std::env;
use std::time::Instant;

/// How many notes are sent, and of how many bytes, where no words say so.
const FEW: (u32, u16) = (1_000, 100);

/// How many bytes a buffer has, and so a note at most.
const SIZE: u16 = 16_384;

/// The notes and the bytes that the words ask for.
fn read_words(words: &[String]) -> anyhow::Result<(u32, u16)>
    ensures { IfOk result (λ asked. asked.1 ≤ 16384) }
{
    match words {
        [] => Ok(FEW),
        [notes, bytes] => {
            let bytes: u16 = bytes.parse()?;
            if bytes < 1 || bytes > SIZE {
                bail!("a note has 1 to {SIZE} bytes");
            }
            Ok((notes.parse()?, bytes))
        }
        _ => bail!("usage: board_race [NOTES BYTES]"),
    }
}

/// A line for a run: how many notes were taken, and how long that took where that is asked for.
fn print_run(
    rt: &impl Print,
    name: &str,
    taken: Option<u32>,
    micros: Option<u128>,
) -> anyhow::Result<()> {
    let taken = taken.context("a note was lost or had another text")?;
    match micros {
        Some(micros) => println!(rt; "{name} {taken} {micros}")?,
        None => println!(rt; "{name} {taken}")?,
    }
    Ok(())
}

fn main(rt: HostRuntime) -> anyhow::Result<()> {
    let words: Vec<String> = env::args(&rt)?.skip(1).collect(rt.alloc())?;
    let (notes, bytes) = read_words(&words)?;
    let timed = !words.is_empty();
    let plan = Plan {
        layout: Layout::new(64, 1, u32::from(SIZE)).context("no layout")?,
        places: 64,
        notes,
        bytes,
    };
    let begin = Instant::now(&rt)?;
    let taken = run_plain(rt.alloc(), &plan)?;
    let plain = begin.elapsed(&rt)?.as_micros();
    print_run(&rt, "plain", taken, timed.then_some(plain))?;
    let begin = Instant::now(&rt)?;
    let taken = run_words(rt.alloc(), &plan)?;
    let alone = begin.elapsed(&rt)?.as_micros();
    print_run(&rt, "words", taken, timed.then_some(alone))?;
    let begin = Instant::now(&rt)?;
    let passed = run_threads(&rt, rt.alloc(), &plan)?.context("a role was not done")?;
    let threads = begin.elapsed(&rt)?.as_micros();
    let taken = passed.taken.first().copied().flatten();
    print_run(&rt, "threads", taken, timed.then_some(threads))
}
