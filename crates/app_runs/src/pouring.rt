//! What is poured into a shelf, over the board on words: turn by turn, as a future, and as a future beside a card with a thread
//! of its own.
ghost use Rattle.std.specs.Prelude.{Some};
ghost use Rattle.zr_io.specs.Memory.{kept_of};

use crate::card::CardMove;
use crate::step::{Line, Step, same_bytes, same_line, went};
use crate::words::{Card, open, seats};
use futures::Future;
use futures::executor::block_on;
use std::alloc::{AllocError, AllocGlobal, Global};
use std::io;
use std::process::Abort;
use std::random::RandomSource;
use std::sync::Wait;
use std::sync::atomic::{AtomicBool, Ordering};
use std::test::*;
use std::thread::{Threads, join};
use zc_poll::{LoanStream, PollTurn, Poured, ToShelf};
use zr_io::{Failed, MemShelf, Shelf};
use zr_kinds::Stopped;

/// What is poured: the card's steps, and what has to come of it.
#[derive(Clone, Copy)]
pub struct Row<'a> {
    pub name: &'a str,
    /// Which of the shelf's calls fail, and behind how many bytes.
    pub fails: &'a [(u64, usize)],
    pub steps: &'a [Step<'a>],
    pub streams: &'a [(u32, &'a [u8])],
    pub line: Line,
    /// How many bytes of each flow were written.
    pub flows: &'a [(u32, u64)],
}

impl Row<'_> {
    /// A shelf for four flows.
    pub fn shelf(&self, alloc: Global) -> Result<MemShelf, AllocError> {
        MemShelf::new(alloc, 4, 64, self.fails.to_vec(alloc)?)
    }

    /// Compares what was poured.
    pub fn compare(&self, rt: &impl Abort, poured: &Poured, shelf: &MemShelf) {
        let line = Line(poured.written, poured.loans, poured.copied, poured.stopped);
        same_line(rt, self.name, line, self.line);
        went(rt, self.name, 0, poured.flows.as_slice() == self.flows);
        for (flow, bytes) in self.streams {
            same_bytes(rt, self.name, *flow, shelf.flow(*flow), bytes);
        }
    }
}

/// The shelf of a row, lent to what pours, so that it can be read behind that.
#[derive(Drop)]
struct Lent<'a> {
    shelf: &'a mut MemShelf,
}

impl Shelf for Lent<'_> {
    ghost kept = { λ s flow. Some (kept_of s.shelf.now flow) };

    ghost counts = { λ s. record { faults = s.shelf.now.faults; appended = s.shelf.now.appended } };

    fn append(&mut self, flow: u32, piece: &[u8]) -> Result<(), Failed> {
        self.shelf.append(flow, piece)
    }

    fn flush(&mut self) -> Result<(), Failed> {
        self.shelf.flush()
    }
}

/// The card makes its steps, and what was sent is poured by turns. Where one does nothing, the card deals with an entry, and ends.
fn pours_by_turns(rt: &impl Abort, alloc: Global, row: &Row<'_>) -> Result<(), Fail> {
    let (board, mut desk) = open(alloc, 4, 4096, 16)?;
    let (mut card, seat) = seats(&board, &mut desk)?;
    card.play(rt, row.name, row.steps);
    let mut work = ToShelf::new(LoanStream::new(alloc, seat, 0), row.shelf(alloc)?);
    for _turn in 0..64u32 {
        match work.turn() {
            PollTurn::Did => {}
            PollTurn::Idle(_) => {
                card.make(CardMove::Entry);
                card.make(CardMove::End);
            }
            PollTurn::Ended(poured) => {
                let (_seat, shelf) = work.parts();
                row.compare(rt, &poured, &shelf);
                return Ok(());
            }
        }
    }
    Err(Fail::from("it came to no end"))
}

/// The card makes all its steps, and what was sent is polled to its end.
fn pours_by_polls<R: Abort + Wait + RandomSource + AllocGlobal>(
    rt: &R,
    row: &Row<'_>,
) -> Result<(), Fail> {
    let (board, mut desk) = open(rt.alloc(), 4, 4096, 16)?;
    let (mut card, seat) = seats(&board, &mut desk)?;
    card.play(rt, row.name, row.steps);
    let mut shelf = row.shelf(rt.alloc())?;
    let lent = Lent { shelf: &mut shelf };
    let poured = block_on(rt, ToShelf::new(LoanStream::new(rt.alloc(), seat, 0), lent))?;
    row.compare(rt, &poured, &shelf);
    Ok(())
}

/// The card makes its steps and ends, and deals with entries until the application is done.
fn serve<R: Abort + Wait>(
    rt: &R,
    card: &mut Card<'_>,
    name: &str,
    steps: &[Step<'_>],
    done: &AtomicBool,
) {
    card.play(rt, name, steps);
    card.make(CardMove::End);
    for _ in rt.forever() {
        card.make(CardMove::Entry);
        if done.load(Ordering::SeqCst) {
            return;
        }
    }
}

/// What is to be poured is polled to its end, and the card told of it.
fn pour<R: Wait + RandomSource + AllocGlobal, F: Future>(
    rt: &R,
    work: F,
    done: &AtomicBool,
) -> io::Result<F::Output>
    requires { F.can_poll work }
{
    let poured = block_on(rt, work);
    done.store(true, Ordering::SeqCst);
    poured
}

/// Both side by side.
pub fn join_both<R: Threads + Wait + Abort + RandomSource + AllocGlobal + Sync, F: Future + Send>(
    rt: &R,
    work: F,
    card: &mut Card<'_>,
    row: &Row<'_>,
) -> io::Result<F::Output>
where
    F::Output: Send,
    requires { F.can_poll work }
{
    let done = AtomicBool::new(false);
    let (poured, ()) = join(
        rt,
        || pour(rt, work, &done),
        || serve(rt, card, row.name, row.steps, &done),
    );
    poured
}

/// What is sent is poured while the card sends.
fn pours_beside<R: Threads + Wait + Abort + RandomSource + AllocGlobal + Sync>(
    rt: &R,
    row: &Row<'_>,
) -> Result<(), Fail> {
    let (board, mut desk) = open(rt.alloc(), 4, 4096, 16)?;
    let (mut card, seat) = seats(&board, &mut desk)?;
    let mut shelf = row.shelf(rt.alloc())?;
    let lent = Lent { shelf: &mut shelf };
    let work = ToShelf::new(LoanStream::new(rt.alloc(), seat, 0), lent);
    let poured = join_both(rt, work, &mut card, row)?;
    row.compare(rt, &poured, &shelf);
    Ok(())
}

#[test]
fn a_stream_is_poured_into_a_shelf(rt: HostRuntime) -> Result<(), Fail> {
    pours_by_turns(
        &rt,
        rt.alloc(),
        &Row {
            name: "two flows",
            fails: &[],
            steps: &[
                Step::First,
                Step::Send(3, 1002, b"cd"),
                Step::Short(3, 1000, b"ab"),
                Step::Send(0, 1000, b"hello"),
                Step::Send(0, 1003, b"XX, world"),
                Step::Send(0, 1020, b"behind a gap"),
            ],
            streams: &[(0, b"hello, world"), (3, b"abcd")],
            line: Line(16, 4, 1, Stopped::No),
            flows: &[(0, 12), (3, 4)],
        },
    )
}

#[test]
fn a_fault_of_the_shelf_stops_it(rt: HostRuntime) -> Result<(), Fail> {
    pours_by_turns(
        &rt,
        rt.alloc(),
        &Row {
            name: "the second call fails",
            fails: &[(2, 3)],
            steps: &[
                Step::First,
                Step::Send(2, 1000, b"ab"),
                Step::Send(1, 1000, b"hello"),
                Step::Send(0, 1000, b"never written"),
            ],
            streams: &[(0, b""), (1, b"hel"), (2, b"ab")],
            line: Line(2, 2, 0, Stopped::Write),
            flows: &[(2, 2)],
        },
    )
}

/// No loan is given back by an entry, so it needs no card.
#[test]
fn pouring_is_a_future(rt: HostRuntime) -> Result<(), Fail> {
    pours_by_polls(
        &rt,
        &Row {
            name: "the first call fails",
            fails: &[(1, 2)],
            steps: &[
                Step::First,
                Step::Send(0, 1000, b"hello"),
                Step::Send(0, 1005, b"world"),
                Step::End,
            ],
            streams: &[(0, b"he")],
            line: Line(0, 1, 0, Stopped::Write),
            flows: &[],
        },
    )
}

#[test]
fn one_payload_goes_through(rt: HostRuntime) -> Result<(), Fail> {
    pours_beside(
        &rt,
        &Row {
            name: "one payload",
            fails: &[],
            steps: &[Step::First, Step::Send(0, 1000, b"hello")],
            streams: &[(0, b"hello")],
            line: Line(5, 1, 0, Stopped::No),
            flows: &[(0, 5)],
        },
    )
}

/// All buffers of the pool are the card's, so each copy takes the reserve, which comes back once the card dealt with its entry.
#[test]
fn copies_wait_for_the_reserve(rt: HostRuntime) -> Result<(), Fail> {
    pours_beside(
        &rt,
        &Row {
            name: "two copies",
            fails: &[],
            steps: &[
                Step::First,
                Step::Send(0, 1003, b"lo"),
                Step::Short(2, 1000, b"x"),
                Step::Send(0, 1000, b"hel"),
                Step::Short(0, 1005, b", "),
                Step::Send(0, 1007, b"world"),
            ],
            streams: &[(0, b"hello, world"), (2, b"x")],
            line: Line(13, 5, 2, Stopped::No),
            flows: &[(0, 12), (2, 1)],
        },
    )
}
