//! Runs of the examples of docs/USE.md, beside a card with a thread of its own.
ghost use Rattle.std.specs.Prelude.{◌≡◌, true, IfOk, IfSome};
ghost use Rattle.zc_poll.specs.Fresh.{HasDoneNothing};

mod forwarding;
mod lines;
mod shelf;

use crate::card::CardMove;
use crate::moody::{Mood, Moody};
use crate::pouring::Row;
use crate::step::{Line, Step, went};
use crate::words::{Card, open, seats};
use forwarding::{forward_flows, forward_to_shelf};
use lines::count_lines;
use shelf::{write_flows, write_some};
use std::alloc::AllocGlobal;
use std::io;
use std::process::Abort;
use std::random::RandomSource;
use std::sync::Wait;
use std::sync::atomic::{AtomicBool, Ordering};
use std::test::*;
use std::thread::{Threads, join_mut};
use word_board::AppSeat;
use zr_kinds::Stopped;

/// How many buffers the pool has.
const BUFFERS: u32 = 4;

/// What an application does.
#[derive(Clone, Copy)]
enum Does {
    /// It counts lines, of which there are so many.
    Counts(u64),
    /// It writes to the shelf, to the end, or for so many turns at most.
    Writes,
    WritesSome(u32),
    /// It forwards by the shelf's carrier, or by one that tells the latest tag first, late, and only where it is urged.
    Forwards,
    ForwardsByMood,
}

const LATE: Mood = Mood {
    late: 3,
    only_urged: true,
    fails_at: 0,
};

/// It does so at its seat, and leaves.
fn act<'b, R: Abort + Wait + RandomSource + AllocGlobal>(
    rt: &R,
    does: Does,
    row: &Row<'_>,
    seat: AppSeat<'b>,
) -> io::Result<AppSeat<'b>>
    requires new { HasDoneNothing 0 seat.side.view }
    ensures left { IfOk result (λ back. (back.side.view.left ≡ true) × (back.side.view.app ≡ 0)
        × (back.board ≡ seat.entry.board)) }
{
    let shelf = row.shelf(rt.alloc())?;
    let (poured, seat, shelf) = match does {
        Does::Counts(wanted) => {
            let (lines, seat) = count_lines(rt, seat, 0)?;
            went(rt, row.name, 0, lines == wanted);
            return Ok(seat);
        }
        Does::Writes => write_flows(rt, seat, 0, shelf)?,
        Does::WritesSome(turns) => write_some(rt, seat, 0, shelf, turns)?,
        Does::Forwards => forward_to_shelf(rt, seat, 0, shelf, 1)?,
        Does::ForwardsByMood => {
            let (poured, seat, carrier) = forward_flows(rt, seat, 0, Moody::new(shelf, LATE))?;
            (poured, seat, carrier.shelf())
        }
    };
    row.compare(rt, &poured, &shelf);
    Ok(seat)
}

/// The application takes its seat from here, and lays it back once it has left. The card is told.
fn visit<R: Abort + Wait + RandomSource + AllocGlobal>(
    rt: &R,
    does: Does,
    row: &Row<'_>,
    slot: &mut Option<AppSeat<'_>>,
    done: &AtomicBool,
)
    requires new { IfSome slot.old (λ seat. HasDoneNothing 0 seat.side.view) }
    ensures left { IfSome slot.new (λ back. (back.side.view.left ≡ true)
        × (back.side.view.app ≡ 0)
        × IfSome slot.old (λ seat. back.board ≡ seat.board)) }
{
    if let Some(seat) = slot.take() {
        if let Ok(back) = act(rt, does, row, seat) {
            *slot = Some(back);
        }
    }
    done.store(true, Ordering::SeqCst);
}

/// The card makes its steps and ends, and deals with entries until the application has left.
fn serve<R: Abort + Wait>(rt: &R, card: &mut Card<'_>, row: &Row<'_>, done: &AtomicBool)
    ensures { card.new.nic.board ≡ card.old.nic.board }
{
    card.play(rt, row.name, row.steps);
    card.make(CardMove::End);
    for _ in rt.forever() {
        card.make(CardMove::Entry);
        if done.load(Ordering::SeqCst) {
            return;
        }
    }
}

/// Both side by side.
fn visit_beside<R: Threads + Wait + Abort + RandomSource + AllocGlobal + Sync>(
    rt: &R,
    does: Does,
    row: &Row<'_>,
    slot: &mut Option<AppSeat<'_>>,
    card: &mut Card<'_>,
)
    requires new { IfSome slot.old (λ seat. HasDoneNothing 0 seat.side.view) }
    ensures left { IfSome slot.new (λ back. (back.side.view.left ≡ true)
        × (back.side.view.app ≡ 0)
        × IfSome slot.old (λ seat. back.board ≡ seat.board)) }
    ensures card { card.new.nic.board ≡ card.old.nic.board }
{
    let done = AtomicBool::new(false);
    join_mut(
        rt,
        &mut ||
            requires { IfSome slot.now (λ seat. HasDoneNothing 0 seat.side.view) }
        { visit(rt, does, row, slot, &done) },
        &mut || serve(rt, card, row, &done),
    );
}

/// The card makes the first steps, and those of the row while the application does this, over rings of so many places. Then the
/// board is over, and each buffer is free.
fn runs<R: Threads + Wait + Abort + RandomSource + AllocGlobal + Sync>(
    rt: &R,
    does: Does,
    places: u32,
    first: &[Step<'_>],
    row: &Row<'_>,
) -> Result<(), Fail> {
    let (board, mut desk) = open(rt.alloc(), BUFFERS, 4096, places)?;
    let (mut card, seat) = seats(&board, &mut desk)?;
    card.play(rt, row.name, first);
    let mut slot = Some(seat);
    visit_beside(rt, does, row, &mut slot, &mut card);
    let Some(seat) = slot else {
        return Err(Fail::from("the application came to no end"));
    };
    if !card.hand.ended() {
        return Err(Fail::from("the card goes on"));
    }
    card.nic.back(&mut desk);
    seat.back(&mut desk);
    let free = board.finish(desk).free.len();
    went(rt, row.name, 0, free == BUFFERS as usize);
    Ok(())
}

/// A row whose card makes these steps, and of which lines are counted.
fn counted<'a>(name: &'a str, steps: &'a [Step<'a>]) -> Row<'a> {
    Row {
        name,
        fails: &[],
        steps,
        streams: &[],
        line: Line(0, 0, 0, Stopped::No),
        flows: &[],
    }
}

/// Two flows, of which one is short.
const ALL: Row = Row {
    name: "two flows",
    fails: &[],
    steps: &[
        Step::First,
        Step::Send(0, 1000, b"hello"),
        Step::Send(3, 1002, b"cd"),
        Step::Short(3, 1000, b"ab"),
    ],
    streams: &[(0, b"hello"), (3, b"abcd")],
    line: Line(9, 3, 1, Stopped::No),
    flows: &[(0, 5), (3, 4)],
};

/// The second call of the shelf fails, behind two bytes, and what comes then isn't written.
const FAILS: Row = Row {
    name: "a call fails",
    fails: &[(2, 2)],
    steps: &[
        Step::First,
        Step::Send(0, 1000, b"hello"),
        Step::Send(0, 1005, b"world"),
        Step::Send(0, 1010, b"!"),
    ],
    streams: &[(0, b"hellowo")],
    line: Line(5, 2, 0, Stopped::Write),
    flows: &[(0, 5)],
};

/// What the card sends before the application comes that stops half way.
const BEFORE: [Step; 3] = [
    Step::First,
    Step::Send(0, 1000, b"hello"),
    Step::Send(0, 1005, b", "),
];

/// What it sends behind that, which isn't written, and what is.
fn front<'a>(
    name: &'a str,
    line: Line,
    streams: &'a [(u32, &'a [u8])],
    flows: &'a [(u32, u64)],
) -> Row<'a> {
    Row {
        name,
        fails: &[],
        steps: &[Step::Send(0, 1007, b"world")],
        streams,
        line,
        flows,
    }
}

#[test]
fn lines_are_counted(rt: HostRuntime) -> Result<(), Fail> {
    let two_flows = [
        Step::First,
        Step::Send(0, 1004, b"two\nthree"),
        Step::Short(0, 1000, b"one\n"),
        Step::Send(1, 1000, b"x\n\n"),
    ];
    runs(
        &rt,
        Does::Counts(4),
        4,
        &[],
        &counted("two flows", &two_flows),
    )?;
    // Nothing is in order.
    let gap = [Step::First, Step::Send(0, 1002, b"c\n")];
    runs(&rt, Does::Counts(0), 1, &[], &counted("behind a gap", &gap))?;
    // All is there before it begins.
    let lines = [
        Step::First,
        Step::Send(0, 1000, b"a\n"),
        Step::Send(0, 1002, b"b\n"),
        Step::Send(0, 1004, b"c\n"),
        Step::Send(0, 1006, b"d\n"),
    ];
    runs(&rt, Does::Counts(4), 4, &lines, &counted("four lines", &[]))
}

#[test]
fn flows_are_written(rt: HostRuntime) -> Result<(), Fail> {
    for places in [4, 16u32] {
        runs(&rt, Does::Writes, places, &[], &ALL)?;
        runs(&rt, Does::Writes, places, &[], &FAILS)?;
    }
    Ok(())
}

#[test]
fn flows_are_written_half_way(rt: HostRuntime) -> Result<(), Fail> {
    let none = front("no turn", Line(0, 0, 0, Stopped::Quit), &[(0, b"")], &[]);
    runs(&rt, Does::WritesSome(0), 4, &BEFORE, &none)?;
    let one = front(
        "one turn",
        Line(5, 1, 0, Stopped::Quit),
        &[(0, b"hello")],
        &[(0, 5)],
    );
    runs(&rt, Does::WritesSome(1), 4, &BEFORE, &one)?;
    let two = front(
        "two turns",
        Line(7, 2, 0, Stopped::Quit),
        &[(0, b"hello, ")],
        &[(0, 7)],
    );
    runs(&rt, Does::WritesSome(2), 4, &BEFORE, &two)
}

#[test]
fn flows_are_forwarded(rt: HostRuntime) -> Result<(), Fail> {
    for does in [Does::Forwards, Does::ForwardsByMood] {
        for places in [4, 16u32] {
            runs(&rt, does, places, &[], &ALL)?;
            runs(&rt, does, places, &[], &FAILS)?;
        }
    }
    Ok(())
}
