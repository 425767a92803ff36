//! What waits hands its parts back: at its end, and half way.
use crate::pouring::{Row, join_both};
use crate::step::{Line, Step};
use crate::words::{open, seats};
use std::test::*;
use zc_forward::{Forward, ShelfCarrier};
use zc_poll::{LoanStream, PollTurn, ToShelf};
use zr_kinds::Stopped;

/// Two flows, of which one is short.
const ALL: Row = Row {
    name: "two flows",
    fails: &[],
    steps: &[
        Step::First,
        Step::Send(0, 1000, b"hello"),
        Step::Send(3, 1002, b"cd"),
        Step::Short(3, 1000, b"ab"),
    ],
    streams: &[(0, b"hello"), (3, b"abcd")],
    line: Line(9, 3, 1, Stopped::No),
    flows: &[(0, 5), (3, 4)],
};

/// What the card sends before the application stops.
const BEFORE: [Step; 2] = [Step::First, Step::Send(0, 1000, b"hello")];

/// What it sends behind that, which isn't written.
const FRONT: Row = Row {
    name: "half way",
    fails: &[],
    steps: &[Step::Send(0, 1005, b", world")],
    streams: &[(0, b"hello")],
    line: Line(5, 1, 0, Stopped::Quit),
    flows: &[(0, 5)],
};

/// At its end pouring gives the shelf back.
#[test]
fn pours(rt: HostRuntime) -> Result<(), Fail> {
    let (board, mut desk) = open(rt.alloc(), 4, 4096, 16)?;
    let (mut card, seat) = seats(&board, &mut desk)?;
    let stream = LoanStream::new(rt.alloc(), seat, 0);
    let work = ToShelf::new(stream, ALL.shelf(rt.alloc())?);
    let (poured, _seat, shelf) = join_both(&rt, work.with_parts(), &mut card, &ALL)?;
    ALL.compare(&rt, &poured, &shelf);
    Ok(())
}

/// And forwarding the carrier.
#[test]
fn forwards(rt: HostRuntime) -> Result<(), Fail> {
    let (board, mut desk) = open(rt.alloc(), 4, 4096, 16)?;
    let (mut card, seat) = seats(&board, &mut desk)?;
    let stream = LoanStream::new(rt.alloc(), seat, 0);
    let carrier = ShelfCarrier::new(ALL.shelf(rt.alloc())?, 1);
    let work = Forward::new(stream, carrier);
    let (poured, _seat, carrier) = join_both(&rt, work.with_parts(), &mut card, &ALL)?;
    ALL.compare(&rt, &poured, &carrier.shelf());
    Ok(())
}

/// Stopped behind its first turn, pouring gives the shelf and the stream back, which leaves beside a card that goes on.
#[test]
fn pours_half_way(rt: HostRuntime) -> Result<(), Fail> {
    let (board, mut desk) = open(rt.alloc(), 4, 4096, 16)?;
    let (mut card, seat) = seats(&board, &mut desk)?;
    card.play(&rt, FRONT.name, &BEFORE);
    let stream = LoanStream::new(rt.alloc(), seat, 0);
    let mut work = ToShelf::new(stream, FRONT.shelf(rt.alloc())?);
    let PollTurn::Did = work.turn() else {
        return Err(Fail::from("nothing was poured"));
    };
    let (poured, stream, shelf) = work.stop();
    let _seat = join_both(&rt, stream.leaving(), &mut card, &FRONT)?;
    FRONT.compare(&rt, &poured, &shelf);
    Ok(())
}

/// So does forwarding, whose loan the carrier still had.
#[test]
fn forwards_half_way(rt: HostRuntime) -> Result<(), Fail> {
    let (board, mut desk) = open(rt.alloc(), 4, 4096, 16)?;
    let (mut card, seat) = seats(&board, &mut desk)?;
    card.play(&rt, FRONT.name, &BEFORE);
    let stream = LoanStream::new(rt.alloc(), seat, 0);
    let carrier = ShelfCarrier::new(FRONT.shelf(rt.alloc())?, 1);
    let mut work = Forward::new(stream, carrier);
    let PollTurn::Did = work.turn() else {
        return Err(Fail::from("nothing was forwarded"));
    };
    let (poured, stream, carrier) = work.stop();
    let _seat = join_both(&rt, stream.leaving(), &mut card, &FRONT)?;
    FRONT.compare(&rt, &poured, &carrier.shelf());
    Ok(())
}
