//! What a board for one thread logs, event by event.

ghost use Rattle.std.specs.Prelude.{◌<◌, ◌≤◌};
ghost use Rattle.zr_kinds.specs.Setting.{most_events};
ghost use Rattle.face_table.specs.{CardHand.{IsCardHand}, AppHand.{IsAppHand}};
ghost use Rattle.plain_board.specs.Board.{side_of};

use super::tables::plain_rows;
use area_layout::Layout;
use face_table::{AppHand, CardHand, Row, card, rows, scrubs_early};
use plain_board::PlainBoard;
use std::alloc::Global;
use std::process::Abort;
use std::test::*;
use zr_kinds::{Event, Log};

macro_rules! event {
    ($kind:ident $($field:ident $value:literal)*) => {
        Event::$kind { $($field: $value),* }
    };
}

/// The events of the faces' table. A call that answered 'not now', or that was skipped, has none.
static EVENTS: [Event; 36] = [
    event!(Take buffer 0 pool 1),
    event!(Shut buffer 0 pool 0),
    event!(Take buffer 0 pool 1),
    event!(Place buffer 0 offset 0 len 5 pool 2),
    event!(Sent app 0 buffer 0 offset 0 len 5),
    event!(Place buffer 0 offset 64 len 5 pool 3),
    event!(Sent app 0 buffer 0 offset 64 len 5),
    event!(Shut buffer 0 pool 2),
    event!(Take buffer 1 pool 1),
    event!(Place buffer 1 offset 0 len 5 pool 2),
    event!(Held app 0 buffer 0 offset 0 len 5),
    event!(Lend app 0 buffer 0 offset 0 len 5 pool 2 user 1),
    event!(Held app 0 buffer 0 offset 64 len 5),
    event!(Cut app 0 buffer 0 offset 64 len 5 at 2 pool 3),
    event!(Back app 0 buffer 0 offset 0 len 5 user 1),
    event!(Lend app 0 buffer 0 offset 64 len 2 pool 3 user 2),
    event!(Back app 0 buffer 0 offset 64 len 2 user 2),
    event!(Lend app 0 buffer 0 offset 66 len 3 pool 3 user 3),
    event!(Honour app 0 buffer 0 pool 2 user 2),
    event!(Back app 0 buffer 0 offset 66 len 3 user 2),
    event!(Honour app 0 buffer 0 pool 1 user 1),
    event!(Sent app 0 buffer 1 offset 0 len 5),
    event!(Held app 0 buffer 1 offset 0 len 5),
    event!(Honour app 0 buffer 0 pool 0 user 0),
    event!(Stray app 0),
    event!(Stray app 0),
    event!(Shut buffer 1 pool 1),
    event!(Free app 0 buffer 1 offset 0 len 5 pool 0),
    event!(Spare app 0 buffer 1 pool 1),
    event!(Own app 0 buffer 1 len 4 pool 1 user 1),
    event!(Back app 0 buffer 1 offset 0 len 4 user 1),
    event!(Spare app 0 buffer 2 pool 1),
    event!(Own app 0 buffer 2 len 4 pool 1 user 1),
    event!(Back app 0 buffer 2 offset 0 len 4 user 1),
    event!(Honour app 0 buffer 2 pool 0 user 0),
    event!(Scrub app 0 buffer 1 pool 0 user 0),
];

/// Compares what a board logged, and whether that is all.
fn compare(rt: &impl Abort, name: &str, log: &Log, whole: bool, events: &[Event]) {
    assert!(rt;
        log.whole == whole && log.events.as_slice() == events,
        "{name}: {:?}",
        log.events
    );
}

/// Plays the faces' table at a board whose log has room for so many events, and compares what was logged.
fn logs(
    rt: &impl Abort,
    alloc: Global,
    room: u32,
    whole: bool,
    events: &[Event],
) -> Result<(), Fail>
    requires { room ≤ most_events }
{
    let layout = Layout::new(2, 1, 1024).ok_or("no layout")?;
    let board = PlainBoard::open_logged(alloc, layout, 1, 2, room)?;
    compare(rt, "a new board", board.log(), true, &[]);
    let mut card = CardHand::new();
    let mut app = AppHand::new();
    let board = plain_rows(rt, "the table", board, &mut card, &mut app, rows());
    compare(rt, "the table", board.log(), whole, events);
    Ok(())
}

#[test]
fn table_is_logged(rt: HostRuntime) -> Result<(), Fail> {
    logs(&rt, rt.alloc(), 36, true, &EVENTS)
}

/// A log with room for three events has the first three, and one without room has none.
#[test]
fn log_has_its_room(rt: HostRuntime) -> Result<(), Fail> {
    logs(&rt, rt.alloc(), 3, false, &EVENTS[..3])?;
    logs(&rt, rt.alloc(), 0, false, &[])
}

/// The events of the table in which an application scrubs beside a card that goes on.
static SCRUB_EVENTS: [Event; 17] = [
    event!(Take buffer 0 pool 1),
    event!(Place buffer 0 offset 0 len 5 pool 2),
    event!(Sent app 0 buffer 0 offset 0 len 5),
    event!(Place buffer 0 offset 64 len 5 pool 3),
    event!(Sent app 0 buffer 0 offset 64 len 5),
    event!(Held app 0 buffer 0 offset 0 len 5),
    event!(Lend app 0 buffer 0 offset 0 len 5 pool 3 user 1),
    event!(Back app 0 buffer 0 offset 0 len 5 user 1),
    event!(Held app 0 buffer 0 offset 64 len 5),
    event!(Lend app 0 buffer 0 offset 64 len 5 pool 3 user 2),
    event!(Back app 0 buffer 0 offset 64 len 5 user 2),
    event!(Scrub app 0 buffer 0 pool 1 user 0),
    event!(Place buffer 0 offset 128 len 5 pool 2),
    event!(Sent app 0 buffer 0 offset 128 len 5),
    event!(Held app 0 buffer 0 offset 128 len 5),
    event!(Free app 0 buffer 0 offset 128 len 5 pool 1),
    event!(Shut buffer 0 pool 0),
];

/// How many of the rows of a table are played in one go, how many events there are then, and how many buffers are cached.
type Part = (usize, usize, u32);

/// Plays a table in parts. Behind each the log is compared, and no buffer is on the free list.
fn play_parts(
    rt: &impl Abort,
    board: PlainBoard,
    card: &mut CardHand,
    app: &mut AppHand,
    table: &[Row],
    parts: &[Part],
) -> Result<(), Fail>
    requires few { 0 < board.arrays.layout.reserves }
    requires card { IsCardHand board.nic.view card.old }
    requires app { IsAppHand (side_of board 0).view app.old }
{
    let mut board = board;
    let mut left = table;
    for &(count, events, cached) in parts {
        let (rows, rest) = left.split_at_checked(count).ok_or("too few rows")?;
        board = plain_rows(rt, "scrubs early", board, card, app, rows);
        left = rest;
        let wanted = SCRUB_EVENTS.get(..events).ok_or("too few events")?;
        compare(rt, "scrubs early", board.log(), true, wanted);
        let listed = [
            card!(Sweep(0) => Number(0)),
            card!(Cached => Number(cached)),
        ];
        board = plain_rows(rt, "none is listed", board, card, app, &listed);
    }
    Ok(())
}

/// Of the two loans that were abandoned in the buffer that the card fills, the scrub takes both user references and as many from
/// the pool count, as the log tells. The buffer isn't listed then, nor when it is shut: then it is cached.
#[test]
fn scrub_takes_what_is_owed(rt: HostRuntime) -> Result<(), Fail> {
    let layout = Layout::new(2, 1, 1024).ok_or("no layout")?;
    let board = PlainBoard::open_logged(rt.alloc(), layout, 1, 4, 17)?;
    let mut card = CardHand::new();
    let mut app = AppHand::new();
    let parts = &[(14, 11, 1), (1, 12, 1), (9, 16, 1), (1, 17, 2)];
    play_parts(&rt, board, &mut card, &mut app, scrubs_early(), parts)
}
