//! Which buffer a spare is on the board on words, where several are listed.
use super::tables::face_rows;
use area_layout::Layout;
use face_table::{AppHand, CardHand, Row, Text, app, card, fields};
use std::alloc::Global;
use std::process::Abort;
use std::test::*;
use word_board::WordBoard;
use zr_kinds::{Note, Place};

/// A note in which four bytes travel.
const SHORT: Note = fields!(Note frame 1 flow 0 base 1 seq 1 at 0 total 4
    place (fields!(Place buffer 0 offset 0 len 4)) split false fin false);

const HELLO_PLACE: Place = fields!(Place buffer 0 offset 0 len 5);

/// A note of a piece of five bytes at the begin of buffer 0.
const SPLIT: Note =
    fields!(Note frame 2 flow 0 base 5 seq 5 at 0 total 5 place HELLO_PLACE split true fin false);

const PING: Text = fields!(Text len 4 bytes (*b"ping\0\0\0\0"));

const HELLO: Text = fields!(Text len 5 bytes (*b"hello\0\0\0"));

/// Two applications on a board of so many pool buffers, of which the first makes the calls of a table, with the card, and then the
/// second those of another.
fn run_two(
    rt: &impl Abort,
    alloc: Global,
    buffers: u32,
    calls: &[Row],
    then: &[Row],
) -> Result<(), Fail> {
    let layout = Layout::new(buffers, 2, 1024).ok_or("no layout")?;
    let (board, mut desk) = WordBoard::open(alloc, layout, 2, 2)?;
    let mut nic = board.nic(&mut desk).ok_or("no seat of the card")?;
    let mut first = board.app(&mut desk, 0).ok_or("no seat of the first")?;
    let mut second = board.app(&mut desk, 1).ok_or("no seat of the second")?;
    let mut card = CardHand::new();
    let mut hand = AppHand::new();
    face_rows(
        rt,
        "the first",
        &mut nic,
        &mut first,
        &mut card,
        &mut hand,
        calls,
    );
    let mut other = AppHand::new();
    face_rows(
        rt,
        "the second",
        &mut nic,
        &mut second,
        &mut card,
        &mut other,
        then,
    );
    Ok(())
}

/// Of two buffers that are listed in one word the lowest is given first, and then the other.
#[test]
fn lowest_of_a_word_is_given(rt: HostRuntime) -> Result<(), Fail> {
    run_two(
        &rt,
        rt.alloc(),
        2,
        &[
            card!(SendLinear(0, SHORT, PING) => Flag(true)),
            app!(Poll => Linear(SHORT, PING)),
            app!(Spare => Buffer(0)),
            card!(SendLinear(1, SHORT, PING) => Flag(true)),
        ],
        &[app!(Poll => Linear(SHORT, PING)), app!(Spare => Buffer(1))],
    )
}

/// Where two words have a listed buffer, that of the first is given: buffer 0 before buffer 64. The card swept the first word, and
/// the application gave up a piece of buffer 0, which is listed by that.
#[test]
fn first_word_is_looked_at_first(rt: HostRuntime) -> Result<(), Fail> {
    run_two(
        &rt,
        rt.alloc(),
        65,
        &[
            card!(Sweep(0) => Number(64)),
            card!(Take => Buffer(0)),
            card!(Place(HELLO) => At(HELLO_PLACE)),
            card!(Send(0, SPLIT) => Done),
            card!(Shut => Done),
            app!(Poll => Note(SPLIT)),
            app!(Release => Done),
            card!(SendLinear(0, SHORT, PING) => Flag(true)),
            app!(Poll => Linear(SHORT, PING)),
            app!(Spare => Buffer(0)),
            card!(SendLinear(1, SHORT, PING) => Flag(true)),
        ],
        &[app!(Poll => Linear(SHORT, PING)), app!(Spare => Buffer(64))],
    )
}
