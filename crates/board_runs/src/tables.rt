//! Tables of calls on both boards, just opened, each with a card and one application.

ghost use Rattle.std.specs.Prelude.{◌≡◌, ◌<◌, ◌≤◌};
ghost use Rattle.area_layout.specs.Layout.{all_buffers};
ghost use Rattle.board_face.specs.NicCalls.{apps_of};
ghost use Rattle.face_table.specs.{CardHand.{IsCardHand}, AppHand.{IsAppHand}};
ghost use Rattle.plain_board.specs.Board.{side_of};
ghost use Rattle.word_board.specs.Desk.{AllAreBack};

use area_layout::Layout;
use board_face::{AppFace, NicFace};
use face_table::{
    Answer, AppHand, Call, CardHand, Row, app_call, card_call, exchange, rows, scrubs_early,
    void_entries,
};
use plain_board::PlainBoard;
use std::alloc::Global;
use std::process::Abort;
use std::test::*;
use word_board::{ClosedWords, Desk, WordBoard};

/// A table of calls, the board that it is for, and what is free at its end.
#[derive(Drop)]
pub struct Table<'a> {
    pub name: &'a str,
    /// The numbers of buffers of the areas, and their sizes.
    pub areas: &'a [(u32, u32)],
    pub places: u32,
    pub rows: &'a [Row],
    pub free: &'a [u32],
    /// Whether the free buffers are compared in their order, or from the lowest.
    pub ordered: bool,
}

/// The call of this number answered as it was to.
fn answered(rt: &impl Abort, name: &str, number: u32, well: bool) {
    assert!(rt; well, "{name}: row {number}");
}

/// Makes a call of one role at a board for one thread, while the other's hand stays as it is.
fn plain_call(
    board: PlainBoard,
    card: &mut CardHand,
    app: &mut AppHand,
    call: Call,
) -> (PlainBoard, Answer)
    requires few { 0 < board.arrays.layout.reserves }
    requires card { IsCardHand board.nic.view card.old }
    requires app { IsAppHand (side_of board 0).view app.old }
    ensures few { 0 < result.0.arrays.layout.reserves }
    ensures card { IsCardHand result.0.nic.view card.new }
    ensures app { IsAppHand (side_of result.0 0).view app.new }
{
    match call {
        Call::Card(call) => {
            let mut nic = board.nic();
            let answer = card_call(&mut nic, card, call);
            (nic.back(), answer)
        }
        Call::App(call) => {
            let mut part = board.app(0);
            let answer = app_call(&mut part, app, call);
            (part.back(), answer)
        }
    }
}

/// Makes the calls of a table at a board for one thread, and compares their answers.
pub fn plain_rows(
    rt: &impl Abort,
    name: &str,
    board: PlainBoard,
    card: &mut CardHand,
    app: &mut AppHand,
    table: &[Row],
) -> PlainBoard
    requires few { 0 < board.arrays.layout.reserves }
    requires card { IsCardHand board.nic.view card.old }
    requires app { IsAppHand (side_of board 0).view app.old }
    ensures few { 0 < result.arrays.layout.reserves }
    ensures card { IsCardHand result.nic.view card.new }
    ensures app { IsAppHand (side_of result 0).view app.new }
{
    let mut board = board;
    let mut number = 0u32;
    for row in table {
        number = number.wrapping_add(1);
        let (then, answer) = plain_call(board, card, app, row.call);
        board = then;
        answered(rt, name, number, answer == row.answer);
    }
    board
}

/// Makes a call of one role at its face.
fn face_call<N: NicFace, A: AppFace>(
    nic: &mut N,
    seat: &mut A,
    card: &mut CardHand,
    app: &mut AppHand,
    call: Call,
) -> Answer
    requires card { IsCardHand (N.seen nic.old) card.old }
    requires app { IsAppHand (A.seen seat.old) app.old }
    ensures card { IsCardHand (N.seen nic.new) card.new }
    ensures app { IsAppHand (A.seen seat.new) app.new }
    ensures number { (A.seen seat.new).app ≡ (A.seen seat.old).app }
    ensures beside { (N.beside nic.new ≡ N.beside nic.old)
        × (A.beside seat.new ≡ A.beside seat.old) }
{
    match call {
        Call::Card(call) => card_call(nic, card, call),
        Call::App(call) => app_call(seat, app, call),
    }
}

/// Makes the calls of a table at two faces, and compares their answers.
pub fn face_rows<N: NicFace, A: AppFace>(
    rt: &impl Abort,
    name: &str,
    nic: &mut N,
    seat: &mut A,
    card: &mut CardHand,
    app: &mut AppHand,
    table: &[Row],
)
    requires card { IsCardHand (N.seen nic.old) card.old }
    requires app { IsAppHand (A.seen seat.old) app.old }
    ensures card { IsCardHand (N.seen nic.new) card.new }
    ensures app { IsAppHand (A.seen seat.new) app.new }
    ensures number { (A.seen seat.new).app ≡ (A.seen seat.old).app }
    ensures beside { (N.beside nic.new ≡ N.beside nic.old)
        × (A.beside seat.new ≡ A.beside seat.old) }
{
    let mut number = 0u32;
    for row in table {
        number = number.wrapping_add(1);
        let answer = face_call(nic, seat, card, app, row.call);
        answered(rt, name, number, answer == row.answer);
    }
}

/// Runs a table on a board for one thread, and answers the buffers that are free at its end.
fn plain_free(
    rt: &impl Abort,
    alloc: Global,
    layout: Layout,
    table: &Table<'_>,
) -> Result<Vec<u32>, Fail>
    requires one { layout.reserves ≡ 1 }
    requires some { 1 ≤ table.now.places }
    requires few { table.now.places ≤ 256 }
{
    let board = PlainBoard::open(alloc, layout, 1, table.places)?;
    let mut card = CardHand::new();
    let mut app = AppHand::new();
    let board = plain_rows(rt, table.name, board, &mut card, &mut app, table.rows);
    let nic = board.nic();
    if nic.apps() != 1 || !card.ended() || !app.left() {
        return Err(Fail::from("not all have ended"));
    }
    Ok(nic.back().finish().free)
}

/// Whether the first application's count and the pool's are 0 in the words that a board was closed with, for so many buffers.
fn is_uncounted(words: &ClosedWords, buffers: u32) -> bool
    requires one { 0 < apps_of words.now.setting }
    requires buffers { buffers ≤ all_buffers words.now.setting.layout }
{
    for buffer in 0..buffers {
        if words.pool(buffer) != 0 || words.user(0, buffer) != 0 {
            return false;
        }
    }
    true
}

/// The buffers that are free at the end of a board on words, for so many buffers with those of reserves. No count is left then.
fn closed_free(board: WordBoard, desk: Desk, buffers: u32) -> Result<Vec<u32>, Fail>
    requires desk { desk.board ≡ board }
    requires back { AllAreBack board.setting desk.view }
    requires one { 0 < apps_of board.setting }
    requires buffers { buffers ≤ all_buffers board.setting.layout }
{
    board.uncounted(&desk);
    let (ended, words) = board.close(desk);
    if !is_uncounted(&words, buffers) {
        return Err(Fail::from("a count is left"));
    }
    Ok(ended.free)
}

/// The same on a board on words.
fn word_free(
    rt: &impl Abort,
    alloc: Global,
    layout: Layout,
    table: &Table<'_>,
) -> Result<Vec<u32>, Fail>
    requires one { layout.reserves ≡ 1 }
    requires some { 1 ≤ table.now.places }
    requires few { table.now.places ≤ 256 }
{
    let (board, mut desk) = WordBoard::open(alloc, layout, 1, table.places)?;
    let mut nic = board.nic(&mut desk).ok_or("no seat of the card")?;
    let mut seat = board.app(&mut desk, 0).ok_or("no seat of the application")?;
    let mut card = CardHand::new();
    let mut app = AppHand::new();
    face_rows(
        rt, table.name, &mut nic, &mut seat, &mut card, &mut app, table.rows,
    );
    if !card.ended() || !app.left() {
        return Err(Fail::from("not all have ended"));
    }
    nic.back(&mut desk);
    seat.back(&mut desk);
    closed_free(board, desk, layout.total())
}

/// Compares the buffers that are free at the end of a table.
fn compare_free(rt: &impl Abort, table: &Table<'_>, mut free: Vec<u32>) -> Result<(), Fail> {
    if !table.ordered {
        free.sort()?;
    }
    assert!(rt;
        free.as_slice() == table.free,
        "{}: {free:?} are free",
        table.name
    );
    Ok(())
}

/// Runs a table on both boards.
pub fn run(rt: &impl Abort, alloc: Global, table: &Table<'_>) -> Result<(), Fail> {
    let layout = Layout::of(table.areas, 1).ok_or("no layout")?;
    if table.places < 1 || table.places > 256 {
        return Err(Fail::from("no such rings"));
    }
    compare_free(rt, table, plain_free(rt, alloc, layout, table)?)?;
    compare_free(rt, table, word_free(rt, alloc, layout, table)?)
}

/// The faces' tables: all calls; a payload that goes to the application, and whose buffer comes back; an application that scrubs
/// beside a card that goes on, so that what it owed in the buffer goes, and the buffer is the card's still; and entries that name
/// no buffer, which are strays and no more. At the end each pool buffer is free once.
#[test]
fn tables_run(rt: HostRuntime) -> Result<(), Fail> {
    let alloc = rt.alloc();
    run(&rt, alloc, &small("all calls", 2, rows(), &[0, 1]))?;
    run(&rt, alloc, &small("exchange", 4, exchange(), &[1, 0]))?;
    run(
        &rt,
        alloc,
        &small("scrubs early", 4, scrubs_early(), &[1, 0]),
    )?;
    run(
        &rt,
        alloc,
        &small("void entries", 4, void_entries(), &[1, 0]),
    )
}

/// A table for two buffers of 1,024 bytes.
fn small<'a>(name: &'a str, places: u32, rows: &'a [Row], free: &'a [u32]) -> Table<'a> {
    Table {
        name,
        areas: &[(2, 1024)],
        places,
        rows,
        free,
        ordered: true,
    }
}
