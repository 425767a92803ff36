//! An application that takes turns, at the board for one thread: the card's calls and its turns, one after another.
ghost use Rattle.std.specs.Prelude.{◌≡◌, ◌≢◌, ◌<◌, true, IfOk};
ghost use Rattle.board_face.specs.AppCalls.{IsHere};
ghost use Rattle.face_table.specs.CardHand.{IsCardHand};
ghost use Rattle.plain_board.specs.Board.{side_of};
ghost use Rattle.app_worker.specs.{State.{AppStands}, declared.turn.Turn.TheVariants.{Finished}};
ghost use Rattle.app_runs.specs.Scene.{IsPlaying};

mod cases;
mod drawn;
mod leaving;
mod receiving;
mod rows;

use crate::card::{CardMove, Told, card_move};
use app_worker::{AppState, Turn, app_turn};
use area_layout::Layout;
use board_face::{Entry, NicFace};
use face_table::CardHand;
use plain_board::PlainBoard;
use std::alloc::Global;
use std::test::*;
use zr_io::MemShelf;
use zr_kinds::Behaviour;

/// What the card and the application keep besides the board.
#[derive(Drop)]
pub struct Scene {
    pub card: CardHand,
    pub st: AppState,
    pub shelf: MemShelf,
    /// The application has left.
    pub left: bool,
}

/// A board on which nothing has happened, and what both roles keep.
fn open(
    alloc: Global,
    buffers: u32,
    size: u32,
    places: u32,
    how: Behaviour,
    fails: Vec<(u64, usize)>,
) -> Result<(PlainBoard, Scene), Fail>
    ensures { IfOk result (λ begun. IsPlaying begun.0 begun.1.card begun.1.st begun.1.left) }
{
    if places == 0 || places > 256 {
        return Err(Fail::from("rings of too few or too many places"));
    }
    let layout = Layout::new(buffers, 1, size).ok_or("no layout")?;
    let st = AppState::new(alloc, 0, places, how)?;
    let shelf = MemShelf::new(alloc, 4, 4096, fails)?;
    let board = PlainBoard::open(alloc, layout, 1, places)?;
    let card = CardHand::new();
    let scene = Scene {
        card,
        st,
        shelf,
        left: false,
    };
    Ok((board, scene))
}

/// How many buffers are free, once both have ended.
fn all_free(board: PlainBoard, scene: &Scene) -> Result<usize, Fail>
    requires { IsPlaying board scene.now.card scene.now.st scene.now.left }
{
    let nic = board.nic();
    if nic.apps() != 1 || !scene.card.ended() || !scene.left {
        return Err(Fail::from("not both have ended"));
    }
    Ok(nic.back().finish().free.len())
}

/// A call of the card, while the application's side stays as it is.
fn card_step(board: PlainBoard, scene: &mut Scene, call: CardMove<'_>) -> (PlainBoard, Told)
    requires { IsPlaying board scene.old.card scene.old.st scene.old.left }
    ensures { IsPlaying result.0 scene.new.card scene.new.st scene.new.left }
{
    let mut nic = board.nic();
    let told = card_move(&mut nic, &mut scene.card, call);
    (nic.back(), told)
}

/// A turn of the application, while the card's side stays as it is.
fn app_part(
    board: PlainBoard,
    card: &CardHand,
    st: &mut AppState,
    shelf: &mut MemShelf,
) -> (PlainBoard, Turn)
    requires card { IsCardHand board.nic.view card.now }
    requires few { 0 < board.arrays.layout.reserves }
    requires here { IsHere (side_of board 0).view }
    requires stands { AppStands st.old (side_of board 0).view }
    ensures card { IsCardHand result.0.nic.view card.now }
    ensures few { 0 < result.0.arrays.layout.reserves }
    ensures here { result.1 ≢ Finished → IsHere (side_of result.0 0).view }
    ensures stands { AppStands st.new (side_of result.0 0).view }
    ensures gone { result.1 ≡ Finished → (side_of result.0 0).view.left ≡ true }
{
    let mut part = board.app(0);
    let turn = app_turn(&mut part, st, shelf);
    (part.back(), turn)
}

/// A turn of the application, unless it has left.
fn turn_step(board: PlainBoard, scene: &mut Scene) -> (PlainBoard, Option<Turn>)
    requires { IsPlaying board scene.old.card scene.old.st scene.old.left }
    ensures { IsPlaying result.0 scene.new.card scene.new.st scene.new.left }
{
    if scene.left {
        return (board, None);
    }
    let (board, turn) = app_part(board, &scene.card, &mut scene.st, &mut scene.shelf);
    scene.left = turn == Turn::Finished;
    (board, Some(turn))
}

/// A turn of the application, and then the card deals with all entries.
fn turn_and_deal(board: PlainBoard, scene: &mut Scene) -> (PlainBoard, Option<Turn>)
    requires { IsPlaying board scene.old.card scene.old.st scene.old.left }
    ensures { IsPlaying result.0 scene.new.card scene.new.st scene.new.left }
{
    let (mut board, turn) = turn_step(board, scene);
    for _ in 0..256 {
        let (then, told) = card_step(board, scene, CardMove::Entry);
        board = then;
        if told == Told::Entry(Entry::Empty) {
            break;
        }
    }
    (board, turn)
}

/// Turns until one has this answer, each with all entries dealt with: whether one had.
fn turns_until(wanted: Turn, board: PlainBoard, scene: &mut Scene) -> (PlainBoard, bool)
    requires { IsPlaying board scene.old.card scene.old.st scene.old.left }
    ensures { IsPlaying result.0 scene.new.card scene.new.st scene.new.left }
{
    let mut board = board;
    for _ in 0..400 {
        let (then, turn) = turn_and_deal(board, scene);
        board = then;
        if turn == Some(wanted) {
            return (board, true);
        }
    }
    (board, false)
}
