//! Callers that are generic over boards, at both boards: a card that sweeps and takes, one that sends what is pending, and an
//! application that takes it, reads it and gives it back. And seats, which are given once.
ghost use Rattle.std.specs.Prelude.{◌≡◌};
ghost use Rattle.board_face.specs.{AppCalls.{IsHere, CanLend}, NicCalls.{IsOpen, HasNoToken}};
ghost use Rattle.face_table.specs.Reader.{HasNothing};

use area_layout::Layout;
use board_face::{AppFace, Entry, NicFace};
use face_table::{Pending, Served, flush, serve};
use plain_board::PlainBoard;
use std::alloc::Global;
use std::collections::VecDeque;
use std::process::Abort;
use std::test::*;
use word_board::WordBoard;
use zr_kinds::Note;

/// A new board lists each pool buffer: a sweep finds all of a word's, and no more. The highest is swept first, so buffer 0 is taken
/// first. The words are given with the numbers of their buffers.
fn lists_each<F: NicFace>(rt: &impl Abort, face: &mut F, words: &[(u32, u32)], all: u32)
    requires { IsOpen (F.seen face.old) }
{
    for &(word, count) in words {
        let swept = face.cached() < 64 && word < face.free_words() && face.sweep(word) == count;
        assert!(rt; swept, "word {word}");
    }
    assert!(rt; face.cached() == all);
    let first = face.take().map(|own| (own.buffer(), own.size()));
    assert!(rt; first == Some((0, 1024)));
}

/// The words of 70 buffers.
const WORDS: &[(u32, u32)] = &[(1, 6), (0, 64)];

#[test]
fn new_plain_board_lists_each_buffer(rt: HostRuntime) -> Result<(), Fail> {
    let layout = Layout::new(70, 1, 1024).ok_or("no layout")?;
    let mut nic = PlainBoard::open(rt.alloc(), layout, 1, 2)?.nic();
    lists_each(&rt, &mut nic, WORDS, 70);
    Ok(())
}

#[test]
fn new_word_board_lists_each_buffer(rt: HostRuntime) -> Result<(), Fail> {
    let layout = Layout::new(70, 1, 1024).ok_or("no layout")?;
    let (board, mut desk) = WordBoard::open(rt.alloc(), layout, 1, 2)?;
    let mut nic = board.nic(&mut desk).ok_or("no seat of the card")?;
    lists_each(&rt, &mut nic, WORDS, 70);
    Ok(())
}

/// The card sends five bytes, which were pending.
fn sends_pending<F: NicFace>(rt: &impl Abort, alloc: Global, face: &mut F) -> Result<(), Fail>
    requires open { IsOpen (F.seen face.old) }
    requires nothing { HasNoToken (F.seen face.old) }
    ensures beside { F.beside face.new ≡ F.beside face.old }
{
    assert!(rt; face.apps() == 1);
    if face.cached() < 64 && face.free_words() > 0 {
        face.sweep(0);
    }
    let Some(mut own) = face.take() else {
        return Err(Fail::from("nothing cached"));
    };
    if own.size() - own.start() < 5 {
        return Err(Fail::from("no room"));
    }
    let piece = face.place(&mut own, b"hello");
    let note = Note {
        frame: 1,
        flow: 0,
        base: 1,
        seq: 1,
        at: 0,
        total: 5,
        place: piece.place(),
        split: true,
        fin: false,
    };
    let mut pending = VecDeque::new(alloc);
    pending.push_back(Pending {
        app: 0,
        note,
        piece,
    })?;
    assert!(rt; flush(face, &mut pending).is_none());
    Ok(())
}

/// The application takes it, reads it and gives it back.
fn serves<F: AppFace>(rt: &impl Abort, face: &mut F)
    requires here { IsHere (F.seen face.old) }
    requires can { CanLend (F.seen face.old) }
    requires nothing { HasNothing (F.seen face.old) }
{
    assert!(rt; serve(face, 2) == Served::NoNote);
}

/// The card is given one entry back.
fn is_given_back<F: NicFace>(rt: &impl Abort, face: &mut F) {
    assert!(rt; face.apps() == 1 && face.entry(0) == Entry::Honoured);
}

#[test]
fn callers_run_on_words(rt: HostRuntime) -> Result<(), Fail> {
    let layout = Layout::new(1, 1, 1024).ok_or("no layout")?;
    let (board, mut desk) = WordBoard::open(rt.alloc(), layout, 1, 4)?;
    let mut nic = board.nic(&mut desk).ok_or("no seat of the card")?;
    let mut seat = board.app(&mut desk, 0).ok_or("no seat of the application")?;
    sends_pending(&rt, rt.alloc(), &mut nic)?;
    serves(&rt, &mut seat);
    is_given_back(&rt, &mut nic);
    Ok(())
}

#[test]
fn callers_run_in_turn(rt: HostRuntime) -> Result<(), Fail> {
    let layout = Layout::new(1, 1, 1024).ok_or("no layout")?;
    let mut nic = PlainBoard::open(rt.alloc(), layout, 1, 4)?.nic();
    sends_pending(&rt, rt.alloc(), &mut nic)?;
    let mut app = nic.back().app(0);
    serves(&rt, &mut app);
    is_given_back(&rt, &mut app.back().nic());
    Ok(())
}

/// The card's seat is given once, and each application's.
#[test]
fn seats_are_given_once(rt: HostRuntime) -> Result<(), Fail> {
    let layout = Layout::new(2, 2, 1024).ok_or("no layout")?;
    let (board, mut desk) = WordBoard::open(rt.alloc(), layout, 2, 4)?;
    let card = board.nic(&mut desk).is_some();
    let card_again = board.nic(&mut desk).is_some();
    let second = board.app(&mut desk, 1).is_some();
    let second_again = board.app(&mut desk, 1).is_some();
    let first = board.app(&mut desk, 0).is_some();
    assert!(rt; card && !card_again && second && !second_again && first);
    Ok(())
}
