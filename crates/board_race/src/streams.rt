//! Streams of notes: by a thread for each role, through both boards by one thread, and what a receiver says of a text that isn't the
//! next one sent.
use crate::app::Receiver;
use crate::card::Sender;
use crate::plain::run_plain;
use crate::plan::Plan;
use crate::threads::run_threads;
use crate::words::run_words;
use area_layout::Layout;
use std::alloc::Global;
use std::process::Abort;
use std::test::*;
use std::thread::Threads;
use word_board::WordBoard;

/// So many notes of 100 bytes come to each application, through buffers of 1,024, in order with their texts. Then all buffers are
/// free, each once.
fn passes<R: Threads + Sync + Abort>(
    rt: &R,
    alloc: Global,
    buffers: u32,
    apps: u32,
    notes: u32,
) -> Result<(), Fail> {
    let plan = Plan {
        layout: Layout::new(buffers, apps, 1_024).ok_or("no layout")?,
        places: 16,
        notes,
        bytes: 100,
    };
    let mut passed = run_threads(rt, alloc, &plan)?.ok_or("a role was not done")?;
    passed.free.sort()?;
    let all: Vec<u32> = (0..buffers).collect(alloc)?;
    assert!(rt; passed.free == all, "{:?} are free", passed.free);
    let came = passed
        .taken
        .iter()
        .filter(|taken| **taken == Some(notes))
        .count();
    assert!(rt;
        came == apps as usize && passed.taken.len() == came,
        "{:?}",
        passed.taken
    );
    Ok(())
}

/// 10,000 notes to one application through 2 buffers, and as many to eight together through 16.
#[test]
fn notes_pass_between_threads(rt: HostRuntime) -> Result<(), Fail> {
    passes(&rt, rt.alloc(), 2, 1, 10_000)?;
    passes(&rt, rt.alloc(), 16, 8, 1_250)
}

/// The same stream through the board for one thread, and through the board on words by one thread.
#[test]
fn notes_pass_through_both_boards(rt: HostRuntime) -> Result<(), Fail> {
    let plan = Plan {
        layout: Layout::new(2, 1, 1_024).ok_or("no layout")?,
        places: 16,
        notes: 1_000,
        bytes: 100,
    };
    assert!(rt; run_plain(rt.alloc(), &plan)? == Some(1_000));
    assert!(rt; run_words(rt.alloc(), &plan)? == Some(1_000));
    Ok(())
}

/// One text of 100 bytes is sent to application 0. It answers what a receiver has taken that waits for the texts of this
/// application, each of so many bytes.
fn taken_by(alloc: Global, app: u32, room: usize) -> Result<Option<u32>, Fail> {
    let layout = Layout::new(2, 1, 1_024).ok_or("no layout")?;
    let (board, mut desk) = WordBoard::open(alloc, layout, 1, 4)?;
    let mut nic = board.nic(&mut desk).ok_or("no seat of the card")?;
    let mut seat = board.app(&mut desk, 0).ok_or("no seat of the application")?;
    let mut text = vec![in alloc; 0; 100]?;
    let mut into = vec![in alloc; 0; room]?;
    Sender::new().go(&mut nic, 1, &mut text);
    let mut receiver = Receiver::new(app);
    receiver.go(&mut seat, &mut into);
    Ok(receiver.taken())
}

/// A text of another length than is waited for is wrong, and so is that of another application.
#[test]
fn wrong_texts_are_seen(rt: HostRuntime) -> Result<(), Fail> {
    assert!(rt; taken_by(rt.alloc(), 0, 100)? == Some(1));
    assert!(rt; taken_by(rt.alloc(), 0, 99)?.is_none());
    assert!(rt; taken_by(rt.alloc(), 0, 101)?.is_none());
    assert!(rt; taken_by(rt.alloc(), 1, 100)?.is_none());
    Ok(())
}
