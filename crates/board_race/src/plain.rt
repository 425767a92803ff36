//! The stream over the board for one thread: the two halves have it in turn.
ghost use Rattle.std.specs.Prelude.{◌≡◌, ◌<◌, ◌≤◌, length, true, None, IsTrue};
ghost use Rattle.zr_kinds.specs.Limits.{longest_payload};
ghost use Rattle.board_race.specs.Halves.{IsSender, IsReceiver};
ghost use Rattle.plain_board.specs.Board.{side_of};

use crate::app::{Receiver, leave, take_all};
use crate::card::{Sender, gather};
use crate::plan::{LOOKS, Plan};
use plain_board::PlainBoard;
use std::alloc::{AllocError, Global};

/// The card's half has the board, and sends what it can.
fn send_turn(board: PlainBoard, sender: &mut Sender, notes: u32, text: &mut [u8]) -> PlainBoard
    requires card { IsSender board.nic.view sender.old.own sender.old.piece }
    requires fits { length text.old ≤ longest_payload }
    ensures card { IsSender result.nic.view sender.new.own sender.new.piece }
    ensures room { length text.new ≡ length text.old }
    ensures apps { result.apps ≡ board.apps }
    ensures few { 0 < result.arrays.layout.reserves }
{
    let mut nic = board.nic();
    sender.go(&mut nic, notes, text);
    nic.back()
}

/// The application's half has it, and takes the notes that are there. It answers whether it was told the end.
fn take_turn(board: PlainBoard, receiver: &mut Receiver, into: &mut [u8]) -> (PlainBoard, bool)
    requires few { 0 < board.arrays.layout.reserves }
    requires app { IsReceiver (side_of board 0).view receiver.old.loan }
    ensures few { 0 < result.0.arrays.layout.reserves }
    ensures app { IsReceiver (side_of result.0 0).view receiver.new.loan }
    ensures ended { IsTrue result.1
        → ((side_of result.0 0).view.ended ≡ true) × (receiver.new.loan ≡ None) }
    ensures card { result.0.nic ≡ board.nic }
{
    let mut part = board.app(0);
    let told = take_all(&mut part, receiver, LOOKS, into);
    (part.back(), told)
}

/// The card ends, deals with the entries, and the application leaves.
fn end_turns(
    board: PlainBoard,
    sender: &mut Sender,
    receiver: &mut Receiver,
    into: &mut [u8],
) -> bool
    requires few { 0 < board.arrays.layout.reserves }
    requires card { IsSender board.nic.view sender.old.own sender.old.piece }
    requires app { IsReceiver (side_of board 0).view receiver.old.loan }
{
    let mut nic = board.nic();
    if !sender.end(&mut nic) {
        return false;
    }
    let mut board = nic.back();
    for _ in 0..LOOKS {
        let (then, told) = take_turn(board, receiver, into);
        let mut nic = then.nic();
        gather(&mut nic);
        board = nic.back();
        if told {
            return leave(&mut board.app(0), LOOKS);
        }
    }
    false
}

/// Runs the plan with one application, and answers how many notes it took, where all came in order with their texts.
pub fn run_plain(alloc: Global, plan: &Plan) -> Result<Option<u32>, AllocError>
    requires one { plan.now.layout.reserves ≡ 1 }
    requires some { 1 ≤ plan.now.places }
    requires few { plan.now.places ≤ 256 }
    requires fits { plan.now.bytes ≤ longest_payload }
{
    let mut text = vec![in alloc; 0; plan.bytes as usize]?;
    let mut into = vec![in alloc; 0; plan.bytes as usize]?;
    let mut board = PlainBoard::open(alloc, plan.layout, 1, plan.places)?;
    let mut sender = Sender::new();
    let mut receiver = Receiver::new(0);
    for _ in 0..LOOKS {
        board = send_turn(board, &mut sender, plan.notes, &mut text);
        let (then, _) = take_turn(board, &mut receiver, &mut into);
        board = then;
        if sender.sent() >= plan.notes {
            let left = end_turns(board, &mut sender, &mut receiver, &mut into);
            return Ok(if left { receiver.taken() } else { None });
        }
    }
    Ok(None)
}
