//! The stream over the board on words by one thread, which has both seats.
ghost use Rattle.std.specs.Prelude.{◌≡◌, ◌≤◌, length, None};
ghost use Rattle.zr_kinds.specs.Limits.{longest_payload};
ghost use Rattle.board_race.specs.Halves.{IsSender, IsReceiver};

use crate::app::{Receiver, leave, take_all};
use crate::card::{Sender, gather};
use crate::plan::{LOOKS, Plan};
use board_face::{AppFace, NicFace};
use std::alloc::{AllocError, Global};
use word_board::WordBoard;

/// The card ends, deals with the entries, and the application leaves.
fn end_both<N: NicFace, A: AppFace>(
    nic: &mut N,
    seat: &mut A,
    sender: &mut Sender,
    receiver: &mut Receiver,
    into: &mut [u8],
) -> bool
    requires card { IsSender (N.seen nic.old) sender.old.own sender.old.piece }
    requires app { IsReceiver (A.seen seat.old) receiver.old.loan }
{
    if !sender.end(nic) {
        return false;
    }
    for _ in 0..LOOKS {
        let told = take_all(seat, receiver, LOOKS, into);
        gather(nic);
        if told {
            return leave(seat, LOOKS);
        }
    }
    false
}

/// The two halves go on in turn, until the application has left. It answers how many notes that took, where all came in order with
/// their texts.
fn take_turns<N: NicFace, A: AppFace>(
    nic: &mut N,
    seat: &mut A,
    notes: u32,
    text: &mut [u8],
    into: &mut [u8],
) -> Option<u32>
    requires card { IsSender (N.seen nic.old) None None }
    requires app { IsReceiver (A.seen seat.old) None }
    requires fits { length text.old ≤ longest_payload }
{
    let mut sender = Sender::new();
    let mut receiver = Receiver::new(0);
    for _ in 0..LOOKS {
        sender.go(nic, notes, text);
        take_all(seat, &mut receiver, LOOKS, into);
        if sender.sent() >= notes {
            let left = end_both(nic, seat, &mut sender, &mut receiver, into);
            return if left { receiver.taken() } else { None };
        }
    }
    None
}

/// Runs the plan with one application on one thread, and answers how many notes it took, where all came in order with their
/// texts.
pub fn run_words(alloc: Global, plan: &Plan) -> Result<Option<u32>, AllocError>
    requires one { plan.now.layout.reserves ≡ 1 }
    requires some { 1 ≤ plan.now.places }
    requires few { plan.now.places ≤ 256 }
    requires fits { plan.now.bytes ≤ longest_payload }
{
    let mut text = vec![in alloc; 0; plan.bytes as usize]?;
    let mut into = vec![in alloc; 0; plan.bytes as usize]?;
    let (board, mut desk) = WordBoard::open(alloc, plan.layout, 1, plan.places)?;
    let Some(mut nic) = board.nic(&mut desk) else {
        return Ok(None);
    };
    let Some(mut seat) = board.app(&mut desk, 0) else {
        return Ok(None);
    };
    Ok(take_turns(&mut nic, &mut seat, plan.notes, &mut text, &mut into))
}
