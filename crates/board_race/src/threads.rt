//! The stream over the board on words by a thread for each role, and what the board has at the end.
ghost use Rattle.std.specs.Prelude.{◌≡◌, ◌≤◌, [], length, true, None, IsTrue, All, IfOk};
ghost use Rattle.zr_kinds.specs.Limits.{longest_payload};
ghost use Rattle.board_face.specs.NicCalls.{apps_of};
ghost use Rattle.board_race.specs.{Halves.{IsSender, IsReceiver}, Lanes.{AreAt, SayLeft, HaveRun}};
ghost use Rattle.word_board.specs.Desk.{AllAreBack};

use crate::card::{Sender, send_all};
use crate::lanes::{Lane, open_lanes, run_lanes};
use crate::plan::{LOOKS, Plan};
use std::alloc::{AllocError, Global};
use std::thread::{Threads, join_mut};
use word_board::{Desk, NicSeat, WordBoard};

/// What came of a run: how many notes each application took, the last application first, where all came in order with their
/// texts, and the buffers that are free at the end.
#[derive(Drop)]
pub struct Passed {
    pub taken: Vec<Option<u32>>,
    pub free: Vec<u32>,
}

/// Runs the plan by a thread for each role. `None` says that a role wasn't done after all its looks.
pub fn run_threads<R: Threads + Sync>(
    rt: &R,
    alloc: Global,
    plan: &Plan,
) -> Result<Option<Passed>, AllocError>
    requires some { 1 ≤ plan.now.places }
    requires few { plan.now.places ≤ 256 }
    requires fits { plan.now.bytes ≤ longest_payload }
{
    let apps = plan.layout.total() - plan.layout.buffers();
    let (board, mut desk) = WordBoard::open(alloc, plan.layout, apps, plan.places)?;
    let mut text = vec![in alloc; 0; plan.bytes as usize]?;
    let mut taken = Vec::with_capacity(alloc, apps as usize)?;
    let Some(mut lanes) = open_lanes(alloc, &board, &mut desk, apps, plan.bytes)? else {
        return Ok(None);
    };
    let Some(mut nic) = board.nic(&mut desk) else {
        return Ok(None);
    };
    let ended = run_all(rt, &mut nic, plan.notes, &mut text, lanes.as_mut_slice());
    if !ended || !all_back(nic, lanes, &mut desk, &mut taken)? {
        return Ok(None);
    }
    let free = board.finish(desk).free;
    Ok(Some(Passed { taken, free }))
}

/// The card and the applications side by side. It answers whether the card saw all leave.
fn run_all<R: Threads + Sync>(
    rt: &R,
    nic: &mut NicSeat<'_>,
    notes: u32,
    text: &mut [u8],
    lanes: &mut [Lane<'_>],
) -> bool
    requires card { IsSender nic.old.side.view None None }
    requires fits { length text.old ≤ longest_payload }
    requires lanes { All (λ lane. IsReceiver lane.seat.side.view lane.receiver.loan) lanes.old }
    ensures ended { IsTrue result → nic.new.side.view.ended ≡ true }
    ensures board { nic.new.board ≡ nic.old.board }
    ensures lanes { HaveRun lanes.old lanes.new }
{
    let mut sender = Sender::new();
    let (ended, _) = join_mut(
        rt,
        &mut || send_all(nic, &mut sender, notes, LOOKS, text),
        &mut ||
            requires { All (λ lane. IsReceiver lane.seat.side.view lane.receiver.loan) lanes.now }
        { run_lanes(rt, lanes) },
    );
    ended
}

/// All seats go back to the desk. `false` says that an application hasn't left.
fn all_back(
    nic: NicSeat<'_>,
    lanes: Vec<Lane<'_>>,
    desk: &mut Desk,
    taken: &mut Vec<Option<u32>>,
) -> Result<bool, AllocError>
    requires desk { desk.old.board ≡ nic.board }
    requires bare { (desk.old.view.nics ≡ []) × (desk.old.view.apps ≡ []) }
    requires ended { nic.side.view.ended ≡ true }
    requires lanes { AreAt nic.board lanes.items }
    requires all { length lanes.items ≡ apps_of nic.board.setting }
    requires left { SayLeft lanes.items }
    ensures desk { desk.new.board ≡ desk.old.board }
    ensures back { IfOk result
        (λ done. IsTrue done → AllAreBack desk.old.board.setting desk.new.view) }
{
    nic.back(desk);
    let mut lanes = lanes;
    while let Some(lane) = lanes.pop() {
        if !lane.left {
            return Ok(false);
        }
        taken.push(lane.receiver.taken())?;
        lane.seat.back(desk);
    }
    Ok(true)
}
