//! The lanes of the applications, each with its seat, its half of the stream and room for a text.
ghost use Rattle.std.specs.Prelude.{◌≡◌, All, IfOk, IfSome};
ghost use Rattle.board_face.specs.{NicCalls.{apps_of}, Opened.{new_app}};
ghost use Rattle.board_race.specs.{Halves.{IsReceiver}, Lanes.{AreReady, LaneHasRun, HaveRun}};

use crate::app::{Receiver, receive_all};
use crate::plan::LOOKS;
use std::alloc::{AllocError, Global};
use std::thread::{self, Threads};
use word_board::{AppSeat, Desk, WordBoard};

/// An application at the board.
#[derive(Drop)]
pub(crate) struct Lane<'b> {
    pub seat: AppSeat<'b>,
    pub receiver: Receiver,
    pub into: Vec<u8>,
    pub left: bool,
}

impl<'b> Lane<'b> {
    /// Of an application that has done nothing.
    fn new(seat: AppSeat<'b>, app: u32, into: Vec<u8>) -> Lane<'b>
        requires { seat.side ≡ new_app seat.board.setting app }
        ensures seat { result.seat ≡ seat.entry }
        ensures hand { IsReceiver seat.entry.side.view result.receiver.loan }
    {
        Lane {
            seat,
            receiver: Receiver::new(app),
            into,
            left: false,
        }
    }
}

/// A lane for each application. `None` says that a seat was given before.
pub(crate) fn open_lanes<'b>(
    alloc: Global,
    board: &'b WordBoard,
    desk: &mut Desk,
    apps: u32,
    bytes: u16,
) -> Result<Option<Vec<Lane<'b>>>, AllocError>
    requires desk { desk.old.board ≡ board.now }
    requires apps { apps ≡ apps_of board.now.setting }
    ensures desk { desk.new.board ≡ board.now }
    ensures sides { (desk.new.view.nics ≡ desk.old.view.nics)
        × (desk.new.view.apps ≡ desk.old.view.apps) }
    ensures ready { IfOk result
        (λ found. IfSome found (λ lanes. AreReady board.now apps lanes.items)) }
{
    let mut lanes = Vec::with_capacity(alloc, apps as usize)?;
    for app in 0..apps {
        let Some(seat) = board.app(desk, app) else {
            return Ok(None);
        };
        let into = vec![in alloc; 0; bytes as usize]?;
        lanes.push(Lane::new(seat, app, into))?;
    }
    Ok(Some(lanes))
}

/// An application takes all its notes, and leaves.
fn run_lane(lane: &mut Lane<'_>)
    requires { IsReceiver lane.old.seat.side.view lane.old.receiver.loan }
    ensures { LaneHasRun lane.old lane.new }
{
    lane.left = receive_all(&mut lane.seat, &mut lane.receiver, LOOKS, &mut lane.into);
}

/// All applications side by side.
pub(crate) fn run_lanes<R: Threads + Sync>(rt: &R, lanes: &mut [Lane<'_>])
    requires { All (λ lane. IsReceiver lane.seat.side.view lane.receiver.loan) lanes.old }
    ensures { HaveRun lanes.old lanes.new }
{
    thread::for_each_mut(rt, lanes, 8, &|_, lane| run_lane(lane));
}
