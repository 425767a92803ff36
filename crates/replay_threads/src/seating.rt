//! How the roles come to their seats, and back from there.
ghost use Rattle.std.specs.Prelude.{◌≡◌, ◌≤◌, [], map, reverse, All, vec_len, vec_capacity};
ghost use Rattle.board_face.specs.NicCalls.{apps_of};
ghost use Rattle.card_feed.specs.declared.plan.Plan.{Plan};
ghost use Rattle.replay_threads.specs.{Lanes.{AreAtOpening, AreDone, AwaitsApps, GaveSeats, HasTheSeats, TookApps}, Seated.{AreStarts, BeginsLane, end_of_seated, left_end, seat_of, shelf_of}};

use crate::lane::Lane;
use crate::seated::{Left, Seated, Start};
use std::alloc::Global;
use word_board::{Desk, WordBoard};
use zr_io::Shelf;

/// Gives each application its lane, the last first, with its seat and its shelf. It takes no memory.
pub fn open_lanes<'b, T: Shelf>(
    alloc: Global,
    board: &'b WordBoard,
    desk: &mut Desk,
    starts: &mut Vec<Start>,
    shelves: &mut Vec<T>,
    lanes: &mut Vec<Lane<'b, T>>,
)
    requires desk { HasTheSeats desk.old board.now }
    requires apps { (vec_len starts.old ≡ apps_of board.now.setting) × (vec_len starts.old ≤ 8) }
    requires shelves { vec_len shelves.old ≡ vec_len starts.old }
    requires starts { (plan : Plan) × AreStarts plan starts.old.items }
    requires room { (lanes.old.items ≡ []) × (vec_len starts.old ≤ vec_capacity lanes.old) }
    ensures desk { GaveSeats desk.old desk.new board.now }
    ensures shelves { (shelves.new.items ≡ [])
        × (vec_capacity shelves.new ≡ vec_capacity shelves.old) }
    ensures lanes { AreAtOpening board.now 0 (reverse lanes.new.items) }
    ensures begin { (plan : Plan) → AreStarts plan starts.old.items
        → All (λ lane. BeginsLane T.kept T.counts plan lane.seated) lanes.new.items }
    ensures kept { map (λ lane. shelf_of lane.seated) (reverse lanes.new.items)
        ≡ shelves.old.items }
{
    while let Some(start) = starts.pop() {
        let app = starts.len() as u32;
        let Some(seat) = board.app(desk, app) else {
            unreachable!()
        };
        let Some(shelf) = shelves.pop() else {
            unreachable!()
        };
        lanes.push_reserved(Lane {
            seated: Seated::sit(alloc, seat, app, start, shelf),
            app,
            turns: 0,
        });
    }
}

/// Takes the lanes apart, that of the first application first: the seats go back to the desk. It takes no memory.
pub fn close_lanes<T: Shelf>(
    lanes: Vec<Lane<'_, T>>,
    desk: &mut Desk,
    lefts: &mut Vec<Left>,
    shelves: &mut Vec<T>,
)
    requires lanes { AreDone desk.old.board lanes.items }
    requires desk { AwaitsApps desk.old }
    requires none { (lefts.old.items ≡ []) × (shelves.old.items ≡ []) }
    requires room { (vec_len lanes ≤ vec_capacity lefts.old)
        × (vec_len lanes ≤ vec_capacity shelves.old) }
    ensures took { TookApps desk.old desk.new
        (map (λ lane. (seat_of lane.seated).side) (reverse lanes.entry.items)) }
    ensures ends { map left_end lefts.new.items
        ≡ map (λ lane. end_of_seated lane.seated) (reverse lanes.entry.items) }
    ensures shelves { shelves.new.items
        ≡ map (λ lane. shelf_of lane.seated) (reverse lanes.entry.items) }
    ensures room { vec_capacity shelves.new ≡ vec_capacity shelves.old }
{
    let mut lanes = lanes;
    while let Some(lane) = lanes.pop() {
        let Lane {
            seated,
            app: _,
            turns: _,
        } = lane;
        let (seat, shelf, left) = seated.rise();
        seat.back(desk);
        lefts.push_reserved(left);
        shelves.push_reserved(shelf);
    }
    lanes.destroy_empty();
}
