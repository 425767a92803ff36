//! A whole run.
ghost use Rattle.std.specs.Prelude.{◌≡◌, ◌≤◌, [], length, map, vec_len, vec_capacity, IfOk, OnErr};
ghost use Rattle.card_feed.specs.Plan.{IsPlan};
ghost use Rattle.run_account.specs.{Ran.{RunLacksMemoryBeside, told_of}, Views.{ends_at, streams}};
ghost use Rattle.replay_threads.specs.{Played.{BeginWith, HasPlayed, IsOpenedFor, RanByThreads}, Reader.{IsReaderOpened}, Seated.{left_end}};

use crate::card::CardLane;
use crate::dropping::drop_rest;
use crate::lane::Lane;
use crate::moving::move_last;
use crate::playing::play;
use crate::reading::{Opened, open_reading};
use crate::seated::{Left, Start};
use crate::seating::{close_lanes, open_lanes};
use crate::starting::new_starts;
use area_layout::Layout;
use card_feed::{Feed, Outcome, Plan, new_feeds_stand};
use run_account::{Gate, runs_are_told, runs_end_well, tell};
use std::alloc::{AllocError, Global};
use std::collections::hash_map::RandomState;
use std::sync::Wait;
use std::thread::Threads;
use word_board::{Desk, WordBoard};
use zr_io::{Shelf, Source};

/// Room for the lanes of so many applications, and for so many shelves that have none.
fn rooms<'b, T>(
    alloc: Global,
    apps: usize,
    beyond: usize,
) -> Result<(Vec<Lane<'b, T>>, Vec<T>), AllocError>
    ensures lanes { IfOk result (λ it. (it.0.items ≡ []) × (apps ≤ vec_capacity it.0)) }
    ensures aside { IfOk result (λ it. (it.1.items ≡ []) × (beyond ≤ vec_capacity it.1)) }
{
    let lanes: Vec<Lane<'b, T>> = Vec::with_capacity(alloc, apps)?;
    match Vec::with_capacity(alloc, beyond) {
        Ok(aside) => Ok((lanes, aside)),
        Err(error) => {
            lanes.destroy_empty();
            Err(error)
        }
    }
}

/// What the roles begin with, and room for what the applications leave.
struct Begun {
    feed: Feed,
    starts: Vec<Start>,
    lefts: Vec<Left>,
}

/// How many buffers are free at first for the card alone: none where applications take some to copy into.
fn free_at_first(plan: &Plan, layout: &Layout) -> u32 {
    if plan.options.split == 0 {
        layout.buffers()
    } else {
        0
    }
}

/// All turns of the run of a plan, from a board at which nothing has happened, until every role is back at the desk. It takes
/// no memory for itself.
fn play_seated<'b, S: Source + Send, T: Shelf + Send, G: Gate + Sync, R: Threads + Wait + Sync>(
    rt: &R,
    alloc: Global,
    gate: &G,
    source: &mut S,
    shelves: &mut Vec<T>,
    plan: &Plan,
    board: &'b WordBoard,
    desk: &mut Desk,
    lanes: Vec<Lane<'b, T>>,
    reading: Opened,
    free: u32,
    begun: Begun,
) -> (Feed, Vec<Left>)
    requires plan { IsPlan plan.now }
    requires board { IsOpenedFor plan.now board.now desk.old }
    requires begun { BeginWith plan.now begun.feed begun.starts.items }
    requires lefts { (begun.lefts.items ≡ [])
        × (length plan.now.ports.items ≤ vec_capacity begun.lefts) }
    requires shelves { vec_len shelves.old ≡ length plan.now.ports.items }
    requires lanes { (lanes.items ≡ []) × (length plan.now.ports.items ≤ vec_capacity lanes) }
    requires reading { IsReaderOpened reading }
    ensures played { let m = streams S.left S.faults T.kept T.counts in
        HasPlayed (ends_at m source.old shelves.old.items) (ends_at m source.new shelves.new.items)
        plan.now desk.new result.0 (map left_end result.1.items) }
    ensures board { desk.new.board ≡ desk.old.board }
    ensures shelves { (vec_len shelves.new ≡ vec_len shelves.old)
        × (vec_capacity shelves.new ≡ vec_capacity shelves.old) }
{
    let Begun {
        feed,
        mut starts,
        mut lefts,
    } = begun;
    let Some(seat) = board.nic(desk) else {
        unreachable!()
    };
    let mut lanes = lanes;
    open_lanes(alloc, board, desk, &mut starts, shelves, &mut lanes);
    new_feeds_stand::<S>();
    let Opened {
        mut reader,
        frames,
        spares,
    } = reading;
    let mut card = CardLane {
        seat,
        feed,
        frames,
        spares,
        turns: 0,
        gone: 0,
    };
    play(
        rt,
        gate,
        source,
        free,
        &mut reader,
        &mut card,
        lanes.as_mut_slice(),
    );
    drop_rest(&mut reader, &mut card);
    let CardLane { seat, feed, .. } = card;
    feed.has_few_records();
    seat.back(desk);
    close_lanes(lanes, desk, &mut lefts, shelves);
    (feed, lefts)
}

/// Replays a capture with threads, over the board on words: the reading, the card and each application have a thread of their
/// own, where threads can be made. Frames go from the reading to the card through a ring, and the roles take turns at their seats,
/// until they are over, or have done nothing for long and none goes on. What is left then goes round in this thread, for many
/// rounds, and then with threads again, until all have left. Shelf `a` takes the flows to the port of place `a` among the
/// plan's. `random` keys the table of flows, and `gate` is told of each turn of the card and of an application before it is
/// taken.
///
/// It answers how the run went, and the board with its desk as they stand then.
pub fn run_threads<S: Source + Send, T: Shelf + Send, G: Gate + Sync, R: Threads + Wait + Sync>(
    rt: &R,
    alloc: Global,
    random: RandomState,
    source: &mut S,
    shelves: &mut Vec<T>,
    plan: &Plan,
    gate: &G,
) -> Result<(Outcome, WordBoard, Desk), AllocError>
    requires plan { IsPlan plan.now }
    requires shelves { length plan.now.ports.items ≤ vec_len shelves.old }
    ensures many { vec_len shelves.new ≡ vec_len shelves.old }
    // The stream theorem, what the outcome says, and the board of the run and its desk.
    ensures ran { let m = streams S.left S.faults T.kept T.counts in
        IfOk result (λ it. RanByThreads (ends_at m source.old shelves.old.items)
        (ends_at m source.new shelves.new.items) plan.now (told_of it.0) it.1 it.2) }
    // Want of memory comes before the first turn or behind the last.
    ensures lacks { let m = streams S.left S.faults T.kept T.counts in
        OnErr result (RunLacksMemoryBeside (ends_at m source.old shelves.old.items)
        (ends_at m source.new shelves.new.items) plan.now) }
{
    let layout = plan.layout().unwrap();
    let apps = plan.ports.len();
    let (board, mut desk) = WordBoard::open(alloc, layout, apps as u32, plan.options.ring)?;
    let feed = Feed::new(alloc, random, plan)?;
    let starts = new_starts(alloc, plan)?;
    let lefts = Vec::with_capacity(alloc, apps)?;
    let reading = open_reading(alloc)?;
    let (lanes, mut aside) = rooms(alloc, apps, shelves.len() - apps)?;
    move_last(shelves, apps, &mut aside);
    let (feed, lefts) = play_seated(
        rt,
        alloc,
        gate,
        source,
        shelves,
        plan,
        &board,
        &mut desk,
        lanes,
        reading,
        free_at_first(plan, &layout),
        Begun {
            feed,
            starts,
            lefts,
        },
    );
    move_last(&mut aside, 0, shelves);
    aside.destroy_empty();
    runs_end_well::<S, T>();
    runs_are_told::<S, T>();
    let outcome = tell(alloc, feed, &lefts, &plan.ports)?;
    Ok((outcome, board, desk))
}
