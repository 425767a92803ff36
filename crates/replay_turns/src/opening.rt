//! How a run begins.

ghost use Rattle.std.specs.Prelude.{◌≡◌, ℕ, ◌≤◌, length, IfOk};
ghost use Rattle.zr_kinds.specs.Setting.{most_events};
ghost use Rattle.card_feed.specs.Plan.{IsPlan, TakesTurns};
ghost use Rattle.run_account.specs.Views.{streams};
ghost use Rattle.replay_turns.specs.{Events.{log_room_of}, Following.{IsNewRun}, Running.{BeginsWith, RunFits}};

use card_feed::{Feed, Plan, new_feeds_stand};
use plain_board::PlainBoard;
use run_account::{Run, new_workers};
use std::alloc::{AllocError, Global};
use std::collections::hash_map::RandomState;
use zr_io::{Shelf, Source};
use zr_kinds::MOST_EVENTS;

/// For how many events the board's log has room.
fn room(plan: &Plan) -> u32
    ensures room { result ≡ log_room_of plan.now }
    ensures most { result ≤ most_events }
{
    if plan.options.events { MOST_EVENTS } else { 0 }
}

/// Opens the board of a plan, at which nobody has taken a turn. The keys of the flows are hashed with `random`.
pub fn open<S: Source, T: Shelf>(
    alloc: Global,
    random: RandomState,
    plan: &Plan,
) -> Result<(PlainBoard, Run), AllocError>
    requires plan { IsPlan plan.now }
    requires turns_only { TakesTurns plan.now }
    ensures fits { IfOk result
        (λ it. (shelves : ℕ) → length plan.now.ports.items ≤ shelves → RunFits it.0 it.1 shelves) }
    ensures opened { IfOk result (λ it. IsNewRun plan.now it.0 it.1) }
    ensures many { IfOk result (λ it. length it.1.workers.items ≡ length plan.now.ports.items) }
    ensures runs { let m = streams S.left S.faults T.kept T.counts in
        IfOk result (λ it. BeginsWith m plan.now it.0 it.1) }
{
    let layout = plan.layout().unwrap();
    let apps = plan.ports.len() as u32;
    let board = PlainBoard::open_logged(alloc, layout, apps, plan.options.ring, room(plan))?;
    let feed = Feed::new(alloc, random, plan)?;
    let workers = new_workers(alloc, plan)?;
    new_feeds_stand::<S>();
    Ok((board, Run { feed, workers }))
}
