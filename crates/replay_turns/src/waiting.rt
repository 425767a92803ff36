//! Rounds that no text orders. No record is read while an application has something to do: so each frame's buffers come back before the
//! next is offered, and none lies about while a source has no more.

ghost use Rattle.std.specs.Prelude.{◌≤◌, length};
ghost use Rattle.card_feed.specs.Feed.{IsFeedReady};
ghost use Rattle.run_account.specs.{Running.{IsRunOver}, Views.{Ends, streams}};
ghost use Rattle.replay_turns.specs.{Rounds.{IsOfPlan, PlaysOn, RisesOrStuck}, Running.{RunFits, PlaysTurns, PlaysBy, moment, moment_at}, Steps.{run_steps}};

use crate::Role;
use crate::board_turns::card_keeps_up;
use crate::playing::play_round;
use crate::stepping::step;
use plain_board::PlainBoard;
use run_account::{Gate, Run};
use zr_io::{Shelf, Source};

/// How many turns the card has had, and each application that hasn't left.
#[derive(Clone, Copy, Debug)]
struct Taken {
    card: u64,
    app: u64,
}

/// Tells the gate of the card's next turn.
fn ask_card<G: Gate>(gate: &G, taken: &mut Taken) {
    gate.at(0, taken.card);
    taken.card = taken.card.saturating_add(1);
}

/// Tells the gate of the next turn of each application that hasn't left.
fn ask_apps<G: Gate>(gate: &G, taken: &mut Taken, run: &Run) {
    let mut who = 0u32;
    for worker in &run.workers {
        who = who.saturating_add(1);
        if !worker.left {
            gate.at(who, taken.app);
        }
    }
    taken.app = taken.app.saturating_add(1);
}

/// A turn of the card in which it reads nothing.
fn keep_up<S: Source, T: Shelf>(board: PlainBoard, run: &mut Run) -> PlainBoard
    requires ready { IsFeedReady run.old.feed board.nic.view }
    ensures plays { let m = streams S.left S.faults T.kept T.counts in (ends : Ends m)
        → RunFits board run.old (length ends.shelves)
        → PlaysTurns (moment ends board run.old) (moment ends result run.new) }
    ensures later { run_steps board run.old ≤ run_steps result run.new }
{
    card_keeps_up(board, &mut run.feed)
}

/// A turn of each application. `false` says that nothing was done in any of them.
fn app_round<S: Source, T: Shelf>(
    mut board: PlainBoard,
    run: &mut Run,
    source: &mut S,
    shelves: &mut [T],
) -> (PlainBoard, bool)
    requires fits { RunFits board run.old (length shelves.old) }
    ensures { let m = streams S.left S.faults T.kept T.counts in
        PlaysOn result.1 (moment_at m source.old shelves.old board run.old)
        (moment_at m source.new shelves.new result.0 run.new) }
{
    let apps = run.workers.len() as u32;
    let mut did = false;
    for app in 0..apps {
        let (next, more) = step(board, run, source, shelves, Role::App(app));
        board = next;
        did |= more;
    }
    (board, did)
}

/// A round in which no record is read, if one comes next. `false` says that no application did anything.
fn settle<S: Source, T: Shelf, G: Gate>(
    gate: &G,
    taken: &mut Taken,
    board: PlainBoard,
    run: &mut Run,
    source: &mut S,
    shelves: &mut [T],
) -> (PlainBoard, bool)
    requires fits { RunFits board run.old (length shelves.old) }
    ensures { let m = streams S.left S.faults T.kept T.counts in
        PlaysOn result.1 (moment_at m source.old shelves.old board run.old)
        (moment_at m source.new shelves.new result.0 run.new) }
{
    if run.feed.at_hand() || run.feed.ended() {
        return (board, false);
    }
    ask_card(gate, taken);
    let board = keep_up::<S, T>(board, run);
    ask_apps(gate, taken, run);
    app_round(board, run, source, shelves)
}

/// A round in which nothing is read, or where no application did anything in that, one in which a record is. `false` says that nothing
/// was done, and then nobody can do anything.
fn waiting_round<S: Source, T: Shelf, G: Gate>(
    gate: &G,
    taken: &mut Taken,
    board: PlainBoard,
    run: &mut Run,
    source: &mut S,
    shelves: &mut [T],
) -> (PlainBoard, bool)
    requires fits { RunFits board run.old (length shelves.old) }
    ensures { let m = streams S.left S.faults T.kept T.counts in
        PlaysBy (RisesOrStuck result.1) (moment_at m source.old shelves.old board run.old)
        (moment_at m source.new shelves.new result.0 run.new) }
{
    let (board, did) = settle(gate, taken, board, run, source, shelves);
    if did {
        return (board, true);
    }
    ask_card(gate, taken);
    ask_apps(gate, taken, run);
    play_round(board, run, source, shelves)
}

/// Such rounds, until nothing is done in one: then the card was closed, and every application has left.
pub fn play_waiting<S: Source, T: Shelf, G: Gate>(
    gate: &G,
    mut board: PlainBoard,
    run: &mut Run,
    source: &mut S,
    shelves: &mut [T],
) -> PlainBoard
    requires fits { RunFits board run.old (length shelves.old) }
    requires plan { let m = streams S.left S.faults T.kept T.counts in
        IsOfPlan (moment_at m source.old shelves.old board run.old) }
    ensures over { IsRunOver run.new }
    ensures plays { let m = streams S.left S.faults T.kept T.counts in
        PlaysTurns (moment_at m source.old shelves.old board run.old)
        (moment_at m source.new shelves.new result run.new) }
{
    let mut taken = Taken { card: 0, app: 0 };
    loop {
        let (next, did) = waiting_round(gate, &mut taken, board, run, source, shelves);
        board = next;
        if !did {
            break;
        }
    }
    board
}
