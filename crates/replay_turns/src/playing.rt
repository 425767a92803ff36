//! Many turns: those of a text, and then rounds.

ghost use Rattle.std.specs.Prelude.{◌<◌, length, map, MatchBool};
ghost use Rattle.replay_turns.specs.{Rounds.{IsOfPlan}, Following.{Follows, FollowsRounds, round_of}, Running.{RunFits, PlaysBy, moment_at}, Schedule.{AreTurns, role_of}, Steps.{run_steps}, Stuck.{AreStuck}};
ghost use Rattle.run_account.specs.{Running.{IsRunOver}, Views.{streams}};

use crate::Role;
use crate::role::role_of;
use crate::stepping::step;
use plain_board::PlainBoard;
use run_account::Run;
use zr_io::{Shelf, Source};

/// The turns that a text asks for.
pub fn play_text<S: Source, T: Shelf>(
    mut board: PlainBoard,
    run: &mut Run,
    source: &mut S,
    shelves: &mut [T],
    turns: &str,
) -> PlainBoard
    requires fits { RunFits board run.old (length shelves.old) }
    requires turns { AreTurns (length run.old.workers.items) turns.now }
    ensures { let m = streams S.left S.faults T.kept T.counts in
        PlaysBy (Follows (map role_of turns.now)) (moment_at m source.old shelves.old board run.old)
        (moment_at m source.new shelves.new result run.new) }
{
    let apps = run.workers.len() as u32;
    for letter in turns.bytes() {
        (board, _) = step(board, run, source, shelves, role_of(letter, apps));
    }
    board
}

/// A turn of the card, and then one of each application. `false` says that nothing was done in any of them, and then nobody
/// can do anything.
pub(crate) fn play_round<S: Source, T: Shelf>(
    board: PlainBoard,
    run: &mut Run,
    source: &mut S,
    shelves: &mut [T],
) -> (PlainBoard, bool)
    requires fits { RunFits board run.old (length shelves.old) }
    ensures plays { let m = streams S.left S.faults T.kept T.counts in
        PlaysBy (Follows (round_of (length run.old.workers.items)))
        (moment_at m source.old shelves.old board run.old)
        (moment_at m source.new shelves.new result.0 run.new) }
    ensures answer { MatchBool result.1 (run_steps board run.old < run_steps result.0 run.new)
        (AreStuck result.0 run.new) }
{
    let apps = run.workers.len() as u32;
    let (mut board, mut did) = step(board, run, source, shelves, Role::Card);
    for app in 0..apps {
        let (next, more) = step(board, run, source, shelves, Role::App(app));
        board = next;
        did |= more;
    }
    (board, did)
}

/// Rounds, until nothing is done in one: then the card was closed, and every application has left.
pub fn play_rounds<S: Source, T: Shelf>(
    mut board: PlainBoard,
    run: &mut Run,
    source: &mut S,
    shelves: &mut [T],
) -> PlainBoard
    requires fits { RunFits board run.old (length shelves.old) }
    requires plan { let m = streams S.left S.faults T.kept T.counts in
        IsOfPlan (moment_at m source.old shelves.old board run.old) }
    ensures over { IsRunOver run.new }
    ensures plays { let m = streams S.left S.faults T.kept T.counts in
        PlaysBy (FollowsRounds (length run.old.workers.items))
        (moment_at m source.old shelves.old board run.old)
        (moment_at m source.new shelves.new result run.new) }
{
    loop {
        let (next, did) = play_round(board, run, source, shelves);
        board = next;
        if !did {
            break;
        }
    }
    board
}
