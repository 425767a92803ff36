//! One turn of a role.

ghost use Rattle.std.specs.Prelude.{◌<◌, length, MatchBool};
ghost use Rattle.run_account.specs.Views.{streams};
ghost use Rattle.replay_turns.specs.{Following.{RoleMoves}, Rounds.{DidNothing}, Running.{RunFits, PlaysBy, moment_at}, Schedule.{IsRole}, Steps.{run_steps}, declared.role.Role.TheVariants.{App}};

use crate::Role;
use crate::board_turns::{app_step, card_step};
use app_worker::Turn;
use plain_board::PlainBoard;
use run_account::Run;
use zr_io::{Shelf, Source};

/// A turn of an application, unless it has left. `false` says that it did nothing.
fn app_turn<S: Source, T: Shelf>(
    board: PlainBoard,
    run: &mut Run,
    shelves: &mut [T],
    app: u32,
) -> (PlainBoard, bool)
    requires fits { RunFits board run.old (length shelves.old) }
    requires app { app < length run.old.workers.items }
    ensures plays { (source : S) → let m = streams S.left S.faults T.kept T.counts in
        PlaysBy (RoleMoves (App app)) (moment_at m source shelves.old board run.old)
        (moment_at m source shelves.new result.0 run.new) }
    ensures answer { MatchBool result.1 (run_steps board run.old < run_steps result.0 run.new)
        (DidNothing (App app) board result.0 run.old run.new) }
{
    if run.workers[app as usize].left {
        return (board, false);
    }
    let worker = &mut run.workers[app as usize];
    let (board, turn) = app_step(board, app, &mut worker.state, &mut shelves[app as usize]);
    worker.left = matches!(turn, Turn::Finished);
    let did = !matches!(turn, Turn::Idle(_));
    (board, did)
}

/// A turn of a role. An application that has left does nothing in it. `false` says that nothing was done, and then there is
/// nothing that the role can do.
pub fn step<S: Source, T: Shelf>(
    board: PlainBoard,
    run: &mut Run,
    source: &mut S,
    shelves: &mut [T],
    role: Role,
) -> (PlainBoard, bool)
    requires fits { RunFits board run.old (length shelves.old) }
    requires role { IsRole (length run.old.workers.items) role }
    ensures plays { let m = streams S.left S.faults T.kept T.counts in
        PlaysBy (RoleMoves role) (moment_at m source.old shelves.old board run.old)
        (moment_at m source.new shelves.new result.0 run.new) }
    ensures answer { MatchBool result.1 (run_steps board run.old < run_steps result.0 run.new)
        (DidNothing role board result.0 run.old run.new) }
{
    match role {
        Role::Card => {
            let turn = card_step(board, &mut run.feed, source);
            run.feed.has_few_records();
            turn
        }
        Role::App(app) => app_turn::<S, T>(board, run, shelves, app),
    }
}
