//! A whole run.

ghost use Rattle.std.specs.Prelude.{◌≡◌, ◌≤◌, length, vec_len, IfOk, OnErr};
ghost use Rattle.card_feed.specs.Plan.{IsPlan, TakesTurns};
ghost use Rattle.run_account.specs.{Ran.{RunLacksMemory, told_of}, Views.{ends_at, streams}};
ghost use Rattle.replay_turns.specs.{Following.{RanAlone, RanByText}, Schedule.{AreTurns}};

use crate::opening::open;
use crate::playing::{play_rounds, play_text};
use crate::waiting::play_waiting;
use card_feed::{Outcome, Plan};
use plain_board::PlainBoard;
use run_account::{Gate, Run, tell};
use std::alloc::{AllocError, Global};
use std::collections::hash_map::RandomState;
use zr_io::{Shelf, Source};

/// Replays a capture over a board for one thread. The turns are those of the text, one a letter: `n` is a turn of the card,
/// a digit one of the application with that number, from 0. Then it goes round, the card and each application, until all have
/// left. Shelf `a` takes the flows to the port of place `a` among the plan's. `random` keys the table of flows.
///
/// It answers how the run went, and its board as it stands then.
pub fn run_turns<S: Source, T: Shelf>(
    alloc: Global,
    random: RandomState,
    source: &mut S,
    shelves: &mut Vec<T>,
    plan: &Plan,
    turns: &str,
) -> Result<(Outcome, PlainBoard), AllocError>
    requires plan { IsPlan plan.now }
    requires turns_only { TakesTurns plan.now }
    requires shelves { length plan.now.ports.items ≤ vec_len shelves.old }
    requires turns { AreTurns (length plan.now.ports.items) turns.now }
    ensures many { vec_len shelves.new ≡ vec_len shelves.old }
    // The stream theorem, what the outcome says and the board; and its turns were those of the text, and then whole rounds.
    ensures ran { let m = streams S.left S.faults T.kept T.counts in
        IfOk result (λ it. RanByText (ends_at m source.old shelves.old.items)
        (ends_at m source.new shelves.new.items) plan.now turns.now (told_of it.0) it.1) }
    // Want of memory comes before the first turn or behind the last.
    ensures lacks { let m = streams S.left S.faults T.kept T.counts in
        OnErr result (RunLacksMemory (ends_at m source.old shelves.old.items)
        (ends_at m source.new shelves.new.items) plan.now) }
{
    let (mut board, mut run) = open::<S, T>(alloc, random, plan)?;
    board = play_text(board, &mut run, source, shelves, turns);
    board = play_rounds(board, &mut run, source, shelves);
    let Run { feed, workers } = run;
    let outcome = tell(alloc, feed, &workers, &plan.ports)?;
    Ok((outcome, board))
}

/// Replays a capture over a board for one thread, by rounds: a turn of the card and one of each application, until all have left. No
/// record is read while an application has something to do, so that no frame is refused whose buffers are on their way back. Shelf
/// `a` takes the flows to the port of place `a` among the plan's. `random` keys the table of flows, and `gate` is told of each turn
/// before its round.
///
/// It answers how the run went, and its board as it stands then.
pub fn run_rounds<S: Source, T: Shelf, G: Gate>(
    alloc: Global,
    random: RandomState,
    source: &mut S,
    shelves: &mut Vec<T>,
    plan: &Plan,
    gate: &G,
) -> Result<(Outcome, PlainBoard), AllocError>
    requires plan { IsPlan plan.now }
    requires turns_only { TakesTurns plan.now }
    requires shelves { length plan.now.ports.items ≤ vec_len shelves.old }
    ensures many { vec_len shelves.new ≡ vec_len shelves.old }
    // The stream theorem, what the outcome says and the board.
    ensures ran { let m = streams S.left S.faults T.kept T.counts in
        IfOk result (λ it. RanAlone (ends_at m source.old shelves.old.items)
        (ends_at m source.new shelves.new.items) plan.now (told_of it.0) it.1) }
    // Want of memory comes before the first turn or behind the last.
    ensures lacks { let m = streams S.left S.faults T.kept T.counts in
        OnErr result (RunLacksMemory (ends_at m source.old shelves.old.items)
        (ends_at m source.new shelves.new.items) plan.now) }
{
    let (mut board, mut run) = open::<S, T>(alloc, random, plan)?;
    board = play_waiting(gate, board, &mut run, source, shelves);
    let Run { feed, workers } = run;
    let outcome = tell(alloc, feed, &workers, &plan.ports)?;
    Ok((outcome, board))
}
