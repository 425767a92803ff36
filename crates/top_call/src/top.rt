//! The top call: a command's words, a source, eight shelves and a sink.

ghost use Rattle.std.specs.{Prelude.{◌≡◌, ℕ, ◌≤◌, ◌<◌, ◌⊎◌, true, Option, None, Some, IfOk, IfErr, MatchResult, OnErr, OnOk, Ok, ◌++◌, map, length, take, vec_len}, Io.KnownBytes.{Appends}};
ghost use Rattle.zr_kinds.specs.{Fault.{number_of}, Options.{BehavesPlainly}};
ghost use Rattle.zr_io.specs.Moved.{AddsPiece, HasCause, Rose};
ghost use Rattle.cap_make.specs.GeneratedCapture.{generated_capture};
ghost use Rattle.command_words.specs.Words.{reading_of, replay};
ghost use Rattle.card_feed.specs.Plan.{IsPlan, TakesTurns};
ghost use Rattle.run_account.specs.{Ran.{told_of}, Views.{ends_at, shelf_seen, streams}};
ghost use Rattle.top_call.specs.Report.{Reports, report_of};
ghost use Rattle.replay_turns.specs.Schedule.{AreTurns};
ghost use Rattle.top_call.specs.{Records.{record_in}, StreamTheorem.{Answers, AnswersAlone, Finishes, IsThreaded, Plays, RepliesTo, TellsOutcome, asked_by}, Worlds.{IsUntouched, seen, sink_seen, sunk, world_at}};

use crate::card::Card;
use crate::checking::check_record;
use crate::flushing::flush_shelves;
use crate::record::write_record;
use crate::report::{Report, Unreported, answer, write_report};
use crate::status::status_of;
use cap_make::make;
use card_feed::{Outcome, Plan};
use command_words::{Command, Replay, read_words};
use replay_threads::{Gate, processors, run_threads};
use replay_turns::{run_rounds, run_turns};
use std::alloc::{AllocError, Global};
use std::collections::hash_map::RandomState;
use std::sync::Wait;
use std::thread::Threads;
use zr_io::{Failed, Shelf, Sink, Source};
use zr_kinds::Fault;

/// Writes the record of the run, where it is asked for.
fn write_events<O: Sink>(plan: &Plan, card: &Card, out: &mut O) -> Result<(), Failed>
    requires plan { IsPlan plan.now }
    ensures bytes { AddsPiece (O.sent out.old) (O.sent out.new) result
        (record_in plan.now card.now) }
    ensures cause { HasCause (O.faults out.old) (O.faults out.new) result }
{
    match card {
        Card::Plain(board) if plan.options.events => {
            write_record(&plan.areas, plan.ports.len() as u32, board.log(), out)
        }
        _ => Ok(()),
    }
}

/// Writes the report of a replay, and behind it the record of the run where it is asked for.
fn write_told<O: Sink>(
    alloc: Global,
    report: &Report<'_>,
    plan: &Plan,
    card: &Card,
    out: &mut O,
) -> Result<(), Unreported>
    requires plan { IsPlan plan.now }
    ensures gained { let r = report.now in
        let text = report_of r.tally.now r.apps.now r.flows.now r.refused.now r.pool.now r.status in
        Reports (O.sent out.old) (O.sent out.new) (O.faults out.old) (O.faults out.new)
        (text ++ record_in plan.now card.now) result }
    ensures still { OnOk result (O.faults out.new ≡ O.faults out.old) }
{
    write_report(alloc, report, out)?;
    match write_events(plan, card, out) {
        Ok(()) => Ok(()),
        Err(Failed) => Err(Unreported::Write),
    }
}

/// Writes what a replay tells: the answer. `lost` says that the flush of a shelf failed.
fn tell<O: Sink>(
    alloc: Global,
    outcome: &Outcome,
    lost: bool,
    plan: &Plan,
    card: &Card,
    out: &mut O,
) -> u8
    requires plan { IsPlan plan.now }
    ensures { let m = sink_seen O.sent O.faults in
        TellsOutcome (sunk m out.old) (sunk m out.new) (told_of outcome.now) lost
        (record_in plan.now card.now) result }
{
    let status = status_of(outcome, lost);
    let report = Report {
        tally: &outcome.tally,
        apps: &outcome.apps,
        flows: &outcome.flows,
        refused: &outcome.refused,
        pool: &outcome.pool,
        status,
    };
    answer(status, write_told(alloc, &report, plan, card, out))
}

/// Flushes the shelves behind the last turn, and writes what the replay tells: the answer.
fn finish<T: Shelf, O: Sink>(
    alloc: Global,
    mut outcome: Outcome,
    plan: &Plan,
    card: &Card,
    shelves: &mut [T],
    out: &mut O,
) -> u8
    requires plan { IsPlan plan.now }
    requires shelves { length outcome.apps.items ≤ length shelves.old }
    ensures { let m = sink_seen O.sent O.faults in
        Finishes (shelf_seen T.kept T.counts) shelves.old shelves.new (sunk m out.old)
        (sunk m out.new)
        (told_of outcome, record_in plan.now card.now) result }
{
    let lost = flush_shelves(shelves, &mut outcome.apps);
    tell(alloc, &outcome, lost, plan, card, out)
}

/// Runs the plan by the text of turns, on this thread, over the board for one. The board is left in the card.
fn play_turns<S: Source, T: Shelf>(
    alloc: Global,
    random: RandomState,
    source: &mut S,
    shelves: &mut Vec<T>,
    plan: &Plan,
    turns: &str,
    card: &mut Card,
) -> Result<Outcome, AllocError>
    requires plan { IsPlan plan.now }
    requires turns_only { TakesTurns plan.now }
    requires shelves { length plan.now.ports.items ≤ vec_len shelves.old }
    requires turns { AreTurns (length plan.now.ports.items) turns.now }
    ensures many { vec_len shelves.new ≡ vec_len shelves.old }
    ensures plays { let m = streams S.left S.faults T.kept T.counts in
        Plays (ends_at m source.old shelves.old.items) (ends_at m source.new shelves.new.items)
        card.old card.new (Some turns.now) plan.now result }
{
    let (outcome, board) = run_turns(alloc, random, source, shelves, plan, turns)?;
    *card = Card::Plain(board);
    Ok(outcome)
}

/// Runs the plan by threads over the board on words. The board is left in the card.
fn play_beside<S: Source + Send, T: Shelf + Send, G: Gate + Sync, R: Threads + Wait + Sync>(
    rt: &R,
    alloc: Global,
    random: RandomState,
    source: &mut S,
    shelves: &mut Vec<T>,
    plan: &Plan,
    gate: &G,
    card: &mut Card,
) -> Result<Outcome, AllocError>
    requires plan { IsPlan plan.now }
    requires shelves { length plan.now.ports.items ≤ vec_len shelves.old }
    ensures many { vec_len shelves.new ≡ vec_len shelves.old }
    ensures plays { let m = streams S.left S.faults T.kept T.counts in
        Plays (ends_at m source.old shelves.old.items) (ends_at m source.new shelves.new.items)
        card.old card.new None plan.now result }
{
    let (outcome, board, desk) = run_threads(rt, alloc, random, source, shelves, plan, gate)?;
    board.uncounted(&desk);
    *card = Card::Words(board, desk);
    Ok(outcome)
}

/// Runs the plan by rounds, on this thread, over the board for one. The board is left in the card.
fn play_rounds<S: Source, T: Shelf, G: Gate>(
    alloc: Global,
    random: RandomState,
    source: &mut S,
    shelves: &mut Vec<T>,
    plan: &Plan,
    gate: &G,
    card: &mut Card,
) -> Result<Outcome, AllocError>
    requires plan { IsPlan plan.now }
    requires turns_only { TakesTurns plan.now }
    requires shelves { length plan.now.ports.items ≤ vec_len shelves.old }
    ensures many { vec_len shelves.new ≡ vec_len shelves.old }
    ensures plays { let m = streams S.left S.faults T.kept T.counts in
        Plays (ends_at m source.old shelves.old.items) (ends_at m source.new shelves.new.items)
        card.old card.new None plan.now result }
{
    let (outcome, plain) = run_rounds(alloc, random, source, shelves, plan, gate)?;
    *card = Card::Plain(plain);
    Ok(outcome)
}

/// Whether the plan's applications take turns of their own.
fn takes_turns(plan: &Plan) -> bool
    ensures { result ≡ true → TakesTurns plan.now }
{
    !plan.options.polled && plan.options.forward.is_none()
}

/// Runs the plan without a text of turns: by threads, or where there is one processor and its applications take turns of their own, by
/// rounds. The board is left in the card.
fn play_freely<S: Source + Send, T: Shelf + Send, G: Gate + Sync, R: Threads + Wait + Sync>(
    rt: &R,
    alloc: Global,
    random: RandomState,
    source: &mut S,
    shelves: &mut Vec<T>,
    plan: &Plan,
    gate: &G,
    card: &mut Card,
) -> Result<Outcome, AllocError>
    requires plan { IsPlan plan.now }
    requires shelves { length plan.now.ports.items ≤ vec_len shelves.old }
    ensures many { vec_len shelves.new ≡ vec_len shelves.old }
    ensures plays { let m = streams S.left S.faults T.kept T.counts in
        Plays (ends_at m source.old shelves.old.items) (ends_at m source.new shelves.new.items)
        card.old card.new None plan.now result }
{
    if takes_turns(plan) && processors(rt, gate) == 1 {
        play_rounds(alloc, random, source, shelves, plan, gate, card)
    } else {
        play_beside(rt, alloc, random, source, shelves, plan, gate, card)
    }
}

/// Replays a capture by a text of turns, flushes the shelves, and writes the report, and the record where it is asked for.
fn replay_alone<S: Source, T: Shelf, O: Sink>(
    alloc: Global,
    random: RandomState,
    plan: Plan,
    turns: &str,
    source: &mut S,
    shelves: &mut Vec<T>,
    out: &mut O,
    card: &mut Card,
) -> u8
    requires plan { IsPlan plan }
    requires plain { BehavesPlainly plan.options }
    requires turns_only { TakesTurns plan }
    requires turns { AreTurns (length plan.ports.items) turns.now }
    requires shelves { vec_len shelves.old ≡ 8 }
    requires blank { card.old ≡ Card.Blank }
    ensures replays { let m = seen (streams S.left S.faults T.kept T.counts)
        (sink_seen O.sent O.faults) in
        RepliesTo (world_at m source.old shelves.old.items out.old card.old)
        (world_at m source.new shelves.new.items out.new card.new)
        (asked_by plan (Some turns.now)) result }
{
    match play_turns(alloc, random, source, shelves, &plan, turns, card) {
        Ok(outcome) => finish(alloc, outcome, &plan, card, shelves, out),
        Err(_) => Fault::Memory.number(),
    }
}

/// Replays a capture without a text of turns, flushes the shelves, and writes the report.
fn replay<S: Source + Send, T: Shelf + Send, O: Sink, G: Gate + Sync, R: Threads + Wait + Sync>(
    rt: &R,
    alloc: Global,
    random: RandomState,
    plan: Plan,
    source: &mut S,
    shelves: &mut Vec<T>,
    out: &mut O,
    gate: &G,
    card: &mut Card,
) -> u8
    requires plan { IsPlan plan }
    requires plain { BehavesPlainly plan.options }
    requires shelves { vec_len shelves.old ≡ 8 }
    requires blank { card.old ≡ Card.Blank }
    ensures replays { let m = seen (streams S.left S.faults T.kept T.counts)
        (sink_seen O.sent O.faults) in
        RepliesTo (world_at m source.old shelves.old.items out.old card.old)
        (world_at m source.new shelves.new.items out.new card.new)
        (asked_by plan None) result }
{
    match play_freely(rt, alloc, random, source, shelves, &plan, gate, card) {
        Ok(outcome) => finish(alloc, outcome, &plan, card, shelves, out),
        Err(_) => Fault::Memory.number(),
    }
}

/// Writes the capture of a seed and a number of frames: the answer.
fn write_capture<O: Sink>(seed: u32, frames: u32, out: &mut O) -> u8
    ensures kind { (result ≡ 0) ⊎ (result ≡ number_of Fault.Write) }
    ensures whole { result ≡ 0
        → Appends (O.sent out.old) (O.sent out.new) (generated_capture seed frames)
        × (O.faults out.new ≡ O.faults out.old) }
    ensures lost { result ≡ number_of Fault.Write
        → ((n : ℕ) × Appends (O.sent out.old) (O.sent out.new)
        (take n (generated_capture seed frames)))
        × Rose (O.faults out.old) (O.faults out.new) }
{
    match make(seed, frames, out) {
        Ok(()) => 0,
        Err(Failed) => Fault::Write.number(),
    }
}

/// A replay by threads, and the keys of its table of flows.
#[derive(Drop)]
struct Threaded {
    random: RandomState,
    plan: Plan,
}

/// Runs the command of the words on this thread: the answer. A replay by threads is handed back, and nothing was done.
fn run_alone<S: Source, T: Shelf, O: Sink>(
    alloc: Global,
    random: RandomState,
    words: &[&str],
    source: &mut S,
    shelves: &mut Vec<T>,
    out: &mut O,
    card: &mut Card,
) -> Result<u8, Threaded>
    requires shelves { vec_len shelves.old ≡ 8 }
    requires blank { card.old ≡ Card.Blank }
    ensures answers { let m = seen (streams S.left S.faults T.kept T.counts)
        (sink_seen O.sent O.faults) in
        let before = world_at m source.old shelves.old.items out.old card.old in
        let after = world_at m source.new shelves.new.items out.new card.new in
        MatchResult result (Answers before after (reading_of (map (λ w. w.now) words.now)))
        (λ _. IsUntouched before after) }
    ensures alone { IfOk result
        (λ answer. IsThreaded (reading_of (map (λ w. w.now) words.now))
        → answer ≡ number_of Fault.Memory) }
    ensures asks { IfErr result
        (λ t. reading_of (map (λ w. w.now) words.now)
        ≡ Some (replay (asked_by t.plan None))) }
    ensures asked { IfErr result
        (λ t. IsPlan t.plan × BehavesPlainly t.plan.options) }
    ensures shelves { OnErr result (vec_len shelves.new ≡ 8) }
{
    match read_words(alloc, words) {
        Ok(
            Some(
                Command::Replay(
                    Replay {
                        ports,
                        areas,
                        options,
                        turns,
                    },
                ),
            ),
        ) => {
            let plan = Plan {
                ports,
                areas,
                options,
            };
            match turns {
                Some(text) => Ok(replay_alone(
                    alloc, random, plan, text, source, shelves, out, card,
                )),
                None => Err(Threaded { random, plan }),
            }
        }
        Ok(Some(Command::Make(command))) => Ok(write_capture(command.seed, command.frames, out)),
        Ok(Some(Command::Check)) => Ok(check_record(alloc, source, out, card)),
        Ok(None) => Ok(Fault::Usage.number()),
        Err(_) => Ok(Fault::Memory.number()),
    }
}

/// As `zcrx`, where the command needs no threads: to make a capture, to check a record, to replay a capture by a text of turns, and
/// where the words have no reading. It waits for nobody and returns. `None` is a replay without a text of turns, and then nothing was done.
pub fn zcrx_alone<S: Source, T: Shelf, O: Sink>(
    alloc: Global,
    random: RandomState,
    words: &[&str],
    source: &mut S,
    shelves: &mut Vec<T>,
    out: &mut O,
    card: &mut Card,
) -> Option<u8>
    requires shelves { vec_len shelves.old ≡ 8 }
    requires blank { card.old ≡ Card.Blank }
    ensures { let m = seen (streams S.left S.faults T.kept T.counts)
        (sink_seen O.sent O.faults) in
        AnswersAlone (world_at m source.old shelves.old.items out.old card.old)
        (world_at m source.new shelves.new.items out.new card.new)
        (reading_of (map (λ w. w.now) words.now)) result }
{
    run_alone(alloc, random, words, source, shelves, out, card).ok()
}

/// Runs the command that `words`, the words after the program's name, ask for. To replay a capture shelf `a` takes the
/// flows to the port of place `a` among the ports, and `random` keys the table of flows; to make one neither source nor
/// shelves are needed, and to check the record of a run no shelves. With a text of turns a replay goes by these on one thread.
/// Without one the reading, the card and each application have a thread of their own; where there is one processor, or `gate` names
/// one, they go round in this one. `gate` is told of each turn of the card and of an application before that. The board of a run is
/// left in `card`, or what a check found. Answers the status: 0, or the number of the fault that comes first.
pub fn zcrx<S: Source + Send, T: Shelf + Send, O: Sink, G: Gate + Sync, R: Threads + Wait + Sync>(
    rt: &R,
    alloc: Global,
    random: RandomState,
    words: &[&str],
    source: &mut S,
    shelves: &mut Vec<T>,
    out: &mut O,
    gate: &G,
    card: &mut Card,
) -> u8
    requires shelves { vec_len shelves.old ≡ 8 }
    requires blank { card.old ≡ Card.Blank }
    // `card.new` may be finished; the rest of what the answer says stands in `Answers`.
    ensures { let m = seen (streams S.left S.faults T.kept T.counts)
        (sink_seen O.sent O.faults) in
        Answers (world_at m source.old shelves.old.items out.old card.old)
        (world_at m source.new shelves.new.items out.new card.new)
        (reading_of (map (λ w. w.now) words.now)) result }
{
    match run_alone(alloc, random, words, source, shelves, out, card) {
        Ok(answer) => answer,
        Err(Threaded { random, plan }) => {
            replay(rt, alloc, random, plan, source, shelves, out, gate, card)
        }
    }
}
