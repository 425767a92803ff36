//! All turns of a run: the reading and the roles side by side, and rounds for what is left.
ghost use Rattle.std.specs.Prelude.{◌≡◌, true, All, IsTrue};
ghost use Rattle.card_feed.specs.Feed.{IsFeedReady};
ghost use Rattle.replay_threads.specs.{Cards.{CardGoes}, Reader.{ReaderGoes}, Lanes.{AllGo}};

use crate::card::{CardLane, Went, paced_turn};
use crate::joining::join_reading;
use crate::lane::{have_left, lanes_go_on, round, run_lanes};
use crate::pace::Pace;
use crate::reader::Reader;
use crate::reading::read_turn;
use crate::sits::Sits;
use run_account::{Gate, Loops};
use std::sync::Wait;
use std::thread::{Threads, available_parallelism, join_mut};
use zr_io::Source;

/// How many rounds at most come one behind another, before it is tried with threads again.
const ROUNDS: u32 = 100_000;

/// The loops of all.
fn join_loops<S: Source + Send, W: Sits + Send, G: Gate + Sync, R: Threads + Wait + Sync>(
    rt: &R,
    gate: &G,
    beside: &Loops,
    free: u32,
    source: &mut S,
    reader: &mut Reader,
    card: &mut CardLane<'_>,
    lanes: &mut [W],
)
    requires ready { IsFeedReady card.old.feed card.old.seat.side.view }
    requires fit { All W.fits lanes.old }
    ensures reader { ReaderGoes S.left S.faults source.old source.new reader.old reader.new }
    ensures card { CardGoes card.old card.new }
    ensures lanes { AllGo W.goes lanes.old lanes.new }
{
    join_mut(
        rt,
        &mut ||
            requires { IsFeedReady card.now.feed card.now.seat.side.view }
        { join_reading(rt, gate, beside, free, source, reader, card) },
        &mut ||
            requires { All W.fits lanes.now }
        { run_lanes(rt, gate, beside, lanes) },
    );
}

/// The reading, the card and the applications side by side, until each is over, or has done nothing for long and none goes on.
/// Nothing is done where they don't have threads of their own.
fn play_beside<S: Source + Send, W: Sits + Send, G: Gate + Sync, R: Threads + Wait + Sync>(
    rt: &R,
    gate: &G,
    are_apart: bool,
    source: &mut S,
    free: u32,
    reader: &mut Reader,
    card: &mut CardLane<'_>,
    lanes: &mut [W],
)
    requires ready { IsFeedReady card.old.feed card.old.seat.side.view }
    requires fit { All W.fits lanes.old }
    ensures reader { ReaderGoes S.left S.faults source.old source.new reader.old reader.new }
    ensures card { CardGoes card.old card.new }
    ensures lanes { AllGo W.goes lanes.old lanes.new }
{
    lanes_go_on::<W>();
    if !are_apart {
        return;
    }
    let beside = Loops::new();
    if card.feed.ended() {
        beside.stop_reading();
    }
    join_loops(rt, gate, &beside, free, source, reader, card, lanes);
}

/// Whether the card was closed and every application has left.
fn are_over<W: Sits>(card: &CardLane<'_>, lanes: &[W]) -> bool
    ensures closed { IsTrue result → card.now.feed.closed ≡ true }
    ensures left { IsTrue result → All (λ lane. W.gone lane ≡ true) lanes.now }
{
    card.feed.closed() && have_left(lanes)
}

/// A turn of the reading, where nothing else was done, as long as the card wants more of the capture. It may be long: a pipe may
/// have no more for hours.
fn read_on<S: Source>(is_idle: bool, source: &mut S, reader: &mut Reader, card: &CardLane<'_>)
    ensures goes { ReaderGoes S.left S.faults source.old source.new reader.old reader.new }
{
    if is_idle && !card.feed.ended() {
        read_turn(reader, source);
    }
}

/// Rounds, a turn of the card and then one of each application, and behind one in which nothing was done a turn of the reading,
/// until all are over. `false` says that after many they aren't. So many buffers are free at first for the card alone.
fn play_rounds<S: Source, W: Sits + Send, G: Gate + Sync, R: Threads + Sync>(
    rt: &R,
    gate: &G,
    source: &mut S,
    free: u32,
    reader: &mut Reader,
    card: &mut CardLane<'_>,
    lanes: &mut [W],
) -> bool
    requires ready { IsFeedReady card.old.feed card.old.seat.side.view }
    requires fit { All W.fits lanes.old }
    ensures reader { ReaderGoes S.left S.faults source.old source.new reader.old reader.new }
    ensures card { CardGoes card.old card.new }
    ensures lanes { AllGo W.goes lanes.old lanes.new }
    ensures closed { IsTrue result → card.new.feed.closed ≡ true }
    ensures left { IsTrue result → All (λ lane. W.gone lane ≡ true) lanes.new }
{
    lanes_go_on::<W>();
    let beside = Loops::new();
    let mut pace = Pace::new(free);
    for _ in 0..ROUNDS {
        if are_over(card, lanes) {
            return true;
        }
        let went = paced_turn(gate, &beside, &mut pace, card);
        let did = round(rt, gate, &beside, lanes);
        let is_idle = !did && matches!(went, Went::Idle);
        read_on(is_idle, source, reader, card);
    }
    are_over(card, lanes)
}

/// For how many processors a run is laid out: as many as the gate names, or as there are.
pub fn processors<G: Gate, R: Threads>(rt: &R, gate: &G) -> usize {
    if let Some(processors) = gate.processors() {
        return processors;
    }
    match available_parallelism(rt) {
        Ok(processors) => processors.get(),
        Err(_) => usize::MAX,
    }
}

/// How many buffers are surely free before the rounds: behind turns only the card's looks tell.
fn free_for_rounds(are_apart: bool, free: u32) -> u32 {
    if are_apart { 0 } else { free }
}

/// All turns of a run: side by side, and where loops ended before all were over, rounds, and side by side again. For one processor
/// there are rounds alone: threads would wait for each other at each step. So many buffers are free at first for the card alone.
pub fn play<S: Source + Send, W: Sits + Send, G: Gate + Sync, R: Threads + Wait + Sync>(
    rt: &R,
    gate: &G,
    source: &mut S,
    free: u32,
    reader: &mut Reader,
    card: &mut CardLane<'_>,
    lanes: &mut [W],
)
    requires ready { IsFeedReady card.old.feed card.old.seat.side.view }
    requires fit { All W.fits lanes.old }
    ensures reader { ReaderGoes S.left S.faults source.old source.new reader.old reader.new }
    ensures card { CardGoes card.old card.new }
    ensures lanes { AllGo W.goes lanes.old lanes.new }
    ensures closed { card.new.feed.closed ≡ true }
    ensures left { All (λ lane. W.gone lane ≡ true) lanes.new }
{
    lanes_go_on::<W>();
    let are_apart = processors(rt, gate) > 1;
    let mut free = free;
    for _ in rt.forever() {
        play_beside(rt, gate, are_apart, source, free, reader, card, lanes);
        let still_free = free_for_rounds(are_apart, free);
        if play_rounds(rt, gate, source, still_free, reader, card, lanes) {
            return;
        }
        free = 0;
    }
    unreachable!()
}
