//! The card at its seat: its turns, and the loop of its thread.
ghost use Rattle.std.specs.Prelude.{◌≡◌, ◌<◌, ◌≤◌, ◌⊎◌, [], true, None, IfSome, IsTrue, MatchBool};
ghost use Rattle.card_feed.specs.{Feed.{IsFeedReady, WantsRecord}, declared.arrived.Arrived.TheVariants.{Nothing}, Turns.{MayArrive}};
ghost use Rattle.rtrb.specs.Ring.{known_items};
ghost use Rattle.replay_threads.specs.Cards.{CardDid, CardGoes, CardLooks, CardTakes, FeedWaits};

use crate::carried::{Carried, InOrder};
use crate::pace::Pace;
use board_face::NicFace;
use card_feed::{Arrived, Feed, nic_prepare, nic_step};
use crossbeam_utils::Backoff;
use rtrb::{Consumer, Producer};
use run_account::{Gate, IDLE, Loops};
use std::alloc::Global;
use std::sync::Wait;
use word_board::NicSeat;

/// The card between two of its turns, at its seat.
#[derive(Drop)]
pub struct CardLane<'b> {
    pub seat: NicSeat<'b>,
    pub feed: Feed,
    /// What the reading sends.
    pub frames: Consumer<Carried, Global, InOrder>,
    /// The vectors of frames that were taken go back to the reading.
    pub spares: Producer<Vec<u8>, Global>,
    /// How many turns it has taken.
    pub turns: u64,
    /// How many applications it has seen leave: the first so many.
    pub gone: u32,
}

/// Whether the card was closed and has seen every application leave.
fn is_over(card: &CardLane<'_>) -> bool {
    card.feed.closed() && card.gone >= card.seat.apps()
}

/// Once the card was closed, looks whether the next application has left. `false` says that it wasn't seen to.
fn see_leave(card: &mut CardLane<'_>) -> bool
    ensures looks { CardLooks card.old card.new }
    ensures did { IsTrue result → card.old.gone < card.new.gone }
{
    if !card.feed.closed() || card.gone >= card.seat.apps() {
        return false;
    }
    let left = card.seat.left(card.gone);
    if left {
        card.gone += 1;
    }
    left
}

/// Whether no frame is taken now: one is at hand, notes are pending, or the reading has ended.
fn waits(card: &CardLane<'_>) -> bool
    ensures { MatchBool result (FeedWaits card.now.feed) (WantsRecord card.now.feed) }
{
    card.feed.at_hand() || card.feed.ended() || card.feed.pending() > 0
}

/// What has come for the next turn. The vector of the frame before goes back to the reading, if there is room.
fn arrive(card: &mut CardLane<'_>) -> Arrived
    ensures may { MayArrive card.new.feed result }
    ensures takes { CardTakes card.old card.new result }
    ensures cause { result ≡ Nothing → FeedWaits card.old.feed
        ⊎ (known_items card.new.frames ≡ []) }
{
    if waits(card) {
        return Arrived::Nothing;
    }
    match card.frames.pop() {
        Ok(Carried::Frame(_, record, bytes)) => {
            let _ = card.spares.push(card.feed.spare());
            Arrived::Frame(record, bytes)
        }
        Ok(Carried::Over(end)) => Arrived::Over(end),
        Err(_) => Arrived::Nothing,
    }
}

/// A turn of the card, unless it is over. `false` says that nothing was done.
pub fn card_turn<G: Gate>(gate: &G, card: &mut CardLane<'_>) -> bool
    requires ready { IsFeedReady card.old.feed card.old.seat.side.view }
    ensures goes { CardGoes card.old card.new }
    ensures did { IsTrue result → CardDid card.old card.new }
{
    if is_over(card) {
        return false;
    }
    gate.at(0, card.turns);
    card.turns = card.turns.saturating_add(1);
    let arrived = arrive(card);
    let did = nic_step(&mut card.feed, arrived, &mut card.seat);
    see_leave(card) || did
}

/// A turn of the card for which nothing has come.
fn quiet_turn<G: Gate>(gate: &G, pace: &mut Pace, card: &mut CardLane<'_>) -> bool
    requires ready { IsFeedReady card.old.feed card.old.seat.side.view }
    ensures goes { CardGoes card.old card.new }
    ensures did { IsTrue result → CardDid card.old card.new }
{
    let before = card.seat.cached();
    gate.at(0, card.turns);
    card.turns = card.turns.saturating_add(1);
    let did = nic_step(&mut card.feed, Arrived::Nothing, &mut card.seat);
    pace.count(0, false, before, card.seat.cached());
    did
}

/// How many fresh buffers the next frame needs, where one is there.
fn next_needs(card: &mut CardLane<'_>) -> Option<u32>
    requires ready { IsFeedReady card.old.feed card.old.seat.side.view }
    ensures goes { CardGoes card.old card.new }
    ensures few { IfSome result (λ needed. needed ≤ 64) }
{
    if card.frames.is_empty() {
        return None;
    }
    match card.frames.peek_known() {
        Carried::Frame(_, _, bytes) => Some(card.feed.needed(bytes, &card.seat)),
        Carried::Over(_) => Some(0),
    }
}

/// What came of a turn of the card.
#[derive(Clone, Copy, Debug)]
pub enum Went {
    Did,
    Idle,
    /// Buffers for the next frame are on their way back, and it wasn't taken.
    Waits,
}

/// Whether something was done.
fn went_by(did: bool) -> Went {
    if did { Went::Did } else { Went::Idle }
}

/// Looks for so many buffers. `false` says that they aren't there, and that an application may have some on their way back: since
/// the card asked it hasn't had a turn with nothing to do.
fn look_for(beside: &Loops, pace: &mut Pace, needed: u32, card: &mut CardLane<'_>) -> bool
    requires ready { IsFeedReady card.old.feed card.old.seat.side.view }
    requires few { needed ≤ 64 }
    ensures goes { CardGoes card.old card.new }
{
    // What they gave back before they answered is there when the search looks.
    let asking = pace.ask(beside);
    let answered = beside.have_answered(card.seat.apps(), asking);
    let found = nic_prepare(&mut card.feed, &mut card.seat, needed);
    pace.see(card.seat.cached());
    found || answered
}

/// Whether a frame that needs so many buffers may be offered. Where they may not be free the card looks for them first.
fn may_offer(beside: &Loops, pace: &mut Pace, needed: u32, card: &mut CardLane<'_>) -> bool
    requires ready { IsFeedReady card.old.feed card.old.seat.side.view }
    requires few { needed ≤ 64 }
    ensures goes { CardGoes card.old card.new }
{
    if pace.knows(needed) {
        return true;
    }
    look_for(beside, pace, needed, card)
}

/// A turn of the card that offers the next frame, unless buffers for it are on their way back.
fn offering_turn<G: Gate>(
    gate: &G,
    beside: &Loops,
    pace: &mut Pace,
    needed: u32,
    card: &mut CardLane<'_>,
) -> Went
    requires ready { IsFeedReady card.old.feed card.old.seat.side.view }
    requires few { needed ≤ 64 }
    ensures goes { CardGoes card.old card.new }
{
    if !may_offer(beside, pace, needed, card) {
        return Went::Waits;
    }
    pace.go_on();
    let before = card.seat.cached();
    let searches = card.feed.searches();
    let did = card_turn(gate, card);
    // Where as many as it needs were cached before, the turn itself swept nothing: what it counted was swept ahead.
    let swept = before < needed
        && (card.feed.searches().slow > searches.slow
            || card.feed.searches().empty > searches.empty);
    pace.count(needed, swept, before, card.seat.cached());
    went_by(did)
}

/// A turn of the card. It takes no other frame than the one whose buffers were looked for.
pub fn paced_turn<G: Gate>(
    gate: &G,
    beside: &Loops,
    pace: &mut Pace,
    card: &mut CardLane<'_>,
) -> Went
    requires ready { IsFeedReady card.old.feed card.old.seat.side.view }
    ensures goes { CardGoes card.old card.new }
{
    if card.feed.ended() || card.feed.at_hand() {
        return went_by(card_turn(gate, card));
    }
    if card.feed.pending() > 0 {
        return went_by(quiet_turn(gate, pace, card));
    }
    match next_needs(card) {
        Some(needed) => offering_turn(gate, beside, pace, needed, card),
        None => went_by(quiet_turn(gate, pace, card)),
    }
}

/// Turns, until something is done in one: also while buffers are on their way back. `false` says that nothing was done in many, and
/// that the capture isn't read, or that all loops end.
fn card_turns<G: Gate, R: Wait>(
    rt: &R,
    gate: &G,
    beside: &Loops,
    pace: &mut Pace,
    card: &mut CardLane<'_>,
) -> bool
    requires ready { IsFeedReady card.old.feed card.old.seat.side.view }
    ensures goes { CardGoes card.old card.new }
{
    let backoff = Backoff::new();
    let mut idle = 0u32;
    for looks in 0..u32::MAX {
        if beside.is_halted() {
            return false;
        }
        match paced_turn(gate, beside, pace, card) {
            Went::Did => return true,
            Went::Idle if idle >= IDLE => return beside.is_reading(),
            Went::Idle => idle = idle.saturating_add(1),
            // Some may wait for entries that this look dealt with.
            Went::Waits => beside.wake_lanes(),
        }
        beside.rest_card(rt, looks, &backoff);
    }
    false
}

/// The turns of the card, until it is over, nothing is done in many, or all loops end.
fn card_loop<G: Gate, R: Wait>(rt: &R, gate: &G, beside: &Loops, free: u32, card: &mut CardLane<'_>)
    requires ready { IsFeedReady card.old.feed card.old.seat.side.view }
    ensures goes { CardGoes card.old card.new }
{
    let mut pace = Pace::new(free);
    // The bound is never reached. By it the loop is seen to end.
    for _ in 0..u64::MAX {
        if card.feed.ended() {
            beside.stop_reading();
        }
        if is_over(card) || beside.is_halted() || !card_turns(rt, gate, beside, &mut pace, card) {
            return;
        }
    }
}

/// The card's loop, where so many buffers are free at first for it alone. It begins once all applications have begun theirs. Where
/// they don't, or it ends before it is over, all loops end.
pub fn run_card<G: Gate, R: Wait>(
    rt: &R,
    gate: &G,
    beside: &Loops,
    free: u32,
    card: &mut CardLane<'_>,
)
    requires ready { IsFeedReady card.old.feed card.old.seat.side.view }
    ensures goes { CardGoes card.old card.new }
{
    if !beside.all_begin(rt, card.seat.apps()) {
        beside.halt();
        return;
    }
    beside.set_card(true);
    card_loop(rt, gate, beside, free, card);
    beside.set_card(false);
    if !is_over(card) {
        beside.halt();
    }
}
