//! The lanes of the applications: their turns, and the loops of their threads.
ghost use Rattle.std.{specs.Prelude.{◌≡◌, List, refl, true, All, IsTrue}, proofs.Common.{◌∙◌}};
ghost use Rattle.replay_threads.specs.{Lanes.{AllGo, LaneFits, LaneGoes}, Seated.{is_gone}};

use crate::seated::{Came, Seated};
use crate::sits::Sits;
use crossbeam_utils::Backoff;
use run_account::{Gate, IDLE, Loops, MOST_APPS};
use std::sync::Wait;
use std::sync::atomic::{AtomicBool, Ordering};
use std::thread::{self, Threads};
use zr_io::Shelf;

/// An application between two of its turns.
pub struct Lane<'b, T> {
    pub seated: Seated<'b, T>,
    /// Its number.
    pub app: u32,
    /// How many turns it has taken.
    pub turns: u64,
}

impl<'b, T: Shelf> Sits for Lane<'b, T> {
    ghost fits = { LaneFits T.kept T.counts };

    ghost goes = { LaneGoes T.kept T.counts };

    ghost gone = { λ lane. is_gone lane.seated };

    ghost same = { λ lane fits. record { board = refl; app = refl; fits = fits; runs = λ first count how runs. runs; comes = λ plan first count comes. comes } };

    ghost more = { λ was mid now before after. record {
      board = after.board ∙ before.board;
      app = after.app ∙ before.app;
      fits = after.fits;
      runs = λ first count how runs. after.runs first count how (before.runs first count how runs);
      comes = λ plan first count comes. after.comes plan first count (before.comes plan first count comes);
    } };

    ghost again = { λ was now goes. goes.fits };

    fn app(&self) -> u32 {
        self.app
    }

    fn turns(&self) -> u64 {
        self.turns
    }

    fn has_left(&self) -> bool {
        self.seated.has_left()
    }

    fn turn(&mut self) -> Came {
        self.turns = self.turns.saturating_add(1);
        self.seated.turn()
    }
}

/// A turn, unless it has left.
fn lane_turn<W: Sits, G: Gate>(gate: &G, lane: &mut W) -> Came
    requires fits { W.fits lane.old }
    ensures goes { W.goes lane.old lane.new }
{
    if lane.has_left() {
        return Came::Rests;
    }
    gate.at(lane.app().saturating_add(1), lane.turns());
    lane.turn()
}

/// A turn, of which the card is told where nothing was done. `false` says that nothing was.
fn told_turn<W: Sits, G: Gate>(gate: &G, beside: &Loops, lane: &mut W) -> bool
    requires fits { W.fits lane.old }
    ensures goes { W.goes lane.old lane.new }
{
    let asked = beside.asked();
    match lane_turn(gate, lane) {
        Came::Did => return true,
        Came::WaitsForCard => beside.wake_card(),
        Came::Rests => beside.answer(lane.app(), asked),
    }
    false
}

/// Turns, until something is done in one. `false` says that nothing was done in many, and that the card takes none, or that all loops
/// end.
fn lane_turns<W: Sits, G: Gate, R: Wait>(rt: &R, gate: &G, beside: &Loops, lane: &mut W) -> bool
    requires fits { W.fits lane.old }
    ensures goes { W.goes lane.old lane.new }
{
    let backoff = Backoff::new();
    for idle in 0..IDLE {
        if beside.is_halted() {
            return false;
        }
        if told_turn(gate, beside, lane) {
            return true;
        }
        beside.rest_lane(rt, lane.app(), idle, &backoff);
    }
    beside.card_runs()
}

/// Turns, until it has left, or nothing is done in many and the card takes none, or all loops end.
fn lane_loop<W: Sits, G: Gate, R: Wait>(rt: &R, gate: &G, beside: &Loops, lane: &mut W)
    requires fits { W.fits lane.old }
    ensures goes { W.goes lane.old lane.new }
{
    // The bound is never reached. By it the loop is seen to end.
    for _ in 0..u64::MAX {
        if lane.has_left() {
            return;
        }
        if !lane_turns(rt, gate, beside, lane) {
            return;
        }
    }
}

/// The loop of a lane.
fn run_lane<W: Sits, G: Gate, R: Wait>(rt: &R, gate: &G, beside: &Loops, lane: &mut W)
    requires fits { W.fits lane.old }
    ensures goes { W.goes lane.old lane.new }
{
    beside.begin(rt, lane.app());
    lane_loop(rt, gate, beside, lane);
    beside.end(lane.app(), lane.has_left());
}

/// The turns of all lanes, side by side.
pub fn run_lanes<W: Sits + Send, G: Gate + Sync, R: Threads + Wait + Sync>(
    rt: &R,
    gate: &G,
    beside: &Loops,
    lanes: &mut [W],
)
    requires fit { All W.fits lanes.old }
    ensures go { AllGo W.goes lanes.old lanes.new }
{
    thread::for_each_mut(
        rt,
        lanes,
        MOST_APPS,
        &|_, lane| {
            run_lane(rt, gate, beside, lane);
        },
    );
}

/// Turns of all lanes come behind turns of all. It does nothing: its contract is the law.
pub fn lanes_go_on<W: Sits>()
    ensures same { (lanes : List W) → All W.fits lanes → AllGo W.goes lanes lanes }
    ensures more { (first mid last : List W) → AllGo W.goes first mid → AllGo W.goes mid last
        → AllGo W.goes first last }
    ensures again { (was now : List W) → AllGo W.goes was now → All W.fits now }
{}

/// A turn of each that hasn't left, in this thread. `false` says that nothing was done.
pub fn round<W: Sits + Send, G: Gate + Sync, R: Threads + Sync>(
    rt: &R,
    gate: &G,
    beside: &Loops,
    lanes: &mut [W],
) -> bool
    requires fit { All W.fits lanes.old }
    ensures go { AllGo W.goes lanes.old lanes.new }
{
    let did = AtomicBool::new(false);
    thread::for_each_mut(
        rt,
        lanes,
        1,
        &|_, lane| {
            if told_turn(gate, beside, lane) {
                did.store(true, Ordering::SeqCst);
            }
        },
    );
    did.load(Ordering::SeqCst)
}

/// Whether every application has left.
pub fn have_left<W: Sits>(lanes: &[W]) -> bool
    ensures { IsTrue result → All (λ lane. W.gone lane ≡ true) lanes.now }
{
    lanes.iter().all(|lane| lane.has_left())
}
