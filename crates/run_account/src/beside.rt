//! What the loops of the roles tell each other while they run side by side, so that none goes on for long without the others.
//! No clause speaks of it: whatever it says, a loop may end, and what is left goes by rounds.

use crate::sleeping::Sleeper;
use crossbeam_utils::Backoff;
use std::array;
use std::sync::Wait;
use std::sync::atomic::{AtomicBool, AtomicU64, Ordering};

/// How many looks or turns in a row may come to nothing before a loop ends. Where the card takes no turns each of an application
/// leaves the processor to whoever wants it, which may take a millisecond.
pub const IDLE: u32 = 1_000;

/// How many looks in a row a loop waits for others to begin: a second at least.
pub const BEGINNING: u32 = 150;

/// How many applications a board has at most.
pub const MOST_APPS: usize = 8;

/// Behind so many idle turns in a row the card naps between them: the others wait for it.
const CARD_PATIENCE: u32 = 100;

/// Behind so many an application does, and then finds some notes at once.
const LANE_PATIENCE: u32 = 10;

/// Behind so many the reading does, whose ring is full.
const READING_PATIENCE: u32 = 10;

/// How long a short nap is, in microseconds. The system takes some fifty more.
const NAP: u64 = 10;

/// The loops of a run.
#[derive(Drop)]
pub struct Loops {
    /// How many applications have begun their loops.
    begun: AtomicU64,
    /// The card takes turns.
    card: AtomicBool,
    /// The capture is read.
    reading: AtomicBool,
    /// No more of the capture is wanted.
    enough: AtomicBool,
    /// All loops end.
    halted: AtomicBool,
    /// How often the card asked for buffers.
    asked: AtomicU64,
    /// The last asking behind which each application found nothing more to do, by its number.
    answers: [AtomicU64; MOST_APPS],
    /// The card's loop.
    card_loop: Sleeper,
    /// The same, until all have begun: only those that begin wake it then.
    beginning: Sleeper,
    /// Those of the applications, by their numbers.
    lanes: [Sleeper; MOST_APPS],
    /// That of the reading.
    reading_loop: Sleeper,
}

impl Loops {
    /// No loop has begun.
    pub fn new() -> Loops {
        Loops {
            begun: AtomicU64::new(0),
            card: AtomicBool::new(false),
            reading: AtomicBool::new(false),
            enough: AtomicBool::new(false),
            halted: AtomicBool::new(false),
            asked: AtomicU64::new(0),
            answers: array::from_fn(|_| AtomicU64::new(0)),
            card_loop: Sleeper::new(CARD_PATIENCE, NAP),
            beginning: Sleeper::new(LANE_PATIENCE, NAP),
            lanes: array::from_fn(|_| Sleeper::new(LANE_PATIENCE, NAP)),
            reading_loop: Sleeper::new(READING_PATIENCE, NAP),
        }
    }

    /// A rest of the card, behind so many idle turns. Before it naps it wakes those that sleep for long: it may have something for
    /// them.
    pub fn rest_card<R: Wait>(&self, rt: &R, idle: u32, backoff: &Backoff) {
        if idle == CARD_PATIENCE {
            for lane in &self.lanes {
                lane.stir();
            }
            self.reading_loop.stir();
        }
        self.card_loop.rest(rt, idle, backoff);
    }

    /// A rest of the reading, whose ring is full, behind so many looks.
    pub fn rest_reading<R: Wait>(&self, rt: &R, idle: u32, backoff: &Backoff) {
        self.reading_loop.rest(rt, idle, backoff);
    }

    /// A rest of an application that may nap, behind so many idle looks or turns. Before it does it wakes the card, if that sleeps
    /// for long.
    fn nap_lane<R: Wait>(&self, rt: &R, app: u32, idle: u32, backoff: &Backoff) {
        if idle == LANE_PATIENCE {
            self.stir_card();
        }
        match self.lanes.get(app as usize) {
            Some(lane) => lane.rest(rt, idle, backoff),
            None => backoff.snooze(),
        }
    }

    /// A rest of an application, behind so many idle turns.
    pub fn rest_lane<R: Wait>(&self, rt: &R, app: u32, idle: u32, backoff: &Backoff) {
        if self.card_runs() {
            self.nap_lane(rt, app, idle, backoff);
        } else {
            backoff.snooze();
        }
    }

    /// There may be something for the card to do.
    pub fn wake_card(&self) {
        self.card_loop.wake();
    }

    /// There may be something for the card to do. Where its naps are short it will see that soon.
    pub fn stir_card(&self) {
        self.card_loop.stir();
    }

    /// There may be something for an application to do.
    pub fn wake_lanes(&self) {
        for lane in &self.lanes {
            lane.wake();
        }
    }

    /// An application's loop begins. It waits for the card's, but not for long.
    pub fn begin<R: Wait>(&self, rt: &R, app: u32) {
        self.begun.fetch_add(1, Ordering::SeqCst);
        self.beginning.wake();
        let backoff = Backoff::new();
        for looks in 0..BEGINNING {
            if self.card_runs() || self.is_halted() {
                return;
            }
            self.nap_lane(rt, app, looks, &backoff);
        }
    }

    /// An application's loop ends; it has left, or it hasn't. It has nothing to do any more.
    pub fn end(&self, app: u32, left: bool) {
        if !left {
            self.halt();
        }
        self.answer(app, u64::MAX);
        self.wake_card();
    }

    /// All loops end, and what is left goes by rounds.
    pub fn halt(&self) {
        self.halted.store(true, Ordering::SeqCst);
        self.wake_lanes();
        self.reading_loop.wake();
    }

    /// Whether all loops end: not all have begun, or one ended before its role was over.
    pub fn is_halted(&self) -> bool {
        self.halted.load(Ordering::SeqCst)
    }

    /// The card takes turns from now on, or it doesn't any more.
    pub fn set_card(&self, runs: bool) {
        self.card.store(runs, Ordering::SeqCst);
        self.wake_lanes();
        self.reading_loop.wake();
    }

    /// Whether the card takes turns, so that a note may come.
    pub fn card_runs(&self) -> bool {
        self.card.load(Ordering::SeqCst)
    }

    /// The capture is read from now on, or it isn't any more.
    pub fn set_reading(&self, reads: bool) {
        self.reading.store(reads, Ordering::SeqCst);
    }

    /// Whether the capture is read, so that a frame may come.
    pub fn is_reading(&self) -> bool {
        self.reading.load(Ordering::SeqCst)
    }

    /// The card wants no more of the capture.
    pub fn stop_reading(&self) {
        self.enough.store(true, Ordering::SeqCst);
        self.reading_loop.wake();
    }

    /// Whether no more of the capture is wanted.
    pub fn is_enough(&self) -> bool {
        self.enough.load(Ordering::SeqCst)
    }

    /// Waits until so many applications have begun. `false` says that they weren't seen to: where there are too few threads
    /// one begins only once another's loop has ended.
    pub fn all_begin<R: Wait>(&self, rt: &R, apps: u32) -> bool {
        let backoff = Backoff::new();
        for looks in 0..BEGINNING {
            if self.is_halted() {
                return false;
            }
            if self.begun.load(Ordering::SeqCst) >= u64::from(apps) {
                return true;
            }
            self.beginning.rest(rt, looks, &backoff);
        }
        false
    }

    /// The last asking, as an application reads it before a turn.
    pub fn asked(&self) -> u64 {
        self.asked.load(Ordering::SeqCst)
    }

    /// In a turn behind that asking an application found nothing to do.
    pub fn answer(&self, app: u32, asking: u64) {
        if let Some(answer) = self.answers.get(app as usize)
            && answer.load(Ordering::SeqCst) < asking
        {
            answer.store(asking, Ordering::SeqCst);
            self.wake_card();
        }
    }

    /// The card asks for buffers: the number of the asking.
    pub fn ask(&self) -> u64 {
        let before = self.asked.fetch_add(1, Ordering::SeqCst);
        self.wake_lanes();
        before.saturating_add(1)
    }

    /// Whether each of so many applications has found nothing more to do behind that asking, or all loops end.
    pub fn have_answered(&self, apps: u32, asking: u64) -> bool {
        self.is_halted()
            || self
                .answers
                .iter()
                .take(apps as usize)
                .all(|answer| answer.load(Ordering::SeqCst) >= asking)
    }
}
