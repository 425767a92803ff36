//! How a loop rests that has nothing to do, and how it is woken. No clause speaks of it.

use crossbeam_utils::Backoff;
use std::sync::Wait;
use std::sync::atomic::{AtomicBool, Ordering};
use std::thread::Parker;
use std::time::Duration;

/// How many naps in a row are short: no longer than rings take to fill.
const SHORT_NAPS: u32 = 8;

/// How often naps double behind these. The longest take some milliseconds.
const DOUBLINGS: u32 = 10;

/// A loop that may nap, as it stands to those who have something for it.
#[derive(Drop)]
pub struct Sleeper {
    /// How many idle turns come before a nap.
    patience: u32,
    /// How long a short nap is, in microseconds.
    nap: u64,
    /// It naps, or will where its next turn is idle too.
    naps: AtomicBool,
    /// Its naps are long, or will be.
    sleeps: AtomicBool,
    parker: Parker,
}

impl Sleeper {
    /// It is awake, and naps behind so many idle turns: ten take some ten microseconds.
    pub fn new(patience: u32, nap: u64) -> Sleeper {
        Sleeper {
            patience,
            nap,
            naps: AtomicBool::new(false),
            sleeps: AtomicBool::new(false),
            parker: Parker::new(),
        }
    }

    /// A rest behind so many idle turns: it spins, a little longer each time, and then naps, shortly at first. It says so a turn
    /// before, and before its naps get long, since something may have come meanwhile.
    pub fn rest<R: Wait>(&self, rt: &R, idle: u32, backoff: &Backoff) {
        if idle < self.patience {
            backoff.spin();
            return;
        }
        let doublings = (idle - self.patience)
            .saturating_sub(SHORT_NAPS)
            .min(DOUBLINGS);
        if self.has_said(doublings > 0) {
            let nap = self.nap.saturating_mul(1 << doublings);
            self.parker.park_timeout(rt, Duration::from_micros(nap));
        } else {
            self.sleeps.store(doublings > 0, Ordering::SeqCst);
            self.naps.store(true, Ordering::SeqCst);
        }
    }

    /// Whether it has said that it naps, and for long, if it will.
    fn has_said(&self, for_long: bool) -> bool {
        self.naps.load(Ordering::SeqCst) && (!for_long || self.sleeps.load(Ordering::SeqCst))
    }

    /// Wakes it, if it naps.
    pub fn wake(&self) {
        if self.naps.load(Ordering::SeqCst) {
            self.rouse();
        }
    }

    /// Wakes it, if its naps are long: a short one is soon over, and then it finds some things at once.
    pub fn stir(&self) {
        if self.sleeps.load(Ordering::SeqCst) {
            self.rouse();
        }
    }

    fn rouse(&self) {
        self.naps.store(false, Ordering::SeqCst);
        self.sleeps.store(false, Ordering::SeqCst);
        self.parker.unpark();
    }
}
