//! For how many processors a run is laid out, and how its turns are held up.
ghost use Rattle.std.specs.Prelude.{Some};

use replay_threads::Gate;
use std::hint::spin_loop;
use std::sync::atomic::{AtomicU64, Ordering};
use std::thread::yield_now;

/// As many processors as each role has a thread of its own for.
pub const APART: Option<usize> = Some(10);

/// One, for which all go round in one thread.
pub const TOGETHER: Option<usize> = Some(1);

/// How often a role looks whether something has come: some 25 seconds where nobody else wants its processor.
const LOOKS: u32 = 100_000_000;

/// Looks until a number has come so far, which it mostly does. Answers whether it has.
pub fn waits_for(number: &AtomicU64, wanted: u64) -> bool {
    for _ in 0..LOOKS {
        if number.load(Ordering::SeqCst) >= wanted {
            return true;
        }
        yield_now();
    }
    false
}

/// Names a number of processors.
#[derive(Drop)]
pub struct Names {
    pub processors: Option<usize>,
}

impl Gate for Names {
    fn at(&self, _who: u32, _turn: u64) {}

    fn processors(&self) -> Option<usize> {
        self.processors
    }
}

/// Holds one role up before turns that are drawn. In every fourth run all go round in one thread.
#[derive(Drop)]
pub struct Delay {
    who: u32,
    seed: u32,
}

impl Delay {
    /// Of this run, the card or one of so many applications.
    pub fn of_run(run: u32, apps: u8) -> Delay {
        let roles = u32::from(apps) + 1;
        Delay {
            who: run % roles,
            seed: run,
        }
    }
}

impl Gate for Delay {
    fn at(&self, who: u32, turn: u64) {
        let [drawn, ..] = turn
            .wrapping_add(u64::from(self.seed))
            .wrapping_mul(0x9e37_79b9_7f4a_7c15)
            .to_be_bytes();
        if who == self.who && drawn < 32 {
            for _ in 0..u32::from(drawn) * 64 {
                spin_loop();
            }
        }
    }

    fn processors(&self) -> Option<usize> {
        if self.seed.is_multiple_of(4) {
            TOGETHER
        } else {
            APART
        }
    }
}

/// Holds two roles, the card (0) or an application (from 1), each at one of its turns until the other has come to its own.
#[derive(Drop)]
pub struct Meeting {
    /// Each is who, and which turn.
    first: (u32, u64),
    second: (u32, u64),
    first_came: AtomicU64,
    second_came: AtomicU64,
    /// How many have met the other.
    met: AtomicU64,
}

impl Meeting {
    pub fn of_turns(first: (u32, u64), second: (u32, u64)) -> Meeting {
        Meeting {
            first,
            second,
            first_came: AtomicU64::new(0),
            second_came: AtomicU64::new(0),
            met: AtomicU64::new(0),
        }
    }

    /// How many have met the other.
    pub fn met(&self) -> u64 {
        self.met.load(Ordering::SeqCst)
    }

    fn meet(&self, own: &AtomicU64, other: &AtomicU64) {
        own.store(1, Ordering::SeqCst);
        if waits_for(other, 1) {
            self.met.fetch_add(1, Ordering::SeqCst);
        }
    }
}

/// Whether this is the role and the turn.
fn is_at((role, number): (u32, u64), who: u32, turn: u64) -> bool {
    who == role && turn == number
}

impl Gate for Meeting {
    fn at(&self, who: u32, turn: u64) {
        if is_at(self.first, who, turn) {
            self.meet(&self.first_came, &self.second_came);
        } else if is_at(self.second, who, turn) {
            self.meet(&self.second_came, &self.first_came);
        }
    }

    fn processors(&self) -> Option<usize> {
        APART
    }
}
