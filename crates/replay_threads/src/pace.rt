//! Which buffers the card can surely find, so that it looks for them, and waits, only where it may have too few.
//! No clause speaks of it: a search says how many there are. Where payloads travel in notes the cache alone is known, since
//! applications take buffers from the free list then, to copy into.

use run_account::Loops;

/// What the card knows of the buffers that are free.
#[derive(Drop)]
pub struct Pace {
    /// At least so many are cached or on the free list.
    known: u32,
    /// The asking behind which it waits for buffers to come back, if it does.
    asking: Option<u64>,
}

impl Pace {
    /// So many are free, for the card alone.
    pub fn new(buffers: u32) -> Pace {
        Pace {
            known: buffers,
            asking: None,
        }
    }

    /// The asking behind which it waits. It asks once, however often it looks then.
    pub fn ask(&mut self, beside: &Loops) -> u64 {
        match self.asking {
            Some(asking) => asking,
            None => {
                let asking = beside.ask();
                self.asking = Some(asking);
                asking
            }
        }
    }

    /// It doesn't wait any more.
    pub fn go_on(&mut self) {
        self.asking = None;
    }

    /// Whether so many are free for sure.
    pub fn knows(&self, needed: u32) -> bool {
        needed <= self.known
    }

    /// So many are cached.
    pub fn see(&mut self, cached: u32) {
        self.known = self.known.max(cached);
    }

    /// A turn of the card took so many buffers at most, before and behind which so many were cached. Where it swept the free list,
    /// some that are cached now were free before.
    pub fn count(&mut self, taken: u32, swept: bool, before: u32, behind: u32) {
        self.known = if swept {
            self.known.saturating_sub(taken)
        } else {
            self.known.saturating_add(behind).saturating_sub(before)
        };
        self.see(behind);
    }
}
