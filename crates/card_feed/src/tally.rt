//! Counts records by the class of their frames.

ghost use Rattle.std.specs.Prelude.{◌≡◌, ◌≤◌, ◌<◌, ◌+◌, IsTrue, ◌↔◌};
ghost use Rattle.zr_kinds.specs.Limits.{most_records};
ghost use Rattle.frame_headers.specs.Seen.{class_seen};
ghost use Rattle.card_feed.specs.Tally.{no_tally, counted};

use frame_headers::Seen;
use zr_kinds::{MOST_RECORDS, Tally};

/// The records so far. There are no more than are read at most.
#[derive(Clone, Copy, Debug)]
pub struct Counting {
    pub tally: Tally,
    ghost limit: { tally.records ≤ most_records },
    ghost parts: { (tally.tcp ≤ tally.records) × (tally.steered ≤ tally.records) × (tally.other ≤ tally.records) × (tally.fragment ≤ tally.records)
        × (tally.cut ≤ tally.records) × (tally.bad ≤ tally.records) },
}

impl Counting {
    pub fn new() -> Counting
        ensures { result.tally ≡ no_tally }
    {
        Counting {
            tally: Tally {
                records: 0,
                tcp: 0,
                steered: 0,
                other: 0,
                fragment: 0,
                cut: 0,
                bad: 0,
            },
        }
    }

    /// Whether as many records were counted as are read at most.
    pub fn is_full(&self) -> bool
        ensures { IsTrue result ↔ (self.now.tally.records ≡ most_records) }
    {
        self.tally.records == MOST_RECORDS
    }

    /// Counts a record by what was seen of its frame, and whether that is a steered segment.
    pub fn count(&mut self, seen: &Seen<'_>, is_steered: bool)
        requires { self.old.tally.records < most_records }
        ensures { self.new.tally ≡ counted self.old.tally (class_seen seen.now) is_steered }
    {
        let mut tally = self.tally;
        tally.records += 1;
        tally.steered += u32::from(is_steered);
        match seen {
            Seen::Tcp(_) => tally.tcp += 1,
            Seen::Other => tally.other += 1,
            Seen::Fragment => tally.fragment += 1,
            Seen::CutShort => tally.cut += 1,
            Seen::Bad => tally.bad += 1,
        }
        self.tally = tally;
    }
}
