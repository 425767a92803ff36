//! What the seats keep beside the words: which slot of each ring is next, the card's cache and how much payload its note slots
//! have, and of an application how many loans are out in each buffer and how long the text of a filled spare is.
ghost use Rattle.std.specs.Prelude.{◌≡◌, ◌+◌, ◌*◌, ◌%◌, ◌<◌, [], IfOk, replicate, None, slice_index, slice_set};
ghost use Rattle.area_layout.specs.Layout.{all_buffers};

use area_layout::Layout;
use board_parts::Cache;
use std::alloc::{AllocError, Global};

/// How many applications a board has at most.
pub(crate) const MOST_APPS: usize = 8;

/// How many slots a ring has at most.
const MOST_PLACES: usize = 256;

/// What the card keeps.
#[derive(Drop)]
pub(crate) struct NicHand {
    pub(crate) cache: Cache,
    /// The next note slot to each application.
    pub(crate) notes: [u32; MOST_APPS],
    /// The next refill slot of each application.
    pub(crate) entries: [u32; MOST_APPS],
    pub(crate) filled: Filled,
}

/// Of each note slot how many payload words may be other than 0: as many as the last note there had.
#[derive(Drop)]
pub(crate) struct Filled {
    pub(crate) counts: [u8; MOST_APPS * MOST_PLACES],
}

impl Filled {
    /// That number of a slot to an application.
    pub(crate) fn of(&self, app: u32, slot: u32) -> u32
        requires app { app < 8 }
        requires slot { slot < 256 }
        ensures { result ≡ slice_index self.now.counts (256 * app + slot) }
    {
        u32::from(self.counts[MOST_PLACES * app as usize + slot as usize])
    }

    /// The note that was sent there has so many.
    pub(crate) fn note(&mut self, app: u32, slot: u32, words: u8)
        requires app { app < 8 }
        requires slot { slot < 256 }
        ensures { self.new.counts ≡ slice_set self.old.counts (256 * app + slot) words }
    {
        self.counts[MOST_PLACES * app as usize + slot as usize] = words;
    }
}

impl NicHand {
    /// Of a card that has done nothing.
    pub(crate) fn new() -> NicHand
        ensures cache { result.cache.items ≡ [] }
        ensures notes { result.notes ≡ replicate 8 0 }
        ensures entries { result.entries ≡ replicate 8 0 }
        ensures filled { result.filled.counts ≡ replicate 2048 0 }
    {
        NicHand {
            cache: Cache::new(),
            notes: [0; MOST_APPS],
            entries: [0; MOST_APPS],
            filled: Filled {
                counts: [0; MOST_APPS * MOST_PLACES],
            },
        }
    }
}

/// What an application keeps.
#[derive(Drop)]
pub(crate) struct AppHand {
    /// The next note slot.
    pub(crate) note: u32,
    /// The next refill slot.
    pub(crate) entry: u32,
    /// The slot of its last raw entry, until that was seen to be taken.
    pub(crate) raw: Option<u32>,
    /// How many of its loans are out in each buffer.
    pub(crate) loans: Vec<u64>,
    /// How many bytes its filled spare in a buffer has, where there is one.
    pub(crate) filled: Vec<u32>,
}

impl AppHand {
    /// Of an application that has done nothing.
    pub(crate) fn new(alloc: Global, layout: &Layout) -> Result<AppHand, AllocError>
        ensures slots { IfOk result
            (λ hand. (hand.note ≡ 0) × (hand.entry ≡ 0) × (hand.raw ≡ None)) }
        ensures loans { IfOk result (λ hand. hand.loans.items
            ≡ replicate (all_buffers layout.now) 0) }
        ensures filled { IfOk result (λ hand. hand.filled.items
            ≡ replicate (all_buffers layout.now) 0) }
    {
        let buffers = layout.total() as usize;
        Ok(AppHand {
            note: 0,
            entry: 0,
            raw: None,
            loans: vec![in alloc; 0; buffers]?,
            filled: vec![in alloc; 0; buffers]?,
        })
    }
}

/// The slot behind this one, in a ring of so many.
pub(crate) fn slot_after(slot: u32, places: u32) -> u32
    requires { slot < places }
    ensures { result ≡ (slot + 1) % places }
{
    if slot + 1 == places { 0 } else { slot + 1 }
}
