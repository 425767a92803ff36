ghost use Rattle.std.specs.Prelude.{◌≡◌, ◌<◌, ◌≤◌};
ghost use Rattle.zr_kinds.specs.Limits.{longest_payload};
ghost use Rattle.board_face.specs.{NicCalls.{HasNoToken}, declared.views.nic.NicView.{NicView}};
ghost use Rattle.page_pool.specs.{Offer.{fresh_for, packed}, Packing.{fits}, Pool.{new_pool, pending_count, PoolStands}};
ghost use Rattle.page_pool.specs.declared.search_end.SearchEnd.TheVariants.{Fast};

use crate::SearchEnd;
use crate::pieces::PendingPieces;
use board_face::{Own, Piece};
use std::marker::Model;
use zr_kinds::{Note, PoolStats};

/// A piece that was placed, with the note that is to be sent of it.
#[derive(Debug, Drop)]
pub struct Pending {
    pub app: u32,
    pub note: Note,
    pub piece: Piece,
}

/// A note that is to be sent with its bytes in it: the first `note.total` of `bytes`.
#[derive(Debug, Drop)]
pub struct Short {
    pub app: u32,
    pub note: Note,
    pub bytes: [u8; 256],
}

/// What the card keeps between its calls: the buffer that it fills, the notes that are still to be sent, and how its
/// searches for fresh buffers ended. It keeps the tokens of its face, so a pool belongs to one face for good.
#[derive(Drop)]
pub struct Pool {
    /// The greatest payload that travels in its note, in bytes.
    pub(crate) split: u32,
    pub(crate) current: Option<Own>,
    pub(crate) short: Option<Short>,
    pub(crate) pieces: PendingPieces,
    pub(crate) stats: PoolStats,
    /// Where the search ended that was made ahead for the frame that is offered next.
    pub(crate) ahead: SearchEnd,
}

impl Model for Pool {
    ghost use Rattle.std.specs.Prelude.{◌+◌, ◌≤◌, length, option_to_list};
    ghost use Rattle.page_pool.specs.Pool.{PoolState};

    ghost Value = { PoolState };

    ghost view = { λ p. record {
      split = p.split;
      current = p.current;
      short = p.short;
      pieces = p.pieces;
      stats = p.stats;
      ahead = p.ahead;
    } };

    ghost invariant = { λ p. (p.split ≤ 256) × (length (option_to_list p.short) + length p.pieces ≤ 64) };
}

impl Pool {
    /// A pool that has nothing. Payloads of more than `split` bytes are split into pieces in the area; the others travel
    /// in their notes.
    pub fn new(split: u32) -> Pool
        requires { split ≤ 256 }
        ensures value { result ≡ new_pool split }
        // It fits each face that has no token out.
        ensures stands { (v : NicView) → HasNoToken v → PoolStands result v }
    {
        Pool {
            split,
            current: None,
            short: None,
            pieces: PendingPieces::new(),
            stats: PoolStats {
                fast: 0,
                refill: 0,
                slow: 0,
                empty: 0,
                strays: 0,
            },
            ahead: SearchEnd::Fast,
        }
    }

    /// How many searches for fresh buffers ended where, and how many refill entries were strays.
    pub fn stats(&self) -> PoolStats
        ensures { result ≡ self.now.stats }
    {
        self.stats
    }

    /// The frame for which a search was made ahead isn't offered. The search isn't counted.
    pub fn drop_search(&mut self)
        ensures { self.new ≡ record self.old { ahead = Fast } }
    {
        self.ahead = SearchEnd::Fast;
    }

    /// How many notes are pending.
    pub fn pending(&self) -> u32
        ensures value { result ≡ pending_count self.now }
        ensures few { result ≤ 64 }
    {
        let pieces = self.pieces.count();
        if self.short.is_some() {
            pieces + 1
        } else {
            pieces
        }
    }

    /// Whether the buffer that it fills has room for so many bytes.
    fn has_room(&self, len: u32) -> bool
        requires { 0 < len }
        ensures { result ≡ fits (packed self.now.current) len }
    {
        match &self.current {
            Some(own) => own.size().saturating_sub(own.start()) >= len,
            None => false,
        }
    }

    /// How many fresh buffers a payload of so many bytes needs, where none has fewer than `size` bytes.
    pub fn needed(&self, len: u32, size: u32) -> u32
        requires size { 1024 ≤ size }
        requires most { len ≤ longest_payload }
        ensures value { result ≡ fresh_for self.now size len }
        ensures few { result ≤ 64 }
    {
        if len <= self.split || self.has_room(len) {
            0
        } else {
            len.div_ceil(size)
        }
    }
}
