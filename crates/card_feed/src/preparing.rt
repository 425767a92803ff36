//! Before a frame is offered: whether there are buffers for it.

ghost use Rattle.std.specs.Prelude.{◌≡◌, ℕ, ◌<◌, ◌≤◌, List, length, MatchBool};
ghost use Rattle.area_layout.specs.Layout.{least_size};
ghost use Rattle.page_pool.specs.{Offer.{fresh_for}, Pool.{pending_count}, Searching.{LooksAhead}};
ghost use Rattle.card_feed.specs.{Feed.{IsFeedReady, FeedKnows}, Offered.{payload_in}};

use crate::Feed;
use crate::playing::{counts_fit, payload_in};
use board_face::NicFace;
use page_pool::nic_gather;
use zr_kinds::PoolStats;

impl Feed {
    /// How many fresh buffers the payload of a frame needs, if all of it counts.
    pub fn needed<F: NicFace>(&self, frame: &[u8], face: &F) -> u32
        ensures value { result ≡ fresh_for self.now.pool
            (least_size (F.seen face.now).setting.layout) (length (payload_in frame.now)) }
        ensures few { result ≤ 64 }
    {
        self.pool
            .needed(payload_in(frame).len() as u32, face.size())
    }

    /// How many notes are pending.
    pub fn pending(&self) -> u32
        ensures { result ≡ pending_count self.now.pool }
    {
        self.pool.pending()
    }

    /// How many searches for fresh buffers ended where.
    pub fn searches(&self) -> PoolStats
        ensures { result ≡ self.now.pool.stats }
    {
        self.pool.stats()
    }
}

/// Looks for so many fresh buffers, for the frame that comes next, and answers whether so many are cached. Nothing is offered or
/// sent. The search is that frame's: it is counted as one with the frame's own where it is offered and needs fresh buffers.
pub fn nic_prepare<F: NicFace>(feed: &mut Feed, face: &mut F, needed: u32) -> bool
    requires ready { IsFeedReady feed.old (F.seen face.old) }
    requires few { needed ≤ 64 }
    ensures ready { IsFeedReady feed.new (F.seen face.new) }
    ensures looks { LooksAhead needed feed.old.pool feed.new.pool (F.seen face.old)
        (F.seen face.new) × (feed.new ≡ record feed.old { pool = feed.new.pool }) }
    ensures knows { (ports : List ℕ) (split : ℕ) (frames : List (List ℕ))
        → FeedKnows ports split frames feed.old (F.seen face.old)
        → FeedKnows ports split frames feed.new (F.seen face.new) }
    ensures enough { MatchBool result (needed ≤ length (F.seen face.new).cache)
        (length (F.seen face.new).cache < needed) }
    ensures beside { F.beside face.new ≡ F.beside face.old }
{
    let found = nic_gather(face, &mut feed.pool, needed);
    counts_fit(&feed.pool);
    found
}
