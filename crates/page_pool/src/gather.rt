ghost use Rattle.std.specs.Prelude.{◌≡◌, ◌<◌, ◌≤◌, length, MatchBool};
ghost use Rattle.page_pool.specs.{Pool.{PoolStands}, Searching.{LooksAhead}};

use crate::search::find_fresh;
use crate::{Pool, SearchEnd};
use board_face::NicFace;

/// Looks for so many fresh buffers for the frame that is offered next, as the offer would: in the cache, then in the refill rings,
/// then on the free list. It answers whether so many are cached. The search is the frame's, and is counted as it is offered.
pub fn nic_gather<F: NicFace>(face: &mut F, pool: &mut Pool, needed: u32) -> bool
    requires stands { PoolStands pool.old (F.seen face.old) }
    requires few { needed ≤ 64 }
    ensures stands { PoolStands pool.new (F.seen face.new) }
    ensures looks { LooksAhead needed pool.old pool.new (F.seen face.old) (F.seen face.new) }
    ensures enough { MatchBool result (needed ≤ length (F.seen face.new).cache)
        (length (F.seen face.new).cache < needed) }
    ensures beside { F.beside face.new ≡ F.beside face.old }
{
    let end = find_fresh(face, &mut pool.stats, needed);
    pool.ahead = pool.ahead.joined(end);
    !matches!(end, SearchEnd::Empty)
}
