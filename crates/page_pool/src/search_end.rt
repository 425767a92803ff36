ghost use Rattle.std.specs.Prelude.{◌≡◌};
ghost use Rattle.page_pool.specs.Searching.{joint_end, CountsEnd};

use zr_kinds::PoolStats;

/// Where a search for fresh buffers ended.
#[derive(Clone, Copy, Debug, PartialEq, Eq)]
pub enum SearchEnd {
    /// In the cache: it held as many as were needed.
    Fast,
    /// At the refill rings.
    Refill,
    /// On the free list.
    Slow,
    /// Nowhere: there weren't as many.
    Empty,
}

impl SearchEnd {
    /// Where this search and a later one for the same frame ended as one.
    pub fn joined(self, later: SearchEnd) -> SearchEnd
        ensures { result ≡ joint_end self later }
    {
        match (self, later) {
            (_, SearchEnd::Empty) => SearchEnd::Empty,
            (SearchEnd::Fast, later) => later,
            (SearchEnd::Refill, SearchEnd::Slow) => SearchEnd::Slow,
            (SearchEnd::Refill, _) => SearchEnd::Refill,
            (SearchEnd::Slow | SearchEnd::Empty, _) => SearchEnd::Slow,
        }
    }

    /// Counts a search that ended here.
    pub fn count(self, stats: &mut PoolStats)
        ensures { CountsEnd self stats.old stats.new }
    {
        match self {
            SearchEnd::Fast => stats.fast = stats.fast.saturating_add(1),
            SearchEnd::Refill => stats.refill = stats.refill.saturating_add(1),
            SearchEnd::Slow => stats.slow = stats.slow.saturating_add(1),
            SearchEnd::Empty => stats.empty = stats.empty.saturating_add(1),
        }
    }
}
