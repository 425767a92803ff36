ghost use Rattle.std.specs.Prelude.{◌≡◌, ◌≢◌, ◌<◌, ◌≤◌, length};
ghost use Rattle.board_face.specs.NicCalls.{apps_of, free_words_of};
ghost use Rattle.page_pool.specs.{Gathering.{RefillsFirst, SweepsFirst}, Searching.{Searches}, declared.search_end.SearchEnd.TheVariants.{Empty}};

use crate::SearchEnd;
use crate::drain::drain_ring;
use board_face::NicFace;
use zr_kinds::PoolStats;

/// A search that looks beyond the cache goes on until so many buffers are cached.
const ENOUGH: u32 = 64;

/// Deals with refill entries of each application, from 0, until 64 buffers are cached.
pub(crate) fn refill<F: NicFace>(face: &mut F, stats: &mut PoolStats)
    requires few { length (F.seen face.old).cache ≤ 128 }
    ensures refills { RefillsFirst stats.old stats.new (F.seen face.old) (F.seen face.new) 64
        (apps_of (F.seen face.old).setting) }
    ensures beside { F.beside face.new ≡ F.beside face.old }
{
    for app in 0..face.apps() {
        drain_ring(face, stats, app, ENOUGH);
    }
}

/// There are pool buffers, so the free list has a word: only the answer of `size` says that the layout is one.
fn has_words<F: NicFace>(face: &F)
    ensures { 0 < free_words_of (F.seen face.now).setting }
{
    let _ = face.size();
}

/// Sweeps the words of the free list, from 0, until 64 buffers are cached.
pub(crate) fn sweep<F: NicFace>(face: &mut F)
    ensures sweeps { SweepsFirst (F.seen face.old) (F.seen face.new) 64
        (free_words_of (F.seen face.old).setting) }
    ensures some { 0 < free_words_of (F.seen face.old).setting }
    ensures beside { F.beside face.new ≡ F.beside face.old }
{
    has_words(face);
    for word in 0..face.free_words() {
        if face.cached() < ENOUGH {
            face.sweep(word);
        }
    }
}

/// Looks for so many fresh buffers: in the cache, then in the refill rings, then on the free list. It answers where the search
/// ended, which isn't counted.
pub fn find_fresh<F: NicFace>(face: &mut F, stats: &mut PoolStats, needed: u32) -> SearchEnd
    requires few { needed ≤ 64 }
    ensures searches { Searches needed stats.old stats.new (F.seen face.old) (F.seen face.new)
        result }
    ensures enough { result ≢ Empty → needed ≤ length (F.seen face.new).cache }
    ensures lacks { result ≡ Empty → length (F.seen face.new).cache < needed }
    ensures beside { F.beside face.new ≡ F.beside face.old }
{
    if face.cached() >= needed {
        return SearchEnd::Fast;
    }
    refill(face, stats);
    if face.cached() >= needed {
        return SearchEnd::Refill;
    }
    sweep(face);
    if face.cached() >= needed {
        return SearchEnd::Slow;
    }
    SearchEnd::Empty
}
