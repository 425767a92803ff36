//! The buffers that a number lists in a word of the free list, and those that enter the card's cache.
ghost use Rattle.std.specs.Prelude.{◌≡◌, ◌+◌, ◌<◌, ◌≤◌, [], ◌∷◌, ◌++◌, length, if◌then◌else◌, MatchOption};
ghost use Rattle.board_face.specs.NicEvents.{cached, cache_room, word_bits};
ghost use Rattle.ref_words.specs.FreeSteps.{all_listed_in};

use crate::kinds::WORD_BITS;
use board_parts::Cache;

/// The highest buffer that `found` lists, and the number that lists the others. `None` says that it lists none.
pub(crate) fn highest_listed(word: u32, found: u64) -> Option<(u32, u64)>
    requires few { word < 64 }
    ensures { MatchOption result
        (all_listed_in word found ≡ [])
        (λ first. all_listed_in word found ≡ first.0 ∷ all_listed_in word first.1) }
{
    if found == 0 {
        return None;
    }
    let bit = WORD_BITS - 1 - found.leading_zeros();
    Some((word * WORD_BITS + bit, found & !(1 << bit)))
}

/// Where a pool buffer came to be free it enters the cache, if that has room.
pub(crate) fn cache_if(free: bool, buffer: u32, cache: &mut Cache)
    ensures { cache.new.items ≡ (if free then cached cache.old.items buffer else cache.old.items) }
{
    if free {
        let _ = cache.try_push(buffer);
    }
}

/// The buffers that `found` lists enter the cache, the highest first. It answers how many they are.
pub(crate) fn cache_found(cache: &mut Cache, word: u32, found: u64) -> u32
    requires few { word < 64 }
    requires room { length cache.old.items + word_bits ≤ cache_room }
    ensures cache { cache.new.items ≡ cache.old.items ++ all_listed_in word found }
    ensures count { result ≡ length (all_listed_in word found) }
{
    let mut left = found;
    let mut count = 0;
    while let Some((buffer, others)) = highest_listed(word, left) {
        cache.push(buffer);
        left = others;
        count += 1;
    }
    count
}
