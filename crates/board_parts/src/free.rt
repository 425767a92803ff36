ghost use Rattle.std.specs.Prelude.{◌≡◌, ℕ, ◌+◌, ◌*◌, ◌<◌, ◌≤◌, ◌++◌, ◌⊎◌, true, false, [], length, slice_index, slice_set, IsTrue, MatchOption, vec_capacity, ◌&&◌, nat_lt, if◌then◌else◌};
ghost use Rattle.area_layout.specs.Layout.{pool_buffers};
ghost use Rattle.board_face.specs.NicEvents.{cached, cache_room, word_bits};
ghost use Rattle.board_parts.specs.Free.{listed_in, relisted, word_end, listed_in_word, listed_below, HasNoneListed, IsLowest, IsPicked};

use area_layout::Layout;
use arrayvec::ArrayVec;

/// How many buffers the cache holds at most.
pub const CACHE_ROOM: usize = 128;

/// The card's cache, in the order in which buffers entered.
pub type Cache = ArrayVec<u32, CACHE_ROOM>;

/// Where a pool buffer came to be free, puts it into the cache, or onto the free list where the cache is full.
pub fn free_if(free: bool, buffer: u32, cache: &mut Cache, listed: &mut Vec<bool>)
    requires there { IsTrue free → buffer < length listed.old.items }
    ensures cache { cache.new.items
        ≡ (if free then cached cache.old.items buffer else cache.old.items) }
    ensures listed { listed.new.items ≡
        (if free then relisted cache.old.items listed.old.items buffer else listed.old.items) }
{
    if free && cache.try_push(buffer).is_err() {
        listed[buffer as usize] = true;
    }
}

/// Where a pool buffer came to be free, puts it onto the free list.
pub fn list_if(free: bool, buffer: u32, listed: &mut Vec<bool>)
    requires { IsTrue free → buffer < length listed.old.items }
    ensures { listed.new.items
        ≡ (if free then slice_set listed.old.items buffer true else listed.old.items) }
{
    if free {
        listed[buffer as usize] = true;
    }
}

/// Whether a buffer that lost its last reference is one of the pool, and so is free.
pub fn came_free(last: bool, buffer: u32, layout: &Layout) -> bool
    ensures { result ≡ (last && nat_lt buffer (pool_buffers layout.now)) }
{
    last && buffer < layout.buffers()
}

/// How many buffers a word of the free list has.
const WORD_BITS: usize = 64;

/// Moves the listed buffers of a word into the cache, the highest first, and says how many.
pub fn move_word(word: u32, cache: &mut Cache, listed: &mut Vec<bool>) -> u32
    requires word { word_bits * word < length listed.old.items }
    requires few { length listed.old.items ≤ 4096 }
    requires room { length cache.old.items + word_bits ≤ cache_room }
    ensures cache { cache.new.items ≡ cache.old.items ++ listed_in_word listed.old.items word }
    ensures count { result ≡ length (listed_in_word listed.old.items word) }
    ensures len { length listed.new.items ≡ length listed.old.items }
    ensures taken { (b : ℕ) → word_bits * word ≤ b → b < word_end listed.old.items word
        → listed_in listed.new.items b ≡ false }
    ensures others { (b : ℕ) → (b < word_bits * word) ⊎ (word_end listed.old.items word ≤ b)
        → listed_in listed.new.items b ≡ listed_in listed.old.items b }
{
    let first = word as usize * WORD_BITS;
    let mut left = WORD_BITS.min(listed.len() - first);
    let mut count = 0;
    while left > 0 {
        left -= 1;
        let buffer = first + left;
        if listed[buffer] {
            listed[buffer] = false;
            cache.push(buffer as u32);
            count += 1;
        }
    }
    count
}

/// Takes the lowest listed buffer.
fn take_listed(listed: &mut Vec<bool>) -> Option<u32>
    requires { length listed.old.items ≤ 4096 }
    ensures { MatchOption result
        (HasNoneListed listed.old.items × (listed.new.items ≡ listed.old.items))
        (λ buffer. IsLowest listed.old.items buffer
        × (listed.new.items ≡ slice_set listed.old.items buffer false)) }
{
    let lowest = listed.iter().position(|listed| *listed)?;
    listed[lowest] = false;
    Some(lowest as u32)
}

/// Picks a buffer to copy into: the lowest listed one, or else this reserve, if it is free.
pub fn pick_spare(listed: &mut Vec<bool>, pool: &[u64], reserve: u32) -> Option<u32>
    requires few { length listed.old.items ≤ 4096 }
    requires reserve { reserve < length pool.now }
    ensures { MatchOption result
        (HasNoneListed listed.old.items × (0 < slice_index pool.now reserve)
        × (listed.new.items ≡ listed.old.items))
        (IsPicked listed.old.items listed.new.items pool.now reserve) }
{
    if let Some(lowest) = take_listed(listed) {
        return Some(lowest);
    }
    if pool[reserve as usize] > 0 {
        return None;
    }
    Some(reserve)
}

/// Puts the cached buffers behind those that are there.
fn append_cached(cache: &Cache, free: &mut Vec<u32>)
    requires room { length free.old.items + length cache.now.items ≤ vec_capacity free.old }
    ensures items { free.new.items ≡ free.old.items ++ cache.now.items }
    ensures room { vec_capacity free.new ≡ vec_capacity free.old }
{
    for buffer in cache.as_slice() {
        free.push_reserved(*buffer);
    }
}

/// Puts the listed buffers behind those that are there, the lowest first.
fn append_listed(listed: &[bool], free: &mut Vec<u32>)
    requires few { length listed.now ≤ 4096 }
    requires room { length free.old.items + length (listed_below listed.now (length listed.now))
        ≤ vec_capacity free.old }
    ensures items { free.new.items ≡ free.old.items ++ listed_below listed.now (length listed.now) }
    ensures room { vec_capacity free.new ≡ vec_capacity free.old }
{
    for buffer in 0..listed.len() {
        if listed[buffer] {
            free.push_reserved(buffer as u32);
        }
    }
}

/// The free buffers: those of the cache in its order, and then the listed ones from the lowest.
pub fn all_free(cache: &Cache, listed: &[bool], free: &mut Vec<u32>)
    requires empty { free.old.items ≡ [] }
    requires few { length listed.now ≤ 4096 }
    requires room { length cache.now.items + length (listed_below listed.now (length listed.now))
        ≤ vec_capacity free.old }
    ensures { free.new.items ≡ cache.now.items ++ listed_below listed.now (length listed.now) }
{
    append_cached(cache, free);
    append_listed(listed, free);
}
