ghost use Rattle.std.specs.Prelude.{◌≡◌, ◌<◌, ◌≤◌, [], length, replicate, slice_get, slice_set, IfOk, IsTrue, MatchBool};
ghost use Rattle.circular_buffer.specs.Buffer.{buffer};
ghost use Rattle.board_parts.specs.Rings.{ring_in, popped, pushed};

use circular_buffer::HeapCircularBuffer;
use std::alloc::{AllocError, Global};

/// So many empty rings, with so many slots each.
pub fn rings<T: Drop>(
    alloc: Global,
    count: usize,
    places: usize,
) -> Result<Vec<HeapCircularBuffer<T>>, AllocError>
    ensures { IfOk result (λ v. v.items ≡ replicate count (buffer [] places)) }
{
    let mut rings = Vec::with_capacity(alloc, count)?;
    'made: while rings.len() < count {
        rings.push(HeapCircularBuffer::with_capacity(alloc, places)?)?;
    }
    Ok(rings)
}

/// Puts one behind the others of one of these rings. `false` says that the ring was full.
pub fn put_back<T: Drop>(rings: &mut Vec<HeapCircularBuffer<T>>, at: usize, slot: T) -> bool
    requires { at < length rings.old.items }
    ensures slots { MatchBool result
        (rings.new.items ≡ slice_set rings.old.items at (pushed (ring_in rings.old.items at) slot))
        ((rings.new.items ≡ rings.old.items)
        × ((ring_in rings.old.items at).capacity ≤ length (ring_in rings.old.items at).items)) }
    ensures room { IsTrue result
        → length (ring_in rings.old.items at).items < (ring_in rings.old.items at).capacity }
{
    let ring = &mut rings[at];
    ring.try_push_back(slot).is_ok()
}

/// Takes the front of one of these rings.
pub fn take_front<T: Drop>(rings: &mut Vec<HeapCircularBuffer<T>>, at: usize) -> Option<T>
    requires { at < length rings.old.items }
    ensures front { result ≡ slice_get (ring_in rings.old.items at).items 0 }
    ensures rings { rings.new.items
        ≡ slice_set rings.old.items at (popped (ring_in rings.old.items at)) }
{
    let ring = &mut rings[at];
    ring.pop_front()
}

/// How many lie in one of these rings.
pub fn ring_len<T: Drop>(rings: &[HeapCircularBuffer<T>], at: usize) -> usize
    requires { at < length rings.now }
    ensures { result ≡ length (ring_in rings.now at).items }
{
    rings[at].len()
}
