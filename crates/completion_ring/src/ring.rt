ghost use Rattle.std.specs.Prelude.{◌≡◌, ◌≤◌, ◌<◌, ◌↔◌, [], ◌∷◌, ◌++◌, length, IsTrue, IsErr, IsNone, IfOk, OnOk, IfErr, IfSome, IfNone};
ghost use Rattle.completion_ring.specs.Ring.{ring, IsFull};

use circular_buffer::HeapCircularBuffer;
use std::alloc::{AllocError, Allocator, Global};
use std::marker::Model;
use zr_kinds::Completion;

/// Completions in the order of their posting, each with its loan.
#[derive(Drop)]
pub struct CqRing<L, A: Allocator = Global> {
    entries: HeapCircularBuffer<(Completion, L), A>,
}

impl<L, A: Allocator> Model for CqRing<L, A> {
    ghost use Rattle.std.specs.Prelude.{◌≤◌, length};
    ghost use Rattle.zr_kinds.specs.declared.ring.Completion.{Completion};
    ghost use Rattle.completion_ring.specs.Ring.{Ring, ring, ring_code};

    ghost Value = { Ring (Completion × L) };

    ghost view = { λ r. ring r.entries.items r.entries.capacity };

    ghost invariant = { λ r. length r.entries.items ≤ r.entries.capacity };
}

impl<L, A: Allocator> CqRing<L, A> {
    /// An empty ring with this many places. All its memory is taken here.
    pub fn new(alloc: A, places: usize) -> Result<CqRing<L, A>, AllocError>
        requires least { 1 ≤ places }
        requires most { places ≤ 256 }
        ensures { IfOk result (λ r. r ≡ ring [] places) }
    {
        let entries = HeapCircularBuffer::with_capacity(alloc, places)?;
        Ok(CqRing { entries })
    }

    /// Puts a completion behind the others. A full ring gives it back.
    pub fn post(&mut self, c: Completion, loan: L) -> Result<(), (Completion, L)>
        ensures full { IsErr result ↔ IsFull self.old }
        ensures posted { OnOk result
            (self.new ≡ ring (self.old.entries ++ (c, loan) ∷ []) self.old.places) }
        ensures back { IfErr result (λ entry. (entry ≡ (c, loan)) × (self.new ≡ self.old)) }
    {
        self.entries.try_push_back((c, loan))
    }

    /// Takes the oldest completion out.
    pub fn reap(&mut self) -> Option<(Completion, L)>
        ensures empty { IsNone result ↔ (self.old.entries ≡ []) }
        ensures oldest { IfSome result
            (λ entry. self.old ≡ ring (entry ∷ self.new.entries) self.new.places) }
        ensures none { IfNone result (self.new ≡ self.old) }
    {
        self.entries.pop_front()
    }

    /// Whether each place has a completion.
    pub fn is_full(&self) -> bool
        ensures full { IsTrue result ↔ IsFull self.now }
        ensures within { length self.now.entries ≤ self.now.places }
    {
        self.entries.is_full()
    }

    /// Whether there is no completion.
    pub fn is_empty(&self) -> bool
        ensures { IsTrue result ↔ (self.now.entries ≡ []) }
    {
        self.entries.is_empty()
    }
}
