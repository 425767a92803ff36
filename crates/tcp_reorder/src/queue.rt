ghost use Rattle.std.specs.{Prelude.{◌≡◌, ◌<◌, ◌↔◌, [], true, IsNone, IfSome, IfNone, OnOk, IfErr, OnErr}, Option.{option_map, option_copied}};
ghost use Rattle.zr_kinds.specs.CopyingReceiver.{accepts};
ghost use Rattle.tcp_reorder.specs.{Queue.{next_of, IsSound, front_of}, Gaps.{IsFirstGap, AreWanted, AreUnwanted, with_taken, span_of, LosesFirst}};

use crate::distance::lead;
use crate::piece::{KeptPiece, first_free, least, next_kept, pop_least};
use crate::places::{Gap, Span};
use std::alloc::Global;
use std::collections::BTreeMap;
use std::marker::Model;

/// No position is above this.
const END: u64 = 1 << 62;

/// No kept byte lies more than this far ahead of the first missing position.
const WINDOW: u64 = 1 << 30;

/// Distances are signed. With this much more they aren't below 0.
const BIAS: u64 = 1 << 31;

/// The reassembly queue of one flow (RFC 9293, 3.10.7.4): pieces `H` of payload, which it never looks into, at their
/// positions in the stream. The byte with the base's sequence number is at position 0. What comes first counts: a
/// frame is asked for its gaps, and each gap is taken with a piece of its own.
#[derive(Drop)]
pub struct RecvQueue<H> {
    base: u32,
    popped: u64,
    /// The first position that was neither popped nor is kept.
    next: u64,
    /// The piece at the first position that wasn't popped, where nothing was kept when it came. Most come so, and need no
    /// place in the map.
    first: Option<KeptPiece<H>>,
    /// The others, by the position of the piece's first byte.
    pieces: BTreeMap<u64, KeptPiece<H>>,
}

impl<H> Model for RecvQueue<H> {
    ghost use Rattle.std.specs.Prelude.{◌≡◌};
    ghost use Rattle.tcp_reorder.specs.Queue.{Queue, next_of, IsSound};

    ghost Value = { Queue H };

    ghost use Rattle.tcp_reorder.specs.Pieces.{queue_of};

    ghost view = { λ q. queue_of q.base q.popped q.first q.pieces.entries };

    ghost invariant = { λ q. IsSound (queue_of q.base q.popped q.first q.pieces.entries)
        × (q.next ≡ next_of (queue_of q.base q.popped q.first q.pieces.entries)) };
}

impl<H> RecvQueue<H> {
    /// A queue that has nothing, for the flow whose first byte has the sequence number `base`. Takes no memory.
    pub fn new(alloc: Global, base: u32) -> RecvQueue<H>
        ensures { result ≡ record { base = base; popped = 0; kept = [] } }
    {
        RecvQueue {
            base,
            popped: 0,
            next: 0,
            first: None,
            pieces: BTreeMap::new(alloc),
        }
    }

    /// The first position that is missing: the stream is known up to it. Costs nothing.
    pub fn next_position(&self) -> u64
        ensures next { result ≡ next_of self.now }
        ensures sound { IsSound self.now }
    {
        self.next
    }

    /// Whether a frame of `total` bytes from the sequence number on lies in the window: it ends at most 2^30 behind the
    /// first missing position and at position 2^62 or before. One that doesn't is to be ignored whole. A frame that is
    /// behind altogether is accepted, and has no gap.
    pub fn accepts(&self, seq: u32, total: u32) -> bool
        ensures answer { result ≡ accepts self.now.base (next_of self.now) seq total }
        ensures sound { IsSound self.now }
    {
        let ahead = lead(self.base, self.next, seq) + u64::from(total);
        ahead <= WINDOW + BIAS && self.next + ahead <= END + BIAS
    }

    /// The first run of bytes that are still wanted, of the `len` bytes from the sequence number on. Costs a look-up for
    /// each kept piece that it crosses.
    pub fn gap(&self, seq: u32, len: u32) -> Option<Gap>
        requires { accepts self.now.base (next_of self.now) seq len ≡ true }
        // None exactly where no byte is wanted.
        ensures none { IsNone result ↔ AreUnwanted self.now seq len }
        ensures first { IfSome result (IsFirstGap self.now seq len) }
        ensures sound { IsSound self.now }
    {
        // Everything before the first missing position is there.
        let first = self.next + lead(self.base, self.next, seq);
        let limit = (first + u64::from(len)).saturating_sub(BIAS);
        let from = first.saturating_sub(BIAS).max(self.next);
        let start = first_free(&self.pieces, from, limit);
        if start >= limit {
            return None;
        }
        let end = match next_kept(&self.pieces, start) {
            Some(kept) => kept.min(limit),
            None => limit,
        };
        Some(Gap {
            skip: (start + BIAS - first) as u32,
            len: (end - start) as u32,
        })
    }

    /// Keeps a piece that has the `len` bytes from the sequence number on, all of which are wanted, as those of one
    /// whole gap are. The error is want of memory, and gives the piece back. Costs a look-up, and one more for each piece
    /// that the first missing position passes: it passes each once.
    pub fn take(&mut self, seq: u32, len: u32, piece: H) -> Result<(), H>
        requires accepted { accepts self.old.base (next_of self.old) seq len ≡ true }
        requires some { 0 < len }
        requires wanted { AreWanted self.old seq len }
        ensures ok { OnOk result (self.new ≡ with_taken self.old seq len piece) }
        ensures given_back { IfErr result (λ back. back ≡ piece) }
        ensures err { OnErr result (self.new ≡ self.old) }
    {
        let position = self.next + lead(self.base, self.next, seq) - BIAS;
        if position == self.popped && self.pieces.is_empty() {
            // The position was free, so there was no first piece.
            let before = self.first.replace(KeptPiece { len, held: piece });
            let None = before else { unreachable!() };
            self.next = position + u64::from(len);
            return Ok(());
        }
        match self.pieces.insert(position, KeptPiece { len, held: piece }) {
            Ok(None) => {
                self.next = first_free(&self.pieces, self.next, END + 1);
                Ok(())
            }
            // The position was free, so this is never reached.
            Ok(Some(before)) => Err(before.held),
            Err(failed) => {
                let (_, piece) = failed.value;
                Err(piece.held)
            }
        }
    }

    /// Where the piece stands that `pop_front` would hand over.
    pub fn front(&self) -> Option<Span>
        ensures front { result ≡ option_map span_of (front_of self.now) }
        ensures none { IsNone result ↔ (self.now.popped ≡ next_of self.now) }
    {
        match least(self.popped, &self.first, &self.pieces) {
            Some((position, piece)) if position == self.popped => Some(Span {
                position,
                len: piece.len,
            }),
            _ => None,
        }
    }

    /// The piece that `pop_front` would hand over.
    pub fn front_piece(&self) -> Option<&H>
        ensures front { option_copied result ≡ option_map (λ one. one.piece) (front_of self.now) }
        ensures none { IsNone result ↔ (self.now.popped ≡ next_of self.now) }
        ensures sound { IsSound self.now }
    {
        let (position, piece) = least(self.popped, &self.first, &self.pieces)?;
        if position == self.popped {
            Some(&piece.held)
        } else {
            None
        }
    }

    /// Hands over the piece that is next in the stream. Takes no memory.
    pub fn pop_front(&mut self) -> Option<(H, Span)>
        ensures none { IsNone result ↔ (self.old.popped ≡ next_of self.old) }
        ensures kept { IfNone result (self.new ≡ self.old) }
        ensures popped { IfSome result (λ (piece, span). LosesFirst self.old self.new piece span) }
        ensures in_order { IfSome result (λ (piece, span). span.position ≡ self.old.popped) }
        // The first missing position stays.
        ensures next { next_of self.new ≡ next_of self.old }
        ensures sound { IsSound self.new }
    {
        if self.front().is_none() {
            return None;
        }
        let (position, piece) = pop_least(self.popped, &mut self.first, &mut self.pieces)?;
        let KeptPiece { len, held } = piece;
        self.popped = position + u64::from(len);
        Some((held, Span { position, len }))
    }

    /// Hands over the kept piece of least position, also behind a gap: what is missing before it counts as popped. This
    /// is for teardown, when the stream is given up. Takes no memory.
    pub fn pull(&mut self) -> Option<(H, Span)>
        ensures none { IsNone result ↔ (self.old.kept ≡ []) }
        ensures kept { IfNone result (self.new ≡ self.old) }
        ensures popped { IfSome result (λ (piece, span). LosesFirst self.old self.new piece span) }
    {
        let (position, lowest) = pop_least(self.popped, &mut self.first, &mut self.pieces)?;
        let KeptPiece { len, held } = lowest;
        self.popped = position + u64::from(len);
        self.next = first_free(&self.pieces, self.next.max(self.popped), END + 1);
        Some((held, Span { position, len }))
    }

    /// Ends a queue that keeps nothing any more. A queue of pieces that may be dropped can be dropped instead.
    pub fn destroy_empty(self)
        requires { self.kept ≡ [] }
    {
        let RecvQueue {
            base: _,
            popped: _,
            next: _,
            first,
            pieces,
        } = self;
        let None = first else { unreachable!() };
        pieces.destroy_empty();
    }
}
