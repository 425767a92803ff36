//! Look-ups among the kept pieces by position, and the least of them.
ghost use Rattle.std.specs.{Prelude.{◌≡◌, ℕ, ◌+◌, ◌^◌, ◌<◌, ◌≤◌, [], ◌∷◌, true, false, None, MatchOption, slice_get}, Option.{option_map}};
ghost use Rattle.tcp_reorder.specs.{Queue.{AreApart, EndWithin, is_kept}, Pieces.{all_kept, with_first}};

use std::collections::BTreeMap;

/// A kept piece without its position.
#[derive(Drop)]
pub struct KeptPiece<H> {
    pub len: u32,
    pub held: H,
}

/// The end of the piece that has a byte at the position.
fn end_at<H>(pieces: &BTreeMap<u64, KeptPiece<H>>, position: u64) -> Option<u64>
    requires apart { AreApart 0 (all_kept pieces.now.entries) }
    requires in_stream { EndWithin (2 ^ 62) (all_kept pieces.now.entries) }
    ensures { MatchOption result
        (is_kept (all_kept pieces.now.entries) position ≡ false)
        (λ end. (position < end) × (end ≤ 2 ^ 62)
        × ((p : ℕ) → position ≤ p → p < end → is_kept (all_kept pieces.now.entries) p ≡ true)) }
{
    let (begin, piece) = pieces.range(..=position).next_back()?;
    let end = *begin + u64::from(piece.len);
    if position < end { Some(end) } else { None }
}

/// The first position, from `from` on, at which no piece has a byte. From the limit on it doesn't look.
pub fn first_free<H>(pieces: &BTreeMap<u64, KeptPiece<H>>, from: u64, limit: u64) -> u64
    requires apart { AreApart 0 (all_kept pieces.now.entries) }
    requires in_stream { EndWithin (2 ^ 62) (all_kept pieces.now.entries) }
    requires low { from ≤ 2 ^ 62 }
    ensures above { from ≤ result }
    ensures low { result ≤ 2 ^ 62 }
    ensures kept { (p : ℕ) → from ≤ p → p < result →
        is_kept (all_kept pieces.now.entries) p ≡ true }
    ensures free { result < limit → is_kept (all_kept pieces.now.entries) result ≡ false }
{
    let mut position = from;
    while position < limit {
        let Some(end) = end_at(pieces, position) else {
            return position;
        };
        position = end;
    }
    position
}

/// The first position, from a free one on, at which a piece has a byte.
pub fn next_kept<H>(pieces: &BTreeMap<u64, KeptPiece<H>>, free: u64) -> Option<u64>
    requires apart { AreApart 0 (all_kept pieces.now.entries) }
    requires is_free { is_kept (all_kept pieces.now.entries) free ≡ false }
    ensures { MatchOption result
        ((p : ℕ) → free ≤ p → is_kept (all_kept pieces.now.entries) p ≡ false)
        (λ next. (free < next) × (is_kept (all_kept pieces.now.entries) next ≡ true)
        × ((p : ℕ) → free ≤ p → p < next → is_kept (all_kept pieces.now.entries) p ≡ false)) }
{
    let (begin, _) = pieces.range(free..).next()?;
    Some(*begin)
}

/// The piece of least position, where `first` is at this position and before all others.
pub fn least<'a, H>(
    at: u64,
    first: &'a Option<KeptPiece<H>>,
    pieces: &'a BTreeMap<u64, KeptPiece<H>>,
) -> Option<(u64, &'a KeptPiece<H>)>
    ensures { option_map (λ one. (one.0, one.1.now)) result
        ≡ slice_get (with_first at first.now pieces.now.entries) 0 }
{
    match first {
        Some(piece) => Some((at, piece)),
        None => {
            let (begin, piece) = pieces.first_key_value()?;
            Some((*begin, piece))
        }
    }
}

/// Takes the piece of least position out, where `first` is at this position and before all others.
pub fn pop_least<H>(
    at: u64,
    first: &mut Option<KeptPiece<H>>,
    pieces: &mut BTreeMap<u64, KeptPiece<H>>,
) -> Option<(u64, KeptPiece<H>)>
    ensures least { MatchOption result
        ((with_first at first.old pieces.old.entries ≡ []) × (pieces.new.entries ≡ []))
        (λ one. with_first at first.old pieces.old.entries ≡ one ∷ pieces.new.entries) }
    ensures others { first.new ≡ None }
{
    match first.take() {
        Some(piece) => Some((at, piece)),
        None => pieces.pop_first(),
    }
}
