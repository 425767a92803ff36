ghost use Rattle.std.specs.Prelude.{◌≡◌, ℕ, ◌<◌, ◌≤◌, [], length, None, Some, MatchBool, MatchResult, option_to_list};
ghost use Rattle.zr_kinds.specs.Limits.{longest_payload};
ghost use Rattle.board_face.specs.{Looks.{NicRose}, NicCalls.{apps_of, IsOpen, NicOnlySaw}, NicEvents.{nic_gist, sent_linear}, declared.views.nic.NicLook.TheVariants.{NoteInUse}};
ghost use Rattle.page_pool.specs.{declared.pool.Short.{Short as TheShort}, Pool.{PoolStands, HasNonePending, IsNextApp}, Offer.{MayOffer, Offers, KeepsRest, ClosesCurrent, short_note}, Placing.{FillsCurrent, LeavesCurrent, PlacesSplit, LacksRoom, KeepsShort}};

use crate::pieces::PendingPieces;
use crate::placing::{place_fresh, place_part};
use crate::search::find_fresh;
use crate::{Pool, SearchEnd, Short, nic_flush};
use board_face::{NicFace, Own};
use zr_kinds::{Note, Place};

/// A frame's payload that is to go to an application.
#[derive(Clone, Copy)]
pub struct Offer<'a> {
    pub app: u32,
    /// The number of the frame's record, from 1.
    pub frame: u32,
    /// The number of the flow, from 0.
    pub flow: u32,
    /// The sequence number of the flow's first byte.
    pub base: u32,
    /// The sequence number of the payload's first byte.
    pub seq: u32,
    /// Whether the frame has FIN.
    pub fin: bool,
    pub payload: &'a [u8],
}

/// What became of an offer.
#[derive(Clone, Copy, Debug, PartialEq, Eq)]
pub enum Verdict {
    /// Its notes were sent, or are pending.
    Accepted,
    /// So many buffers are cached, and the payload needs more.
    NoRoom { cached: u32, needed: u32 },
    /// Notes of an earlier frame are pending.
    Busy,
}

/// Too few buffers are cached.
#[derive(Clone, Copy)]
pub(crate) struct Shortage {
    pub cached: u32,
    pub needed: u32,
}

/// Sends a short payload in its note. `false` says that the next slot was seen in use, and that the note is pending.
pub(crate) fn send_short<F: NicFace>(
    face: &mut F,
    short: &mut Option<Short>,
    offer: &Offer<'_>,
) -> bool
    requires open { IsOpen (F.seen face.old) }
    requires none { short.old ≡ None }
    requires app { offer.now.app < apps_of (F.seen face.old).setting }
    requires some { 0 < length offer.now.payload.now }
    requires few { length offer.now.payload.now ≤ 256 }
    ensures answer { MatchBool result
        ((short.new ≡ None) × (F.seen face.new
        ≡ sent_linear (F.seen face.old) offer.now.app (short_note offer.now) offer.now.payload.now))
        ((kept : TheShort) × (short.new ≡ Some kept) × KeepsShort offer.now kept
        × NicOnlySaw (NoteInUse offer.now.app) (F.seen face.old) (F.seen face.new)
        × F.tells (NoteInUse offer.now.app) (nic_gist (F.seen face.new)) (F.beside face.new)) }
    ensures beside { F.beside face.new ≡ F.beside face.old }
{
    let len = offer.payload.len();
    let note = Note {
        frame: offer.frame,
        flow: offer.flow,
        base: offer.base,
        seq: offer.seq,
        at: 0,
        total: len as u32,
        place: Place {
            buffer: 0,
            offset: 0,
            len: len as u32,
        },
        split: false,
        fin: offer.fin,
    };
    if face.send_linear(offer.app, note, offer.payload) {
        return true;
    }
    let mut bytes = [0; 256];
    bytes[..len].copy_from_slice(offer.payload);
    *short = Some(Short {
        app: offer.app,
        note,
        bytes,
    });
    false
}

/// Places a payload whole in the current buffer, where it fits there.
pub(crate) fn place_in_current<F: NicFace>(
    face: &mut F,
    current: &mut Option<Own>,
    pieces: &mut PendingPieces,
    offer: &Offer<'_>,
) -> bool
    requires open { IsOpen (F.seen face.old) }
    requires out { ((F.seen face.old).owns ≡ option_to_list current.old) × (pieces.old ≡ []) }
    requires some { 0 < length offer.now.payload.now }
    requires most { length offer.now.payload.now ≤ longest_payload }
    ensures answer { MatchBool result
        (FillsCurrent offer.now current.old current.new (F.seen face.old) (F.seen face.new)
        pieces.new)
        (LeavesCurrent offer.now current.old current.new (F.seen face.old) (F.seen face.new)
        pieces.new) }
    ensures beside { F.beside face.new ≡ F.beside face.old }
{
    let len = offer.payload.len() as u32;
    match current {
        Some(own) if own.start() + len <= own.size() => {
            place_part(face, own, pieces, offer, 0, len);
            true
        }
        _ => false,
    }
}

/// Closes the current buffer, if there is one.
pub(crate) fn close_current<F: NicFace>(face: &mut F, current: &mut Option<Own>)
    requires open { IsOpen (F.seen face.old) }
    requires out { (F.seen face.old).owns ≡ option_to_list current.old }
    ensures closes { ClosesCurrent current.old (F.seen face.old) (F.seen face.new) }
    ensures none { current.new ≡ None }
    ensures out { (F.seen face.new).owns ≡ [] }
    ensures beside { F.beside face.new ≡ F.beside face.old }
{
    if let Some(own) = current.take() {
        face.shut(own);
    }
}

/// Places a payload that is split: whole in the current buffer, where it fits there, or else in fresh buffers. The search for these
/// is counted, as one with what was searched ahead.
pub(crate) fn place_split<F: NicFace>(
    face: &mut F,
    pool: &mut Pool,
    offer: &Offer<'_>,
) -> Result<(), Shortage>
    requires offer { MayOffer (F.seen face.old) offer.now }
    requires stands { PoolStands pool.old (F.seen face.old) }
    requires none { HasNonePending pool.old }
    ensures answer { MatchResult result
        (λ _. PlacesSplit pool.old pool.new (F.seen face.old) (F.seen face.new) offer.now)
        (λ short. LacksRoom pool.old pool.new (F.seen face.old) (F.seen face.new) offer.now
        short.cached short.needed) }
    ensures beside { F.beside face.new ≡ F.beside face.old }
{
    let ahead = pool.ahead;
    pool.ahead = SearchEnd::Fast;
    if place_in_current(face, &mut pool.current, &mut pool.pieces, offer) {
        return Ok(());
    }
    close_current(face, &mut pool.current);
    let needed = (offer.payload.len() as u32).div_ceil(face.size());
    let end = find_fresh(face, &mut pool.stats, needed);
    ahead.joined(end).count(&mut pool.stats);
    if let SearchEnd::Empty = end {
        return Err(Shortage {
            cached: face.cached(),
            needed,
        });
    }
    pool.current = place_fresh(face, &mut pool.pieces, offer);
    Ok(())
}

/// Offers a frame with a payload of a byte at least. It sends what is pending first. A payload of at most `split` bytes
/// travels in its note; a longer one is placed in the area, by packing. Where fresh buffers are needed their search is counted, as
/// one with what was searched ahead for the frame.
pub fn nic_offer<F: NicFace>(face: &mut F, pool: &mut Pool, offer: &Offer<'_>) -> Verdict
    requires offer { MayOffer (F.seen face.old) offer.now }
    requires stands { PoolStands pool.old (F.seen face.old) }
    ensures stands { PoolStands pool.new (F.seen face.new) }
    ensures offers { Offers pool.old pool.new (F.seen face.old) (F.seen face.new) offer.now result }
    ensures rest { KeepsRest (F.seen face.old) (F.seen face.new) }
    // Notes stay pending only where the slot of the next one was seen in use in this call.
    ensures pending { (app : ℕ) → IsNextApp pool.new app
        → NicRose (NoteInUse app) (F.seen face.old) (F.seen face.new)
        × F.tells (NoteInUse app) (nic_gist (F.seen face.new)) (F.beside face.new) }
    ensures beside { F.beside face.new ≡ F.beside face.old }
{
    if !nic_flush(face, pool) {
        return Verdict::Busy;
    }
    if offer.payload.len() <= pool.split as usize {
        pool.ahead = SearchEnd::Fast;
        send_short(face, &mut pool.short, offer);
        return Verdict::Accepted;
    }
    if let Err(short) = place_split(face, pool, offer) {
        return Verdict::NoRoom {
            cached: short.cached,
            needed: short.needed,
        };
    }
    nic_flush(face, pool);
    Verdict::Accepted
}
