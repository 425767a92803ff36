//! The part of a turn that is played at the face: the frame at hand is offered, or the card finishes.

ghost use Rattle.std.specs.Prelude.{◌≡◌, ◌≢◌, ◌⊎◌, ℕ, ◌<◌, ◌≤◌, Bool, MatchBool, length, take, true, false, Some, None};
ghost use Rattle.zr_kinds.specs.Limits.{longest_payload};
ghost use Rattle.board_face.specs.{Looks.{NicRose}, NicCalls.{apps_of, IsOpen}, NicEvents.{nic_gist}, declared.views.nic.NicLook.TheVariants.{NoteInUse}};
ghost use Rattle.page_pool.specs.{declared.offer.Offer.{Offer as TheOffer}, Frames.{offered}, Offer.{Offers, KeepsRest}, Pool.{PoolStands, HasNonePending, IsNextApp, pending_count}};
ghost use Rattle.card_feed.specs.{Offered.{payload_in}, Hand.{HandFits, offered_by}, Intake.{ReadsNothing}, Coming.{is_over}, Feed.{FeedFits, IsFeedReady, card_steps}, Turns.{KeepsSetting, OffersHand, FinishesCard, KeepsUp, FeedPlays, HasLooked, IsIdle}, Parts.{feed_of}, declared.intake.Intake.{Intake as TheIntake}, Counts.{AreInType}};

use crate::intake::{Intake, Route};
use board_face::NicFace;
use frame_headers::{Seen, read_frame};
use page_pool::{Offer, Pool, Verdict, nic_close, nic_drain, nic_flush, nic_offer};

/// The payload in a frame, or none.
pub fn payload_in(frame: &[u8]) -> &[u8]
    ensures payload { result.now ≡ payload_in frame.now }
    ensures most { length result.now ≤ longest_payload }
{
    match read_frame(frame) {
        Seen::Tcp(segment) => segment.payload,
        _ => &[],
    }
}

/// Each count of the pool fits its type. Only the answer of `stats` says so.
pub fn counts_fit(pool: &Pool)
    ensures { AreInType pool.now.stats }
{
    let _ = pool.stats();
}

/// Offers what counts of a frame.
fn offer<F: NicFace>(route: &Route, frame: &[u8], pool: &mut Pool, face: &mut F) -> Verdict
    requires open { IsOpen (F.seen face.old) }
    requires stands { PoolStands pool.old (F.seen face.old) }
    requires hand { HandFits (apps_of (F.seen face.old).setting) frame.now route.now }
    ensures stands { PoolStands pool.new (F.seen face.new) }
    ensures offers { (o : TheOffer)
        × (offered o ≡ offered_by route.now (take route.now.len (payload_in frame.now)))
        × Offers pool.old pool.new (F.seen face.old) (F.seen face.new) o result }
    ensures rest { KeepsRest (F.seen face.old) (F.seen face.new) }
    ensures pending { (app : ℕ) → IsNextApp pool.new app
        → NicRose (NoteInUse app) (F.seen face.old) (F.seen face.new)
        × F.tells (NoteInUse app) (nic_gist (F.seen face.new)) (F.beside face.new) }
    ensures beside { F.beside face.new ≡ F.beside face.old }
{
    let offer = Offer {
        app: route.app,
        frame: route.frame,
        flow: route.flow,
        base: route.base,
        seq: route.seq,
        fin: route.fin,
        payload: &payload_in(frame)[..route.len as usize],
    };
    nic_offer(face, pool, &offer)
}

/// Offers the frame at hand. It is settled, or stays at hand behind pending notes. `false` says that nothing changed.
pub fn offer_hand<F: NicFace>(
    intake: &mut Intake,
    route: Route,
    pool: &mut Pool,
    face: &mut F,
) -> bool
    requires hand { intake.old.hand ≡ Some route }
    requires fits { FeedFits (feed_of intake.old pool.old false) (F.seen face.old) }
    requires split { pool.old.split ≡ intake.old.split }
    ensures ready { IsFeedReady (feed_of intake.new pool.new false) (F.seen face.new) }
    ensures offers { OffersHand (feed_of intake.old pool.old false)
        (feed_of intake.new pool.new false) (F.seen face.old) (F.seen face.new)
        (offered_by route (take route.len (payload_in intake.old.bytes.items))) }
    ensures keeps { KeepsSetting pool.old pool.new (F.seen face.old) (F.seen face.new) }
    ensures same { ReadsNothing intake.old intake.new }
    ensures later { card_steps false (F.seen face.old) ≤ card_steps false (F.seen face.new) }
    ensures answer { MatchBool result
        (0 < pending_count pool.old
        → card_steps false (F.seen face.old) < card_steps false (F.seen face.new))
        (IsIdle F.tells (F.beside face.new) (feed_of intake.old pool.old false)
        (feed_of intake.new pool.new false) (F.seen face.old) (F.seen face.new)) }
    ensures beside { F.beside face.new ≡ F.beside face.old }
{
    let pending = pool.pending();
    match offer(&route, &intake.bytes, pool, face) {
        Verdict::Accepted => {
            intake.hand = None;
            true
        }
        Verdict::NoRoom { .. } => {
            intake.refused.push(route.frame).unwrap();
            intake.hand = None;
            true
        }
        Verdict::Busy => {
            let dealt = nic_drain(face, pool);
            pool.pending() < pending || dealt > 0
        }
    }
}

/// Sends what is pending and closes the card, or drains. `false` says that nothing changed.
pub fn finish<F: NicFace>(pool: &mut Pool, closed: &mut bool, face: &mut F) -> bool
    requires on { closed.old ≡ false }
    requires open { IsOpen (F.seen face.old) }
    requires stands { PoolStands pool.old (F.seen face.old) }
    ensures stands { PoolStands pool.new (F.seen face.new) }
    ensures finishes { (intake : TheIntake) → intake.hand ≡ None
        → FinishesCard (feed_of intake pool.old closed.old) (feed_of intake pool.new closed.new)
        (F.seen face.old) (F.seen face.new) }
    ensures keeps { KeepsSetting pool.old pool.new (F.seen face.old) (F.seen face.new) }
    ensures closed { MatchBool closed.new
        (((F.seen face.new).ended ≡ true) × HasNonePending pool.new) (IsOpen (F.seen face.new)) }
    ensures answer { MatchBool result
        (card_steps closed.old (F.seen face.old) < card_steps closed.new (F.seen face.new))
        ((intake : TheIntake) → IsIdle F.tells (F.beside face.new)
        (feed_of intake pool.old closed.old) (feed_of intake pool.new closed.new)
        (F.seen face.old) (F.seen face.new)) }
    ensures beside { F.beside face.new ≡ F.beside face.old }
{
    let pending = pool.pending();
    if nic_flush(face, pool) {
        nic_close(face, pool);
        *closed = true;
        return true;
    }
    let dealt = nic_drain(face, pool);
    pool.pending() < pending || dealt > 0
}

/// Sends what is pending, up to a slot in use, and drains. `false` says that nothing changed.
pub fn keep_up<F: NicFace>(pool: &mut Pool, face: &mut F) -> bool
    requires open { IsOpen (F.seen face.old) }
    requires stands { PoolStands pool.old (F.seen face.old) }
    ensures stands { PoolStands pool.new (F.seen face.new) }
    ensures keeps_up { (intake : TheIntake) (closed : Bool)
        → KeepsUp (feed_of intake pool.old closed) (feed_of intake pool.new closed)
        (F.seen face.old) (F.seen face.new) }
    ensures keeps { KeepsSetting pool.old pool.new (F.seen face.old) (F.seen face.new) }
    ensures open { IsOpen (F.seen face.new) }
    ensures answer { MatchBool result
        (card_steps false (F.seen face.old) < card_steps false (F.seen face.new))
        ((intake : TheIntake) (closed : Bool)
        → HasLooked (HasNonePending pool.new) F.tells (F.beside face.new)
        (feed_of intake pool.old closed) (feed_of intake pool.new closed) (F.seen face.old)
        (F.seen face.new)) }
    ensures beside { F.beside face.new ≡ F.beside face.old }
{
    let pending = pool.pending();
    nic_flush(face, pool);
    let dealt = nic_drain(face, pool);
    pool.pending() < pending || dealt > 0
}

/// What a turn does once it has read what it reads. `false` says that nothing changed.
pub fn play<F: NicFace>(
    intake: &mut Intake,
    pool: &mut Pool,
    closed: &mut bool,
    face: &mut F,
) -> bool
    requires fits { FeedFits (feed_of intake.old pool.old closed.old) (F.seen face.old) }
    requires split { pool.old.split ≡ intake.old.split }
    ensures ready { IsFeedReady (feed_of intake.new pool.new closed.new) (F.seen face.new) }
    ensures split { pool.new.split ≡ intake.new.split }
    ensures plays { FeedPlays (feed_of intake.old pool.old closed.old)
        (feed_of intake.new pool.new closed.new) (F.seen face.old) (F.seen face.new) }
    ensures same { ReadsNothing intake.old intake.new }
    ensures later { card_steps closed.old (F.seen face.old)
        ≤ card_steps closed.new (F.seen face.new) }
    ensures answer { MatchBool result
        ((intake.old.hand ≢ None → 0 < pending_count pool.old)
        → card_steps closed.old (F.seen face.old) < card_steps closed.new (F.seen face.new))
        (((intake.old.hand ≡ None) × (is_over intake.old.stage ≡ false))
        ⊎ IsIdle F.tells (F.beside face.new) (feed_of intake.old pool.old closed.old)
        (feed_of intake.new pool.new closed.new) (F.seen face.old) (F.seen face.new)) }
    ensures beside { F.beside face.new ≡ F.beside face.old }
{
    if *closed {
        return nic_drain(face, pool) > 0;
    }
    match intake.hand {
        Some(route) => offer_hand(intake, route, pool, face),
        None if intake.is_over() => finish(pool, closed, face),
        None => {
            pool.drop_search();
            false
        }
    }
}
