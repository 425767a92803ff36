//! What is next in a stream is lent: a piece that lies in the area, or a copy of bytes that came with their note.
ghost use Rattle.std.specs.Prelude.{◌≡◌, true, false, ℕ, ◌<◌, ◌≤◌, [], None, MatchOption};
ghost use Rattle.area_layout.specs.Layout.{IsLayout, all_buffers as buffers_of};
ghost use Rattle.board_face.specs.{AppEvents.{app_gist, reserve_of}, declared.views.app.{AppLook.TheVariants.{NoSpare}, HeldPiece.{HeldPiece}}};
ghost use Rattle.flow_queues.specs.Core.{HoldsApart, total, over_kept, IsOfNote, Each, lent_piece, is_copy};
ghost use Rattle.flow_queues.specs.{Active.{LendsActive}, Kept.{QueuesWork}, KeptOf.{queue_state}};
ghost use Rattle.flow_queues.specs.Lent.{MayLendNext, IsBacked, IsNext, IsSoOfNext, LentNext, LendsNext, SawNoSpare};

use crate::kept::Queues;
use crate::queues::{FlowQueue, Lending, Short, Waiting};
use board_face::AppFace;

/// How many bytes of a loan are read at once, at most.
pub const CHUNK: usize = 4096;

/// What lending did.
#[derive(Drop)]
pub enum Next {
    /// A piece that lies in the area was lent.
    Lent(Lending),
    /// A copy of bytes that came with their note was lent.
    LentCopy(Lending),
    /// No piece is in order.
    NoneInOrder,
    /// A raw entry is on its way.
    Unsettled,
    /// No buffer is free to copy into, and the reserve is held.
    ReserveHeld,
}

/// Lends the piece that is next in the stream.
fn lend_piece<F: AppFace>(face: &mut F, own: &mut FlowQueue) -> Lending
    requires holds { HoldsApart (F.seen face.old) }
    requires settled { (F.seen face.old).settled ≡ true }
    requires counted { (F.seen face.old).scrubbed ≡ false }
    requires out { (f : HeldPiece → ℕ)
        → over_kept f own.old.queue ≤ total f (F.seen face.old).helds }
    requires notes { Each (λ k. IsOfNote (F.seen face.old).taken k.piece) own.old.queue.kept }
    requires next { IsNext false own.old.queue }
    ensures lent { LentNext (F.seen face.old) (F.seen face.new) own.old own.new result
        × (is_copy (lent_piece (F.seen face.old).taken result) ≡ 0) }
    ensures beside { F.beside face.new ≡ F.beside face.old }
{
    let Some((waiting, _)) = own.queue.pop_front() else {
        unreachable!()
    };
    let piece = match waiting {
        Waiting::InArea(piece) => piece,
        Waiting::Copied(_short) => unreachable!(),
    };
    let loan = face.lend(piece.held);
    Lending {
        note: piece.note,
        at: piece.at,
        loan,
    }
}

/// The reserve is a buffer of the layout, so that what is copied into it lies in the area. Only the answers of `reserve` and
/// `size` say so.
fn has_reserve<F: AppFace>(face: &F)
    ensures layout { IsLayout (F.seen face.now).setting.layout }
    ensures within { reserve_of (F.seen face.now) < buffers_of (F.seen face.now).setting.layout }
{
    let _ = face.reserve();
    let _ = face.size();
}

/// Copies the bytes that are next in the stream into a spare, and lends that. `None` says that no buffer is free, and the
/// reserve is held.
fn lend_copy<F: AppFace>(face: &mut F, own: &mut FlowQueue) -> Option<Lending>
    requires can { MayLendNext (F.seen face.old) }
    requires settled { (F.seen face.old).settled ≡ true }
    requires backed { IsBacked (F.seen face.old) own.old.queue }
    requires next { IsNext true own.old.queue }
    ensures lent { MatchOption result
        (SawNoSpare (F.seen face.old) (F.seen face.new) × (own.new ≡ own.old))
        (λ l. LentNext (F.seen face.old) (F.seen face.new) own.old own.new l
        × (is_copy (lent_piece (F.seen face.old).taken l) ≡ 1)) }
    ensures told { result ≡ None
        → F.tells NoSpare (app_gist (F.seen face.new)) (F.beside face.new) }
    ensures beside { F.beside face.new ≡ F.beside face.old }
{
    has_reserve(face);
    let Some(mut spare) = face.spare() else {
        return None;
    };
    let Some((waiting, _)) = own.queue.pop_front() else {
        unreachable!()
    };
    let short = match waiting {
        Waiting::Copied(short) => short,
        Waiting::InArea(_piece) => unreachable!(),
    };
    let Short { note, at, bytes } = short;
    face.fill(&mut spare, &bytes);
    let loan = face.lend_own(spare);
    Some(Lending { note, at, loan })
}

/// Lends what is next in the stream. Bytes that came with their note are copied into a spare for that.
fn lend_next<F: AppFace>(face: &mut F, own: &mut FlowQueue) -> Next
    requires can { MayLendNext (F.seen face.old) }
    requires out { (f : HeldPiece → ℕ)
        → over_kept f own.old.queue ≤ total f (F.seen face.old).helds }
    requires backed { IsBacked (F.seen face.old) own.old.queue }
    ensures lends { LendsNext (F.seen face.old) (F.seen face.new) own.old own.new result }
    ensures told { IsSoOfNext (λ look.
        F.tells look (app_gist (F.seen face.new)) (F.beside face.new)) result }
    ensures beside { F.beside face.new ≡ F.beside face.old }
{
    let Some(first) = own.queue.front_piece() else {
        return Next::NoneInOrder;
    };
    let is_short = first.is_short();
    if !face.settle() {
        return Next::Unsettled;
    }
    if !is_short {
        return Next::Lent(lend_piece(face, own));
    }
    match lend_copy(face, own) {
        Some(lending) => Next::LentCopy(lending),
        None => Next::ReserveHeld,
    }
}

/// Lends what is next in the stream of the active flow: a piece, or a copy of bytes that came with their note.
pub fn lend<F: AppFace>(face: &mut F, st: &mut Queues) -> Next
    requires work { QueuesWork (queue_state st.old) (F.seen face.old) }
    requires owns { (F.seen face.old).owns ≡ [] }
    ensures lends { LendsActive (queue_state st.old) (queue_state st.new) (F.seen face.old)
        (F.seen face.new) result }
    ensures told { IsSoOfNext (λ look.
        F.tells look (app_gist (F.seen face.new)) (F.beside face.new)) result }
    ensures beside { F.beside face.new ≡ F.beside face.old }
{
    if st.active >= st.flows.len() {
        return Next::NoneInOrder;
    }
    let own = &mut st.flows[st.active];
    lend_next(face, own)
}
