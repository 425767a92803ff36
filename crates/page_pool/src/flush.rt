ghost use Rattle.std.specs.Prelude.{◌≡◌, ℕ, MatchBool};
ghost use Rattle.board_face.specs.{Looks.{NicRose}, NicCalls.{IsOpen}, NicEvents.{nic_gist}, declared.views.nic.NicLook.TheVariants.{NoteInUse}};
ghost use Rattle.page_pool.specs.Pool.{PoolStands, HasNonePending, IsNextApp, OnlySends};

use crate::{Pending, Pool};
use board_face::NicFace;

/// Sends the pending notes in order. `false` says that the slot of the next one was seen in use; it and those behind it
/// are pending still.
pub fn nic_flush<F: NicFace>(face: &mut F, pool: &mut Pool) -> bool
    requires open { IsOpen (F.seen face.old) }
    requires stands { PoolStands pool.old (F.seen face.old) }
    ensures stands { PoolStands pool.new (F.seen face.new) }
    ensures sends { OnlySends pool.old pool.new (F.seen face.old) (F.seen face.new) }
    ensures answer { MatchBool result
        (HasNonePending pool.new)
        ((app : ℕ) × IsNextApp pool.new app
        × NicRose (NoteInUse app) (F.seen face.old) (F.seen face.new)
        × F.tells (NoteInUse app) (nic_gist (F.seen face.new)) (F.beside face.new)) }
    ensures beside { F.beside face.new ≡ F.beside face.old }
{
    if let Some(short) = &pool.short {
        let len = short.note.total as usize;
        if !face.send_linear(short.app, short.note, &short.bytes[..len]) {
            return false;
        }
        pool.short = None;
    }
    while let Some(pending) = pool.pieces.pop_front() {
        if let Err(piece) = face.send(pending.app, pending.note, pending.piece) {
            pool.pieces.push_front(Pending {
                app: pending.app,
                note: pending.note,
                piece,
            });
            return false;
        }
    }
    true
}
