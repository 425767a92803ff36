ghost use Rattle.face_table.specs.Flush.{IsReady, Sends};
ghost use Rattle.std.specs.Prelude.{◌≡◌, [], ◌++◌, MatchOption, IfSome, option_to_list};
ghost use Rattle.board_face.specs.{NicEvents.{nic_gist}, NicCalls.{IsOpen}, Looks.{NicRose}, declared.views.nic.NicLook.TheVariants.{NoteInUse}};

use board_face::{NicFace, Piece};
use std::collections::VecDeque;
use zr_kinds::Note;

/// A piece that was placed, with the note that is to be sent of it.
#[derive(Drop)]
pub struct Pending {
    pub app: u32,
    pub note: Note,
    pub piece: Piece,
}

/// Sends the pending notes in order. It answers the first whose slot was in use, if any; those behind it stay.
pub fn flush<F: NicFace>(face: &mut F, pending: &mut VecDeque<Pending>) -> Option<Pending>
    requires open { IsOpen (F.seen face.old) }
    requires ready { IsReady (F.seen face.old) pending.old.items }
    ensures sends { Sends (F.seen face.old) (F.seen face.new) pending.old.items
        (option_to_list result ++ pending.new.items) }
    ensures ready { IsReady (F.seen face.new) (option_to_list result ++ pending.new.items) }
    ensures stopped { MatchOption result (pending.new.items ≡ [])
        (λ back. NicRose (NoteInUse back.app) (F.seen face.old) (F.seen face.new)) }
    ensures told { IfSome result
        (λ back. F.tells (NoteInUse back.app) (nic_gist (F.seen face.new)) (F.beside face.new)) }
    ensures beside { F.beside face.new ≡ F.beside face.old }
{
    while let Some(next) = pending.pop_front() {
        if let Err(piece) = face.send(next.app, next.note, next.piece) {
            return Some(Pending {
                app: next.app,
                note: next.note,
                piece,
            });
        }
    }
    None
}
