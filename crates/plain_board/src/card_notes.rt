ghost use Rattle.std.specs.Prelude.{◌≡◌, ◌<◌, false, length, IfErr, MatchBool, MatchResult};
ghost use Rattle.board_face.specs.{declared.views.nic.NicLook.TheVariants.{NoteInUse}, NicCalls.{apps_of, IsOpen, HasPiece}, NicEvents.{sent, sent_linear, nic_saw}, NotNow.{HasSentRingful}, Sides.{nic_at}, Texts.{IsSplitNote, IsLinearNote}};
ghost use Rattle.plain_board.specs.{OneSide.{OnlyCard}, Seen.{CardSawSo}};

use crate::contents::Contents;
use board_face::Piece;
use board_parts::{NoteSlot, put_back, with_room};
use std::marker::Brand;
use zr_kinds::Note;

impl Contents {
    /// Sends a note with its piece, unless the ring of the application is full.
    pub(crate) fn send(&mut self, app: u32, note: Note, piece: Piece) -> Result<(), Piece>
        requires open { IsOpen self.old.nic.view }
        requires app { app < apps_of self.old.nic.view.setting }
        requires out { HasPiece self.old.nic.view piece }
        requires fields { IsSplitNote note }
        requires place { note.place ≡ piece }
        ensures view { MatchResult result
            (λ _. self.new.nic ≡ nic_at self.old.nic (sent self.old.nic.view app note))
            (λ back. (back ≡ piece) × (self.new.nic
            ≡ nic_at self.old.nic (nic_saw self.old.nic.view (NoteInUse app)))) }
        ensures full { IfErr result (λ _. HasSentRingful self.old.nic.view app) }
        ensures told { CardSawSo self.old self.new }
        ensures only { OnlyCard self.old self.new }
    {
        let slot = NoteSlot {
            note,
            bytes: [0; 256],
        };
        if !put_back(&mut self.notes, app as usize, slot) {
            let nic = &mut self.nic;
            nic.note::<Brand, u32>(app);
            return Err(piece);
        }
        let nic = &mut self.nic;
        nic.note::<Brand, (u32, Note)>((app, note));
        Ok(())
    }

    /// Sends a note in which its bytes travel, unless the ring of the application is full.
    pub(crate) fn send_linear(&mut self, app: u32, note: Note, bytes: &[u8]) -> bool
        requires open { IsOpen self.old.nic.view }
        requires app { app < apps_of self.old.nic.view.setting }
        requires fields { IsLinearNote note }
        requires bytes { note.total ≡ length bytes.now }
        ensures view { MatchBool result
            (self.new.nic ≡ nic_at self.old.nic (sent_linear self.old.nic.view app note bytes.now))
            (self.new.nic ≡ nic_at self.old.nic (nic_saw self.old.nic.view (NoteInUse app))) }
        ensures full { result ≡ false → HasSentRingful self.old.nic.view app }
        ensures told { CardSawSo self.old self.new }
        ensures only { OnlyCard self.old self.new }
    {
        let slot = NoteSlot {
            note,
            bytes: with_room(bytes),
        };
        if !put_back(&mut self.notes, app as usize, slot) {
            let nic = &mut self.nic;
            nic.note::<Brand, u32>(app);
            return false;
        }
        let nic = &mut self.nic;
        nic.note::<Brand, (u32, Note, &[u8])>((app, note, bytes));
        true
    }
}
