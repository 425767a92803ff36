ghost use Rattle.std.specs.Prelude.{◌≡◌, ◌<◌, false};
ghost use Rattle.board_face.specs.{AppCalls.{IsHere, Looked}, declared.answers.Polled.TheVariants.{Empty as got_none}};
ghost use Rattle.plain_board.specs.{OneSide.{OnlyView}, Stand.{side_of}, Seen.{AppSawSo}};

use crate::contents::Contents;
use board_face::{Held, Polled};
use board_parts::{note_at, take_front};
use std::marker::Brand;
use zr_kinds::Note;

impl Contents {
    /// Takes the next note of an application.
    pub(crate) fn poll(&mut self, app: u32, linear: &mut [u8; 256]) -> Polled
        requires app { app < self.old.arrays.layout.reserves }
        requires here { IsHere (side_of self.old app).view }
        ensures view { Looked (side_of self.old app).view (side_of self.new app).view linear.new
            result }
        ensures untold { result ≡ got_none → (side_of self.old app).view.ended ≡ false }
        ensures told { AppSawSo self.old self.new app }
        ensures only { OnlyView self.old self.new app }
    {
        let Some(slot) = take_front(&mut self.notes, app as usize) else {
            let ended = self.ended;
            note_at::<Brand, bool>(&mut self.apps, app as usize, ended);
            return if ended { Polled::Ended } else { Polled::Empty };
        };
        let note = slot.note;
        if note.split {
            note_at::<Brand, Note>(&mut self.apps, app as usize, note);
            return Polled::Note(note, Held::new(note.place));
        }
        let bytes = slot.bytes;
        *linear = bytes;
        note_at::<Brand, (Note, [u8; 256])>(&mut self.apps, app as usize, (note, bytes));
        Polled::Linear(note)
    }
}
