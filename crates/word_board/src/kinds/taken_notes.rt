ghost use Rattle.std.specs.Prelude.{◌≡◌, ◌+◌, ◌<◌, ◌≤◌, [], ◌∷◌, ◌++◌, true, false, length, take, drop, MatchBool};
ghost use Rattle.board_face.specs.{AppCalls.{TookNote}, AppEvents.{took_note, app_gist}, Texts.{IsLinearNote}, SlotSteps.{seen_with, at_slot, side_slot_loaded, side_took_note, side_took_linear}, declared.answers.Polled.TheVariants.{Empty as got_none}};
ghost use Rattle.word_rings.specs.Slots.{note_width, note_fields, payload_width};
ghost use Rattle.ref_words.specs.{Rings.{loaded_note, loaded_bytes, note_loads}};
ghost use Rattle.word_board.specs.{AtHand.{TakesNoteAt}, Board.{side_full_taken}, Polls.{Polls}, Told.{SawNotEnded, SawNoNote}};

use crate::kinds::{look_end, payload_words, seek_note};
use crate::stepper::AppStepper;
use crate::steps::Op;
use board_face::{Held, Polled};
use ref_words::laws;
use std::marker::Brand;
use word_rings::{NOTE_FIELDS, PAYLOAD_WORDS, note_read, payload_read};
use zr_kinds::Note;

/// An application loads the next word of its next note slot, which it saw full.
pub(crate) fn load_slot(app: &mut AppStepper, slot: u32, at: u32) -> u64
    requires slot { TakesNoteAt app.old slot }
    requires seen { app.old.side.inside.note_slot.seen ≡ true }
    requires so_far { at ≡ 1 + length app.old.side.inside.note_slot.words }
    requires more { at < note_width }
    ensures { app.new ≡ record app.old { side = side_slot_loaded app.old.side result } }
{
    laws::app_keeps_the_rule();
    let word = app.map().note(app.number(), slot, at);
    app.step::<Brand, ()>(word, Op::Load, ())
}

/// It loads the words of the fields from the slot, which it saw full, and answers them behind the flag.
fn load_fields(app: &mut AppStepper, slot: u32) -> [u64; NOTE_FIELDS]
    requires slot { TakesNoteAt app.old slot }
    requires seen { app.old.side.inside.note_slot ≡ seen_with [] }
    ensures event { app.new ≡ record app.old {
      side = at_slot app.old.side (seen_with (drop 1 result));
    } }
    ensures full { result ≡ 1 ∷ drop 1 result }
{
    let mut body = [1; NOTE_FIELDS];
    for k in 0..NOTE_FIELDS - 1 {
        body[1 + k] = load_slot(app, slot, 1 + k as u32);
    }
    body
}

/// It loads so many words behind the fields, and answers them with zeros behind.
fn load_payload(app: &mut AppStepper, slot: u32, many: usize) -> [u64; PAYLOAD_WORDS]
    requires slot { TakesNoteAt app.old slot }
    requires seen { app.old.side.inside.note_slot.seen ≡ true }
    requires fields { 1 + length app.old.side.inside.note_slot.words ≡ note_fields }
    requires many { many ≤ payload_width }
    ensures { app.new ≡ record app.old {
      side = at_slot app.old.side
          (seen_with (app.old.side.inside.note_slot.words ++ take many result));
    } }
{
    let mut payload = [0; PAYLOAD_WORDS];
    for k in 0..many {
        payload[k] = load_slot(app, slot, NOTE_FIELDS as u32 + k as u32);
    }
    payload
}

/// It frees the slot: the note that the words tell of is taken, and its piece is held.
pub(crate) fn free_note(app: &mut AppStepper, slot: u32)
    requires slot { TakesNoteAt app.old slot }
    requires seen { app.old.side.inside.note_slot.seen ≡ true }
    requires enough { note_loads (loaded_note app.old.side)
        ≤ 1 + length app.old.side.inside.note_slot.words }
    requires split { (loaded_note app.old.side).split ≡ true }
    ensures event { app.new ≡ record app.old {
      side = side_took_note app.old.side (loaded_note app.old.side);
    } }
    ensures took { TookNote app.old.side.view
        (took_note app.old.side.view (loaded_note app.old.side))
        (loaded_note app.old.side) (loaded_note app.old.side).place }
{
    laws::app_keeps_the_rule();
    let word = app.map().note(app.number(), slot, 0);
    app.step::<Brand, ()>(word, Op::Swap(0), ());
}

/// It frees the slot: the note that the words tell of is taken, with the bytes that travelled in it.
pub(crate) fn free_linear(app: &mut AppStepper, slot: u32)
    requires slot { TakesNoteAt app.old slot }
    requires seen { app.old.side.inside.note_slot.seen ≡ true }
    requires enough { note_loads (loaded_note app.old.side)
        ≤ 1 + length app.old.side.inside.note_slot.words }
    requires split { (loaded_note app.old.side).split ≡ false }
    ensures event { app.new ≡ record app.old {
      side = side_took_linear app.old.side (loaded_note app.old.side)
          (loaded_bytes app.old.side);
    } }
    ensures fields { IsLinearNote (loaded_note app.old.side) }
{
    laws::app_keeps_the_rule();
    let word = app.map().note(app.number(), slot, 0);
    app.step::<Brand, ()>(word, Op::Swap(0), ());
}

/// An application takes the note of its next slot, which it saw full: it loads the words of the fields, of an unsplit note
/// those of its bytes too, and frees the slot. These bytes are the first of `linear`.
fn take_full(app: &mut AppStepper, slot: u32, linear: &mut [u8; 256]) -> Note
    requires slot { TakesNoteAt app.old slot }
    requires seen { app.old.side.inside.note_slot ≡ seen_with [] }
    ensures event { app.new ≡ record app.old {
      side = side_full_taken app.old.side result linear.new;
    } }
    ensures took { MatchBool result.split
        (TookNote app.old.side.view (took_note app.old.side.view result) result result.place)
        (IsLinearNote result) }
{
    let fields = load_fields(app, slot);
    let note = note_read(&fields);
    if note.split {
        free_note(app, slot);
    } else {
        let many = payload_words(note.total as usize).min(PAYLOAD_WORDS);
        let payload = load_payload(app, slot, many);
        payload_read(&payload, linear);
        free_linear(app, slot);
    }
    note
}

/// An application looks for the next note sent to it: whether the card has ended, and then at its next slot. Where that is full
/// it takes the note.
pub(crate) fn poll(app: &mut AppStepper, slot: u32, linear: &mut [u8; 256]) -> Polled
    requires slot { TakesNoteAt app.old slot }
    ensures board { app.new.board ≡ app.old.board }
    ensures event { Polls app.old.side app.new.side linear.new result }
    ensures untold { result ≡ got_none → app.old.side.view.ended ≡ false }
    ensures told { result ≡ got_none
        → SawNotEnded app.old.board.setting (app_gist app.old.side.view)
        × SawNoNote app.old.board.setting (app_gist app.old.side.view) }
{
    let over = look_end(app);
    if !seek_note(app, slot) {
        return if over { Polled::Ended } else { Polled::Empty };
    }
    let note = take_full(app, slot, linear);
    if note.split {
        Polled::Note(note, Held::new(note.place))
    } else {
        Polled::Linear(note)
    }
}
