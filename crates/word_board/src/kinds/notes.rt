ghost use Rattle.std.specs.Prelude.{◌≡◌, ◌+◌, ◌<◌, ◌≤◌, [], true, false, length, take, drop, if◌then◌else◌, All};
ghost use Rattle.area_layout.specs.Layout.{area_of_buffer, pool_buffers};
ghost use Rattle.board_face.specs.{NicCalls.{apps_of, IsOpen, HasPiece}, NicEvents.{text_at, nic_gist}, Texts.{IsSplitNote, IsLinearNote}, SlotSteps.{next_slot, seen_with, at_note, side_note_looked, side_note_stored, side_sent, side_sent_linear}};
ghost use Rattle.word_rings.specs.Slots.{note_width, note_body, words_for};
ghost use Rattle.ref_words.specs.Rings.{note_words_at};
ghost use Rattle.word_board.specs.{AtHand.{HasStoredNote, IsUnstored, WritesNoteAt}, Told.{SawNoteInUse}};

use crate::stepper::CardStepper;
use crate::steps::Op;
use ref_words::laws;
use std::marker::Brand;
use word_rings::{NOTE_FIELDS, NOTE_WORDS, note_words};
use zr_kinds::Note;

/// The card looks at the flag of the next note slot of an application, into which it has stored nothing yet. `true` says that
/// the slot is free.
pub(crate) fn look_note(card: &mut CardStepper, app: u32, slot: u32) -> bool
    requires slot { WritesNoteAt card.old app slot }
    requires unstored { (next_slot card.old.side.inside.note_slots app).words ≡ [] }
    ensures event { card.new ≡ record card.old {
      side = side_note_looked card.old.side app result;
    } }
    // the card knows a next slot for each application
    ensures slots { length card.old.side.inside.note_slots ≡ apps_of card.old.board.setting }
    // its pieces lie in pool buffers
    ensures pieces { All (λ p. p.place.buffer < pool_buffers card.old.board.setting.layout)
        card.old.side.view.pieces }
    ensures told { result ≡ false
        → SawNoteInUse card.old.board.setting (nic_gist card.old.side.view) app }
{
    laws::card_keeps_the_rule();
    let word = card.map().note(app, slot, 0);
    card.step::<Brand, u32>(word, Op::Load, app) == 0
}

/// It stores the next word of a note into the slot, which it saw free.
pub(crate) fn store_note(card: &mut CardStepper, app: u32, slot: u32, at: u32, n: u64)
    requires slot { WritesNoteAt card.old app slot }
    requires seen { (next_slot card.old.side.inside.note_slots app).seen ≡ true }
    requires so_far { at ≡ note_words_at card.old.side app }
    requires more { at < note_width }
    ensures { card.new ≡ record card.old { side = side_note_stored card.old.side app n } }
{
    laws::card_keeps_the_rule();
    let word = card.map().note(app, slot, at);
    card.step::<Brand, (u32, u64)>(word, Op::Swap(n), (app, n));
}

/// It stores so many of a note's words into the slot, which it saw free.
fn store_words(card: &mut CardStepper, app: u32, slot: u32, body: &[u64; NOTE_WORDS], many: usize)
    requires slot { WritesNoteAt card.old app slot }
    requires slots { length card.old.side.inside.note_slots ≡ apps_of card.old.board.setting }
    requires seen { next_slot card.old.side.inside.note_slots app ≡ seen_with [] }
    requires many { 1 + many ≤ note_width }
    ensures { card.new ≡ record card.old {
      side = at_note card.old.side app
          (seen_with (take many (drop 1 body.now)));
    } }
{
    for k in 0..many {
        store_note(card, app, slot, 1 + k as u32, body[1 + k]);
    }
}

/// It hands the slot over: a note is on its way with the piece at its place, as the words tell.
pub(crate) fn publish_note(card: &mut CardStepper, app: u32, slot: u32, note: Note)
    requires note { HasStoredNote card.old slot
        (record { app = app; note = note; bytes = text_at card.old.side.view note.place })
        (note_body note [] (area_of_buffer card.old.board.setting.layout note.place.buffer)) }
    requires out { HasPiece card.old.side.view note.place }
    requires fields { IsSplitNote note }
    ensures { card.new ≡ record card.old { side = side_sent card.old.side app note } }
{
    laws::card_keeps_the_rule();
    let word = card.map().note(app, slot, 0);
    card.step::<Brand, (u32, Note)>(word, Op::Swap(1), (app, note));
}

/// It hands the slot over: a note is on its way in which its bytes travel.
pub(crate) fn publish_linear(card: &mut CardStepper, app: u32, slot: u32, note: Note, bytes: &[u8])
    requires note { HasStoredNote card.old slot
        (record { app = app; note = note; bytes = bytes.now }) (note_body note bytes.now 0) }
    requires running { IsOpen card.old.side.view }
    requires fields { IsLinearNote note }
    requires bytes { note.total ≡ length bytes.now }
    ensures { card.new ≡ record card.old {
      side = side_sent_linear card.old.side app note bytes.now;
    } }
{
    laws::card_keeps_the_rule();
    let word = card.map().note(app, slot, 0);
    card.step::<Brand, (u32, Note, &[u8])>(word, Op::Swap(1), (app, note, bytes));
}

/// How many words of a slot so many bytes take.
pub(crate) fn payload_words(bytes: usize) -> usize
    ensures { result ≡ words_for bytes }
{
    bytes.div_ceil(8)
}

/// The card sends a note with the piece at its place, whose words it stores into the next slot before it hands the slot over.
/// Of the payload's words it stores those that may be other than 0 from the last note there, which are the first `left`.
/// `false` says that the slot was seen in use.
pub(crate) fn send_note(card: &mut CardStepper, app: u32, slot: u32, note: Note, left: u32) -> bool
    requires slot { WritesNoteAt card.old app slot }
    requires out { HasPiece card.old.side.view note.place }
    requires fields { IsSplitNote note }
    requires left { IsUnstored card.old app left }
    ensures event { card.new ≡ record card.old {
      side = if result then side_sent card.old.side app note
          else side_note_looked card.old.side app false;
    } }
    ensures told { result ≡ false
        → SawNoteInUse card.old.board.setting (nic_gist card.old.side.view) app }
{
    if !look_note(card, app, slot) {
        return false;
    }
    let area = card.map().layout().area_of(note.place.buffer);
    let body = note_words(&note, &[], area);
    let many = NOTE_FIELDS - 1 + left as usize;
    store_words(card, app, slot, &body, many);
    publish_note(card, app, slot, note);
    true
}

/// The card sends a note in which its bytes travel, in the same steps: it stores the words of its bytes, and more where the
/// last note there had more. `false` says that the slot was seen in use.
pub(crate) fn send_linear(
    card: &mut CardStepper,
    app: u32,
    slot: u32,
    note: Note,
    bytes: &[u8],
    left: u32,
) -> bool
    requires slot { WritesNoteAt card.old app slot }
    requires running { IsOpen card.old.side.view }
    requires fields { IsLinearNote note }
    requires bytes { note.total ≡ length bytes.now }
    requires left { IsUnstored card.old app left }
    ensures event { card.new ≡ record card.old {
      side = if result then side_sent_linear card.old.side app note bytes.now
          else side_note_looked card.old.side app false;
    } }
    ensures told { result ≡ false
        → SawNoteInUse card.old.board.setting (nic_gist card.old.side.view) app }
{
    if !look_note(card, app, slot) {
        return false;
    }
    let body = note_words(&note, bytes, 0);
    let many = NOTE_FIELDS - 1 + payload_words(bytes.len()).max(left as usize);
    store_words(card, app, slot, &body, many);
    publish_linear(card, app, slot, note, bytes);
    true
}
