ghost use Rattle.std.specs.Prelude.{◌≡◌, ◌+◌, ◌<◌, [], ◌∷◌, ◌++◌, true, false, None, length, IfNone};
ghost use Rattle.area_layout.specs.Layout.{judged};
ghost use Rattle.board_face.specs.{NicCalls.{apps_of}, SlotSteps.{next_slot, side_entry_looked, side_entry_loaded, side_in_hand, side_dealt}, declared.views.nic.{Fate.TheVariants.{Honoured, Stray}, Judged.TheVariants.{Not, Stray as judged_stray, BothLowered}}, NicEvents.{nic_gist}};
ghost use Rattle.word_rings.specs.Slots.{refill_width, entry_of_words};
ghost use Rattle.ref_words.specs.{Rings.{refill_words_at}};
ghost use Rattle.word_board.specs.{AtHand.{HasEntry, TakesEntryAt}, Board.{side_entry_taken}, Told.{SawRingEmpty}};

use crate::stepper::CardStepper;
use crate::steps::Op;
use ref_words::laws;
use std::marker::Brand;
use word_rings::refill_read;
use zr_kinds::Rqe;

/// The card looks at the flag of the next refill slot of an application. `true` says that the slot is full.
pub(crate) fn look_entry(card: &mut CardStepper, app: u32, slot: u32) -> bool
    requires slot { TakesEntryAt card.old app slot }
    ensures event { card.new ≡ record card.old {
      side = side_entry_looked card.old.side app result;
    } }
    // the card knows a next slot for each application
    ensures slots { length card.old.side.inside.refill_slots ≡ apps_of card.old.board.setting }
    ensures told { result ≡ false
        → SawRingEmpty card.old.board.setting (nic_gist card.old.side.view) app }
{
    laws::card_keeps_the_rule();
    let word = card.map().refill(app, slot, 0);
    card.step::<Brand, u32>(word, Op::Load, app) == 1
}

/// It loads the next word of the slot, which it saw full.
pub(crate) fn load_entry(card: &mut CardStepper, app: u32, slot: u32, at: u32) -> u64
    requires slot { TakesEntryAt card.old app slot }
    requires seen { (next_slot card.old.side.inside.refill_slots app).seen ≡ true }
    requires so_far { at ≡ refill_words_at card.old.side app }
    requires more { at < refill_width }
    ensures { card.new ≡ record card.old { side = side_entry_loaded card.old.side app result } }
{
    laws::card_keeps_the_rule();
    let word = card.map().refill(app, slot, at);
    card.step::<Brand, u32>(word, Op::Load, app)
}

/// It loads the last word of the slot, and has the entry in hand of which the words tell.
pub(crate) fn load_last(card: &mut CardStepper, app: u32, slot: u32, at: u32) -> u64
    requires slot { TakesEntryAt card.old app slot }
    requires seen { (next_slot card.old.side.inside.refill_slots app).seen ≡ true }
    requires so_far { at ≡ refill_words_at card.old.side app }
    requires last { at + 1 ≡ refill_width }
    requires idle { card.old.side.inside.entry ≡ None }
    ensures { card.new ≡ record card.old {
      side = side_in_hand card.old.side app result
          (entry_of_words (1 ∷ (next_slot card.old.side.inside.refill_slots app).words ++ result
          ∷ []));
    } }
{
    laws::card_keeps_the_rule();
    let word = card.map().refill(app, slot, at);
    card.step::<Brand, u32>(word, Op::Load, app)
}

/// It frees the slot: the entry in hand was a return of the buffer, for which both counts were lowered.
pub(crate) fn free_honoured(card: &mut CardStepper, app: u32, slot: u32, entry: Rqe, buffer: u32)
    requires entry { HasEntry card.old app slot entry (BothLowered buffer) }
    requires bare { card.old.side.inside.hands ≡ [] }
    ensures { card.new ≡ record card.old {
      side = side_dealt card.old.side app entry (Honoured buffer);
    } }
{
    laws::card_keeps_the_rule();
    let word = card.map().refill(app, slot, 0);
    card.step::<Brand, (u32, Rqe, u32)>(word, Op::Swap(0), (app, entry, buffer));
}

/// It frees the slot: the entry in hand was judged a stray.
pub(crate) fn free_stray(card: &mut CardStepper, app: u32, slot: u32, entry: Rqe)
    requires entry { HasEntry card.old app slot entry judged_stray }
    ensures { card.new ≡ record card.old { side = side_dealt card.old.side app entry Stray } }
{
    laws::card_keeps_the_rule();
    let word = card.map().refill(app, slot, 0);
    card.step::<Brand, (u32, Rqe)>(word, Op::Swap(0), (app, entry));
}

/// It frees the slot: the entry in hand names no buffer.
pub(crate) fn free_void(card: &mut CardStepper, app: u32, slot: u32, entry: Rqe)
    requires entry { HasEntry card.old app slot entry Not }
    requires void { judged card.old.board.setting.layout entry ≡ None }
    ensures { card.new ≡ record card.old { side = side_dealt card.old.side app entry Stray } }
{
    laws::card_keeps_the_rule();
    let word = card.map().refill(app, slot, 0);
    card.step::<Brand, (u32, Rqe)>(word, Op::Swap(0), (app, entry));
}

/// The card takes the next entry of an application in hand: it looks at the flag of the slot, and where the slot is full it
/// loads the words. `None` says that the slot was free.
pub(crate) fn take_entry(card: &mut CardStepper, app: u32, slot: u32) -> Option<Rqe>
    requires slot { TakesEntryAt card.old app slot }
    requires idle { card.old.side.inside.entry ≡ None }
    ensures event { card.new ≡ record card.old {
      side = side_entry_taken card.old.side app result;
    } }
    ensures slots { length card.old.side.inside.refill_slots ≡ apps_of card.old.board.setting }
    ensures told { IfNone result
        (SawRingEmpty card.old.board.setting (nic_gist card.old.side.view) app) }
{
    if !look_entry(card, app, slot) {
        return None;
    }
    let off = load_entry(card, app, slot, 1);
    let rest = load_last(card, app, slot, 2);
    Some(refill_read(&[1, off, rest]))
}
