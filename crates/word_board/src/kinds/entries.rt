ghost use Rattle.std.specs.Prelude.{◌≡◌, ◌+◌, ◌<◌, true, false, length, None, if◌then◌else◌};
ghost use Rattle.board_face.specs.{AppCalls.{HasLoan}, AppEvents.{entry_of, app_gist}, SlotSteps.{seen_with, at_refill, side_refill_looked, side_refill_stored, side_gave, side_pushed}};
ghost use Rattle.word_rings.specs.Slots.{refill_width, entry_body};
ghost use Rattle.word_board.specs.{AtHand.{HasStoredEntry, MayPush, WritesEntryAt}, Told.{SawRefillInUse}};

use crate::stepper::AppStepper;
use crate::steps::Op;
use ref_words::laws;
use std::marker::Brand;
use word_rings::refill_words;
use zr_kinds::{Place, Rqe};

/// An application looks at the flag of its next refill slot. `true` says that the slot is free.
pub(crate) fn look_refill(app: &mut AppStepper, slot: u32) -> bool
    requires slot { WritesEntryAt app.old slot }
    ensures event { app.new ≡ record app.old { side = side_refill_looked app.old.side result } }
    ensures told { result ≡ false
        → SawRefillInUse app.old.board.setting (app_gist app.old.side.view) }
{
    laws::app_keeps_the_rule();
    let word = app.map().refill(app.number(), slot, 0);
    app.step::<Brand, u32>(word, Op::Load, slot) == 0
}

/// It stores the next word of an entry into the slot, which it saw free.
pub(crate) fn store_refill(app: &mut AppStepper, slot: u32, at: u32, n: u64)
    requires slot { WritesEntryAt app.old slot }
    requires seen { app.old.side.inside.refill_slot.seen ≡ true }
    requires so_far { at ≡ 1 + length app.old.side.inside.refill_slot.words }
    requires more { at < refill_width }
    ensures { app.new ≡ record app.old { side = side_refill_stored app.old.side n } }
{
    laws::app_keeps_the_rule();
    let word = app.map().refill(app.number(), slot, at);
    app.step::<Brand, u64>(word, Op::Swap(n), n);
}

/// It looks at the flag of its next slot, and where the slot is free it stores the words of an entry there. `false` says that
/// the slot was seen in use.
fn fill_refill(app: &mut AppStepper, slot: u32, entry: Rqe) -> bool
    requires slot { WritesEntryAt app.old slot }
    ensures event { app.new ≡ record app.old {
      side = if result then at_refill app.old.side (seen_with (entry_body entry))
          else side_refill_looked app.old.side false;
    } }
    ensures told { result ≡ false
        → SawRefillInUse app.old.board.setting (app_gist app.old.side.view) }
{
    if !look_refill(app, slot) {
        return false;
    }
    let body = refill_words(&entry);
    store_refill(app, slot, 1, body[1]);
    store_refill(app, slot, 2, body[2]);
    true
}

/// It hands the slot over: the loan at the place is given back, by the entry whose words it stored.
pub(crate) fn publish_loan(app: &mut AppStepper, slot: u32, place: Place)
    requires entry { HasStoredEntry app.old slot
        (record { entry = entry_of app.old.side.view.setting.layout place; of_loan = true }) }
    requires out { HasLoan app.old.side.view place }
    requires unread { app.old.side.inside.making ≡ None }
    ensures { app.new ≡ record app.old { side = side_gave app.old.side place } }
{
    laws::app_keeps_the_rule();
    let word = app.map().refill(app.number(), slot, 0);
    app.step::<Brand, Place>(word, Op::Swap(1), place);
}

/// It hands the slot over: an entry is on its way that comes from no loan, as its words tell.
pub(crate) fn publish_raw(app: &mut AppStepper, slot: u32, entry: Rqe)
    requires entry { HasStoredEntry app.old slot (record { entry = entry; of_loan = false }) }
    requires may { MayPush app.old entry }
    ensures { app.new ≡ record app.old { side = side_pushed app.old.side entry } }
{
    laws::app_keeps_the_rule();
    let word = app.map().refill(app.number(), slot, 0);
    app.step::<Brand, Rqe>(word, Op::Swap(1), entry);
}

/// An application gives the loan at the place back, by an entry whose words it stores into its next refill slot before it
/// hands the slot over. `false` says that the slot was seen in use.
pub(crate) fn give_entry(app: &mut AppStepper, slot: u32, place: Place, entry: Rqe) -> bool
    requires slot { WritesEntryAt app.old slot }
    requires out { HasLoan app.old.side.view place }
    requires unread { app.old.side.inside.making ≡ None }
    requires entry { entry ≡ entry_of app.old.side.view.setting.layout place }
    ensures event { app.new ≡ record app.old {
      side = if result then side_gave app.old.side place
          else side_refill_looked app.old.side false;
    } }
    ensures told { result ≡ false
        → SawRefillInUse app.old.board.setting (app_gist app.old.side.view) }
{
    if !fill_refill(app, slot, entry) {
        return false;
    }
    publish_loan(app, slot, place);
    true
}

/// An application writes an entry that comes from no loan, in the same steps. `false` says that the slot was seen in use.
pub(crate) fn push_raw(app: &mut AppStepper, slot: u32, entry: Rqe) -> bool
    requires slot { WritesEntryAt app.old slot }
    requires may { MayPush app.old entry }
    ensures event { app.new ≡ record app.old {
      side = if result then side_pushed app.old.side entry
          else side_refill_looked app.old.side false;
    } }
    ensures told { result ≡ false
        → SawRefillInUse app.old.board.setting (app_gist app.old.side.view) }
{
    if !fill_refill(app, slot, entry) {
        return false;
    }
    publish_raw(app, slot, entry);
    true
}
