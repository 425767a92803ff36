ghost use Rattle.std.specs.Prelude.{◌≡◌, ◌<◌, true, false, None, MatchBool};
ghost use Rattle.board_face.specs.{NicCalls.{HasNoToken, NicOnlySaw, apps_of}, NicEvents.{saw_leave, nic_gist}, AppCalls.{HasLoan, CanLeave}, AppEvents.{app_gist}, Steps.{HasSearched}, declared.views.nic.NicLook.TheVariants.{NotLeft}};
ghost use Rattle.ref_words.specs.{PhaseSteps.{side_ended, side_leave_looked, side_left, side_end_looked, side_note_sought, side_reserve_looked, side_abandoned}};
ghost use Rattle.word_board.specs.{AtHand.{IsReserve, TakesNoteAt}, Told.{SawNotLeft, SawNotEnded, SawNoNote, SawReserveHeld}};

use crate::stepper::{AppStepper, CardStepper};
use crate::steps::Op;
use ref_words::laws;
use std::marker::Brand;
use zr_kinds::Place;

/// The card ends: it stores 1 into its phase word. No token is out, and no piece is in the making.
pub(crate) fn end_card(card: &mut CardStepper)
    requires none { HasNoToken card.old.side.view }
    requires idle { card.old.side.inside.making ≡ None }
    ensures { card.new ≡ record card.old { side = side_ended card.old.side } }
{
    laws::card_keeps_the_rule();
    let word = card.map().phase(0);
    card.step::<Brand, ()>(word, Op::Swap(1), ());
}

/// An application leaves: it stores 1 into its phase word.
pub(crate) fn leave_app(app: &mut AppStepper)
    requires can { CanLeave app.old.side.view }
    ensures { app.new ≡ record app.old { side = side_left app.old.side } }
{
    laws::app_keeps_the_rule();
    let word = app.map().phase(1 + app.number() as usize);
    app.step::<Brand, ()>(word, Op::Swap(1), ());
}

/// The card looks whether an application has left.
pub(crate) fn look_left(card: &mut CardStepper, app: u32) -> bool
    requires app { app < apps_of card.old.board.setting }
    ensures event { card.new ≡ record card.old {
      side = side_leave_looked card.old.side app result;
    } }
    ensures view { MatchBool result
        (card.new.side.view ≡ saw_leave card.old.side.view app)
        (NicOnlySaw (NotLeft app) card.old.side.view card.new.side.view) }
    ensures told { result ≡ false
        → SawNotLeft card.old.board.setting (nic_gist card.old.side.view) app }
{
    laws::card_keeps_the_rule();
    let word = card.map().phase(1 + app as usize);
    card.step::<Brand, u32>(word, Op::Load, app) == 1
}

/// An application looks whether the card has ended. Once it saw that, it sees it again.
pub(crate) fn look_end(app: &mut AppStepper) -> bool
    ensures event { app.new ≡ record app.old { side = side_end_looked app.old.side result } }
    ensures again { app.old.side.inside.end_seen ≡ true → result ≡ true }
    ensures ended { app.old.side.view.ended ≡ true → result ≡ true }
    ensures told { result ≡ false → SawNotEnded app.old.board.setting (app_gist app.old.side.view) }
{
    laws::app_keeps_the_rule();
    let word = app.map().phase(0);
    app.step::<Brand, ()>(word, Op::Load, ()) == 1
}

/// An application that looked for the end looks at the flag of its next note slot. `true` says that the slot is full.
pub(crate) fn seek_note(app: &mut AppStepper, slot: u32) -> bool
    requires slot { TakesNoteAt app.old slot }
    ensures event { app.new ≡ record app.old { side = side_note_sought app.old.side result } }
    ensures told { result ≡ false → SawNoNote app.old.board.setting (app_gist app.old.side.view) }
{
    laws::app_keeps_the_rule();
    let word = app.map().note(app.number(), slot, 0);
    app.step::<Brand, ()>(word, Op::Load, ()) == 1
}

/// An application that looked at each free word looks whether somebody has its reserve. `true` says that nobody does.
pub(crate) fn look_reserve(app: &mut AppStepper, reserve: u32) -> bool
    requires reserve { IsReserve app.old reserve }
    requires searched { HasSearched app.old.side }
    ensures event { app.new ≡ record app.old { side = side_reserve_looked app.old.side result } }
    ensures told { result ≡ false
        → SawReserveHeld app.old.board.setting (app_gist app.old.side.view) }
{
    laws::app_keeps_the_rule();
    let word = app.map().pool(reserve);
    app.step::<Brand, ()>(word, Op::Load, ()) == 0
}

/// An application abandons a loan, as of the moment in which it loads the pool count of its reserve.
pub(crate) fn abandon_loan(app: &mut AppStepper, reserve: u32, place: Place)
    requires reserve { IsReserve app.old reserve }
    requires out { HasLoan app.old.side.view place }
    requires unread { app.old.side.inside.making ≡ None }
    ensures { app.new ≡ record app.old { side = side_abandoned app.old.side place } }
{
    laws::app_keeps_the_rule();
    let word = app.map().pool(reserve);
    app.step::<Brand, Place>(word, Op::Load, place);
}
