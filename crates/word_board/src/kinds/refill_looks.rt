ghost use Rattle.std.specs.Prelude.{◌≡◌, ℕ, ◌<◌, ◌∷◌, true, if◌then◌else◌, Some, None, MatchOption, Contains, false};
ghost use Rattle.board_face.specs.{AppEvents.{app_saw, fell_quiet, app_gist}, declared.views.app.AppLook.TheVariants.{NotQuiet}};
ghost use Rattle.ref_words.specs.RestSteps.{side_raw_looked, side_any_looked, side_last_looked};
ghost use Rattle.word_board.specs.Told.{IsToldToApp, IsRawInUse, IsOneInUse};

use crate::stepper::AppStepper;
use crate::steps::Op;
use ref_words::laws;
use std::marker::Brand;

/// An application looks at the slot of its last raw entry. `true` says that no raw entry is on its way any more.
pub(crate) fn look_raw(app: &mut AppStepper, slot: u32) -> bool
    requires within { slot < app.old.board.setting.places }
    requires known { app.old.side.inside.raw_slot ≡ Some slot }
    ensures event { app.new ≡ record app.old { side = side_raw_looked app.old.side result } }
    ensures told { result ≡ false
        → IsToldToApp app.old.board.setting (app_gist app.old.side.view)
        (IsRawInUse app.old.board.setting) }
{
    laws::app_keeps_the_rule();
    let word = app.map().refill(app.number(), slot, 0);
    app.step::<Brand, u32>(word, Op::Load, slot) == 0
}

/// An application settles: `raw` is the slot of its last raw entry, where it pushed one since it last settled. `false` says
/// that this slot was seen in use.
pub(crate) fn settle(app: &mut AppStepper, raw: Option<u32>) -> bool
    requires known { MatchOption raw
        (app.old.side.view.settled ≡ true)
        (λ slot. (slot < app.old.board.setting.places)
        × (app.old.side.inside.raw_slot ≡ Some slot)) }
    ensures event { app.new ≡ record app.old { side = side_raw_looked app.old.side result } }
    ensures still { raw ≡ None → result ≡ true }
    ensures told { result ≡ false
        → IsToldToApp app.old.board.setting (app_gist app.old.side.view)
        (IsRawInUse app.old.board.setting) }
{
    let Some(slot) = raw else {
        return true;
    };
    look_raw(app, slot)
}

/// An application looks at any of its refill slots. `true` says that the slot is free, and stays so until it publishes.
pub(crate) fn look_any(app: &mut AppStepper, slot: u32) -> bool
    requires within { slot < app.old.board.setting.places }
    ensures event { app.new ≡ record app.old { side = side_any_looked app.old.side slot result } }
    ensures told { result ≡ false
        → IsToldToApp app.old.board.setting (app_gist app.old.side.view)
        (IsOneInUse app.old.board.setting) }
{
    laws::app_keeps_the_rule();
    let word = app.map().refill(app.number(), slot, 0);
    app.step::<Brand, u32>(word, Op::Load, slot) == 0
}

/// It looks at the last one, after it saw all others free. `true` says that its ring is quiet: no entry is on its way.
pub(crate) fn look_at_last(app: &mut AppStepper, slot: u32) -> bool
    requires within { slot < app.old.board.setting.places }
    requires others { (k : ℕ) → k < app.old.board.setting.places
        → Contains (slot ∷ app.old.side.inside.free_slots) k }
    ensures event { app.new ≡ record app.old { side = side_last_looked app.old.side slot result } }
    ensures told { result ≡ false
        → IsToldToApp app.old.board.setting (app_gist app.old.side.view)
        (IsOneInUse app.old.board.setting) }
{
    laws::app_keeps_the_rule();
    let word = app.map().refill(app.number(), slot, 0);
    app.step::<Brand, u32>(word, Op::Load, slot) == 0
}

/// An application looks at its refill slots one by one. `true` says that each was seen free; it stops at one in use.
pub(crate) fn fall_quiet(app: &mut AppStepper, places: u32) -> bool
    requires all { places ≡ app.old.board.setting.places }
    requires some { 0 < places }
    ensures event { app.new ≡ record app.old {
      side = record {
        view = if result then fell_quiet app.old.side.view else app_saw app.old.side.view NotQuiet;
        inside = record app.old.side.inside { free_slots = app.new.side.inside.free_slots };
      };
    } }
    ensures told { result ≡ false
        → IsToldToApp app.old.board.setting (app_gist app.old.side.view)
        (IsOneInUse app.old.board.setting) }
{
    let last = places - 1;
    for slot in 0..last {
        if !look_any(app, slot) {
            return false;
        }
    }
    look_at_last(app, last)
}
