ghost use Rattle.std.specs.Prelude.{◌≡◌, ◌+◌, ◌^◌, ◌<◌, Some};
ghost use Rattle.area_layout.specs.Layout.{all_buffers, judged};
ghost use Rattle.board_face.specs.{NicCalls.{apps_of}, AppCalls.{HasHeld, HasSpare, IsFilled, CanLend}, AppEvents.{lent, lent_own}, Returns.{loans_out}, Sides.{app_at}, Steps.{side_judged, side_user_lowered, side_user_taken}, declared.views.nic.Judged.TheVariants.{Not, Owed}};
ghost use Rattle.word_board.specs.AtHand.{ScrubsAt};

use crate::stepper::{AppStepper, CardStepper};
use crate::steps::Op;
use board_face::Filling;
use ref_words::laws;
use std::marker::Brand;
use zr_kinds::{Place, Rqe};

/// An application lends a held piece: its user count for the buffer is raised, and the piece's reference is the loan's.
/// No count of loans is large.
pub(crate) fn lend_held(app: &mut AppStepper, place: Place)
    requires within { place.buffer < all_buffers app.old.board.setting.layout }
    requires out { HasHeld app.old.side.view place }
    requires can { CanLend app.old.side.view }
    requires unbegun { app.old.side.inside.scrub_mark ≡ 0 }
    ensures event { app.new ≡ record app.old {
      side = app_at app.old.side (lent app.old.side.view place);
    } }
    ensures few_out { loans_out place.buffer app.old.side + 1 < 2 ^ 64 }
{
    laws::app_keeps_the_rule();
    let word = app.map().user(app.number(), place.buffer);
    app.step::<Brand, Place>(word, Op::Add(1), place);
}

/// An application lends a spare that it filled: its user count for the buffer is raised. No count of loans is large.
pub(crate) fn lend_spare(app: &mut AppStepper, own: Filling)
    requires within { own.buffer < all_buffers app.old.board.setting.layout }
    requires out { HasSpare app.old.side.view own }
    requires filled { IsFilled app.old.side.view own }
    requires can { CanLend app.old.side.view }
    requires unbegun { app.old.side.inside.scrub_mark ≡ 0 }
    ensures event { app.new ≡ record app.old {
      side = app_at app.old.side (lent_own app.old.side.view own);
    } }
    ensures few_out { loans_out own.buffer app.old.side + 1 < 2 ^ 64 }
{
    laws::app_keeps_the_rule();
    let word = app.map().user(app.number(), own.buffer);
    app.step::<Brand, Filling>(word, Op::Add(1), own);
}

/// The card looks at the user count for the entry in hand, which names the buffer. `true` says that it was 0, so that the
/// entry is a stray.
pub(crate) fn look_user(card: &mut CardStepper, app: u32, entry: Rqe, buffer: u32) -> bool
    requires app { app < apps_of card.old.board.setting }
    requires within { buffer < all_buffers card.old.board.setting.layout }
    requires names { judged card.old.board.setting.layout entry ≡ Some buffer }
    requires in_hand { card.old.side.inside.entry
        ≡ Some (record { app = app; entry = entry; judged = Not }) }
    ensures { card.new ≡ record card.old {
      side = side_judged card.old.side app entry buffer result;
    } }
{
    laws::card_keeps_the_rule();
    let word = card.map().user(app, buffer);
    card.step::<Brand, (u32, Rqe, u32)>(word, Op::Load, (app, entry, buffer)) == 0
}

/// The user count is lowered for the entry in hand, for which it was seen above 0.
pub(crate) fn lower_user(card: &mut CardStepper, app: u32, entry: Rqe, buffer: u32)
    requires app { app < apps_of card.old.board.setting }
    requires within { buffer < all_buffers card.old.board.setting.layout }
    requires in_hand { card.old.side.inside.entry
        ≡ Some (record { app = app; entry = entry; judged = Owed buffer }) }
    ensures { card.new ≡ record card.old {
      side = side_user_lowered card.old.side app entry buffer;
    } }
{
    laws::card_keeps_the_rule();
    let word = card.map().user(app, buffer);
    card.step::<Brand, (u32, Rqe, u32)>(word, Op::Sub(1), (app, entry, buffer));
}

/// An application's scrub swaps its user count for the buffer to which it came with 0. It answers how many references it took.
/// With the last buffer the application has scrubbed.
pub(crate) fn scrub_user(app: &mut AppStepper, buffer: u32) -> u64
    requires at { ScrubsAt app.old buffer }
    ensures { app.new ≡ record app.old { side = side_user_taken app.old.side buffer result } }
{
    laws::app_keeps_the_rule();
    let word = app.map().user(app.number(), buffer);
    app.step::<Brand, u32>(word, Op::Swap(0), buffer)
}
