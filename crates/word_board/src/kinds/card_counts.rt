ghost use Rattle.std.specs.Prelude.{◌≡◌, ◌+◌, ◌<◌, [], ◌∷◌, ◌++◌, Some};
ghost use Rattle.area_layout.specs.Layout.{all_buffers};
ghost use Rattle.board_face.specs.{NicCalls.{IsOpen, HasOwn, HasNothingIn}, NicEvents.{took}, Sides.{nic_at}, Steps.{side_shut, side_both_lowered}, declared.views.nic.Judged.TheVariants.{UserLowered}};

use crate::stepper::CardStepper;
use crate::steps::Op;
use board_face::Filling;
use ref_words::laws;
use std::marker::Brand;
use zr_kinds::Rqe;

/// The card takes the buffer that entered its cache last: its pool count is raised from 0. Nothing of the card's lay there.
pub(crate) fn take_buffer(card: &mut CardStepper, buffer: u32)
    requires within { buffer < all_buffers card.old.board.setting.layout }
    requires running { IsOpen card.old.side.view }
    requires last { card.old.side.view.cache
        ≡ (took card.old.side.view buffer).cache ++ buffer ∷ [] }
    ensures event { card.new ≡ record card.old {
      side = nic_at card.old.side (took card.old.side.view buffer);
    } }
    ensures apart { HasNothingIn card.old.side.view buffer }
{
    laws::card_keeps_the_rule();
    let word = card.map().pool(buffer);
    card.step::<Brand, u32>(word, Op::Add(1), buffer);
}

/// The card gives its own reference up. It answers whether no holder is left.
pub(crate) fn shut_own(card: &mut CardStepper, own: Filling) -> bool
    requires within { own.buffer < all_buffers card.old.board.setting.layout }
    requires out { HasOwn card.old.side.view own }
    ensures { card.new ≡ record card.old { side = side_shut card.old.side own result } }
{
    laws::card_keeps_the_rule();
    let word = card.map().pool(own.buffer);
    card.step::<Brand, Filling>(word, Op::Sub(1), own) == 1
}

/// The pool count is lowered for the entry in hand, whose user count was lowered before. It answers whether no holder is
/// left.
pub(crate) fn lower_returned(card: &mut CardStepper, app: u32, entry: Rqe, buffer: u32) -> bool
    requires within { buffer < all_buffers card.old.board.setting.layout }
    requires in_hand { card.old.side.inside.entry
        ≡ Some (record { app = app; entry = entry; judged = UserLowered buffer }) }
    ensures { card.new ≡ record card.old {
      side = side_both_lowered card.old.side app entry buffer result;
    } }
{
    laws::card_keeps_the_rule();
    let word = card.map().pool(buffer);
    card.step::<Brand, (u32, Rqe, u32)>(word, Op::Sub(1), (app, entry, buffer)) == 1
}
