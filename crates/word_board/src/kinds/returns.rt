ghost use Rattle.std.specs.Prelude.{◌≡◌, ◌<◌, Some};
ghost use Rattle.area_layout.specs.Layout.{all_buffers};
ghost use Rattle.board_face.specs.{NicCalls.{apps_of}, Steps.{side_both_lowered}, declared.views.nic.Judged.TheVariants.{Owed}};

use crate::kinds::{lower_returned, lower_user};
use crate::stepper::CardStepper;
use zr_kinds::Rqe;

/// Both counts are lowered for an entry in hand that is a return, the user count first. It answers whether no holder of the
/// buffer is left.
pub(crate) fn give_back(card: &mut CardStepper, app: u32, entry: Rqe, buffer: u32) -> bool
    requires app { app < apps_of card.old.board.setting }
    requires within { buffer < all_buffers card.old.board.setting.layout }
    requires in_hand { card.old.side.inside.entry
        ≡ Some (record { app = app; entry = entry; judged = Owed buffer }) }
    ensures { card.new ≡ record card.old {
      side = side_both_lowered card.old.side app entry buffer result;
    } }
{
    lower_user(card, app, entry, buffer);
    lower_returned(card, app, entry, buffer)
}
