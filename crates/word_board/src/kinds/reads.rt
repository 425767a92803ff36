ghost use Rattle.std.specs.Prelude.{◌≡◌, ◌+◌, ◌≤◌, length, None};
ghost use Rattle.area_layout.specs.Layout.{LiesIn};
ghost use Rattle.board_face.specs.{AppCalls.{HasLoan, ShowsCopy}, AppEvents.{loan_origin, has_read}, Sides.{app_at}};

use crate::stepper::AppStepper;
use ref_words::{LINE_BYTES, laws};
use std::marker::Brand;
use zr_kinds::Place;

/// An application reads bytes of a loan, from its byte `from` on: it takes their lines, and gives them back as they are. What it
/// reads of a copied text is known at once.
pub(crate) fn read_text(app: &mut AppStepper, loan: Place, from: u32, into: &mut [u8])
    requires out { HasLoan app.old.side.view loan }
    requires lies { LiesIn app.old.board.setting.layout loan }
    requires within { from + length into.old ≤ loan.len }
    requires idle { app.old.side.inside.making ≡ None }
    ensures event { app.new ≡ record app.old {
      side = app_at app.old.side (has_read app.old.side.view loan from into.new);
    } }
    ensures copied { ShowsCopy (loan_origin app.old.side.view loan) from into.new }
{
    if into.is_empty() {
        return;
    }
    laws::app_keeps_the_rule();
    let at = (app.map().layout().byte_of(&loan) + from as u64) as usize;
    let many = into.len() as u32;
    app.read_text::<Brand, (Place, u32, u32)>(
        at / LINE_BYTES,
        at % LINE_BYTES,
        into,
        (loan, from, many),
    );
}
