ghost use Rattle.std.specs.Prelude.{◌≡◌, ◌<◌, slice_index};
ghost use Rattle.area_layout.specs.Layout.{all_buffers, pool_buffers};
ghost use Rattle.board_face.specs.NicCalls.{apps_of};
ghost use Rattle.ref_words.specs.Sides.{HasScrubLists};
ghost use Rattle.word_board.specs.{AtHand.{AppIsBare, BeginsScrub, ScrubsAt}, Board.{ScrubbedOne, ScrubbedAll}};

use crate::kinds::{list_last_by_app, lower_scrubbed, scrub_user};
use crate::stepper::AppStepper;

/// An application's scrub takes what is owed of the buffer to which it came: all of the user count, and as many references
/// from the pool count. A pool buffer that comes to be free by that is listed.
pub(crate) fn scrub_one(app: &mut AppStepper, buffer: u32, pool: u32)
    requires bare { AppIsBare app.old }
    requires at { ScrubsAt app.old buffer }
    requires pool { pool ≡ pool_buffers app.old.board.setting.layout }
    requires lists { HasScrubLists app.old.board.setting app.old.side }
    requires clear { slice_index app.old.side.inside.scrub_owes buffer ≡ 0 }
    ensures board { app.new.board ≡ app.old.board }
    ensures event { ScrubbedOne app.old.side app.new.side buffer }
{
    let n = scrub_user(app, buffer);
    if n > 0 {
        let last = lower_scrubbed(app, buffer, n);
        list_last_by_app(app, buffer, last && buffer < pool);
    }
}

/// An application's scrub takes all that is owed, buffer by buffer. Each pool buffer that comes to be free by that is listed.
pub(crate) fn scrub_counts(app: &mut AppStepper, buffers: u32, pool: u32)
    requires few { app.old.side.view.app < apps_of app.old.board.setting }
    requires bare { AppIsBare app.old }
    requires all { buffers ≡ all_buffers app.old.board.setting.layout }
    requires pool { pool ≡ pool_buffers app.old.board.setting.layout }
    requires begins { BeginsScrub app.old }
    ensures board { app.new.board ≡ app.old.board }
    ensures event { ScrubbedAll app.old.side app.new.side }
{
    for buffer in 0..buffers {
        scrub_one(app, buffer, pool);
    }
}
