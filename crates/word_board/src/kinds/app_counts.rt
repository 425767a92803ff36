ghost use Rattle.std.specs.Prelude.{◌≡◌, ◌+◌, ◌^◌, ◌<◌, true, slice_index, Contains};
ghost use Rattle.area_layout.specs.Layout.{all_buffers};
ghost use Rattle.board_face.specs.{AppCalls.{IsHere, HasHeld, HasNoneIn, MaySpare}, AppEvents.{cut}, Sides.{app_at}, Steps.{HasSearched, side_released, side_spare_begun, side_owes_lowered}};
ghost use Rattle.word_board.specs.AtHand.{IsReserve};

use crate::stepper::AppStepper;
use crate::steps::Op;
use ref_words::laws;
use std::marker::Brand;
use zr_kinds::Place;

/// An application holds a buffer that it picked from the free list as a spare: its pool count is raised from 0. Nothing of the
/// application's lay there.
pub(crate) fn take_picked(app: &mut AppStepper, buffer: u32)
    requires within { buffer < all_buffers app.old.board.setting.layout }
    requires here { IsHere app.old.side.view }
    requires in_hand { Contains app.old.side.inside.hands buffer }
    requires due { MaySpare app.old.side.view }
    ensures event { app.new ≡ record app.old { side = side_spare_begun app.old.side buffer } }
    ensures apart { HasNoneIn app.old.side.view buffer }
{
    laws::app_keeps_the_rule();
    let word = app.map().pool(buffer);
    app.step::<Brand, u32>(word, Op::Add(1), buffer);
}

/// An application that has looked at each free word holds its reserve, which it saw free, as a spare: its pool count is raised
/// from 0. Nothing of the application's lay there.
pub(crate) fn take_reserve(app: &mut AppStepper, reserve: u32)
    requires reserve { IsReserve app.old reserve }
    requires here { IsHere app.old.side.view }
    requires searched { HasSearched app.old.side }
    requires free { app.old.side.inside.reserve_seen_free ≡ true }
    requires due { MaySpare app.old.side.view }
    ensures event { app.new ≡ record app.old { side = side_spare_begun app.old.side reserve } }
    ensures apart { HasNoneIn app.old.side.view reserve }
{
    laws::app_keeps_the_rule();
    let word = app.map().pool(reserve);
    app.step::<Brand, u32>(word, Op::Add(1), reserve);
}

/// An application cuts a held piece in two behind its first `at` bytes: the pool count is raised. No
/// piece ends behind what an offset can name.
pub(crate) fn cut_piece(app: &mut AppStepper, place: Place, at: u32)
    requires within { place.buffer < all_buffers app.old.board.setting.layout }
    requires out { HasHeld app.old.side.view place }
    requires front { 0 < at }
    requires rest { at < place.len }
    ensures event { app.new ≡ record app.old {
      side = app_at app.old.side (cut app.old.side.view place at);
    } }
    ensures ends { place.offset + place.len < 2 ^ 32 }
{
    laws::app_keeps_the_rule();
    let word = app.map().pool(place.buffer);
    app.step::<Brand, (Place, u32)>(word, Op::Add(1), (place, at));
}

/// An application gives a held piece up. It answers whether no holder of the buffer is left.
pub(crate) fn release_held(app: &mut AppStepper, place: Place) -> bool
    requires within { place.buffer < all_buffers app.old.board.setting.layout }
    requires out { HasHeld app.old.side.view place }
    ensures { app.new ≡ record app.old { side = side_released app.old.side place result } }
{
    laws::app_keeps_the_rule();
    let word = app.map().pool(place.buffer);
    app.step::<Brand, Place>(word, Op::Sub(1), place) == 1
}

/// What a scrub took of a buffer's user count, `n` references, is taken from its pool count. It answers whether no holder is
/// left.
pub(crate) fn lower_scrubbed(app: &mut AppStepper, buffer: u32, n: u64) -> bool
    requires within { buffer < all_buffers app.old.board.setting.layout }
    requires owes { slice_index app.old.side.inside.scrub_owes buffer ≡ n }
    requires some { 0 < n }
    ensures { app.new ≡ record app.old { side = side_owes_lowered app.old.side buffer result } }
{
    laws::app_keeps_the_rule();
    let word = app.map().pool(buffer);
    app.step::<Brand, (u32, u64)>(word, Op::Sub(n), (buffer, n)) == n
}
