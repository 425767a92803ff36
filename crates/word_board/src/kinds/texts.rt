ghost use Rattle.std.specs.Prelude.{◌≡◌, ◌+◌, ◌<◌, ◌≤◌, length, None};
ghost use Rattle.area_layout.specs.Layout.{LiesIn};
ghost use Rattle.board_face.specs.{AppCalls.{HasSpare}, AppEvents.{begin_place, filled}, NicCalls.{HasOwn}, NicEvents.{placed}, Sides.{nic_at, app_at}, Tokens.{next_place}};

use crate::stepper::{AppStepper, CardStepper};
use crate::steps::Op;
use board_face::Filling;
use ref_words::laws;
use std::marker::Brand;

/// The card places a text where the buffer's next bytes go: it begins a piece, for which the pool count is raised, with its lines
/// at hand, and gives them back with the text.
pub(crate) fn place_text(card: &mut CardStepper, own: Filling, bytes: &[u8])
    requires out { HasOwn card.old.side.view own }
    requires some { 0 < length bytes.now }
    requires fits { own.start + length bytes.now ≤ own.size }
    requires lies { LiesIn card.old.board.setting.layout (next_place own (length bytes.now)) }
    requires idle { card.old.side.inside.making ≡ None }
    ensures { card.new ≡ record card.old {
      side = nic_at card.old.side
          (placed card.old.side.view own bytes.now);
    } }
{
    laws::card_keeps_the_rule();
    let word = card.map().pool(own.buffer);
    let first = card.map().line(own.buffer, own.start);
    card.store_text::<Brand, (Filling, &[u8])>(word, Op::Add(1), first, bytes, (own, bytes));
}

/// An application fills a spare: it takes the lines of the text in a load, and gives them back with it.
pub(crate) fn fill_text(app: &mut AppStepper, own: Filling, bytes: &[u8])
    requires out { HasSpare app.old.side.view own }
    requires empty { own.start ≡ 0 }
    requires some { 0 < length bytes.now }
    requires few { length bytes.now ≤ 256 }
    requires lies { LiesIn app.old.board.setting.layout
        (begin_place own.buffer (length bytes.now)) }
    requires idle { app.old.side.inside.making ≡ None }
    ensures { app.new ≡ record app.old {
      side = app_at app.old.side (filled app.old.side.view own bytes.now);
    } }
{
    laws::app_keeps_the_rule();
    let word = app.map().phase(0);
    let first = app.map().line(own.buffer, 0);
    app.store_text::<Brand, (Filling, &[u8])>(word, Op::Load, first, bytes, (own, bytes));
}
