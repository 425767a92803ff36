ghost use Rattle.std.specs.Prelude.{◌≡◌, ◌/◌, ◌<◌, ◌==◌, true, length, Contains, false};
ghost use Rattle.area_layout.specs.Layout.{pool_buffers};
ghost use Rattle.board_face.specs.{AppCalls.{MaySpare}, NicCalls.{free_words_of}, NicEvents.{word_bits}, Used.{PicksAreGiven}, AppEvents.{app_gist}};
ghost use Rattle.ref_words.specs.{FreeSteps.{IsSwept, side_swept, side_nic_listed, side_app_listed, side_word_looked, side_bit_cleared}};
ghost use Rattle.word_board.specs.Told.{SawFree, SawUnlisted};

use crate::stepper::{AppStepper, CardStepper};
use crate::steps::Op;
use ref_words::laws;
use std::marker::Brand;

/// How many pool buffers a word of the free list tells of.
pub(crate) const WORD_BITS: u32 = 64;

/// The card sweeps a word of the free list: the buffers that are listed there enter its cache, the highest first. It answers
/// the number that tells which they are.
pub(crate) fn sweep_word(card: &mut CardStepper, word: u32) -> u64
    requires within { word < free_words_of card.old.board.setting }
    requires room { length card.old.side.view.cache < 64 }
    ensures event { card.new ≡ record card.old { side = side_swept card.old.side word result } }
    ensures swept { IsSwept card.old.side word result }
{
    laws::card_keeps_the_rule();
    let index = card.map().free(word);
    card.step::<Brand, u32>(index, Op::Swap(0), word)
}

/// The card lists a pool buffer that it has in hand.
pub(crate) fn list_by_card(card: &mut CardStepper, buffer: u32)
    requires of_pool { buffer < pool_buffers card.old.board.setting.layout }
    requires in_hand { Contains card.old.side.inside.hands buffer }
    ensures { card.new ≡ record card.old { side = side_nic_listed card.old.side buffer } }
{
    laws::card_keeps_the_rule();
    let word = card.map().free(buffer / WORD_BITS);
    card.step::<Brand, u32>(word, Op::Or(1 << (buffer % WORD_BITS)), buffer);
}

/// An application lists a pool buffer that it has in hand.
pub(crate) fn list_by_app(app: &mut AppStepper, buffer: u32)
    requires of_pool { buffer < pool_buffers app.old.board.setting.layout }
    requires in_hand { Contains app.old.side.inside.hands buffer }
    ensures { app.new ≡ record app.old { side = side_app_listed app.old.side buffer } }
{
    laws::app_keeps_the_rule();
    let word = app.map().free(buffer / WORD_BITS);
    app.step::<Brand, u32>(word, Op::Or(1 << (buffer % WORD_BITS)), buffer);
}

/// An application looks at a word of the free list. 0 says that no buffer is listed there.
pub(crate) fn look_free_word(app: &mut AppStepper, word: u32) -> u64
    requires within { word < free_words_of app.old.board.setting }
    ensures event { app.new ≡ record app.old {
      side = side_word_looked app.old.side word (result == 0);
    } }
    ensures told { SawFree app.old.board.setting (app_gist app.old.side.view) word result }
{
    laws::app_keeps_the_rule();
    let index = app.map().free(word);
    app.step::<Brand, u32>(index, Op::Load, word)
}

/// An application clears the bit of a buffer that it saw listed, to pick the buffer. `false` says that another was faster.
pub(crate) fn pick_buffer(app: &mut AppStepper, buffer: u32) -> bool
    requires within { buffer / word_bits < free_words_of app.old.board.setting }
    requires due { MaySpare app.old.side.view }
    requires given { PicksAreGiven app.old.side }
    ensures event { app.new ≡ record app.old {
      side = side_bit_cleared app.old.side (buffer / word_bits) buffer
          result;
    } }
    ensures of_pool { result ≡ true → buffer < pool_buffers app.old.board.setting.layout }
    ensures told { result ≡ false
        → SawUnlisted app.old.board.setting (app_gist app.old.side.view) buffer }
{
    laws::app_keeps_the_rule();
    let word = app.map().free(buffer / WORD_BITS);
    let bit = buffer % WORD_BITS;
    let found = app.step::<Brand, u32>(word, Op::And(!(1 << bit)), buffer);
    (found >> bit) & 1 == 1
}
