ghost use Rattle.std.specs.Prelude.{◌≡◌, ◌<◌, MatchOption};
ghost use Rattle.area_layout.specs.Layout.{pool_buffers};
ghost use Rattle.board_face.specs.{AppCalls.{IsHere}, AppEvents.{app_gist}, NicCalls.{free_words_of}, Steps.{side_picked}};
ghost use Rattle.ref_words.specs.FreeSteps.{side_word_without};
ghost use Rattle.word_board.specs.{AtHand.{AppIsBare, IsReserve, MaySearch}, Spares.{Searched, FoundNone, TookListed, TookSpare, TookNoSpare}, Told.{SawWithout, SawNoneListed, SawReserveHeld, IsLowestSeen, IsFirstSeen}};

use crate::kinds::{
    WORD_BITS, look_free_word, look_reserve, pick_buffer, take_picked, take_reserve,
};
use crate::stepper::AppStepper;

/// An application looks at a word of the free list, and tries to pick the lowest buffer that is listed there. `None` says that
/// no buffer was listed, or that another was faster.
fn pick_in_word(app: &mut AppStepper, word: u32) -> Option<u32>
    requires within { word < free_words_of app.old.board.setting }
    requires may { MaySearch app.old }
    ensures event { MatchOption result
        (app.new ≡ record app.old { side = side_word_without app.old.side word })
        (λ buffer. (app.new ≡ record app.old { side = side_picked app.old.side buffer })
        × (buffer < pool_buffers app.old.board.setting.layout)) }
    ensures told { MatchOption result
        (SawWithout app.old.board.setting (app_gist app.old.side.view) word)
        (λ buffer. IsLowestSeen app.old.board.setting (app_gist app.old.side.view) word buffer) }
{
    let found = look_free_word(app, word);
    if found == 0 {
        return None;
    }
    let buffer = word * WORD_BITS + found.trailing_zeros();
    if pick_buffer(app, buffer) {
        Some(buffer)
    } else {
        None
    }
}

/// An application goes through the words of the free list until it has picked a buffer.
fn pick_listed(app: &mut AppStepper, free_words: u32) -> Option<u32>
    requires set { app.old.side.view.setting ≡ app.old.board.setting }
    requires all { free_words ≡ free_words_of app.old.board.setting }
    requires may { MaySearch app.old }
    ensures board { app.new.board ≡ app.old.board }
    ensures event { Searched app.old.side app.new.side result }
    ensures told { MatchOption result
        (SawNoneListed app.old.board.setting (app_gist app.old.side.view))
        (λ buffer. IsFirstSeen app.old.board.setting (app_gist app.old.side.view) buffer) }
{
    for word in 0..free_words {
        if let Some(buffer) = pick_in_word(app, word) {
            return Some(buffer);
        }
    }
    None
}

/// An application takes a spare from the free list: it picks a buffer, and holds it. `None` says that each word was seen 0, or
/// its lowest buffer was lost to another.
fn spare_listed(app: &mut AppStepper, free_words: u32) -> Option<u32>
    requires bare { AppIsBare app.old }
    requires all { free_words ≡ free_words_of app.old.board.setting }
    requires may { MaySearch app.old }
    requires here { IsHere app.old.side.view }
    ensures board { app.new.board ≡ app.old.board }
    ensures event { MatchOption result
        (FoundNone app.old.side app.new.side)
        (λ buffer. TookListed app.old.side app.new.side buffer) }
    ensures told { MatchOption result
        (SawNoneListed app.old.board.setting (app_gist app.old.side.view))
        (λ buffer. IsFirstSeen app.old.board.setting (app_gist app.old.side.view) buffer) }
{
    let buffer = pick_listed(app, free_words)?;
    take_picked(app, buffer);
    Some(buffer)
}

/// An application takes a spare: a buffer from the free list, else its reserve. `None` says that no word had one, and that the
/// reserve was seen to be held after that.
pub(crate) fn take_spare(app: &mut AppStepper, free_words: u32, reserve: u32) -> Option<u32>
    requires bare { AppIsBare app.old }
    requires all { free_words ≡ free_words_of app.old.board.setting }
    requires reserve { IsReserve app.old reserve }
    requires may { MaySearch app.old }
    requires here { IsHere app.old.side.view }
    ensures board { app.new.board ≡ app.old.board }
    ensures event { MatchOption result
        (TookNoSpare app.old.side app.new.side)
        (λ buffer. TookSpare app.old.side app.new.side buffer) }
    ensures told { MatchOption result
        (SawNoneListed app.old.board.setting (app_gist app.old.side.view)
        × SawReserveHeld app.old.board.setting (app_gist app.old.side.view))
        (λ buffer. IsFirstSeen app.old.board.setting (app_gist app.old.side.view) buffer) }
{
    if let Some(buffer) = spare_listed(app, free_words) {
        return Some(buffer);
    }
    if !look_reserve(app, reserve) {
        return None;
    }
    take_reserve(app, reserve);
    Some(reserve)
}
