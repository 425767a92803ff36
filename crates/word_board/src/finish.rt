//! The end of a board.
ghost use Rattle.std.specs.Prelude.{◌≡◌, ◌<◌, slice_index};
ghost use Rattle.area_layout.specs.Layout.{pool_buffers, all_buffers};
ghost use Rattle.board_face.specs.{Ended.{IsEachOnce}, NicCalls.{apps_of}};
ghost use Rattle.ref_words.specs.Words.{pool_at, user_word_at};
ghost use Rattle.word_board.specs.{Board.{card_of_seat}, Desk.{AllAreBack, AreOver, AreServed, CountsAreOver, HasNoHolders, HaveNoCounts, StandInOrder}};

use crate::board::WordBoard;
use crate::desk::Desk;
use crate::kinds::{look_listed, look_unheld};
use crate::lines::Line;
use crate::rule::{SharedWords, WordSeat};
use atomic_table::Closed;
use board_face::Setting;
use board_parts::all_free;
use ref_words::{WordMap, laws};
use std::alloc::Global;
use std::marker::Model;
use zr_kinds::Ended;

/// The words that a board was closed with.
pub struct ClosedWords {
    closed: Closed<Line, Global>,
    map: WordMap,
}

impl Model for ClosedWords {
    ghost use Rattle.std.specs.{Prelude.{◌≡◌, ◌≤◌}, Slots.{slots_items, slots_len, IsFull}};
    ghost use Rattle.ref_words.specs.Words.{table_words};
    ghost use Rattle.word_board.specs.Desk.{TheWords};

    ghost Value = { TheWords };

    ghost view = { λ c. record { setting = c.map; words = slots_items c.closed.words } };

    ghost invariant = { λ c. IsFull c.closed.words × (table_words c.map ≤ slots_len c.closed.words) × IsFull c.closed.slots };
}

impl Drop for ClosedWords {
    fn drop(self) {
        let ClosedWords { mut closed, map: _ } = self;
        for line in 0..closed.slot_count() {
            closed.take(line);
        }
        closed.free();
    }
}

impl ClosedWords {
    /// The word of a buffer's pool count.
    pub fn pool(&self, buffer: u32) -> u64
        requires { buffer < all_buffers self.now.setting.layout }
        ensures { result ≡ slice_index self.now.words (pool_at self.now.setting buffer) }
    {
        self.closed.word(self.map.pool(buffer))
    }

    /// The word of an application's user count for a buffer.
    pub fn user(&self, app: u32, buffer: u32) -> u64
        requires app { app < apps_of self.now.setting }
        requires buffer { buffer < all_buffers self.now.setting.layout }
        ensures { result ≡ slice_index self.now.words (user_word_at self.now.setting app buffer) }
    {
        self.closed.word(self.map.user(app, buffer))
    }
}

/// The words of a table that is closed once all are back at its first seat.
fn close_words(words: SharedWords, desk: WordSeat) -> ClosedWords
    requires table { desk.table_id ≡ words.table.shared.table_id }
    requires first { desk.id ≡ 0 }
    requires over { AreOver desk.me.0 }
    requires all { AllAreBack words.map desk.me.0 }
    ensures setting { result.setting ≡ words.map }
    ensures counts { HaveNoCounts words.map result.words }
{
    laws::what_is_over();
    let SharedWords { table, map } = words;
    let closed = table.close_with(desk);
    ClosedWords { closed, map }
}

/// What the rule says of the words of counts, once all are back at the desk's seat.
fn counts_are_over(setting: &Setting, desk: &WordSeat)
    requires over { AreOver desk.now.me.0 }
    requires all { AllAreBack setting.now desk.now.me.0 }
    ensures { CountsAreOver setting.now desk.now.me.0 }
{
    laws::what_is_over();
    let _ = setting;
    let _ = desk;
}

impl WordBoard {
    /// Once every role is back, each word of counts is 0 for as long as the board stays, those of the reserves too. It does
    /// nothing: its contract says so.
    pub fn uncounted(&self, desk: &Desk)
        requires desk { desk.now.board ≡ self.now }
        requires back { AllAreBack self.now.setting desk.now.view }
        ensures { CountsAreOver self.now.setting desk.now.view }
    {
        counts_are_over(&desk.setting, &desk.seat);
    }

    /// Closes a board whose roles have all gone back, and answers its free buffers, and the words that it was closed with: each
    /// word of counts is 0, those of the reserves too. It takes no memory.
    pub fn close(self, desk: Desk) -> (Ended, ClosedWords)
        requires desk { desk.board ≡ self }
        requires back { AllAreBack self.setting desk.view }
        ensures once { IsEachOnce (pool_buffers self.setting.layout) result.0.free.items }
        ensures order { StandInOrder (card_of_seat desk.view).view.cache result.0.free.items }
        ensures holders { HasNoHolders desk.view }
        ensures served { AreServed desk.view }
        ensures setting { result.1.setting ≡ self.setting }
        ensures counts { HaveNoCounts self.setting result.1.words }
    {
        let Desk {
            mut seat,
            cache,
            mut listed,
            mut free,
            ..
        } = desk;
        let words = &self.words;
        look_unheld(words, &mut seat);
        for buffer in 0..listed.len() as u32 {
            listed[buffer as usize] = look_listed(words, &mut seat, buffer);
        }
        all_free(&cache, listed.as_slice(), &mut free);
        let WordBoard { words } = self;
        (Ended { free }, close_words(words, seat))
    }

    /// Ends a board whose roles have all gone back, and answers its free buffers. It takes no memory.
    pub fn finish(self, desk: Desk) -> Ended
        requires desk { desk.board ≡ self }
        requires back { AllAreBack self.setting desk.view }
        ensures once { IsEachOnce (pool_buffers self.setting.layout) result.free.items }
        ensures order { StandInOrder (card_of_seat desk.view).view.cache result.free.items }
        ensures holders { HasNoHolders desk.view }
        ensures served { AreServed desk.view }
    {
        self.close(desk).0
    }
}
