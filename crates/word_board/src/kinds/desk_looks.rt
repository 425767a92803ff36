//! Loads by which the desk learns what the rule says of the roles that are back.
ghost use Rattle.std.specs.Prelude.{◌≡◌, ℕ, ◌<◌, ◌≤◌, if◌then◌else◌, nat_eq, count_by, length};
ghost use Rattle.area_layout.specs.Layout.{pool_buffers};
ghost use Rattle.word_board.specs.{Board.{card_of_seat}, Desk.{AreOfBoard, AreOver, AreServed, AllAreBack, HasNoHolders}, Lines.{IsSameSeat}};

use crate::kinds::WORD_BITS;
use crate::rule::{SharedWords, WordSeat};
use crate::steps::{Op, step_as};
use ref_words::laws;
use std::marker::Brand;

/// One card at most is back, and each application that is back with it was served.
pub(crate) fn look_served(words: &SharedWords, desk: &mut WordSeat)
    requires table { desk.old.table_id ≡ words.now.table.shared.table_id }
    requires over { AreOver desk.old.me.0 }
    ensures same { IsSameSeat desk.old desk.new }
    ensures one { length desk.old.me.0.nics ≤ 1 }
    ensures served { AreServed desk.old.me.0 }
    ensures known { AreOfBoard words.now.map desk.old.me.0 }
{
    laws::what_is_over();
    let word = words.map.role(0);
    let table = &words.table;
    step_as::<Brand, ()>(table, desk, word, Op::Load, ());
}

/// Once all are back, no buffer has a holder, and no reserve is cached.
pub(crate) fn look_unheld(words: &SharedWords, desk: &mut WordSeat)
    requires table { desk.old.table_id ≡ words.now.table.shared.table_id }
    requires over { AreOver desk.old.me.0 }
    requires all { AllAreBack words.now.map desk.old.me.0 }
    ensures same { IsSameSeat desk.old desk.new }
    ensures holders { HasNoHolders desk.old.me.0 }
    ensures reserves { (b : ℕ) → pool_buffers words.now.map.layout ≤ b
        → count_by (nat_eq b) (card_of_seat desk.old.me.0).view.cache ≡ 0 }
    ensures served { AreServed desk.old.me.0 }
{
    laws::what_is_over();
    let word = words.map.role(0);
    let table = &words.table;
    step_as::<Brand, ()>(table, desk, word, Op::Load, ());
}

/// Whether a pool buffer is on the free list. Once all are back it is listed or cached, one of both.
pub(crate) fn look_listed(words: &SharedWords, desk: &mut WordSeat, buffer: u32) -> bool
    requires table { desk.old.table_id ≡ words.now.table.shared.table_id }
    requires over { AreOver desk.old.me.0 }
    requires all { AllAreBack words.now.map desk.old.me.0 }
    requires of_pool { buffer < pool_buffers words.now.map.layout }
    ensures same { IsSameSeat desk.old desk.new }
    ensures listed { count_by (nat_eq buffer) (card_of_seat desk.old.me.0).view.cache
        ≡ (if result then 0 else 1) }
{
    laws::what_is_over();
    let word = words.map.free(buffer / WORD_BITS);
    let table = &words.table;
    let found = step_as::<Brand, u32>(table, desk, word, Op::Load, buffer);
    found >> (buffer % WORD_BITS) & 1 == 1
}
