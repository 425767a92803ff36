ghost use Rattle.std.specs.Prelude.{◌≡◌, ◌+◌, ◌<◌, []};
ghost use Rattle.board_face.specs.{NicCalls.{apps_of}, Opened.{new_nic, new_app}};
ghost use Rattle.ref_words.specs.{Seated.{times_in, card_seat_view, app_seat_view, due_view, dealt_out, both_sides}, declared.view.View.{View}};

use crate::rule::{SharedWords, Together, WordSeat};
use crate::steps::{Op, deal_as, step_as};
use ref_words::laws;
use std::marker::Brand;

/// The desk deals a role out that it hasn't dealt before: a new seat comes to which it is due.
pub(crate) fn deal_role(words: &SharedWords, desk: &mut WordSeat, role: usize) -> WordSeat
    requires table { desk.old.table_id ≡ words.now.table.shared.table_id }
    requires first { desk.old.id ≡ 0 }
    requires fresh { times_in {V = View} (λ v. v.dealt) (λ x. x) role desk.old.me.0.dealt ≡ 0 }
    ensures table { desk.new.table_id ≡ desk.old.table_id }
    ensures number { desk.new.id ≡ desk.old.id }
    ensures desk { desk.new.me ≡ (dealt_out role desk.old.me.0, desk.old.me.1) }
    ensures seat { (result.table_id ≡ desk.old.table_id) × (result.me ≡ (due_view role, [])) }
{
    laws::role_is_dealt();
    let table = &words.table;
    deal_as::<Brand, usize>(table, desk, role)
}

/// A seat to which no role is due goes back to the desk, which has the sides of both from then on.
pub(crate) fn join_seats(words: &SharedWords, desk: &mut WordSeat, other: WordSeat)
    requires table { desk.old.table_id ≡ words.now.table.shared.table_id }
    requires other { other.table_id ≡ words.now.table.shared.table_id }
    requires bare { other.me.1 ≡ [] }
    requires due { other.me.0.due ≡ [] }
    requires dealt { other.me.0.dealt ≡ [] }
    ensures table { desk.new.table_id ≡ desk.old.table_id }
    ensures number { desk.new.id ≡ desk.old.id }
    ensures desk { desk.new.me ≡ (both_sides desk.old.me.0 other.me.0, desk.old.me.1) }
{
    laws::seats_join();
    let table = &words.table;
    table.shared.join_seat::<Together>(desk, other);
}

/// A new seat takes the card's role, of which nothing was done yet.
pub(crate) fn take_card_role(words: &SharedWords, seat: &mut WordSeat)
    requires table { seat.old.table_id ≡ words.now.table.shared.table_id }
    requires due { seat.old.me ≡ (due_view 0, []) }
    ensures table { seat.new.table_id ≡ seat.old.table_id }
    ensures me { seat.new.me ≡ (card_seat_view (new_nic words.now.map), []) }
{
    laws::role_is_taken();
    let word = words.map.role(0);
    let table = &words.table;
    step_as::<Brand, ()>(table, seat, word, Op::Swap(1), ());
}

/// A new seat takes an application's role, of which nothing was done yet.
pub(crate) fn take_app_role(words: &SharedWords, seat: &mut WordSeat, app: u32)
    requires table { seat.old.table_id ≡ words.now.table.shared.table_id }
    requires app { app < apps_of words.now.map }
    requires due { seat.old.me ≡ (due_view (1 + app), []) }
    ensures table { seat.new.table_id ≡ seat.old.table_id }
    ensures me { seat.new.me ≡ (app_seat_view (new_app words.now.map app), []) }
{
    laws::role_is_taken();
    let word = words.map.role(1 + app as usize);
    let table = &words.table;
    step_as::<Brand, u32>(table, seat, word, Op::Swap(1), app);
}
