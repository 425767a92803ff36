//! The steps of each kind, each with what the stepping seat has done by it and the law that it cites, and the calls that are
//! made of several.

mod app_counts;
mod card_counts;
mod card_entries;
mod closing;
mod dealing;
mod desk_looks;
mod entries;
mod free;
mod notes;
mod phases;
mod reads;
mod refill_looks;
mod returns;
mod roles;
mod scrubs;
mod spares;
mod taken_notes;
mod texts;
mod users;

pub(crate) use app_counts::{cut_piece, lower_scrubbed, release_held, take_picked, take_reserve};
pub(crate) use card_counts::{lower_returned, shut_own, take_buffer};
pub(crate) use card_entries::{
    free_honoured, free_stray, free_void, load_entry, load_last, look_entry, take_entry,
};
pub(crate) use closing::{Loaded, honour_entry, list_last_by_app, release_piece, shut_buffer};
pub(crate) use dealing::next_entry;
pub(crate) use desk_looks::{look_listed, look_served, look_unheld};
pub(crate) use entries::{
    give_entry, look_refill, publish_loan, publish_raw, push_raw, store_refill,
};
pub(crate) use free::{
    WORD_BITS, list_by_app, list_by_card, look_free_word, pick_buffer, sweep_word,
};
pub(crate) use notes::{
    look_note, payload_words, publish_linear, publish_note, send_linear, send_note, store_note,
};
pub(crate) use phases::{
    abandon_loan, end_card, leave_app, look_end, look_left, look_reserve, seek_note,
};
pub(crate) use reads::read_text;
pub(crate) use refill_looks::{fall_quiet, look_any, look_at_last, look_raw, settle};
pub(crate) use returns::give_back;
pub(crate) use roles::{deal_role, join_seats, take_app_role, take_card_role};
pub(crate) use scrubs::{scrub_counts, scrub_one};
pub(crate) use spares::take_spare;
pub(crate) use taken_notes::{free_linear, free_note, load_slot, poll};
pub(crate) use texts::{fill_text, place_text};
pub(crate) use users::{lend_held, lend_spare, look_user, lower_user, scrub_user};
