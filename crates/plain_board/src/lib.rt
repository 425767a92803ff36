//! The board for one thread: counts, rings and free buffers in plain arrays. The card and each application reach it through
//! a part that holds the whole board and gives it back; each board that a call gives is sound (`IsSound`). A board logs
//! what happens to the holders of its buffers, as far as its log has room: an `EventLog` takes its memory as it is opened,
//! and closes for good at the first event for which it has no room. What a log keeps true of a board's sides is `IsLogged`,
//! whether it is whole or not; `log_laws` has its laws. Begin with `board.rt` and `contents.rt`.
#![tactic(auto)]

mod app;
mod app_end;
mod app_entries;
mod app_loans;
mod app_notes;
mod app_pieces;
mod app_spares;
mod board;
mod card_entries;
mod card_notes;
mod card_places;
mod contents;
mod counts;
mod finish;
mod laws;
mod log;
pub mod log_laws;
mod logged;
mod nic;
mod others;
mod readers;

pub use app::PlainApp;
pub use board::PlainBoard;
pub use laws::{boards_end_well, lent_texts_stand, users_are_loans};
pub use log::EventLog;
pub use nic::PlainNic;
pub use others::{Applications, Others};
