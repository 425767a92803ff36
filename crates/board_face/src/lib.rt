//! The two faces of a board, which the card and the applications share: what each may do, what each call tells, and the
//! tokens for what they hold. Below them stand the definitions of which boards and all that is above speak: views,
//! events, holders, counts, free places, shown text, returns and strays, the relay of notes and entries, looks. The
//! model is this project's own, after the Linux documents networking/iou-zcrx, networking/page_pool and
//! networking/netmem.
#![tactic(auto)]

mod answers;
mod app_face;
mod laws;
mod nic_face;
mod tokens;
mod views;

pub use answers::{Entry, Polled};
pub use app_face::AppFace;
pub use laws::{
    app_keeps, app_steps, card_keeps, card_steps, cut_law, fill_law, give_law, honour_law,
    lend_law, lend_own_law, place_law, poll_law, release_law, scrub_law, send_law, shut_law,
    spare_law, stray_law, sweep_law, take_law, unused_are_cached,
};
pub use nic_face::NicFace;
pub use tokens::{Held, Loan, Own, Piece};
pub use views::app::{
    AppInside, AppLook, AppSide, AppView, HeldPiece, LentPiece, Origin, Reading, SpareOwn,
    TakenNote, WrittenEntry,
};
pub use views::nic::{
    Dealt, EntryInHand, Fate, Judged, NicInside, NicLook, NicSide, NicView, PlacedText, SentNote,
};
pub use views::parts::{Filling, Making, Setting, Slot};
