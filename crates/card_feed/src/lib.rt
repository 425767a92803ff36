//! What the card does in one turn, over any source and any board, and what the turns of a run come to; the tally of what
//! was read, by class, and where a reading ends. Begin with `turn.rt`, and with `Feed` in `specs/`.
#![tactic(auto)]

mod arrived;
mod feed;
mod intake;
mod laws;
mod outcome;
mod plan;
mod playing;
mod preparing;
mod reading;
mod receiving;
mod tally;
mod turn;

pub use arrived::Arrived;
pub use feed::Feed;
pub use intake::Stage;
pub use laws::{
    accounts_give_streams, closed_feeds_show, feeds_send_own, feeds_send_whole,
    first_frames_stand_together, new_feeds_stand, offers_have_apps, own_notes_mark_no_other,
    shown_notes_are_own, shown_notes_are_whole,
};
pub use outcome::Outcome;
pub use plan::Plan;
pub use preparing::nic_prepare;
pub use turn::{nic_step, nic_turn};
