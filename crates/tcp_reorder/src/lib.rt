//! The reassembly queue of one TCP flow: pieces of payload that came out of order, kept until the stream reaches them. The
//! queue is over any kind of piece, into which it never looks. Its positions, popped or kept, are a map as the copying
//! receiver's.
#![tactic(auto)]

mod distance;
mod laws;
mod piece;
mod places;
mod queue;

pub use laws::{
    first_missing_goes_on, frames_are_judged_alike, own_frame_stays_accepted, parts_are_accepted,
    parts_make_the_frame, queue_holds_what_came,
};
pub use places::{Gap, Span};
pub use queue::RecvQueue;
