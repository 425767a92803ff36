//! Forwarding without copying out first. A carrier takes the bytes of lent buffers away, and tells of each buffer once it needs it
//! no more, as a zero-copy send does (io_uring's `IORING_OP_SEND_ZC` with its notification). `Forward` hands the loans of a stream to
//! a carrier, and gives each back only once the carrier told of it, turn by turn or as a future.
#![tactic(auto)]

mod asking;
mod carrier;
mod carrying;
mod forward;
mod forwarding;
mod laws;
mod outbox;
mod sent;
mod shelf_carrier;
mod stopping;
mod with_parts;

pub use carrier::Carrier;
pub use forward::Forward;
pub use laws::forward_law;
pub use shelf_carrier::ShelfCarrier;
pub use with_parts::WithParts;
