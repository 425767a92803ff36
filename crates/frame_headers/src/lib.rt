//! The headers of a captured frame: Ethernet, IP and TCP.
#![tactic(auto)]

mod bytes;
mod frame;
mod ipv4;
mod ipv6;
mod segment;
mod tcp;

pub use frame::read_frame;
pub use segment::{Addr, Seen, Segment};
