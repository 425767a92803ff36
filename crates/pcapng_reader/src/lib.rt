//! Reads a capture record by record, in the classic pcap form or as pcapng (draft-ietf-opsawg-pcapng). Which of them it
//! is, its first four bytes tell.
#![tactic(auto)]

mod any;
mod blocks;
mod fill;
mod head;
mod kind;
mod packet;
mod section;

pub use any::AnyCapture;
pub use pcap_reader::Record;
