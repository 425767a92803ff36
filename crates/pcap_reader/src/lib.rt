//! Reads a classic pcap capture, as `pcap-savefile(5)` describes it, record by record. Both byte
//! orders are read, with times in microseconds or in nanoseconds.
#![tactic(auto)]

mod capture;
mod filling;
mod header;
mod order;
mod record;

pub use capture::{Capture, Record};
pub use filling::{fill, fill_whole};
pub use order::ByteOrder;
pub use record::read_body;
