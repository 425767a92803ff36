//! What the reading of a capture brings.

use pcap_reader::Record;
use zr_kinds::Fault;

/// What the reading of a capture brings to a turn of the card.
#[derive(Debug, Drop)]
pub enum Arrived {
    /// The next record, and the bytes of its frame.
    Frame(Record, Vec<u8>),
    /// Nothing: a frame is at hand, none has come yet, or the reading has ended.
    Nothing,
    /// The reading ended, by a fault or at the end of the bytes.
    Over(Option<Fault>),
}
