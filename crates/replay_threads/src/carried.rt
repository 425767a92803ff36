//! What goes from the reading to the card.
ghost use Rattle.replay_threads.specs.Carried.{MayFollow};

use pcap_reader::Record;
use rtrb::Protocol;
use zr_kinds::Fault;

/// What the reading sends to the card.
#[derive(Debug, Drop)]
pub enum Carried {
    /// A record, its number from 1, and the bytes of its frame.
    Frame(u32, Record, Vec<u8>),
    /// The reading ended, by a fault or at the end of the bytes. It is sent last, once.
    Over(Option<Fault>),
}

/// The rule of the ring: records come in the order of their numbers, each with its bytes, and nothing comes behind the end.
#[derive(Clone, Copy)]
pub struct InOrder;

impl Protocol<Carried> for InOrder {
    ghost allows = { MayFollow };
}
