ghost use Rattle.std.specs.Prelude.{◌≡◌, ◌+◌, ◌-◌, ◌^◌, ◌<◌, ◌||◌, []};
ghost use Rattle.pcapng_reader.specs.{Blocks.{limited, first_snaplen, is_too_many, misfits}, Steps.{told}};

use crate::kind::Kind;
use pcap_reader::ByteOrder;

/// How many blocks that are no packets a capture may have.
const MAX_OTHERS: u32 = 16_777_216;

/// An interface of a section, as its block describes it.
#[derive(Clone, Copy, Debug, PartialEq, Eq)]
pub struct Interface {
    pub(crate) link_type: u16,
    /// How many bytes of a packet are captured at most; 0 is no limit.
    pub(crate) snaplen: u32,
}

/// How a section goes on.
#[derive(Debug, Drop)]
pub(crate) struct OpenSection {
    pub(crate) order: ByteOrder,
    pub(crate) interfaces: Vec<Interface>,
    /// How many blocks that are no packets came in the capture so far.
    pub(crate) others: u32,
}

impl OpenSection {
    /// A block of this kind and total length may not come here.
    pub(crate) fn refuses(&self, kind: Kind, total: u32) -> bool
        ensures { result ≡ (is_too_many (told self.now) kind || misfits kind total) }
    {
        let is_too_many = !kind.is_packet() && self.others >= MAX_OTHERS;
        is_too_many || kind.misfits(total)
    }

    /// Goes on as a new section of this order, without interfaces.
    pub(crate) fn begin(&mut self, order: ByteOrder)
        requires { self.old.others < 2 ^ 32 - 1 }
        ensures { told self.new
            ≡ record { order = order; interfaces = []; others = self.old.others + 1 } }
    {
        self.order = order;
        self.interfaces.clear();
        self.others += 1;
    }

    /// What the first interface captures of a packet of this length.
    pub(crate) fn limited(&self, len: u32) -> u32
        ensures { result ≡ limited (first_snaplen (told self.now).interfaces) len }
    {
        match self.interfaces.first() {
            Some(first) if first.snaplen != 0 => len.min(first.snaplen),
            _ => len,
        }
    }
}
