//! Where in a capture its reading stands, for people: nothing is decided by it.

use pcap_reader::ByteOrder;
use std::fmt;

/// The first bytes of a pcapng capture, and of each of its section headers.
const SECTION_HEADER: [u8; 4] = [0x0a, 0x0d, 0x0d, 0x0a];

const MAGIC: usize = 4;

const FILE_HEADER: usize = 24;

const RECORD_HEADER: usize = 16;

/// The type and the total length of a block, and what stands there of a section header: the magic that tells the order.
const BLOCK_HEADER: usize = 12;

const ENHANCED_PACKET: u32 = 6;

const SIMPLE_PACKET: u32 = 3;

const BYTE_ORDER_MAGIC: u32 = 0x1a2b_3c4d;

/// What goes by, as the first four bytes tell it.
#[derive(Clone, Copy)]
enum Form {
    Unknown,
    /// No capture.
    Other,
    /// The file header of the classic form, with the numbers of this order.
    FileHeader(ByteOrder),
    /// Records, with the numbers of this order.
    Records(ByteOrder),
    /// Blocks, with the numbers of this order.
    Blocks(ByteOrder),
}

impl Form {
    /// How many bytes are looked at of what begins here.
    fn header_len(self) -> usize {
        match self {
            Form::Unknown | Form::Other => MAGIC,
            Form::FileHeader(_) => FILE_HEADER,
            Form::Records(_) => RECORD_HEADER,
            Form::Blocks(_) => BLOCK_HEADER,
        }
    }
}

/// The record, or the block, of which bytes went by last.
#[derive(Clone, Copy, Debug, PartialEq, Eq)]
pub(crate) enum LastSeen {
    /// The number of a record, from 1, and how many bytes stand before it.
    Record(u64, u64),
    /// How many bytes stand before a block, and the number of the record that it is, from 1, where it is a packet's.
    Block(u64, Option<u64>),
}

impl fmt::Display for LastSeen {
    fn fmt<W: fmt::Write>(&self, f: &mut fmt::Formatter<W>) -> fmt::Result {
        match self {
            LastSeen::Record(number, at) => write!(f, "record {number}, behind {at} bytes"),
            LastSeen::Block(at, None) => write!(f, "the block behind {at} bytes"),
            LastSeen::Block(at, Some(number)) => {
                write!(f, "record {number}, the block behind {at} bytes")
            }
        }
    }
}

/// Looks at the headers of a capture's records or blocks as its bytes go by.
#[derive(Drop)]
pub(crate) struct RecordCounter {
    form: Form,
    header: [u8; FILE_HEADER],
    /// How many bytes of the header went by.
    filled: usize,
    /// How many bytes behind it are still to come.
    skip: u64,
    /// How many bytes went by.
    gone: u64,
    /// How many of them stand before that header.
    begin: u64,
    /// How many records or packets began.
    count: u64,
    /// Whether the block that went by last is a packet's.
    packet: bool,
}

impl RecordCounter {
    pub(crate) fn new() -> RecordCounter {
        RecordCounter {
            form: Form::Unknown,
            header: [0; FILE_HEADER],
            filled: 0,
            skip: 0,
            gone: 0,
            begin: 0,
            count: 0,
            packet: false,
        }
    }

    /// How many records, or packets, went by or begin there.
    pub(crate) fn count(&self) -> u64 {
        self.count
    }

    /// Where the bytes that went by last stand; `None` before the first record or block.
    pub(crate) fn place(&self) -> Option<LastSeen> {
        match self.form {
            Form::Unknown | Form::Other | Form::FileHeader(_) => None,
            Form::Blocks(_) => {
                let number = self.packet.then_some(self.count);
                Some(LastSeen::Block(self.begin, number))
            }
            Form::Records(_) if self.filled > 0 => {
                Some(LastSeen::Record(self.count.saturating_add(1), self.begin))
            }
            Form::Records(_) if self.count > 0 => Some(LastSeen::Record(self.count, self.begin)),
            Form::Records(_) => None,
        }
    }

    /// These bytes went by.
    pub(crate) fn see(&mut self, piece: &[u8]) {
        let mut rest = piece;
        for _ in 0..piece.len() {
            if rest.is_empty() {
                return;
            }
            let passed = self.skip.min(rest.len() as u64) as usize;
            self.skip -= passed as u64;
            self.gone = self.gone.saturating_add(passed as u64);
            rest = self.fill(&rest[passed..]);
        }
    }

    /// Fills the header, and gives what stands behind it.
    fn fill<'a>(&mut self, piece: &'a [u8]) -> &'a [u8] {
        let len = self.form.header_len();
        let more = len.saturating_sub(self.filled).min(piece.len());
        let (part, rest) = piece.split_at(more);
        if self.filled == 0 && more > 0 {
            self.begin = self.gone;
            self.packet = false;
        }
        self.gone = self.gone.saturating_add(more as u64);
        for byte in part {
            if let Some(place) = self.header.get_mut(self.filled) {
                *place = *byte;
                self.filled += 1;
            }
        }
        if self.filled == len {
            self.begun();
        }
        rest
    }

    /// A header went by whole.
    fn begun(&mut self) {
        match self.form {
            // What the first four bytes begin goes on.
            Form::Unknown => {
                self.form = form_of(&self.header);
                if matches!(self.form, Form::Other) {
                    self.skip = u64::MAX;
                }
            }
            Form::Other => {}
            Form::FileHeader(order) => {
                self.filled = 0;
                self.form = Form::Records(order);
            }
            Form::Records(order) => {
                self.filled = 0;
                self.count = self.count.saturating_add(1);
                self.skip = u64::from(order.number32(&self.header[8..]));
            }
            Form::Blocks(order) => {
                self.filled = 0;
                self.block(order);
            }
        }
    }

    /// The header of a block went by.
    fn block(&mut self, order: ByteOrder) {
        let mut order = order;
        if self.header.starts_with(&SECTION_HEADER) {
            order = section_order(&self.header, order);
            self.form = Form::Blocks(order);
        } else if matches!(
            order.number32(&self.header),
            ENHANCED_PACKET | SIMPLE_PACKET
        ) {
            self.count = self.count.saturating_add(1);
            self.packet = true;
        }
        let total = u64::from(order.number32(&self.header[MAGIC..]));
        self.skip = total.saturating_sub(BLOCK_HEADER as u64);
    }
}

/// What the first four bytes tell.
fn form_of(header: &[u8; FILE_HEADER]) -> Form {
    if header.starts_with(&SECTION_HEADER) {
        return Form::Blocks(ByteOrder::Little);
    }
    match header {
        [0xd4, 0xc3, 0xb2, 0xa1, ..] | [0x4d, 0x3c, 0xb2, 0xa1, ..] => {
            Form::FileHeader(ByteOrder::Little)
        }
        [0xa1, 0xb2, 0xc3, 0xd4, ..] | [0xa1, 0xb2, 0x3c, 0x4d, ..] => {
            Form::FileHeader(ByteOrder::Big)
        }
        _ => Form::Other,
    }
}

/// The order that a section header tells, or this one.
fn section_order(header: &[u8; FILE_HEADER], order: ByteOrder) -> ByteOrder {
    for told in [ByteOrder::Little, ByteOrder::Big] {
        if told.number32(&header[8..]) == BYTE_ORDER_MAGIC {
            return told;
        }
    }
    order
}
