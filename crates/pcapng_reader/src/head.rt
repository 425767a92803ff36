ghost use Rattle.std.specs.Prelude.{◌≡◌, ◌≤◌, ◌+◌, ◌-◌, length, IfOk};
ghost use Rattle.pcap_reader.specs.Capture.{HasReadCause};
ghost use Rattle.pcapng_reader.specs.{Blocks.{fixed_len, block_kind_of, magic_order, order_told}, Steps.{told, IsHead, TakesHead}};

use crate::fill::fill_part;
use crate::kind::Kind;
use crate::section::OpenSection;
use pcap_reader::ByteOrder;
use zr_io::Source;
use zr_kinds::Fault;

/// How many bytes each block has at least before its last number: a type and a total length.
pub(crate) const START_LEN: usize = 8;

/// The most that a block has before its packet's bytes or its options.
const MAX_FIXED: usize = 28;

const BYTE_ORDER_MAGIC: u32 = 0x1a2b_3c4d;

/// The begin of a block: what it is, and its bytes before a packet's bytes or the options.
#[derive(Drop)]
pub(crate) struct Head {
    pub(crate) kind: Kind,
    pub(crate) order: ByteOrder,
    pub(crate) total: u32,
    pub(crate) bytes: [u8; MAX_FIXED],
}

impl Head {
    /// How many bytes may stand between the fixed ones and the last number.
    pub(crate) fn room(&self) -> u32
        requires { fixed_len self.now.kind + 4 ≤ self.now.total }
        ensures { result ≡ self.now.total - (fixed_len self.now.kind + 4) }
    {
        self.total - (self.kind.fixed_len() as u32 + 4)
    }
}

/// Reads the begin of the block whose first eight bytes are `start`.
pub(crate) fn read_head<S: Source>(
    source: &mut S,
    section: &OpenSection,
    start: [u8; START_LEN],
) -> Result<Head, Fault>
    ensures kind { IfOk result (λ head. head.kind ≡ block_kind_of section.now.order start) }
    ensures is { IfOk result (IsHead (told section.now)) }
    ensures takes { TakesHead (told section.now) start (S.left source.old)
        (S.left source.new) result }
    ensures cause { HasReadCause (S.faults source.old) (S.faults source.new) result }
{
    let mut bytes = [0; MAX_FIXED];
    bytes[..START_LEN].copy_from_slice(&start);
    let kind = Kind::of(section.order, &start);
    let begun = kind.begin_len();
    fill_part(source, &mut bytes, START_LEN, begun)?;
    let order = order_told(section, kind, &bytes).ok_or(Fault::BadBlock)?;
    let total = order.number32(&bytes[4..]);
    if section.refuses(kind, total) {
        return Err(Fault::BadBlock);
    }
    fill_part(source, &mut bytes, begun, kind.fixed_len())?;
    Ok(Head {
        kind,
        order,
        total,
        bytes,
    })
}

/// The order of a block's numbers, which a section header tells itself.
fn order_told(section: &OpenSection, kind: Kind, bytes: &[u8]) -> Option<ByteOrder>
    requires { 12 ≤ length bytes.now }
    ensures { result ≡ order_told (told section.now) kind bytes.now }
{
    if kind == Kind::SectionHeader {
        magic_order(&bytes[START_LEN..])
    } else {
        Some(section.order)
    }
}

/// The order that a section's magic tells.
fn magic_order(magic: &[u8]) -> Option<ByteOrder>
    requires { 4 ≤ length magic.now }
    ensures { result ≡ magic_order magic.now }
{
    if ByteOrder::Little.number32(magic) == BYTE_ORDER_MAGIC {
        Some(ByteOrder::Little)
    } else if ByteOrder::Big.number32(magic) == BYTE_ORDER_MAGIC {
        Some(ByteOrder::Big)
    } else {
        None
    }
}
