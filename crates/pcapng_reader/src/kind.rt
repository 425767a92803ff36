ghost use Rattle.std.specs.Prelude.{◌≡◌, ◌≤◌, ◌||◌, length};
ghost use Rattle.pcapng_reader.specs.Blocks.{is_section_header, block_kind_of, fixed_len, begin_len, is_packet, misfits};

use pcap_reader::ByteOrder;

/// The type of a section header, alike in both orders.
const SECTION_HEADER: [u8; 4] = [0x0a, 0x0d, 0x0d, 0x0a];

/// These bytes begin with the type of a section header.
pub(crate) fn is_section_header(bytes: &[u8]) -> bool
    ensures { result ≡ is_section_header bytes.now }
{
    bytes.starts_with(&SECTION_HEADER)
}

/// What a block is, by its type.
#[derive(Clone, Copy, Debug, PartialEq, Eq)]
pub enum Kind {
    /// Begins a section and tells the order of its numbers.
    SectionHeader,
    /// Adds an interface to the section.
    InterfaceDescription,
    /// A packet of any interface of the section.
    EnhancedPacket,
    /// A packet of the section's first interface.
    SimplePacket,
    /// All others, which are passed over.
    Other,
}

impl Kind {
    /// The kind of the block that begins with these bytes, in a section of this order.
    pub(crate) fn of(order: ByteOrder, bytes: &[u8]) -> Kind
        requires { 4 ≤ length bytes.now }
        ensures { result ≡ block_kind_of order bytes.now }
    {
        if is_section_header(bytes) {
            return Kind::SectionHeader;
        }
        match order.number32(bytes) {
            1 => Kind::InterfaceDescription,
            6 => Kind::EnhancedPacket,
            3 => Kind::SimplePacket,
            _ => Kind::Other,
        }
    }

    /// How many bytes tell the order and the total length.
    pub(crate) fn begin_len(self) -> usize
        ensures { result ≡ begin_len self }
    {
        match self {
            Kind::SectionHeader => 12,
            _ => 8,
        }
    }

    /// How many bytes the block has at least before its packet's bytes or its options.
    pub(crate) fn fixed_len(self) -> usize
        ensures { result ≡ fixed_len self }
    {
        match self {
            Kind::SectionHeader => 24,
            Kind::InterfaceDescription => 16,
            Kind::EnhancedPacket => 28,
            Kind::SimplePacket => 12,
            Kind::Other => 8,
        }
    }

    pub(crate) fn is_packet(self) -> bool
        ensures { result ≡ is_packet self }
    {
        matches!(self, Kind::EnhancedPacket | Kind::SimplePacket)
    }

    /// The block states a total length that it can't have.
    pub(crate) fn misfits(self, total: u32) -> bool
        ensures { result ≡ misfits self total }
    {
        (total as usize) < self.fixed_len() + 4 || total % 4 != 0
    }
}
