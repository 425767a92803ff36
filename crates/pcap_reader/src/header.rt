ghost use Rattle.std.specs.Prelude.{◌≡◌};
ghost use Rattle.pcap_reader.specs.{Capture.{HasReadCause}, Records.{order_of}, Steps.{TakesFields}};

use crate::filling::fill_whole;
use crate::order::ByteOrder;
use zr_io::Source;
use zr_kinds::Fault;

const LITTLE_MICROSECONDS: [u8; 4] = [0xd4, 0xc3, 0xb2, 0xa1];

const BIG_MICROSECONDS: [u8; 4] = [0xa1, 0xb2, 0xc3, 0xd4];

const LITTLE_NANOSECONDS: [u8; 4] = [0x4d, 0x3c, 0xb2, 0xa1];

const BIG_NANOSECONDS: [u8; 4] = [0xa1, 0xb2, 0x3c, 0x4d];

const MAJOR_VERSION: u16 = 2;

const ETHERNET: u32 = 1;

/// The order of the capture's numbers, as the first four bytes of a file header tell it.
pub(crate) fn order_of(magic: &[u8]) -> Option<ByteOrder>
    ensures { result ≡ order_of magic.now }
{
    if magic.starts_with(&LITTLE_MICROSECONDS) {
        Some(ByteOrder::Little)
    } else if magic.starts_with(&BIG_MICROSECONDS) {
        Some(ByteOrder::Big)
    } else if magic.starts_with(&LITTLE_NANOSECONDS) {
        Some(ByteOrder::Little)
    } else if magic.starts_with(&BIG_NANOSECONDS) {
        Some(ByteOrder::Big)
    } else {
        None
    }
}

/// Reads the 20 bytes behind the magic.
pub(crate) fn read_fields<S: Source>(source: &mut S, order: ByteOrder) -> Result<(), Fault>
    ensures takes { TakesFields order (S.left source.old) (S.left source.new) result }
    ensures cause { HasReadCause (S.faults source.old) (S.faults source.new) result }
{
    let mut fields = [0; 20];
    fill_whole(source, &mut fields)?;
    if order.number16(&fields) != MAJOR_VERSION {
        return Err(Fault::Version);
    }

    // The upper 16 bits say how long a frame's check sequence is.
    if order.number32(&fields[16..]) % 0x1_0000 != ETHERNET {
        return Err(Fault::LinkType);
    }
    Ok(())
}
