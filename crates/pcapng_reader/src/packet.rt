ghost use Rattle.std.specs.Prelude.{◌≡◌, IsTrue, option_copied};
ghost use Rattle.pcapng_reader.specs.{Blocks.{is_packet}, Steps.{told, IsHead, IsPacket, JudgesPacket, IsPacketOf}, declared.kind.Kind.TheVariants.{EnhancedPacket, SimplePacket}};

use crate::head::Head;
use crate::kind::Kind;
use crate::section::{Interface, OpenSection};
use pcap_reader::Record;
use zr_kinds::{Fault, LONGEST_RECORD};

const ETHERNET: u16 = 1;

/// The lengths of a packet that may be read.
pub(crate) fn packet_in(section: &OpenSection, head: &Head) -> Result<Record, Fault>
    requires head { IsHead (told section.now) head.now }
    requires kind { IsTrue (is_packet head.now.kind) }
    ensures { IsPacket (told section.now) head.now result }
{
    let (interface, record) = if head.kind == Kind::EnhancedPacket {
        enhanced(section, head)
    } else {
        simple(section, head)
    };
    judge(interface, record.captured, head.room())?;
    Ok(record)
}

fn enhanced<'a>(section: &'a OpenSection, head: &Head) -> (Option<&'a Interface>, Record)
    requires head { IsHead (told section.now) head.now }
    requires kind { head.now.kind ≡ EnhancedPacket }
    ensures { IsPacketOf (told section.now) head.now (option_copied result.0) result.1 }
{
    let number = section.order.number32(&head.bytes[8..]);
    let record = Record {
        captured: section.order.number32(&head.bytes[20..]),
        original: section.order.number32(&head.bytes[24..]),
    };
    (section.interfaces.get(number as usize), record)
}

fn simple<'a>(section: &'a OpenSection, head: &Head) -> (Option<&'a Interface>, Record)
    requires head { IsHead (told section.now) head.now }
    requires kind { head.now.kind ≡ SimplePacket }
    ensures { IsPacketOf (told section.now) head.now (option_copied result.0) result.1 }
{
    let original = section.order.number32(&head.bytes[8..]);
    let record = Record {
        captured: section.limited(original),
        original,
    };
    (section.interfaces.first(), record)
}

/// The interface is there and Ethernet, and the captured bytes have room.
fn judge(interface: Option<&Interface>, captured: u32, room: u32) -> Result<(), Fault>
    ensures { JudgesPacket (option_copied interface.entry) captured room result }
{
    let interface = interface.ok_or(Fault::BadBlock)?;
    if interface.link_type != ETHERNET {
        return Err(Fault::LinkType);
    }
    if captured > LONGEST_RECORD {
        return Err(Fault::LongRecord);
    }
    if (captured + 3) / 4 * 4 > room {
        return Err(Fault::BadBlock);
    }
    Ok(())
}
