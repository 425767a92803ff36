ghost use Rattle.std.specs.Prelude.{◌≡◌, ◌<◌, ◌≤◌, ◌++◌, IsTrue, None, Some, IfOk, IfNone, IfSome, IsErrOf, MatchResult};
ghost use Rattle.zr_kinds.specs.{Limits.{longest_record}, declared.fault.Fault.TheVariants.{Memory}};
ghost use Rattle.zr_io.specs.Moved.{Took};
ghost use Rattle.pcap_reader.specs.Capture.{HasReadCause};
ghost use Rattle.pcapng_reader.specs.{Blocks.{is_packet, is_section_header, most_others}, Records.{blocks}, Capture.{Gives, WantsMemory, WantsHere}, Steps.{told, head_bytes, IsHead, IsHeaderFault, IsInterfaceFault, PassesBlock, TakesPacket, TakesBlock, TakesStart, OpensBlocks}, declared.kind.Kind.TheVariants.{SectionHeader, InterfaceDescription, Other}};

use crate::fill::{fill_part, read_end};
use crate::head::{Head, START_LEN, read_head};
use crate::kind::Kind;
use crate::packet::packet_in;
use crate::section::{Interface, OpenSection};
use pcap_reader::{ByteOrder, Record, fill, read_body};
use std::alloc::Global;
use zr_io::Source;
use zr_kinds::Fault;

const MAJOR_VERSION: u16 = 1;

/// A pcapng capture that is being read.
#[derive(Debug, Drop)]
pub(crate) struct BlockCapture {
    section: OpenSection,
    fault: Option<Fault>,
}

impl BlockCapture {
    /// Reads the rest of the first section header, whose type was read before.
    pub(crate) fn open_rest<S: Source>(
        alloc: Global,
        first: [u8; 4],
        source: &mut S,
    ) -> Result<BlockCapture, Fault>
        requires { IsTrue (is_section_header first) }
        ensures opens { OpensBlocks first (S.left source.old) (S.left source.new) result }
        ensures cause { HasReadCause (S.faults source.old) (S.faults source.new) result }
    {
        let mut section = OpenSection {
            order: ByteOrder::Little,
            interfaces: Vec::new(alloc),
            others: 0,
        };
        let mut start = [0; START_LEN];
        start[..4].copy_from_slice(&first);
        fill_part(source, &mut start, 4, START_LEN)?;
        let head = read_head(source, &section, start)?;
        begin_section(source, &mut section, &head)?;
        Ok(BlockCapture {
            section,
            fault: None,
        })
    }

    /// Reads the next packet.
    pub(crate) fn next<S: Source>(
        &mut self,
        source: &mut S,
        into: &mut Vec<u8>,
    ) -> Result<Option<Record>, Fault>
        ensures gives { self.old.fault ≡ None →
            Gives (blocks (told self.old.section)) (blocks (told self.new.section))
            (S.left source.old) (S.left source.new) into.new.items result }
        ensures cause { self.old.fault ≡ None →
            HasReadCause (S.faults source.old) (S.faults source.new) result }
        ensures memory { self.old.fault ≡ None → IsErrOf result Memory →
            Took (S.left source.old) (S.left source.new)
            (WantsMemory (blocks (told self.old.section))) }
        ensures most { IfOk result (λ found. IfSome found (λ one. one.captured ≤ longest_record)) }
        ensures stopped { IfSome self.old.fault
            (λ fault. (result ≡ Err fault) × (source.new ≡ source.old)) }
        ensures kept { MatchResult result (λ _. self.new.fault ≡ self.old.fault)
            (λ fault. self.new.fault ≡ Some fault) }
    {
        if let Some(fault) = self.fault {
            return Err(fault);
        }
        let read = read_next(source, &mut self.section, into);
        if let Err(fault) = read {
            self.fault = Some(fault);
        }
        read
    }
}

/// Reads blocks up to the next packet. `Ok(None)` is the end.
fn read_next<S: Source>(
    source: &mut S,
    section: &mut OpenSection,
    into: &mut Vec<u8>,
) -> Result<Option<Record>, Fault>
    ensures gives { Gives (blocks (told section.old)) (blocks (told section.new))
        (S.left source.old) (S.left source.new) into.new.items result }
    ensures cause { HasReadCause (S.faults source.old) (S.faults source.new) result }
    ensures memory { IsErrOf result Memory →
        Took (S.left source.old) (S.left source.new) (WantsMemory (blocks (told section.old))) }
    ensures most { IfOk result (λ found. IfSome found (λ one. one.captured ≤ longest_record)) }
{
    while let Some(start) = read_start(source)? {
        if let Some(record) = read_block(source, section, start, into)? {
            return Ok(Some(record));
        }
    }
    Ok(None)
}

/// Reads the first eight bytes of a block. `Ok(None)` is the end.
fn read_start<S: Source>(source: &mut S) -> Result<Option<[u8; START_LEN]>, Fault>
    ensures takes { TakesStart (S.left source.old) (S.left source.new) result }
    ensures cause { HasReadCause (S.faults source.old) (S.faults source.new) result }
{
    let mut start = [0; START_LEN];
    let filled = fill(source, &mut start)?;
    if filled == 0 {
        return Ok(None);
    }
    if filled < START_LEN {
        return Err(Fault::Cut);
    }
    Ok(Some(start))
}

/// Reads the rest of a block. `Ok(None)` is one that is no packet.
fn read_block<S: Source>(
    source: &mut S,
    section: &mut OpenSection,
    start: [u8; START_LEN],
    into: &mut Vec<u8>,
) -> Result<Option<Record>, Fault>
    ensures takes { TakesBlock (told section.old) (told section.new) start (S.left source.old)
        (S.left source.new) into.new.items result }
    ensures cause { HasReadCause (S.faults source.old) (S.faults source.new) result }
    ensures memory { IsErrOf result Memory →
        Took (S.left source.old) (S.left source.new)
        (λ taken. WantsHere (told section.old) (start ++ taken)) }
    ensures most { IfOk result (λ found. IfSome found (λ one. one.captured ≤ longest_record)) }
    ensures counts { IfOk result (λ found. IfNone found
        ((section.old.others < section.new.others) × (section.new.others ≤ most_others))) }
{
    let head = read_head(source, section, start)?;
    match head.kind {
        Kind::SectionHeader => begin_section(source, section, &head)?,
        Kind::InterfaceDescription => add_interface(source, section, &head)?,
        Kind::Other => pass_over(source, section, &head)?,
        Kind::EnhancedPacket | Kind::SimplePacket => {
            return Ok(Some(read_packet(source, section, &head, into)?));
        }
    }
    Ok(None)
}

/// Reads the rest of a section header, and forgets the section before it.
fn begin_section<S: Source>(
    source: &mut S,
    section: &mut OpenSection,
    head: &Head,
) -> Result<(), Fault>
    requires head { IsHead (told section.old) head.now }
    requires kind { head.now.kind ≡ SectionHeader }
    ensures passes { PassesBlock IsHeaderFault (told section.old) (told section.new)
        (head_bytes head.now) (S.left source.old) (S.left source.new) result }
    ensures cause { HasReadCause (S.faults source.old) (S.faults source.new) result }
{
    if head.order.number16(&head.bytes[12..]) != MAJOR_VERSION {
        return Err(Fault::Version);
    }
    read_end(source, head.order, head.room(), head.total)?;
    section.begin(head.order);
    Ok(())
}

/// Reads the rest of an interface's block. Memory for the interface is asked for within it, behind the bytes of its head.
fn add_interface<S: Source>(
    source: &mut S,
    section: &mut OpenSection,
    head: &Head,
) -> Result<(), Fault>
    requires head { IsHead (told section.old) head.now }
    requires kind { head.now.kind ≡ InterfaceDescription }
    ensures passes { PassesBlock IsInterfaceFault (told section.old) (told section.new)
        (head_bytes head.now) (S.left source.old) (S.left source.new) result }
    ensures cause { HasReadCause (S.faults source.old) (S.faults source.new) result }
    ensures memory { IsErrOf result Memory →
        Took (S.left source.old) (S.left source.new)
        (λ taken. WantsHere (told section.old) (head_bytes head.now ++ taken)) }
{
    if section.interfaces.reserve(1).is_err() {
        return Err(Fault::Memory);
    }
    read_end(source, head.order, head.room(), head.total)?;
    let interface = Interface {
        link_type: head.order.number16(&head.bytes[8..]),
        snaplen: head.order.number32(&head.bytes[12..]),
    };
    section.interfaces.push(interface).unwrap();
    section.others += 1;
    Ok(())
}

/// Reads the rest of a block that says nothing of packets.
fn pass_over<S: Source>(source: &mut S, section: &mut OpenSection, head: &Head) -> Result<(), Fault>
    requires head { IsHead (told section.old) head.now }
    requires kind { head.now.kind ≡ Other }
    ensures passes { PassesBlock IsHeaderFault (told section.old) (told section.new)
        (head_bytes head.now) (S.left source.old) (S.left source.new) result }
    ensures cause { HasReadCause (S.faults source.old) (S.faults source.new) result }
{
    read_end(source, head.order, head.room(), head.total)?;
    section.others += 1;
    Ok(())
}

/// Reads a packet's captured bytes into `into`, which keeps its memory, and the rest of its block.
fn read_packet<S: Source>(
    source: &mut S,
    section: &OpenSection,
    head: &Head,
    into: &mut Vec<u8>,
) -> Result<Record, Fault>
    requires head { IsHead (told section.now) head.now }
    requires kind { IsTrue (is_packet head.now.kind) }
    ensures takes { TakesPacket (told section.now) (head_bytes head.now) (S.left source.old)
        (S.left source.new) into.new.items result }
    ensures cause { HasReadCause (S.faults source.old) (S.faults source.new) result }
    ensures memory { IsErrOf result Memory →
        Took (S.left source.old) (S.left source.new)
        (λ taken. WantsHere (told section.now) (head_bytes head.now ++ taken)) }
    ensures most { IfOk result (λ found. found.captured ≤ longest_record) }
{
    let record = packet_in(section, head)?;
    read_body(source, record.captured, into)?;
    read_end(
        source,
        head.order,
        head.room() - record.captured,
        head.total,
    )?;
    Ok(record)
}
