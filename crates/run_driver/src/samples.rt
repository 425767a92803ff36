//! Frames and captures for tests, made byte by byte.
use std::alloc::Global;
use std::test::Fail;

pub const FIN: u8 = 1;

pub const SYN: u8 = 2;

pub const RST: u8 = 4;

pub const ACK: u8 = 16;

pub const PSH_ACK: u8 = 24;

/// The first port of the flows.
const SPORT: u16 = 40000;

/// The port that most are sent to.
const PORT: u16 = 9000;

/// Ethernet, IPv4 and TCP without options, from 10.0.0.1 to 10.0.0.2. The total length, the ports, the sequence
/// number and the flags are 0.
const HEADERS: [u8; 54] = [
    2, 0, 0, 0, 0, 2, 2, 0, 0, 0, 0, 1, 8, 0, 0x45, 0, 0, 0, 0, 0, 0x40, 0, 0x40, 6, 0, 0, 10, 0,
    0, 1, 10, 0, 0, 2, 0, 0, 0, 0, 0, 0, 0, 0, 0, 0, 0, 0, 0x50, 0, 0xff, 0xff, 0, 0, 0, 0,
];

/// The tag of VLAN 5: it stands before the Ethernet type (IEEE 802.1Q).
const TAG: [u8; 4] = [0x81, 0, 0, 5];

/// Behind this many bytes of a frame stands the Ethernet type.
const TYPE_AT: usize = 12;

/// Behind this many bytes of a frame over IPv4 stands its segment.
const SEGMENT_AT: usize = 34;

/// The header of a classic pcap file: little-endian, microseconds, version 2.4, Ethernet.
pub const FILE_HEADER: [u8; 24] = [
    0xd4, 0xc3, 0xb2, 0xa1, 2, 0, 4, 0, 0, 0, 0, 0, 0, 0, 0, 0, 0, 0, 4, 0, 1, 0, 0, 0,
];

/// A segment to make a frame of.
#[derive(Clone, Copy)]
pub struct Sent<'a> {
    pub sport: u16,
    pub dport: u16,
    pub seq: u32,
    pub flags: u8,
    pub text: &'a [u8],
}

/// A segment of the first flow to a port.
pub const fn to(dport: u16, seq: u32, flags: u8, text: &[u8]) -> Sent<'_> {
    Sent {
        sport: SPORT,
        dport,
        seq,
        flags,
        text,
    }
}

/// A segment of the first flow.
pub const fn to_9000(seq: u32, flags: u8, text: &[u8]) -> Sent<'_> {
    to(PORT, seq, flags, text)
}

/// A segment to the port behind that.
pub const fn to_9001(seq: u32, flags: u8, text: &[u8]) -> Sent<'_> {
    to(9001, seq, flags, text)
}

pub fn frame(alloc: Global, sent: &Sent<'_>) -> Result<Vec<u8>, Fail> {
    let total = u16::try_from(sent.text.len())?
        .checked_add(40)
        .ok_or("too long")?;
    let mut headers = HEADERS;
    headers[16..18].copy_from_slice(&total.to_be_bytes());
    headers[34..36].copy_from_slice(&sent.sport.to_be_bytes());
    headers[36..38].copy_from_slice(&sent.dport.to_be_bytes());
    headers[38..42].copy_from_slice(&sent.seq.to_be_bytes());
    headers[47] = sent.flags;
    let mut frame = headers.to_vec(alloc)?;
    frame.extend_from_slice(sent.text)?;
    Ok(frame)
}

/// The frame with a tag.
pub fn tagged(alloc: Global, frame: &[u8]) -> Result<Vec<u8>, Fail> {
    let (addresses, rest) = frame.split_at_checked(TYPE_AT).ok_or("too short")?;
    let mut tagged = addresses.to_vec(alloc)?;
    tagged.extend_from_slice(&TAG)?;
    tagged.extend_from_slice(rest)?;
    Ok(tagged)
}

/// The same segment over IPv6, from 2001:db8::1 to 2001:db8::2.
pub fn over_ipv6(alloc: Global, frame: &[u8]) -> Result<Vec<u8>, Fail> {
    let (addresses, _) = frame.split_at_checked(TYPE_AT).ok_or("too short")?;
    let (_, segment) = frame.split_at_checked(SEGMENT_AT).ok_or("too short")?;
    let mut ipv6 = addresses.to_vec(alloc)?;
    ipv6.extend_from_slice(&[0x86, 0xdd, 0x60, 0, 0, 0])?;
    ipv6.extend_from_slice(&u16::try_from(segment.len())?.to_be_bytes())?;
    ipv6.extend_from_slice(&[6, 0x40])?;
    for last in [1, 2] {
        ipv6.extend_from_slice(&[0x20, 1, 0x0d, 0xb8])?;
        ipv6.extend_from_slice(&[0, 0, 0, 0, 0, 0, 0, 0, 0, 0, 0, last])?;
    }
    ipv6.extend_from_slice(segment)?;
    Ok(ipv6)
}

/// The frames of these segments.
pub fn frames(alloc: Global, all: &[Sent<'_>]) -> Result<Vec<Vec<u8>>, Fail> {
    let mut frames = Vec::new(alloc);
    for one in all {
        frames.push(frame(alloc, one)?)?;
    }
    Ok(frames)
}

/// The record of a frame, captured whole at time 0.
pub fn record_of(alloc: Global, frame: &[u8]) -> Result<Vec<u8>, Fail> {
    let len = u32::try_from(frame.len())?.to_le_bytes();
    let mut record = [0; 8].to_vec(alloc)?;
    record.extend_from_slice(&len)?;
    record.extend_from_slice(&len)?;
    record.extend_from_slice(frame)?;
    Ok(record)
}

/// The capture of these frames.
pub fn capture(alloc: Global, frames: &[Vec<u8>]) -> Result<Vec<u8>, Fail> {
    let mut capture = FILE_HEADER.to_vec(alloc)?;
    for frame in frames {
        capture.extend_from_slice(&record_of(alloc, frame)?)?;
    }
    Ok(capture)
}

/// The capture of the frames of these segments.
pub fn capture_of(alloc: Global, all: &[Sent<'_>]) -> Result<Vec<u8>, Fail> {
    capture(alloc, &frames(alloc, all)?)
}

/// The bytes of a stream: that of place i is i modulo 251.
pub fn stream_bytes(alloc: Global, len: usize) -> Result<Vec<u8>, Fail> {
    let mut bytes = Vec::with_capacity(alloc, len)?;
    for place in 0..len {
        bytes.push((place % 251) as u8)?;
    }
    Ok(bytes)
}
