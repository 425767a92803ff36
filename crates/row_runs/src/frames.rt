//! A frame as a row writes it: `PORT SEQ FLAGS BYTES`, where `SPORT>PORT` names another source port.
use crate::texts::read_bytes;
use crate::wrong::Wrong;
use std::alloc::Global;

/// What a segment travels in.
#[derive(Clone, Copy)]
pub enum Form {
    Ipv4,
    Ipv6,
    /// IPv4 behind a VLAN tag.
    Tagged,
}

/// The Ethernet addresses of all frames.
const ETHERNET: [u8; 12] = [2, 0, 0, 0, 0, 2, 2, 0, 0, 0, 0, 1];

/// The tag of VLAN 5 (IEEE 802.1Q).
const TAG: [u8; 4] = [0x81, 0, 0, 5];

/// The Ethernet type of IPv4, and what stands before the total length.
const IPV4: [u8; 4] = [8, 0, 0x45, 0];

/// What stands behind it: no fragment, TCP, from 10.0.0.1 to 10.0.0.2.
const IPV4_REST: [u8; 16] = [0, 0, 0x40, 0, 0x40, 6, 0, 0, 10, 0, 0, 1, 10, 0, 0, 2];

/// The Ethernet type of IPv6, and what stands before the payload's length.
const IPV6: [u8; 6] = [0x86, 0xdd, 0x60, 0, 0, 0];

/// What stands behind it: TCP, from 2001:db8::1 to 2001:db8::2.
const IPV6_REST: [u8; 34] = [
    6, 0x40, 0x20, 1, 0x0d, 0xb8, 0, 0, 0, 0, 0, 0, 0, 0, 0, 0, 0, 1, 0x20, 1, 0x0d, 0xb8, 0, 0, 0,
    0, 0, 0, 0, 0, 0, 0, 0, 2,
];

/// The header of a classic pcap file: little-endian, microseconds, version 2.4, Ethernet.
pub const FILE_HEADER: [u8; 24] = [
    0xd4, 0xc3, 0xb2, 0xa1, 2, 0, 4, 0, 0, 0, 0, 0, 0, 0, 0, 0, 0, 0, 4, 0, 1, 0, 0, 0,
];

/// The source and destination port of a frame.
fn read_ports(word: &str) -> Result<(u16, u16), Wrong> {
    match word.split_once('>') {
        Some((sport, dport)) => Ok((sport.parse::<u16>()?, dport.parse::<u16>()?)),
        None => Ok((40000, word.parse::<u16>()?)),
    }
}

/// The sequence number of a frame before which there were so many bytes.
fn read_number(word: &str, place: usize) -> Result<u32, Wrong> {
    match word {
        "next" => Ok(u32::try_from(place.saturating_add(1000))?),
        _ => Ok(word.parse::<u32>()?),
    }
}

/// The bit of a flag.
fn bit_of(letter: char) -> Result<u8, Wrong> {
    match letter {
        'F' => Ok(1),
        'S' => Ok(2),
        'R' => Ok(4),
        'P' => Ok(8),
        'A' => Ok(16),
        _ => Err(Wrong("no such flag")),
    }
}

fn read_flags(word: &str) -> Result<u8, Wrong> {
    let mut flags = 0;
    if word == "-" {
        return Ok(flags);
    }
    for letter in word.chars() {
        flags |= bit_of(letter)?;
    }
    Ok(flags)
}

/// The header of a packet in front of so many bytes. IPv4 counts itself too.
fn push_header(frame: &mut Vec<u8>, form: Form, len: usize) -> Result<(), Wrong> {
    let (begin, own, rest): (&[u8], usize, &[u8]) = match form {
        Form::Ipv4 | Form::Tagged => (&IPV4, 20, &IPV4_REST),
        Form::Ipv6 => (&IPV6, 0, &IPV6_REST),
    };
    let len = u16::try_from(len.saturating_add(own))?;
    frame.extend_from_slice(begin)?;
    frame.extend_from_slice(&len.to_be_bytes())?;
    frame.extend_from_slice(rest)?;
    Ok(())
}

/// The frame of a segment with these ports, this sequence number, these flags and this payload.
fn frame_of(
    alloc: Global,
    form: Form,
    (sport, dport): (u16, u16),
    number: u32,
    flags: u8,
    payload: &[u8],
) -> Result<Vec<u8>, Wrong> {
    let mut frame = ETHERNET.to_vec(alloc)?;
    if matches!(form, Form::Tagged) {
        frame.extend_from_slice(&TAG)?;
    }
    push_header(&mut frame, form, payload.len().saturating_add(20))?;
    frame.extend_from_slice(&sport.to_be_bytes())?;
    frame.extend_from_slice(&dport.to_be_bytes())?;
    frame.extend_from_slice(&number.to_be_bytes())?;
    frame.extend_from_slice(&[0, 0, 0, 0, 0x50, flags, 0xff, 0xff, 0, 0, 0, 0])?;
    frame.extend_from_slice(payload)?;
    Ok(frame)
}

/// The frame of a line, and how many bytes its payload has. A payload that is `N bytes` goes on from this place.
pub fn read_frame(
    alloc: Global,
    form: Form,
    text: &str,
    place: usize,
) -> Result<(Vec<u8>, usize), Wrong> {
    let mut words = text.splitn(4, ' ');
    let ports = read_ports(words.next().ok_or(Wrong("no port"))?)?;
    let number = read_number(words.next().ok_or(Wrong("no sequence number"))?, place)?;
    let flags = read_flags(words.next().ok_or(Wrong("no flags"))?)?;
    let payload = read_bytes(alloc, words.next().unwrap_or(""), place)?;
    let frame = frame_of(alloc, form, ports, number, flags, &payload)?;
    Ok((frame, payload.len()))
}

/// The header of a record of so many bytes, captured whole at time 0.
pub fn record_header(len: usize) -> Result<[u8; 16], Wrong> {
    let [a, b, c, d] = u32::try_from(len)?.to_le_bytes();
    Ok([0, 0, 0, 0, 0, 0, 0, 0, a, b, c, d, a, b, c, d])
}
