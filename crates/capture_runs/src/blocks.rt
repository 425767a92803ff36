//! Captures in blocks, and classic ones, by the reader of both. Sections are those of draft-ietf-opsawg-pcapng.
use crate::parts::{capture_of, expect, read, read_parts};
use pcapng_reader::AnyCapture;
use std::alloc::Global;
use std::process::Abort;
use std::test::*;
use zr_io::MemSource;

/// Section headers (4.1) of unknown length: of version 1.0, big-endian with a comment, of version 2.0, and of a length that is no
/// multiple of 4. Interfaces (4.2) of Ethernet, of which 262,144 bytes of a packet are captured, all, or three; of raw IP, with a
/// name, and of link type 113. Enhanced packets (4.3) of interface 0, of three bytes of 60, two of 61, with flags, none of 42 of
/// interface 1, and the frame. Simple packets (4.4) of two bytes and three of 70. Then names (4.5), statistics (4.6), secrets
/// (4.7), a custom block (4.8), the old packet block (appendix A), and blocks of a type that nobody knows.
const PARTS: &str = "\
section 0a0d0d0a 1c000000 4d3c2b1a 01000000 ffffffff ffffffff 1c000000
big-section 0a0d0d0a 00000028 1a2b3c4d 00010000 ffffffff ffffffff 00010002 68690000 00000000 00000028
section-2 0a0d0d0a 1c000000 4d3c2b1a 02000000 ffffffff ffffffff 1c000000
section-of-30 0a0d0d0a 1e000000 4d3c2b1a 01000000 ffffffff ffffffff 1c000000
ethernet 01000000 14000000 01000000 00000400 14000000
big-ethernet 00000001 00000014 00010000 00000000 00000014
unlimited-ethernet 01000000 14000000 01000000 00000000 14000000
short-ethernet 01000000 14000000 01000000 03000000 14000000
raw-ip 01000000 20000000 65000000 00000400 02000200 6c6f0000 00000000 20000000
link-113 01000000 14000000 71000000 00000400 14000000
packet 06000000 24000000 00000000 00000000 00000000 03000000 3c000000 aabbcc00 24000000
big-packet 00000006 00000030 00000000 00000000 00000000 00000002 0000003d 11220000 00020004 00000001 00000000 00000030
second-packet 06000000 20000000 01000000 00000000 00000000 00000000 2a000000 20000000
frame-packet 06000000 5c000000 00000000 00000000 00000000 3b000000 3b000000
frame-end 00 5c000000
longest-packet 06000000 20000400 00000000 00000000 00000000 00000400 3b000000
longer-packet 06000000 20000400 00000000 00000000 00000000 01000400 3b000000
huge-packet 06000000 fcffffff 00000000 00000000 00000000 ccffffff 01000000
simple 03000000 14000000 02000000 ddee0000 14000000
long-simple 03000000 14000000 46000000 01020300 14000000
names 04000000 1c000000 01000600 0a000001 61000000 00000000 1c000000
statistics 05000000 18000000 00000000 00000000 00000000 18000000
secrets 0a000000 18000000 4b534c54 02000000 230a0000 18000000
custom ad0b0000 14000000 d97e0000 01020304 14000000
old-packet 02000000 24000000 00000000 00000000 00000000 01000000 3c000000 09000000 24000000
empty-block 77000000 0c000000 0c000000
huge-block 77000000 fcffffff 010203
classic d4c3b2a1 02000400 00000000 00000000 00000400 01000000
pair 00000000 00000000 02000000 3c010000 0709";

/// Also sections of another order, and with an interface of their own.
#[test]
fn reads_packets(rt: HostRuntime) -> Result<(), Fail> {
    let lines = "\
section ethernet frame-packet frame frame-end = 59/59 frame 0
section ethernet names statistics secrets custom old-packet empty-block packet simple names = 3/60 aabbcc 2/2 ddee 0
section ethernet packet big-section big-ethernet big-packet section ethernet simple = 3/60 aabbcc 2/61 1122 2/2 ddee 0";
    expect::<AnyCapture>(&rt, PARTS, lines)
}

/// The last byte of a packet is missing, or its last number is 88, a block of 4 GiB less four bytes is passed over as far as there
/// are bytes, and 262,144 captured bytes are the most.
#[test]
fn refuses_blocks_out_of_form(rt: HostRuntime) -> Result<(), Fail> {
    let lines = "\
section ethernet frame-packet frame frame-end:4 = 6
section ethernet frame-packet frame 00 58000000 = 13
section huge-block = 6
section ethernet longer-packet = 7
section ethernet longest-packet = 6
section ethernet huge-packet = 7";
    expect::<AnyCapture>(&rt, PARTS, lines)
}

/// An interface that isn't Ethernet is no fault by itself. A packet of it is, though its frame is cut off; simple packets are of
/// interface 0. A new section has no interface.
#[test]
fn tells_interfaces_apart(rt: HostRuntime) -> Result<(), Fail> {
    let lines = "\
section link-113 = 0
section link-113 frame-packet frame frame-end = 5
section link-113 frame-packet = 5
section raw-ip ethernet second-packet simple = 0/42 - 5
section ethernet raw-ip second-packet = 5
section ethernet second-packet = 13
section ethernet section packet = 13
section ethernet section simple = 13
section packet ethernet packet = 13";
    expect::<AnyCapture>(&rt, PARTS, lines)
}

/// A snap length cuts a simple packet, and 0 is none.
#[test]
fn a_snap_length_cuts_simple_packets(rt: HostRuntime) -> Result<(), Fail> {
    let lines = "\
section short-ethernet long-simple simple = 3/70 010203 2/2 ddee 0
section unlimited-ethernet simple long-simple = 2/2 ddee 13";
    expect::<AnyCapture>(&rt, PARTS, lines)
}

/// The type of a section header alone is a cut one. Another version is refused once its fixed bytes are whole.
#[test]
fn tells_forms_by_their_headers(rt: HostRuntime) -> Result<(), Fail> {
    let lines = "\
section:4 = 6
section:11 = 6
section-2:23 = 6
section-2:24 = 4
section-of-30:11 = 6
section-of-30:12 = 13
classic pair = 2/316 0709 0
classic pair:17 = 6
classic:3 = 6
1f8b0800 = 3";
    expect::<AnyCapture>(&rt, PARTS, lines)
}

/// The capture that is cut off and changed.
const SMALL: &str = "section ethernet packet simple";

/// The status that so many first bytes of it read as, with 100 for each record before. All bits of the byte behind are turned.
fn status(alloc: Global, len: usize, turned: Option<usize>) -> Result<usize, Fail> {
    let mut bytes = capture_of(alloc, PARTS, SMALL)?;
    bytes.truncate(len);
    if let Some(at) = turned {
        *bytes.get_mut(at).ok_or("no such byte")? ^= 0xff;
    }
    let mut source = MemSource::new(bytes, usize::MAX, Vec::new(alloc));
    Ok(read::<AnyCapture>(alloc, &mut source)?.status)
}

/// The statuses were computed by tools/pcapng_rows.py.
#[test]
fn reads_each_prefix(rt: HostRuntime) -> Result<(), Fail> {
    for len in 0..105 {
        let wanted = match len {
            28 | 48 => 0,
            0..84 => 6,
            84 => 100,
            104 => 200,
            _ => 106,
        };
        assert!(rt; status(rt.alloc(), len, None)? == wanted, "{len}");
    }
    Ok(())
}

/// What the small capture reads as with all bits of one byte turned, as tools/pcapng_rows.py computes it.
const TURNED: [usize; 104] = [
    3, 3, 3, 3, 13, 6, 6, 6, 13, 13, 13, 13, 4, 4, 200, 200, 200, 200, 200, 200, 200, 200, 200,
    200, 13, 13, 13, 13, 13, 13, 13, 13, 13, 6, 6, 6, 5, 5, 200, 200, 200, 200, 200, 200, 13, 13,
    13, 13, 100, 100, 100, 100, 13, 6, 6, 6, 13, 13, 13, 13, 200, 200, 200, 200, 200, 200, 200,
    200, 13, 13, 7, 7, 200, 200, 200, 200, 200, 200, 200, 200, 13, 13, 13, 13, 100, 100, 100, 100,
    113, 106, 106, 106, 113, 113, 113, 113, 200, 200, 200, 200, 113, 113, 113, 113,
];

#[test]
fn reads_each_changed_byte(rt: HostRuntime) -> Result<(), Fail> {
    for (at, wanted) in TURNED.iter().enumerate() {
        assert!(rt; status(rt.alloc(), 104, Some(at))? == *wanted, "{at}");
    }
    Ok(())
}

/// A read that fails is told at each call, and after it nothing else.
#[test]
fn a_failed_read_ends_the_reading(rt: HostRuntime) -> Result<(), Fail> {
    for call in 1..200 {
        let wanted = match call {
            0..85 => 8,
            85..114 => 108,
            _ => 100,
        };
        let words = "section ethernet packet names";
        let readout = read_parts::<AnyCapture>(rt.alloc(), PARTS, words, 1, call)?;
        assert!(rt; readout.status == wanted, "{call}");
    }
    Ok(())
}
