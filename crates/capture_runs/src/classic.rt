//! Classic captures.
use crate::parts::{FRAME, Reads, capture_of, expect, read};
use pcap_reader::Capture;
use std::process::Abort;
use std::test::*;
use zr_io::{MemSource, Source};

/// The headers are those of Ethernet, `header` little-endian and of version 2.4. `record` is of 59 bytes, and `pair` of two of 316.
const PARTS: &str = "\
header d4c3b2a1 02000400 00000000 00000000 00000400 01000000
fields 02000400 00000000 00000000 00000400 01000000
big-fields 00020004 00000000 00000000 00040000 00000001
major-3 d4c3b2a1 03000400 00000000 00000000 00000400 71000000
minor-9 d4c3b2a1 02000900 00000000 00000000 00000400 01000000
link-113 d4c3b2a1 02000400 00000000 00000000 00000400 71000000
upper-bits d4c3b2a1 02000400 00000000 00000000 00000400 01000100
record 00000000 00000000 3b000000 3b000000
big-record 00000000 00000000 0000003b 0000003b
pair 00000000 00000000 02000000 3c010000 0709
empty 00000000 00000000 00000000 00000000
longest 00000000 00000000 00000400 3b000000
longer 00000000 00000000 01000400 3b000000
huge 00000000 00000000 ffffffff 01000000";

/// In microseconds and nanoseconds, of both orders, and with a minor version and upper bits of the link type that are passed over.
#[test]
fn reads_each_form(rt: HostRuntime) -> Result<(), Fail> {
    let lines = "\
header record frame = 59/59 frame 0
a1b2c3d4 big-fields big-record frame = 59/59 frame 0
4d3cb2a1 fields record frame = 59/59 frame 0
a1b23c4d big-fields big-record frame = 59/59 frame 0
minor-9 record frame = 59/59 frame 0
upper-bits record frame = 59/59 frame 0
header pair empty record frame = 2/316 0709 0/0 - 59/59 frame 0";
    expect::<Capture>(&rt, PARTS, lines)
}

/// The version is looked at once the header is whole, and the link type once the version is right.
#[test]
fn refuses_other_headers(rt: HostRuntime) -> Result<(), Fail> {
    let lines = "\
header:0 = 6
0a0d0d = 6
0a0d0d0a = 3
header:23 = 6
major-3:23 = 6
major-3 = 4
link-113 = 5";
    expect::<Capture>(&rt, PARTS, lines)
}

/// 262,144 bytes are the most that a record may have.
#[test]
fn stays_at_a_cut_or_long_record(rt: HostRuntime) -> Result<(), Fail> {
    let lines = "\
header record:1 = 6
header record:15 = 6
header record frame:58 = 6
header longest frame = 6
header longer = 7
header huge frame = 7";
    expect::<Capture>(&rt, PARTS, lines)
}

/// Two calls read the file header, and two each record. Each record before the call that fails is given.
#[test]
fn a_failed_read_is_told(rt: HostRuntime) -> Result<(), Fail> {
    let lines = "\
header fails 1 = 8
header fails 2 = 8
header record frame fails 4 = 8
header record frame record frame fails 5 = 59/59 frame 8
header record frame record frame fails 6 = 59/59 frame 8";
    expect::<Capture>(&rt, PARTS, lines)
}

/// The fourth call would read the captured bytes.
#[test]
fn takes_nothing_behind_a_failed_read(rt: HostRuntime) -> Result<(), Fail> {
    let alloc = rt.alloc();
    let bytes = capture_of(alloc, PARTS, "header record frame")?;
    let mut source = MemSource::new(bytes, usize::MAX, vec![in alloc; 4u64]?);
    assert!(rt; read::<Capture>(alloc, &mut source)?.text.as_str() == "8");
    let mut left = [0; 99];
    assert!(rt; source.read(&mut left) == Ok(59));
    assert!(rt; left.starts_with(&capture_of(alloc, FRAME, "frame")?));
    Ok(())
}
