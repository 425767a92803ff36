//! Captures of parts that have names, and what they read as.
use pcap_reader::{Capture, Record};
use pcapng_reader::AnyCapture;
use std::alloc::Global;
use std::process::Abort;
use std::test::*;
use zr_io::MemSource;
use zr_kinds::Fault;

/// `hello` from 10.0.0.1 to 10.0.0.2.
pub const FRAME: &str = "\
020000000002 020000000001 0800 4500002d 00004000 40060000 0a000001 0a000002 \
9c40 2328 000003e9 00000000 5018ffff 00000000 68656c6c6f";

/// The bytes of pairs of hexadecimal digits.
fn push_hex(bytes: &mut Vec<u8>, digits: &str) -> Result<(), Fail> {
    let mut rest = digits;
    for _ in 0..digits.len() / 2 {
        let (pair, behind) = rest.split_at_checked(2).ok_or("no pair of digits")?;
        bytes.push(u8::from_str_radix(pair, 16)?)?;
        rest = behind;
    }
    Ok(())
}

/// The bytes of digits with spaces between.
fn bytes_of(alloc: Global, digits: &str) -> Result<Vec<u8>, Fail> {
    let mut bytes = Vec::new(alloc);
    for word in digits.split(' ') {
        push_hex(&mut bytes, word)?;
    }
    Ok(bytes)
}

/// The digits of the part with this name. A word that is no name has its own.
fn digits_of<'a>(parts: &'a str, name: &'a str) -> &'a str {
    if name == "frame" {
        return FRAME;
    }
    for line in parts.lines() {
        if let Some((one, digits)) = line.split_once(' ') {
            if one == name {
                return digits;
            }
        }
    }
    name
}

/// A capture of these words, each of which is a part. `NAME:N` are its first N bytes.
pub fn capture_of(alloc: Global, parts: &str, words: &str) -> Result<Vec<u8>, Fail> {
    let mut bytes = Vec::new(alloc);
    for word in words.split(' ') {
        let (name, most) = word.split_once(':').unwrap_or((word, "1000"));
        let mut part = bytes_of(alloc, digits_of(parts, name))?;
        part.truncate(most.parse::<usize>()?);
        bytes.extend_from_slice(&part)?;
    }
    Ok(bytes)
}

/// What reads captures.
pub trait Reads: Drop + Sized {
    fn begin(alloc: Global, source: &mut MemSource) -> Result<Self, Fault>;

    fn record(
        &mut self,
        source: &mut MemSource,
        into: &mut Vec<u8>,
    ) -> Result<Option<Record>, Fault>;
}

impl Reads for Capture {
    fn begin(_: Global, source: &mut MemSource) -> Result<Capture, Fault> {
        Capture::open(source)
    }

    fn record(
        &mut self,
        source: &mut MemSource,
        into: &mut Vec<u8>,
    ) -> Result<Option<Record>, Fault> {
        self.next(source, into)
    }
}

impl Reads for AnyCapture {
    fn begin(alloc: Global, source: &mut MemSource) -> Result<AnyCapture, Fault> {
        AnyCapture::open(alloc, source)
    }

    fn record(
        &mut self,
        source: &mut MemSource,
        into: &mut Vec<u8>,
    ) -> Result<Option<Record>, Fault> {
        self.next(source, into)
    }
}

/// How a reading went.
#[derive(Drop)]
pub struct Readout {
    /// Each record by its captured and its original length and its bytes, and the number of the fault at the end, or 0.
    pub text: String,
    /// That number, and 100 for each record before it.
    pub status: usize,
    /// The next call answered the same.
    pub stays: bool,
    /// For how many bytes memory was taken.
    pub room: usize,
}

/// The bytes as digits; `frame` for those of the frame, and `-` for none.
fn push_bytes(text: &mut String, bytes: &[u8], frame: &[u8]) -> Result<(), Fail> {
    if bytes == frame {
        text.push_str("frame")?;
        return Ok(());
    }
    if bytes.is_empty() {
        text.push_str("-")?;
    }
    for byte in bytes {
        for digit in [byte >> 4, byte & 15] {
            text.push(char::from_digit(u32::from(digit), 16).ok_or("no digit")?)?;
        }
    }
    Ok(())
}

/// The number of the fault that ended a reading, 0 for its end, and 99 where there is a record.
fn number_of(read: Result<Option<Record>, Fault>) -> usize {
    match read {
        Ok(None) => 0,
        Ok(Some(_)) => 99,
        Err(fault) => usize::from(fault.number()),
    }
}

/// Reads at most nine records, up to an end.
fn read_records<R: Reads>(
    alloc: Global,
    capture: &mut R,
    source: &mut MemSource,
) -> Result<Readout, Fail> {
    let hello = bytes_of(alloc, FRAME)?;
    let mut frame = Vec::new(alloc);
    let mut text = String::new(alloc);
    let mut status = 0usize;
    for _ in 0..9 {
        let one = capture.record(source, &mut frame);
        let Ok(Some(Record { captured, original })) = one else {
            let number = number_of(one);
            text.push_str(&format!(in alloc; "{number}")?)?;
            return Ok(Readout {
                text,
                status: status.saturating_add(number),
                stays: number_of(capture.record(source, &mut frame)) == number,
                room: frame.capacity(),
            });
        };
        text.push_str(&format!(in alloc; "{captured}/{original} ")?)?;
        push_bytes(&mut text, &frame, &hello)?;
        text.push_str(" ")?;
        status = status.saturating_add(100);
    }
    Err(Fail::new("too many records"))
}

/// Reads a capture whole.
pub fn read<R: Reads>(alloc: Global, source: &mut MemSource) -> Result<Readout, Fail> {
    match R::begin(alloc, source) {
        Ok(mut capture) => read_records(alloc, &mut capture, source),
        Err(fault) => Ok(Readout {
            text: format!(in alloc; "{}", fault.number())?,
            status: usize::from(fault.number()),
            stays: true,
            room: 0,
        }),
    }
}

/// What a capture reads as, where a call of its source fails, or none, which is call 0.
pub fn read_parts<R: Reads>(
    alloc: Global,
    parts: &str,
    words: &str,
    most: usize,
    call: u64,
) -> Result<Readout, Fail> {
    let bytes = capture_of(alloc, parts, words)?;
    let mut source = MemSource::new(bytes, most.max(1), vec![in alloc; call]?);
    read::<R>(alloc, &mut source)
}

/// A line is told so where the source gives at most so many bytes at a call. No memory is taken for a record that is too long.
fn expect_line<R: Reads>(
    rt: &(impl Abort + AllocGlobal),
    parts: &str,
    line: &str,
    most: usize,
) -> Result<(), Fail> {
    let (words, wanted) = line.split_once(" = ").ok_or("nothing is wanted")?;
    let (words, call) = words.split_once(" fails ").unwrap_or((words, "0"));
    let call = call.parse::<u64>()?;
    let most = if call == 0 { most } else { usize::MAX };
    let readout = read_parts::<R>(rt.alloc(), parts, words, most, call)?;
    let text = readout.text.as_str();
    assert!(rt; text == wanted && readout.stays, "{line}: {text}");
    assert!(rt; text != "7" || readout.room == 0, "{line}: memory");
    Ok(())
}

/// Each line is a capture, and behind `=` what it reads as: at once, in pieces, and byte by byte, or where a call `fails`.
pub fn expect<R: Reads>(
    rt: &(impl Abort + AllocGlobal),
    parts: &str,
    lines: &str,
) -> Result<(), Fail> {
    for line in lines.lines() {
        expect_line::<R>(rt, parts, line, usize::MAX)?;
        expect_line::<R>(rt, parts, line, 7)?;
        expect_line::<R>(rt, parts, line, 1)?;
    }
    Ok(())
}
