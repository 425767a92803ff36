//! Bytes as a row writes them.
use crate::wrong::Wrong;
use std::alloc::Global;

/// The most bytes that one line makes.
const MOST: usize = 1_000_000;

/// The value of a hexadecimal digit.
fn read_digit(byte: u8) -> Result<u8, Wrong> {
    match byte {
        b'0'..=b'9' => Ok(byte - b'0'),
        b'a'..=b'f' => Ok(byte - b'a' + 10),
        b'A'..=b'F' => Ok(byte - b'A' + 10),
        _ => Err(Wrong("no digit")),
    }
}

/// What comes next between the quotes.
#[derive(Clone, Copy)]
enum Next {
    Byte,
    /// What stands behind a backslash.
    Escape,
    /// The first digit of a byte, and the second, behind this value.
    First,
    Second(u8),
}

/// What stands between the quotes: `\n`, `\r` and `\xHH` are bytes of their own.
fn read_quoted(alloc: Global, text: &str) -> Result<Vec<u8>, Wrong> {
    let mut bytes = Vec::new(alloc);
    let mut next = Next::Byte;
    for byte in text.bytes() {
        let (made, then) = read_byte(next, byte)?;
        if let Some(made) = made {
            bytes.push(made)?;
        }
        next = then;
    }
    match next {
        Next::Byte => Ok(bytes),
        _ => Err(Wrong("an escape isn't whole")),
    }
}

/// The byte that ends here, if one does, and what comes then.
fn read_byte(next: Next, byte: u8) -> Result<(Option<u8>, Next), Wrong> {
    match (next, byte) {
        (Next::Byte, b'\\') => Ok((None, Next::Escape)),
        (Next::Byte, _) => Ok((Some(byte), Next::Byte)),
        (Next::Escape, b'n') => Ok((Some(b'\n'), Next::Byte)),
        (Next::Escape, b'r') => Ok((Some(b'\r'), Next::Byte)),
        (Next::Escape, b'x') => Ok((None, Next::First)),
        (Next::Escape, _) => Err(Wrong("no such escape")),
        (Next::First, _) => Ok((None, Next::Second(read_digit(byte)?))),
        (Next::Second(high), _) => Ok((Some(high << 4 | read_digit(byte)?), Next::Byte)),
    }
}

/// How many bytes a line makes.
fn read_count(text: &str) -> Result<usize, Wrong> {
    let count = text.parse::<usize>()?;
    if count > MOST {
        return Err(Wrong("too many bytes"));
    }
    Ok(count)
}

/// So many bytes from a place on: that of place i is i modulo so much.
fn counted(alloc: Global, place: usize, count: &str, modulus: usize) -> Result<Vec<u8>, Wrong> {
    let count = read_count(count)?;
    let mut bytes = Vec::with_capacity(alloc, count)?;
    for index in 0..count {
        let byte = place.saturating_add(index) % modulus.max(1);
        bytes.push(u8::try_from(byte)?)?;
    }
    Ok(bytes)
}

/// The bytes that a line names. `N bytes` go on from this place of the long stream, and nothing is no bytes.
pub fn read_bytes(alloc: Global, text: &str, place: usize) -> Result<Vec<u8>, Wrong> {
    if text.is_empty() {
        return Ok(Vec::new(alloc));
    }
    if let Some(text) = text.strip_prefix('"') {
        return read_quoted(
            alloc,
            text.strip_suffix('"').ok_or(Wrong("no closing quote"))?,
        );
    }
    if let Some(digits) = text.strip_prefix("hex ") {
        return read_hex(alloc, digits);
    }
    if let Some((count, first)) = text.split_once(" made from ") {
        return counted(alloc, first.parse::<usize>()?, count, 256);
    }
    if let Some((count, first)) = text.split_once(" bytes from ") {
        return counted(alloc, first.parse::<usize>()?, count, 251);
    }
    let count = text.strip_suffix(" bytes").ok_or(Wrong("no bytes"))?;
    counted(alloc, place, count, 251)
}

/// The bytes of pairs of hexadecimal digits, parted by spaces or not.
pub fn read_hex(alloc: Global, text: &str) -> Result<Vec<u8>, Wrong> {
    let mut bytes = Vec::new(alloc);
    let mut high = None;
    for byte in text.bytes() {
        match high {
            None if byte == b' ' => {}
            None => high = Some(read_digit(byte)?),
            Some(first) => {
                bytes.push(first << 4 | read_digit(byte)?)?;
                high = None;
            }
        }
    }
    match high {
        None => Ok(bytes),
        Some(_) => Err(Wrong("a digit is missing")),
    }
}
