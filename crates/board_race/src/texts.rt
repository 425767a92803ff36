//! The texts that are sent: each byte is told by its application, its note's number and its place.
ghost use Rattle.std.specs.Prelude.{◌≡◌, ◌≤◌, length};
ghost use Rattle.zr_kinds.specs.Limits.{longest_payload};
ghost use Rattle.board_face.specs.Texts.{IsSplitNote};

use zr_kinds::{Note, Place};

/// The first byte of a text. The others count on from it.
fn first_byte(app: u32, number: u32) -> u8 {
    let [low, ..] = number.to_le_bytes();
    let [which, ..] = app.to_le_bytes();
    low.wrapping_mul(7).wrapping_add(which.wrapping_mul(31))
}

/// The byte of a text at a place, by the text's first.
fn byte_at(first: u8, at: usize) -> u8 {
    first.wrapping_add((at % 256) as u8)
}

/// Puts a text there.
pub fn write_text(app: u32, number: u32, text: &mut [u8])
    ensures { length text.new ≡ length text.old }
{
    let first = first_byte(app, number);
    for (at, byte) in text.iter_mut().enumerate() {
        *byte = byte_at(first, at);
    }
}

/// Whether these bytes are the text.
pub fn is_text(app: u32, number: u32, bytes: &[u8]) -> bool {
    let first = first_byte(app, number);
    bytes
        .iter()
        .enumerate()
        .all(|(at, &byte)| byte == byte_at(first, at))
}

/// The note of a text that lies in one piece.
pub fn note_of(app: u32, number: u32, place: Place) -> Note
    requires { place.len ≤ longest_payload }
    ensures fields { IsSplitNote result }
    ensures place { result.place ≡ place }
{
    Note {
        frame: number,
        flow: app,
        base: 0,
        seq: 0,
        at: 0,
        total: place.len,
        place,
        split: true,
        fin: false,
    }
}
