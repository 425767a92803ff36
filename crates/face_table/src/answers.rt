ghost use Rattle.std.specs.Prelude.{◌≡◌, ◌≤◌, length, take};
ghost use Rattle.face_table.specs.Text.{text_bytes};

use board_face::Entry;
use zr_kinds::{Note, Place};

/// How many bytes a text has room for.
pub const TEXT_ROOM: usize = 8;

/// A few bytes that are placed, sent, stored or read: the first `len` of `bytes`. The others are 0.
#[derive(Clone, Copy, PartialEq, Eq)]
pub struct Text {
    pub len: usize,
    pub bytes: [u8; TEXT_ROOM],
}

impl Text {
    /// The text of the first of these bytes, as many as there is room for.
    pub fn of(bytes: &[u8]) -> Text
        ensures { text_bytes result ≡ take TEXT_ROOM bytes.now }
    {
        let len = bytes.len().min(TEXT_ROOM);
        let mut room = [0; TEXT_ROOM];
        room[..len].copy_from_slice(&bytes[..len]);
        Text { len, bytes: room }
    }

    /// Its bytes.
    pub fn bytes(&self) -> &[u8]
        ensures value { result.now ≡ text_bytes self.now }
        ensures few { length result.now ≤ TEXT_ROOM }
    {
        &self.bytes[..self.len.min(TEXT_ROOM)]
    }
}

/// What a call of the table answered.
#[derive(Clone, Copy, PartialEq, Eq)]
pub enum Answer {
    /// The call was not made: the hand doesn't show that it may be.
    Skipped,
    /// It was done.
    Done,
    /// It could not be done, since the next slot of the ring was in use.
    Full,
    /// It answered a number.
    Number(u32),
    /// It answered yes or no.
    Flag(bool),
    /// It answered an offset.
    Offset(u64),
    /// It gave this buffer, of which nothing is used.
    Buffer(u32),
    /// No buffer was there.
    NoBuffer,
    /// It gave a token of what lies there.
    At(Place),
    /// It gave two, of the front and of the rest.
    Cut(Place, Place),
    /// What the card found in the refill ring.
    Entry(Entry),
    /// A note of a piece.
    Note(Note),
    /// A note, and the bytes that came with it.
    Linear(Note, Text),
    /// No note was there.
    NoNote,
    /// The card has ended, and no note is left.
    Ended,
    /// The first bytes of a loan.
    Read(Text),
}
