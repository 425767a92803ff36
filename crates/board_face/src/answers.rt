use crate::Held;
use zr_kinds::Note;

/// What the card found in an application's refill ring.
#[derive(Clone, Copy, Debug, PartialEq, Eq)]
pub enum Entry {
    /// An entry that gave a reference back, the last of a pool buffer, which is free now.
    Freed,
    /// Another entry that gave a reference back.
    Honoured,
    /// An entry that names no buffer, or one of which the application's user count was seen 0. It changed no count.
    Stray,
    /// No entry: the slot was seen free.
    Empty,
}

/// What an application found in its note ring.
#[derive(Debug, Drop)]
pub enum Polled {
    /// A piece of a payload in the area.
    Note(Note, Held),
    /// A short payload, whose bytes came with the note.
    Linear(Note),
    /// Nothing yet: the card wasn't seen to have ended, and after that the slot was seen empty.
    Empty,
    /// Nothing any more: the card was seen to have ended, and after that the slot was seen empty.
    Ended,
}
