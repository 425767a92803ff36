//! What is sent through a board.
use area_layout::Layout;

/// A stream of notes, each of as many bytes, to each application of a board.
#[derive(Clone, Copy)]
pub struct Plan {
    pub layout: Layout,
    /// How many slots each ring has.
    pub places: u32,
    /// How many notes are sent to each application.
    pub notes: u32,
    /// How many bytes each of them tells of.
    pub bytes: u16,
}

/// How often either half looks in vain at most.
pub(crate) const LOOKS: u64 = 100_000_000;
