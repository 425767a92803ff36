use area_layout::Layout;
use std::collections::LinkedList;
use zr_kinds::Place;

/// What is the same for all that share a board, from its opening on.
#[derive(Drop)]
pub struct Setting {
    /// How the areas are cut into buffers: those of the pool, and one reserve for each application.
    pub layout: Layout,
    /// How many slots each ring has.
    pub places: u32,
}

/// A buffer for filling: its number, where the next bytes go, and its size.
#[derive(Clone, Copy)]
pub struct Filling {
    pub buffer: u32,
    pub start: u32,
    pub size: u32,
}

/// A text that a role stores or reads, on a board of words: the place whose lines the role has meanwhile, and of a text that is
/// read what stands in these lines.
#[derive(Drop)]
pub struct Making {
    pub place: Place,
    pub bytes: LinkedList<u8>,
}

/// The next slot of a ring, as one of its ends has seen it on a board of words.
#[derive(Drop)]
pub struct Slot {
    /// Whether it was seen as this end needs it: free by the writer, full by the reader.
    pub seen: bool,
    /// The words that were stored or loaded there since.
    pub words: LinkedList<u64>,
}
