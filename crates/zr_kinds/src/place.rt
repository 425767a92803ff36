/// Where bytes lie in the buffers of the areas.
#[derive(Clone, Copy, Debug, PartialEq, Eq)]
pub struct Place {
    /// The number of the buffer, from 0.
    pub buffer: u32,
    /// The number of bytes in the buffer before them.
    pub offset: u32,
    /// How many bytes there are.
    pub len: u32,
}

/// What the card tells an application of a piece of payload.
#[derive(Clone, Copy, Debug, PartialEq, Eq)]
pub struct Note {
    /// The number of the frame's record, from 1.
    pub frame: u32,
    /// The number of the flow, from 0.
    pub flow: u32,
    /// The sequence number of the flow's first byte.
    pub base: u32,
    /// The sequence number of the frame's first payload byte.
    pub seq: u32,
    /// How many payload bytes of the frame come before this piece.
    pub at: u32,
    /// How many payload bytes the frame has.
    pub total: u32,
    /// Where the piece lies. An unsplit payload travels in the note itself, and this is buffer 0, offset 0 and its
    /// length.
    pub place: Place,
    /// Whether the piece lies in the area.
    pub split: bool,
    /// Whether the frame has FIN.
    pub fin: bool,
}
