/// A run of bytes of a frame's payload that the queue still wants.
#[derive(Clone, Copy, Debug, PartialEq, Eq)]
pub struct Gap {
    /// How many of the frame's bytes come before it.
    pub skip: u32,
    /// How many bytes it has: never 0.
    pub len: u32,
}

/// Where a kept piece stands in the stream.
#[derive(Clone, Copy, Debug, PartialEq, Eq)]
pub struct Span {
    /// The position of its first byte. The byte with the base's sequence number is at position 0.
    pub position: u64,
    /// How many bytes it has: never 0.
    pub len: u32,
}
