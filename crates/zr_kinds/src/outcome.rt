use crate::Stopped;

/// The records of a reading, counted by the class of their frames. Each record counts in `records` and in exactly one
/// of `tcp`, `other`, `fragment`, `cut` and `bad`.
#[derive(Clone, Copy, Debug, PartialEq, Eq)]
pub struct Tally {
    pub records: u32,
    /// Whole, sound TCP segments.
    pub tcp: u32,
    /// TCP segments to one of the ports.
    pub steered: u32,
    /// Other protocols.
    pub other: u32,
    /// Fragments of IP packets.
    pub fragment: u32,
    /// Frames that the capture cut short.
    pub cut: u32,
    /// Frames with a faulty header.
    pub bad: u32,
}

/// How a flow ended, by the FIN and RST of its segments (RFC 9293, 3.6 and 3.5.3) and by the bytes that its stream had.
#[derive(Clone, Copy, Debug, PartialEq, Eq)]
pub enum FlowEnd {
    /// No segment had FIN or RST.
    Going,
    /// The stream reached the FIN.
    Whole,
    /// Bytes before the FIN are missing.
    Short,
    /// A segment had RST.
    Reset,
}

/// What a replay did for one flow.
#[derive(Clone, Copy, Debug, PartialEq, Eq)]
pub struct FlowLine {
    /// The destination port.
    pub port: u16,
    /// The sequence number of the flow's first byte.
    pub base: u32,
    /// How many bytes the appends that went well took.
    pub bytes: u64,
    /// Whether a segment had FIN before one had RST.
    pub fin: bool,
    /// How it ended.
    pub end: FlowEnd,
}

/// What one application of a replay did.
#[derive(Clone, Copy, Debug, PartialEq, Eq)]
pub struct AppLine {
    pub port: u16,
    /// How many bytes the appends that went well took, over all its flows.
    pub written: u64,
    /// How many loans it had.
    pub loans: u64,
    /// How many of these were of bytes that had to be copied.
    pub copied: u64,
    /// What stopped it.
    pub stopped: Stopped,
}

/// The searches for fresh buffers, each counted by where it ended, and the refill entries that gave nothing back.
#[derive(Clone, Copy, Debug, PartialEq, Eq)]
pub struct PoolStats {
    /// The cache held enough.
    pub fast: u64,
    /// The refill rings brought enough.
    pub refill: u64,
    /// The free list brought enough.
    pub slow: u64,
    /// There weren't enough, and the frame was refused.
    pub empty: u64,
    pub strays: u64,
}

/// The pool's buffers at the end of a run: those of the cache in its order, then the listed ones from the lowest.
#[derive(Debug, Drop)]
pub struct Ended {
    pub free: Vec<u32>,
}
