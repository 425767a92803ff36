//! What is told of a segment and of a flow.

use thiserror::Error;

/// Where a segment goes.
#[derive(Clone, Copy, Debug, PartialEq, Eq)]
pub enum Steered {
    /// It belongs to a flow.
    Flow {
        /// The flow's number, from 0 in the order of the flows' first segments.
        flow: u32,
        /// The application: the place of the destination port among the ports, from 0.
        app: u32,
        /// The sequence number of the flow's first byte.
        base: u32,
        /// The sequence number of the segment's first payload byte: SYN takes one (RFC 9293, 3.4).
        seq: u32,
        /// How many bytes of its payload count, from the first on: none at or past the number of the flow's FIN, and none from
        /// the flow's RST on (RFC 9293, 3.6 and 3.5.3).
        len: u32,
        /// Whether the segment has FIN.
        fin: bool,
    },
    /// Its destination port is none of the ports.
    Elsewhere,
}

/// Why a segment wasn't placed.
#[derive(Clone, Copy, Debug, PartialEq, Eq, Error)]
pub enum FlowFault {
    /// Want of memory.
    #[error("want of memory")]
    Memory,
    /// The segment would begin a flow more than there may be.
    #[error("more flows than can be numbered")]
    TooManyFlows,
}

/// A flow, as its line in a report tells it.
#[derive(Clone, Copy, Debug, PartialEq, Eq)]
pub struct FlowInfo {
    /// The place of its port.
    pub app: u32,
    /// The sequence number of its first byte.
    pub base: u32,
    /// The sequence number behind its last byte, once a FIN set it.
    pub fin: Option<u32>,
    /// Whether a segment of it had RST.
    pub reset: bool,
}
