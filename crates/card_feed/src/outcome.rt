//! How a replay went.

use zr_kinds::{AppLine, Fault, FlowLine, PoolStats, Tally};

/// How a replay went.
#[derive(Drop)]
pub struct Outcome {
    /// The records before the reading ended.
    pub tally: Tally,
    /// The applications, in the order of the ports.
    pub apps: Vec<AppLine>,
    /// The flows, by their numbers.
    pub flows: Vec<FlowLine>,
    /// The numbers of the frames that were refused, in order.
    pub refused: Vec<u32>,
    pub pool: PoolStats,
    /// What ended the reading, if not the end of the bytes.
    pub end: Option<Fault>,
}
