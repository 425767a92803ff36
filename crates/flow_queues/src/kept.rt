//! What any application keeps of its flows.
ghost use Rattle.std.specs.Prelude.{◌≡◌};
ghost use Rattle.flow_queues.specs.{Kept.{no_queues}, KeptOf.{queue_state}};

use crate::queues::FlowQueue;
use std::alloc::Global;
use std::collections::BTreeMap;

/// What any application keeps of its flows.
#[derive(Drop)]
pub struct Queues {
    /// What the queues are made of.
    pub alloc: Global,
    /// How many notes entered.
    pub notes: u64,
    pub flows: Vec<FlowQueue>,
    /// The place of each flow, by its number.
    pub index: BTreeMap<u64, usize>,
    /// The place of the flow that may have a piece in order.
    pub active: usize,
}

impl Queues {
    /// Queues of no flow. Takes no memory.
    pub fn new(alloc: Global) -> Queues
        ensures { queue_state result ≡ no_queues }
    {
        Queues {
            alloc,
            notes: 0,
            flows: Vec::new(alloc),
            index: BTreeMap::new(alloc),
            active: 0,
        }
    }
}
