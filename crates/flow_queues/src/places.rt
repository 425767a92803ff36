//! Flows are found by their numbers.
ghost use Rattle.std.specs.Prelude.{◌≡◌, ◌-◌, ◌<◌, Option, length, MatchResult, OnOk};
ghost use Rattle.flow_queues.specs.Flows.{IsIndex, place_in_index, IsChosen};

use crate::queues::{FlowQueue, Wanting};
use std::alloc::Global;
use std::collections::BTreeMap;
use tcp_reorder::RecvQueue;
use zr_kinds::Note;

/// The place of the flow with this number.
pub fn find(index: &BTreeMap<u64, usize>, number: u64) -> Option<usize>
    ensures { result ≡ place_in_index index.now.entries number }
{
    index.get(&number).copied()
}

/// The place of the queue of a note's flow, which is made where there is none.
pub fn place_for(
    alloc: Global,
    flows: &mut Vec<FlowQueue>,
    index: &mut BTreeMap<u64, usize>,
    note: &Note,
) -> Result<usize, Wanting>
    requires { IsIndex index.old.entries flows.old.items }
    ensures chosen { MatchResult result
        (λ i. (i < length flows.new.items) × IsChosen flows.old.items flows.new.items note.now i)
        (λ _. (flows.new.items ≡ flows.old.items) × (index.new.entries ≡ index.old.entries)) }
    ensures index { OnOk result (IsIndex index.new.entries flows.new.items) }
{
    let number = u64::from(note.flow);
    if let Some(i) = find(index, number) {
        return Ok(i);
    }
    let i = flows.len();
    let own = FlowQueue {
        number: note.flow,
        queue: RecvQueue::new(alloc, note.base),
        bytes: 0,
    };
    if flows.push(own).is_err() {
        return Err(Wanting);
    }
    if index.insert(number, i).is_err() {
        flows.pop();
        return Err(Wanting);
    }
    Ok(i)
}
