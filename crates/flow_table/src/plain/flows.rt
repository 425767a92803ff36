ghost use Rattle.std.specs.Prelude.{◌≡◌, map, option_map, IfOk, OnOk};
ghost use Rattle.frame_headers.specs.Seen.{shown};
ghost use Rattle.flow_table.specs.{Flows.{key_of, same_addr, same_key, newest, begins_anew, number_of_flow, new_flow, seen_by, flows_with, flows_of, of_flow}, Plain.{steered_shown, flow_shown, found_shown}};

use super::steered::SteeredSegment;
use crate::close::Close;
use crate::segment::{first_byte, has_syn};
use frame_headers::{Addr, Segment};
use std::alloc::{AllocError, Global};

/// A flow. Its number is its place in the list of flows.
#[derive(Clone, Copy, Debug)]
pub struct PlainFlow {
    pub src: Addr,
    pub dst: Addr,
    pub sport: u16,
    pub dport: u16,
    /// The place of its port.
    pub app: usize,
    /// The sequence number of its first byte.
    pub base: u32,
    pub close: Close,
}

fn same_addr(one: &Addr, other: &Addr) -> bool
    ensures { result ≡ same_addr one.now other.now }
{
    match (one, other) {
        (Addr::V4(one), Addr::V4(other)) => one == other,
        (Addr::V6(one), Addr::V6(other)) => one == other,
        _ => false,
    }
}

impl PlainFlow {
    fn new(steered: &SteeredSegment<'_>) -> Self
        ensures { flow_shown result ≡ new_flow (steered_shown steered.now) }
    {
        let segment = &steered.segment;
        let mut close = Close::none();
        close.see(segment);
        PlainFlow {
            src: segment.src,
            dst: segment.dst,
            sport: segment.sport,
            dport: segment.dport,
            app: steered.app,
            base: first_byte(segment),
            close,
        }
    }

    fn has_key_of(&self, segment: &Segment<'_>) -> bool
        ensures { result ≡ same_key (flow_shown self.now).key (key_of (shown segment.now)) }
    {
        same_addr(&self.src, &segment.src)
            && same_addr(&self.dst, &segment.dst)
            && self.sport == segment.sport
            && self.dport == segment.dport
    }

    fn ends_before(&self, segment: &Segment<'_>) -> bool
        ensures { result ≡ begins_anew (flow_shown self.now) (shown segment.now) }
    {
        has_syn(segment) && first_byte(segment) != self.base
    }

    fn seen_by(&self, segment: &Segment<'_>) -> Self
        ensures { flow_shown result ≡ seen_by (flow_shown self.now) (shown segment.now) }
    {
        let mut flow = *self;
        flow.close.see(segment);
        flow
    }
}

// The newest flow of the segment's key, with its number.
fn newest(flows: &[PlainFlow], segment: &Segment<'_>) -> Option<(usize, PlainFlow)>
    ensures { option_map found_shown result
        ≡ newest (key_of (shown segment.now)) (map flow_shown flows.now) }
{
    let mut number = flows.len();
    while number > 0 {
        number -= 1;
        let flow = flows[number];
        if flow.has_key_of(segment) {
            return Some((number, flow));
        }
    }
    None
}

// The number of the flow that the segment belongs to, or else of the one that it begins.
#[tactic(auto, unfolding(crate::specs::Flows::number_of_flow))]
fn number_of_flow(flows: &[PlainFlow], steered: &SteeredSegment<'_>) -> usize
    ensures { result ≡ number_of_flow (map flow_shown flows.now) (steered_shown steered.now) }
{
    match newest(flows, &steered.segment) {
        Some((number, flow)) if !flow.ends_before(&steered.segment) => number,
        _ => flows.len(),
    }
}

// The flow of the segment sees it, or begins with it.
#[tactic(auto, unfolding(crate::specs::Flows::flows_with), using(crate::proofs::SeenAt::seen_at, crate::proofs::SeenAt::begun_at))]
fn see(flows: &mut Vec<PlainFlow>, steered: &SteeredSegment<'_>) -> Result<(), AllocError>
    ensures { OnOk result (map flow_shown flows.new.items
        ≡ flows_with (map flow_shown flows.old.items) (steered_shown steered.now)) }
{
    let number = number_of_flow(flows, steered);
    if number < flows.len() {
        flows[number] = flows[number].seen_by(&steered.segment);
    } else {
        flows.push(PlainFlow::new(steered))?;
    }
    Ok(())
}

/// The flows that the segments belong to.
pub fn flows_of(alloc: Global, steered: &[SteeredSegment<'_>]) -> Result<Vec<PlainFlow>, AllocError>
    ensures { IfOk result (λ flows. map flow_shown flows.items
        ≡ flows_of (map steered_shown steered.now)) }
{
    let mut flows = Vec::new(alloc);
    for one in steered {
        see(&mut flows, one)?;
    }
    Ok(flows)
}

/// The segments that belong to the flow of a number.
pub fn of_flow<'a>(
    alloc: Global,
    number: u32,
    steered: &[SteeredSegment<'a>],
) -> Result<Vec<SteeredSegment<'a>>, AllocError>
    ensures { IfOk result (λ ours. map steered_shown ours.items
        ≡ of_flow number (map steered_shown steered.now)) }
{
    let mut flows = Vec::new(alloc);
    let mut ours = Vec::new(alloc);
    for one in steered {
        if number_of_flow(&flows, one) == number as usize {
            ours.push(*one)?;
        }
        see(&mut flows, one)?;
    }
    Ok(ours)
}
