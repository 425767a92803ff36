//! The flows and their streams worked out by the book, for tests: slowly, and with no thought of memory. No program calls
//! these; others are measured by them.

ghost use Rattle.std.specs.Prelude.{◌≡◌, ◌<◌, ◌^◌, length, map, IfOk};
ghost use Rattle.frame_headers.specs.Seen.{segment_seen};
ghost use Rattle.zr_kinds.specs.CopyingReceiver.{nothing_placed};
ghost use Rattle.flow_table.specs.{Steered.{steered_of}, CountedPart.{not_closed}, Flows.{flows_of}, Stream.{received_all, stream_of}, Plain.{steered_shown, flow_shown, placed_shown}};

mod flows;
mod placed;
mod steered;

use crate::close::Close;
use crate::segment::first_byte;
pub use flows::PlainFlow;
use frame_headers::Seen;
use placed::PlainPlaced;
use std::alloc::{AllocError, Global};
use steered::SteeredSegment;

// What stands after what counts of the segments was received, but those that are left out.
fn receive_all(
    alloc: Global,
    base: u32,
    left_out: &[u32],
    steered: &[SteeredSegment<'_>],
) -> Result<PlainPlaced, AllocError>
    ensures { IfOk result (λ placed. placed_shown placed
        ≡ received_all base left_out.now not_closed nothing_placed
        (map steered_shown steered.now)) }
{
    let mut close = Close::none();
    let mut placed = PlainPlaced::new(alloc);
    for one in steered {
        let segment = &one.segment;
        close.see(segment);
        if !left_out.contains(&one.record_number) {
            let counted = &segment.payload[..close.counted(segment)];
            placed.receive(base, first_byte(segment), counted)?;
        }
    }
    Ok(placed)
}

/// The flows of a list of records, worked out by the book. A flow's number is its place in the list.
pub fn plain_flows(
    alloc: Global,
    ports: &[u16],
    seen: &[Seen<'_>],
) -> Result<Vec<PlainFlow>, AllocError>
    requires { length seen.now < 2 ^ 32 }
    ensures { IfOk result (λ flows. map flow_shown flows.items
        ≡ flows_of (steered_of ports.now (map segment_seen seen.now))) }
{
    let steered = steered::steered_of(alloc, ports, seen)?;
    flows::flows_of(alloc, &steered)
}

/// The stream of a flow over a list of records, with some left out by their numbers from 1, worked out by the book.
/// It is empty where there is no such flow.
#[tactic(auto, unfolding(crate::specs::Stream::stream_of))]
pub fn plain_stream(
    alloc: Global,
    ports: &[u16],
    seen: &[Seen<'_>],
    left_out: &[u32],
    flow: u32,
) -> Result<Vec<u8>, AllocError>
    requires { length seen.now < 2 ^ 32 }
    ensures { IfOk result (λ stream. stream.items
        ≡ stream_of (steered_of ports.now (map segment_seen seen.now)) left_out.now flow) }
{
    let steered = steered::steered_of(alloc, ports, seen)?;
    let flows = flows::flows_of(alloc, &steered)?;
    let Some(found) = flows.get(flow as usize) else {
        return Ok(Vec::new(alloc));
    };
    let ours = flows::of_flow(alloc, flow, &steered)?;
    receive_all(alloc, found.base, left_out, &ours)?.front(alloc)
}
