ghost use Rattle.std.specs.Prelude.{◌≡◌, ◌<◌, ◌^◌, length, map, option_map, IfOk};
ghost use Rattle.frame_headers.specs.Seen.{segment_seen};
ghost use Rattle.flow_table.specs.{Steered.{steer, steered_of}, Plain.{steered_shown}};

use crate::segment::app_of;
use frame_headers::{Seen, Segment};
use std::alloc::{AllocError, Global};

/// A segment that goes to an application.
#[derive(Clone, Copy)]
pub struct SteeredSegment<'a> {
    /// The number of its record, from 1.
    pub record_number: u32,
    /// The place of its port.
    pub app: usize,
    pub segment: Segment<'a>,
}

fn steer<'a>(ports: &[u16], record_number: u32, seen: &Seen<'a>) -> Option<SteeredSegment<'a>>
    ensures { option_map steered_shown result
        ≡ steer ports.now record_number (segment_seen seen.now) }
{
    let Seen::Tcp(segment) = seen else {
        return None;
    };
    let app = app_of(ports, segment.dport)?;
    Some(SteeredSegment {
        record_number,
        app,
        segment: *segment,
    })
}

/// The segments that go to an application, where the first of the list is of record 1.
#[tactic(auto, unfolding(crate::specs::Steered::steered_of))]
pub fn steered_of<'a>(
    alloc: Global,
    ports: &[u16],
    seen: &[Seen<'a>],
) -> Result<Vec<SteeredSegment<'a>>, AllocError>
    requires { length seen.now < 2 ^ 32 }
    ensures { IfOk result (λ steered. map steered_shown steered.items
        ≡ steered_of ports.now (map segment_seen seen.now)) }
{
    let mut steered = Vec::new(alloc);
    let mut record_number = 0;
    for one in seen {
        record_number += 1;
        if let Some(segment) = steer(ports, record_number, one) {
            steered.push(segment)?;
        }
    }
    Ok(steered)
}
