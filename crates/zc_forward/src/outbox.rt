//! What forwarding keeps beside its stream and its carrier.
ghost use Rattle.std.specs.{Prelude.{◌≡◌, ◌≤◌, ◌+◌, ◌==◌, length, vec_capacity, OnOk, IsSome}, Ordering.{nat_cmp}, BTreeMap.{get}};
ghost use Rattle.flow_queues.specs.{Counting.{AddsTo, HasRoomForFlows}, TallyOf.{tally_state_of}};
ghost use Rattle.zc_forward.specs.{OutboxOf.{outbox_of}, Sending.{is_urgent as urgent, most_out, many_kept}};

use crate::sent::{MOST, Sent};
use board_face::Loan;
use flow_queues::LoanTally;
use std::alloc::AllocError;

/// What forwarding keeps beside its stream and its carrier.
#[derive(Drop)]
pub struct Outbox {
    /// The counts, and the loan whose notice came and that is to be given back.
    pub tally: LoanTally,
    /// The loans whose tags are out.
    pub out: Vec<Sent>,
    /// A loan that wasn't carried for want of memory. It is given up at the end.
    pub uncarried: Option<Loan>,
    /// The stream waits for a buffer, or has ended.
    pub pressed: bool,
}

/// Whether no more loans may go out.
pub fn is_full(work: &Outbox) -> bool
    ensures { result ≡ (many_kept (outbox_of work.now) == most_out) }
{
    let most = if work.uncarried.is_some() {
        MOST - 1
    } else {
        MOST
    };
    work.out.len() == most as usize
}

/// Whether the next notice is wanted soon.
pub fn is_urgent(work: &Outbox) -> bool
    ensures { result ≡ urgent (outbox_of work.now) }
{
    work.pressed || is_full(work)
}

/// Asks for what one more loan of a flow takes.
pub fn room_for(work: &mut Outbox, flow: u32) -> Result<(), AllocError>
    requires room { HasRoomForFlows (tally_state_of work.old.tally) }
    ensures same { work.new.tally
        ≡ record work.old.tally { counts = work.new.tally.counts; flows = work.new.tally.flows } }
    ensures beside { (work.new.out.items ≡ work.old.out.items)
        × (work.new.uncarried ≡ work.old.uncarried) × (work.new.pressed ≡ work.old.pressed) }
    ensures none { AddsTo flow 0 work.old.tally.counts.entries work.new.tally.counts.entries }
    ensures there { OnOk result (IsSome (get nat_cmp work.new.tally.counts flow)) }
    ensures fits { OnOk result (length work.new.out.items + 1 ≤ vec_capacity work.new.out) }
    ensures room { HasRoomForFlows (tally_state_of work.new.tally) }
{
    work.out.reserve(1)?;
    work.tally.make_room(flow)
}
