//! A carrier is asked for a notice. While a loan is due it isn't, so that one at most is due.
ghost use Rattle.futures.specs.Task.{Keeps};
ghost use Rattle.zc_forward.specs.{OutboxOf.{outbox_of}, Carrying.{carrying}, Asking.{Asked, AskedBy}};

use crate::carrier::Carrier;
use crate::outbox::{Outbox, is_urgent};
use futures::task::{Context, Poll};

/// Asks for a notice.
pub fn ask<C: Carrier>(carrier: &mut C, work: &Outbox) -> Option<u32>
    ensures by { AskedBy C.answers (outbox_of work.now) carrier.old carrier.new result }
    ensures asked { let seen = carrying C.got C.tags C.counts C.pace in
        Asked (outbox_of work.now) (seen carrier.old) (seen carrier.new) result }
{
    if work.tally.due.is_some() {
        return None;
    }
    carrier.notice(is_urgent(work))
}

/// Asks for a notice by a poll.
pub fn poll_ask<C: Carrier>(carrier: &mut C, work: &Outbox, cx: &mut Context<'_>) -> Option<u32>
    ensures by { AskedBy C.answers (outbox_of work.now) carrier.old carrier.new result }
    ensures asked { let seen = carrying C.got C.tags C.counts C.pace in
        Asked (outbox_of work.now) (seen carrier.old) (seen carrier.new) result }
    ensures kept { Keeps cx.old cx.new }
{
    if work.tally.due.is_some() {
        return None;
    }
    match carrier.poll_notice(cx, is_urgent(work)) {
        Poll::Ready(tag) => Some(tag),
        Poll::Pending => None,
    }
}
