//! What is next in the stream of a flow is an item.
ghost use Rattle.std.specs.Prelude.{◌≡◌, false, IfSome};
ghost use Rattle.tcp_reorder.specs.Queue.{IsSound};
ghost use Rattle.board_face.specs.AppEvents.{app_gist};
ghost use Rattle.zc_poll.specs.{Standing.{StreamStands}, Steps.{IsStepTold, LendsWhatIsNext, counted_on}, DeskOf.{desk_of}};

use crate::state::StreamState;
use crate::step::{Lent, Step, Waits};
use board_face::AppFace;
use flow_queues::{FlowQueue, Lending, Next, lend};

/// The item that a loan is, which counts its bytes.
fn item(own: &mut FlowQueue, lending: Lending, copied: bool) -> Lent
    ensures flow { own.new ≡ record own.old { bytes = counted_on own.old.bytes lending.loan.len } }
    ensures sound { IsSound own.old.queue }
    ensures item { result ≡ record {
      flow = own.old.number;
      position = own.old.bytes;
      loan = lending.loan;
      copied = copied;
    } }
{
    own.has_sound_queue();
    let position = own.bytes;
    own.bytes = position.saturating_add(u64::from(lending.loan.place().len));
    Lent {
        flow: own.number,
        position,
        loan: lending.loan,
        copied,
    }
}

/// Lends the piece that is next in the stream of the active flow. `None` says that no piece is in order.
pub fn offer<F: AppFace>(face: &mut F, st: &mut StreamState) -> Option<Step>
    requires stands { StreamStands (desk_of st.old) (F.seen face.old) }
    requires more { st.old.ended ≡ false }
    ensures offers { LendsWhatIsNext (desk_of st.old) (desk_of st.new) (F.seen face.old)
        (F.seen face.new)
        result }
    ensures told { IfSome result (IsStepTold (λ look.
        F.tells look (app_gist (F.seen face.new)) (F.beside face.new))) }
    ensures beside { F.beside face.new ≡ F.beside face.old }
{
    if st.stopped {
        return None;
    }
    let (lending, copied) = match lend(face, &mut st.queues) {
        Next::Lent(lending) => (lending, false),
        Next::LentCopy(lending) => (lending, true),
        Next::NoneInOrder => return None,
        Next::ReserveHeld => return Some(Step::Waiting(Waits::ReserveHeld)),
        // Nothing was pushed raw, so this is never reached.
        Next::Unsettled => unreachable!(),
    };
    let own = &mut st.queues.flows[st.queues.active];
    Some(Step::Item(item(own, lending, copied)))
}
