//! What is next in the stream is lent, and posted.
ghost use Rattle.std.specs.Prelude.{◌≡◌, ◌≢◌, false, ◌<◌, ◌≤◌, length};
ghost use Rattle.board_face.specs.{AppCalls.{HasPlace}, AppEvents.{app_gist}};
ghost use Rattle.app_worker.specs.{StateOf.{state_of}, Steps.{Posts, IsSoOfDelivery}, Works.{Works, StillWorks}, Whole.{Lends}};
ghost use Rattle.zr_kinds.specs.Limits.{longest_payload};

use crate::stack::{Delivery, Stack};
use board_face::AppFace;
use flow_queues::{Lending, Next, lend};
use zr_kinds::Completion;

/// Posts a loan of the active flow, and counts it. Where it lies in the reserve, all that is unread is to be read.
fn post<F: AppFace>(face: &F, st: &mut Stack, lending: Lending)
    requires out { HasPlace (F.seen face.now) lending.loan }
    requires few { lending.loan.len ≤ longest_payload }
    requires room { length st.old.posted.entries ≢ st.old.posted.places }
    requires active { st.old.queues.active < length st.old.queues.flows.items }
    ensures { Posts (F.seen face.now) lending (state_of st.old) (state_of st.new) }
{
    let place = lending.loan.place();
    let completion = Completion {
        user_data: u64::from(st.queues.flows[st.queues.active].number),
        res: place.len as i32,
        flags: 2,
        off: face.off(&place),
    };
    st.reader.flush = st.reader.flush || place.buffer == face.reserve();
    // There is room, so this posts it.
    let _ = st.posted.post(completion, lending);
    st.tally.loans = st.tally.loans.saturating_add(1);
}

/// Lends what is next in the stream of the active flow, and posts it. Bytes that came with their note are copied into a
/// spare for that, and counted.
pub fn deliver_one<F: AppFace>(face: &mut F, st: &mut Stack) -> Delivery
    requires works { Works (state_of st.old) (F.seen face.old) }
    requires more { st.old.phase.ended ≡ false }
    ensures works { StillWorks (state_of st.old) (state_of st.new) (F.seen face.old)
        (F.seen face.new) }
    ensures lends { Lends (state_of st.old) (state_of st.new) (F.seen face.old) (F.seen face.new)
        result }
    ensures told { IsSoOfDelivery (λ look.
        F.tells look (app_gist (F.seen face.new)) (F.beside face.new)) result }
    ensures beside { F.beside face.new ≡ F.beside face.old }
{
    if st.posted.is_full() {
        return Delivery::Full;
    }
    match lend(face, &mut st.queues) {
        Next::Lent(lending) => {
            post(face, st, lending);
            Delivery::Did
        }
        Next::LentCopy(lending) => {
            st.tally.copied = st.tally.copied.saturating_add(1);
            post(face, st, lending);
            Delivery::Did
        }
        Next::NoneInOrder => Delivery::NoneInOrder,
        Next::Unsettled => Delivery::Unsettled,
        Next::ReserveHeld => Delivery::ReserveHeld,
    }
}
