//! What a stream keeps beside its face.
ghost use Rattle.std.specs.Prelude.{◌≡◌};
ghost use Rattle.board_face.specs.AppCalls.{IsHere};
ghost use Rattle.zc_poll.specs.{Standing.{IsReleased, IsStopped, MayRelease}, DeskOf.{desk_of}};

use board_face::AppFace;
use flow_queues::{Queues, release_all};

/// What a stream keeps beside its face.
#[derive(Drop)]
pub struct StreamState {
    /// The application's number, from 0.
    pub app: u32,
    pub queues: Queues,
    /// It gives no more items, whatever comes.
    pub stopped: bool,
    /// It was told that no note comes any more.
    pub ended: bool,
    /// Its user counts were scrubbed.
    pub scrubbed: bool,
}

/// Gives up all pieces that wait.
pub fn release<F: AppFace>(face: &mut F, st: &mut StreamState)
    requires here { IsHere (F.seen face.old) }
    requires may { MayRelease (desk_of st.old) (F.seen face.old) }
    ensures released { IsReleased (desk_of st.old) (desk_of st.new) (F.seen face.old)
        (F.seen face.new) }
    ensures beside { F.beside face.new ≡ F.beside face.old }
{
    if !st.stopped && !st.ended {
        release_all(face, &mut st.queues.flows);
    }
}

/// Gives all pieces up, and takes in no more.
pub fn stop<F: AppFace>(face: &mut F, st: &mut StreamState)
    requires here { IsHere (F.seen face.old) }
    requires may { MayRelease (desk_of st.old) (F.seen face.old) }
    ensures stopped { IsStopped (desk_of st.old) (desk_of st.new) (F.seen face.old)
        (F.seen face.new) }
    ensures beside { F.beside face.new ≡ F.beside face.old }
{
    release(face, st);
    st.stopped = true;
}
