//! A note is taken: into the queue of its flow, or past it where the stream is stopped.
ghost use Rattle.std.specs.Prelude.{◌≡◌, IfSome};
ghost use Rattle.board_face.specs.{AppEvents.{app_gist}, declared.views.app.AppLook.TheVariants.{NoNote as no_note}};
ghost use Rattle.zc_poll.specs.{Standing.{MayLook}, Steps.{IsStepTold, Takes, LooksForNote}, DeskOf.{desk_of}};

use crate::state::{StreamState, release, stop};
use crate::step::{Step, Waits};
use board_face::AppFace;
use flow_queues::{Taken, pass_note, take_note};

/// Looks for a note, which enters the queue of its flow, or goes past it where the stream is stopped.
fn look<F: AppFace>(face: &mut F, st: &mut StreamState) -> Taken
    requires may { MayLook (desk_of st.old) (F.seen face.old) }
    ensures looks { LooksForNote (desk_of st.old) (desk_of st.new) (F.seen face.old)
        (F.seen face.new)
        result }
    ensures told { result ≡ Taken.NoNote
        → F.tells no_note (app_gist (F.seen face.new)) (F.beside face.new) }
    ensures beside { F.beside face.new ≡ F.beside face.old }
{
    if st.stopped {
        return pass_note(face);
    }
    take_note(face, &mut st.queues)
}

/// Takes the next note. `None` says that one was taken. Want of memory stops the stream, and where no note comes any more all
/// pieces are given up that wait behind gaps.
pub fn next_note<F: AppFace>(face: &mut F, st: &mut StreamState) -> Option<Step>
    requires may { MayLook (desk_of st.old) (F.seen face.old) }
    ensures takes { Takes (desk_of st.old) (desk_of st.new) (F.seen face.old) (F.seen face.new)
        result }
    ensures told { IfSome result (IsStepTold (λ look.
        F.tells look (app_gist (F.seen face.new)) (F.beside face.new))) }
    ensures beside { F.beside face.new ≡ F.beside face.old }
{
    match look(face, st) {
        Taken::Did => None,
        Taken::NoNote => Some(Step::Waiting(Waits::NoNote)),
        Taken::Memory => {
            stop(face, st);
            Some(Step::Memory)
        }
        Taken::Ended => {
            release(face, st);
            st.ended = true;
            Some(Step::Ended)
        }
    }
}
