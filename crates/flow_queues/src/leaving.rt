//! An application's user counts are scrubbed, and it leaves.
ghost use Rattle.std.specs.Prelude.{◌≡◌, false};
ghost use Rattle.board_face.specs.AppEvents.{app_gist};
ghost use Rattle.flow_queues.specs.Leaving.{MayScrub, MayLeave, ScrubsOnce, LeavesOnce, IsHeldUp};

use board_face::AppFace;

/// Scrubs, unless that was done before, if each refill slot is free: whether it is done. `false` says that one was seen in use.
pub fn scrub<F: AppFace>(face: &mut F, scrubbed: &mut bool) -> bool
    requires may { MayScrub scrubbed.old (F.seen face.old) }
    ensures scrubs { ScrubsOnce scrubbed.old scrubbed.new (F.seen face.old) (F.seen face.new)
        result }
    ensures held { result ≡ false
        → IsHeldUp (λ look. F.tells look (app_gist (F.seen face.old)) (F.beside face.old))
        (F.seen face.old) (F.seen face.new) }
    ensures beside { F.beside face.new ≡ F.beside face.old }
{
    if *scrubbed {
        return true;
    }
    if !face.quiet() {
        return false;
    }
    face.scrub();
    *scrubbed = true;
    true
}

/// Scrubs, and leaves if that is done: whether it left. `false` says that a refill slot was seen in use.
pub fn leave<F: AppFace>(face: &mut F, scrubbed: &mut bool) -> bool
    requires may { MayLeave scrubbed.old (F.seen face.old) }
    ensures leaves { LeavesOnce scrubbed.old scrubbed.new (F.seen face.old) (F.seen face.new)
        result }
    ensures held { result ≡ false
        → IsHeldUp (λ look. F.tells look (app_gist (F.seen face.old)) (F.beside face.old))
        (F.seen face.old) (F.seen face.new) }
    ensures beside { F.beside face.new ≡ F.beside face.old }
{
    if !scrub(face, scrubbed) {
        return false;
    }
    face.leave();
    true
}
