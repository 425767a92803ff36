//! Forwarding is stopped by its user.
ghost use Rattle.std.specs.Prelude.{◌≡◌, ℕ, None};
ghost use Rattle.zr_kinds.specs.declared.place.Place.{Place};
ghost use Rattle.board_face.specs.declared.views.app.LentPiece.{LentPiece};
ghost use Rattle.flow_queues.specs.{Core.{total}, Counting.{quit_by}};
ghost use Rattle.zc_forward.specs.{Seats.{DeskStays}, Carrying.{Cancels, carrying}, Sending.{of_sent}, OutboxOf.{outbox_of}, Forwarding.{StandsSo}, GivenUp.{GaveUp, Halts}};

use crate::carrier::Carrier;
use crate::carrying::give_up;
use crate::outbox::Outbox;
use board_face::AppFace;
use zc_poll::LoanStream;

/// Gives up the loan that is due and the one that wasn't carried.
fn give_up_kept<F: AppFace>(stream: &mut LoanStream<F>, work: &mut Outbox)
    requires stands { StandsSo (outbox_of work.old) stream.old.desk (F.seen stream.old.face) }
    ensures stays { DeskStays F.seen F.beside stream.old stream.new }
    ensures gave_up { GaveUp (F.seen stream.old.face) (F.seen stream.new.face) }
    ensures loans { (f : Place → ℕ)
        → total (λ (l : LentPiece). f l.place) (F.seen stream.new.face).loans
        ≡ of_sent f work.new.out.items }
    ensures work { work.new ≡ record work.old {
      tally = record work.old.tally { due = None };
      uncarried = None;
    } }
{
    stream.abandon_kept(&mut work.tally.due);
    stream.abandon_kept(&mut work.uncarried);
}

/// Takes each tag back from the carrier, gives each loan up, and stops the stream.
pub fn halt<F: AppFace, C: Carrier>(stream: &mut LoanStream<F>, carrier: &mut C, work: &mut Outbox)
    requires stands { StandsSo (outbox_of work.old) stream.old.desk (F.seen stream.old.face) }
    ensures halts { Halts F.seen F.beside stream.old stream.new }
    ensures work { work.new.tally
        ≡ record work.old.tally { due = None; stopped = quit_by work.old.tally.stopped } }
    ensures carrier { let seen = carrying C.got C.tags C.counts C.pace in
        Cancels (seen carrier.old) (seen carrier.new) }
{
    carrier.cancel();
    give_up_kept(stream, work);
    give_up(stream, &mut work.out);
    stream.stop();
    work.tally.quit();
}
