//! An item's loan is read and appended to a flow of a shelf, and counted.
ghost use Rattle.std.specs.Prelude.{◌≡◌, ℕ, List, [], Option, None};
ghost use Rattle.zr_io.specs.Moved.{ShelfCounts};
ghost use Rattle.board_face.specs.{AppEvents.{abandoned}, declared.views.app.AppView.{AppView}};
ghost use Rattle.flow_queues.specs.{Core.{OnlyReads}, Counting.{HasRoomForFlows}, TallyOf.{tally_state_of}};
ghost use Rattle.zc_poll.specs.{Standing.{Desk, StreamStands, HoldsLoan, StaysAt, stopped_with}, Items.{GivenItem, HasGiven}, Steps.{IsItem, OnlySteps}, Pouring.{CountsAppends, GainsLoan, PourStands}, PourTurns.{IsRead}};

use crate::step::Lent;
use crate::stream::LoanStream;
use board_face::{AppFace, Loan};
use flow_queues::{CHUNK, LoanTally};
use zr_io::Shelf;
use zr_kinds::Stopped;

/// Appends the bytes of a loan to a flow of the shelf, and tells how many of them the appends that went well have. Fewer than all
/// say that the shelf failed.
pub fn append_loan<F: AppFace, T: Shelf>(
    stream: &mut LoanStream<F>,
    loan: &Loan,
    flow: u32,
    shelf: &mut T,
) -> u32
    requires holds { HoldsLoan stream.old.desk (F.seen stream.old.face) loan.now }
    ensures stays { StaysAt stream.old.desk stream.new.desk (F.seen stream.new.face) }
    ensures only { OnlyReads (F.seen stream.old.face) (F.seen stream.new.face) }
    ensures appends { CountsAppends loan.now.len result (T.counts shelf.old) (T.counts shelf.new) }
    ensures gains { GainsLoan (F.seen stream.old.face) (F.seen stream.new.face) loan.now flow result
        (T.kept shelf.old) (T.kept shelf.new) }
    ensures beside { F.beside stream.new.face ≡ F.beside stream.old.face }
{
    let mut chunk = [0; CHUNK];
    let len = loan.place().len;
    let mut done = 0;
    while done < len {
        let n = (len - done).min(CHUNK as u32);
        let part = &mut chunk[..n as usize];
        stream.read(loan, done, part);
        if shelf.append(flow, part).is_err() {
            return done;
        }
        done += n;
    }
    done
}

/// Gives a loan up, and stops the stream for this.
fn give_up<F: AppFace>(stream: &mut LoanStream<F>, work: &mut LoanTally, loan: Loan, why: Stopped)
    requires holds { HoldsLoan stream.old.desk (F.seen stream.old.face) loan }
    ensures stands { StreamStands stream.new.desk (F.seen stream.new.face) }
    ensures stopped { stream.new.desk ≡ stopped_with stream.old.desk stream.new.desk.flows }
    ensures view { F.seen stream.new.face
        ≡ record (abandoned (F.seen stream.old.face) loan) { helds = [] } }
    ensures items { (items : List GivenItem)
        → HasGiven items stream.old.desk.flows (F.seen stream.old.face).taken
        → HasGiven items stream.new.desk.flows (F.seen stream.new.face).taken }
    ensures work { work.new ≡ record work.old { stopped = why } }
    ensures beside { F.beside stream.new.face ≡ F.beside stream.old.face }
{
    stream.abandon(loan);
    stream.stop();
    work.stopped = why;
}

/// Writes an item to the shelf. Its loan comes back, which is to be given back then. Where the shelf failed, or there was no memory
/// to count, it is given up, and the stream is stopped.
pub fn pour<F: AppFace, T: Shelf>(
    stream: &mut LoanStream<F>,
    shelf: &mut T,
    work: &mut LoanTally,
    lent: Lent,
) -> Option<Loan>
    requires holds { HoldsLoan stream.old.desk (F.seen stream.old.face) lent.loan }
    requires none { work.old.due ≡ None }
    requires room { HasRoomForFlows (tally_state_of work.old) }
    ensures pours { (first : ℕ → Option (List ℕ)) (losses : ShelfCounts) (st : Desk) (v : AppView)
        → PourStands first losses (tally_state_of work.old) st (T.kept shelf.old)
        (T.counts shelf.old) v
        → IsItem st stream.old.desk v (F.seen stream.old.face) lent
        → OnlySteps v (F.seen stream.old.face)
        → PourStands first losses (record (tally_state_of work.new) { due = result })
        stream.new.desk
        (T.kept shelf.new) (T.counts shelf.new)
        (F.seen stream.new.face) }
    ensures read { IsRead lent.loan stream.old.desk stream.new.desk (F.seen stream.old.face)
        (F.seen stream.new.face) result }
    ensures stands { StreamStands stream.new.desk (F.seen stream.new.face) }
    ensures none { work.new.due ≡ None }
    ensures beside { F.beside stream.new.face ≡ F.beside stream.old.face }
{
    let Lent {
        flow,
        position: _,
        loan,
        copied,
    } = lent;
    work.count_item(copied);
    if work.make_room(flow).is_err() {
        give_up(stream, work, loan, Stopped::Memory);
        return None;
    }
    let done = append_loan(stream, &loan, flow, shelf);
    work.count(flow, done);
    if done < loan.place().len {
        give_up(stream, work, loan, Stopped::Write);
        return None;
    }
    Some(loan)
}
