//! A loan is handed to a carrier, and loans are given up.
ghost use Rattle.std.specs.{Prelude.{◌≡◌, ◌<◌, List, [], ◌∷◌, ◌++◌, length, nat_eq, None, Some}, Map.{lookup}};
ghost use Rattle.zr_kinds.specs.declared.behaviour.Stopped.TheVariants.{Write};
ghost use Rattle.zc_poll.specs.{Standing.{HoldsLoan, stopped_with}, Items.{GivenItem, HasGiven}};
ghost use Rattle.zc_forward.specs.{Carrying.{Cancels, Carries, carrying}, Seats.{DeskStays}, GivenUp.{GaveUp, Halts, OnlySent}};

use crate::carrier::Carrier;
use crate::outbox::Outbox;
use crate::sent::Sent;
use board_face::AppFace;
use flow_queues::CHUNK;
use zc_poll::LoanStream;
use zr_kinds::Stopped;

/// Carries the bytes of a loan whose tag is out, and tells how many of them the calls that went well carried. Fewer than all say that
/// the carrier failed.
fn carry_loan<F: AppFace, C: Carrier>(
    stream: &mut LoanStream<F>,
    carrier: &mut C,
    sent: &Sent,
) -> u32
    requires holds { HoldsLoan stream.old.desk (F.seen stream.old.face) sent.now.loan }
    requires begun { lookup (nat_eq sent.now.tag) (C.tags carrier.old) ≡ Some sent.now.flow }
    ensures stays { DeskStays F.seen F.beside stream.old stream.new }
    ensures carries { let seen = carrying C.got C.tags C.counts C.pace in
        Carries (F.seen stream.old.face) (F.seen stream.new.face) (seen carrier.old)
        (seen carrier.new) sent.now result }
    ensures tags { C.tags carrier.new ≡ C.tags carrier.old }
{
    let mut chunk = [0; CHUNK];
    let len = sent.loan.place().len;
    let mut done = 0;
    while done < len {
        let n = (len - done).min(CHUNK as u32);
        let part = &mut chunk[..n as usize];
        stream.read(&sent.loan, done, part);
        if carrier.carry(sent.tag, part).is_err() {
            return done;
        }
        done += n;
    }
    done
}

/// Hands a loan to the carrier by a tag that isn't out, and tells how many of its bytes were carried. All of them say that the tag is
/// out, and fewer that the carrier failed.
pub fn send<F: AppFace, C: Carrier>(stream: &mut LoanStream<F>, carrier: &mut C, sent: &Sent) -> u32
    requires holds { HoldsLoan stream.old.desk (F.seen stream.old.face) sent.now.loan }
    requires free { lookup (nat_eq sent.now.tag) (C.tags carrier.old) ≡ None }
    requires few { length (C.tags carrier.old) < 64 }
    ensures stays { DeskStays F.seen F.beside stream.old stream.new }
    ensures carries { let seen = carrying C.got C.tags C.counts C.pace in
        Carries (F.seen stream.old.face) (F.seen stream.new.face) (seen carrier.old)
        (seen carrier.new) sent.now result }
    ensures tags { result ≡ sent.now.loan.len
        → C.tags carrier.new ≡ C.tags carrier.old ++ (sent.now.tag, sent.now.flow) ∷ [] }
{
    if carrier.begin(sent.tag, sent.flow).is_err() {
        return 0;
    }
    carry_loan(stream, carrier, sent)
}

/// Gives up all loans that are out by their tags.
pub fn give_up<F: AppFace>(stream: &mut LoanStream<F>, out: &mut Vec<Sent>)
    requires sent { OnlySent stream.old.desk (F.seen stream.old.face) out.old.items }
    ensures stays { DeskStays F.seen F.beside stream.old stream.new }
    ensures gave_up { GaveUp (F.seen stream.old.face) (F.seen stream.new.face) }
    ensures none { ((F.seen stream.new.face).loans ≡ []) × (out.new.items ≡ []) }
{
    while let Some(sent) = out.pop() {
        stream.abandon(sent.loan);
    }
}

/// The carrier failed: no tag is out any more, all loans are given up, and the stream is stopped.
pub fn fail<F: AppFace, C: Carrier>(stream: &mut LoanStream<F>, carrier: &mut C, work: &mut Outbox)
    requires sent { OnlySent stream.old.desk (F.seen stream.old.face) work.old.out.items }
    ensures halts { Halts F.seen F.beside stream.old stream.new }
    ensures stopped { stream.new.desk ≡ stopped_with stream.old.desk stream.new.desk.flows }
    ensures items { (items : List GivenItem)
        → HasGiven items stream.old.desk.flows (F.seen stream.old.face).taken
        → HasGiven items stream.new.desk.flows (F.seen stream.new.face).taken }
    ensures work { (work.new.tally ≡ record work.old.tally { stopped = Write })
        × (work.new.out.items ≡ [])
        × (work.new.uncarried ≡ work.old.uncarried) × (work.new.pressed ≡ work.old.pressed) }
    ensures carrier { let seen = carrying C.got C.tags C.counts C.pace in
        Cancels (seen carrier.old) (seen carrier.new) }
{
    carrier.cancel();
    give_up(stream, &mut work.out);
    stream.stop();
    work.tally.stopped = Stopped::Write;
}
