//! The parts of a turn of forwarding.
ghost use Rattle.std.specs.Prelude.{◌≡◌, ◌≢◌, ℕ, List, [], Option, Some, None, true, ◌⊎◌, MatchOption};
ghost use Rattle.zr_io.specs.Moved.{Rose, ShelfCounts};
ghost use Rattle.board_face.specs.{AppEvents.{app_gist}, declared.views.app.AppView.{AppView}};
ghost use Rattle.zr_kinds.specs.declared.behaviour.Stopped.TheVariants.{No};
ghost use Rattle.zc_poll.specs.{Standing.{Desk, HoldsLoan}, Steps.{IsItem, OnlySteps}, PourTurns.{RestsAreTold, ScrubsIfQuiet}};
ghost use Rattle.zc_forward.specs.{Tags.{Pace, Tags, TakesTag}, Seats.{SameSeat}, OutboxOf.{outbox_of}, Handing.{CanHand, CanStep}, Forwarding.{ForwardStands, StandsSo}, Turns.{ForwardGives, GivesLoanBack, CarriedItem, ScrubsFirst, StepDoes, NoticeCame, TurnDoes, stage_of, with_due}};

use crate::carrier::Carrier;
use crate::carrying::{fail, send};
use crate::outbox::{Outbox, is_full, room_for};
use crate::sent::{Sent, free_tag, take_sent};
use board_face::{AppFace, Loan};
use zc_poll::{Lent, LoanStream, PollTurn, Poured, Rests, Step, Waits};
use zr_kinds::Stopped;

/// Gives a loan back. Where the refill slot is in use it stays due.
fn give_back<F: AppFace>(stream: &mut LoanStream<F>, work: &mut Outbox, loan: Loan) -> PollTurn
    requires holds { HoldsLoan stream.old.desk (F.seen stream.old.face) loan }
    requires due { work.old.tally.due ≡ None }
    ensures gives { (first got : ℕ → Option (List ℕ)) (losses now : ShelfCounts) (tags : Tags)
        → ForwardStands first losses (with_due (outbox_of work.old) (Some loan)) stream.old.desk
        tags got now (F.seen stream.old.face)
        → ForwardStands first losses (outbox_of work.new) stream.new.desk tags got now
        (F.seen stream.new.face) }
    ensures back { GivesLoanBack loan (outbox_of work.old) (outbox_of work.new)
        (F.seen stream.old.face)
        (F.seen stream.new.face) result }
    ensures desk { stream.new.desk ≡ stream.old.desk }
    ensures told { RestsAreTold (λ look.
        F.tells look (app_gist (F.seen stream.new.face)) (F.beside stream.new.face)) result }
    ensures seat { SameSeat F.seen F.beside stream.old.face stream.new.face }
{
    match stream.give(loan) {
        Ok(()) => PollTurn::Did,
        Err(loan) => {
            work.tally.due = Some(loan);
            PollTurn::Idle(Rests::RefillFull)
        }
    }
}

/// Gives the loan back whose tag the carrier told.
fn take_notice<F: AppFace>(stream: &mut LoanStream<F>, work: &mut Outbox, tag: u32)
    requires stands { (first got : ℕ → Option (List ℕ)) × (losses now : ShelfCounts)
        × (was tags : Tags)
        × ForwardStands first losses (outbox_of work.old) stream.old.desk was got now
        (F.seen stream.old.face)
        × TakesTag was tags (Some tag) }
    requires due { work.old.tally.due ≡ None }
    ensures gives { (first got : ℕ → Option (List ℕ)) (losses now : ShelfCounts) (was tags : Tags)
        → ForwardStands first losses (outbox_of work.old) stream.old.desk was got now
        (F.seen stream.old.face)
        → TakesTag was tags (Some tag)
        → ForwardStands first losses (outbox_of work.new) stream.new.desk tags got now
        (F.seen stream.new.face) }
    ensures told { (was tags : Tags) (pace later : Pace) → TakesTag was tags (Some tag)
        → NoticeCame (stage_of (outbox_of work.old) stream.old.desk was pace
        (F.seen stream.old.face))
        (stage_of (outbox_of work.new) stream.new.desk tags later (F.seen stream.new.face)) }
    ensures seat { SameSeat F.seen F.beside stream.old.face stream.new.face }
{
    let loan = take_sent(&mut work.out, tag);
    give_back(stream, work, loan);
}

/// Lets the face leave, once all is given back. A loan that wasn't carried is given up before.
fn leave<F: AppFace>(stream: &mut LoanStream<F>, work: &mut Outbox) -> PollTurn
    requires stands { StandsSo (outbox_of work.old) stream.old.desk (F.seen stream.old.face) }
    requires ended { stream.old.desk.ended ≡ true }
    requires none { work.old.out.items ≡ [] }
    requires due { work.old.tally.due ≡ None }
    ensures gives { (first got : ℕ → Option (List ℕ)) (losses now : ShelfCounts) (tags : Tags)
        → ForwardStands first losses (outbox_of work.old) stream.old.desk tags got now
        (F.seen stream.old.face)
        → ForwardGives first losses (outbox_of work.new) stream.new.desk tags got now
        (F.seen stream.new.face) result }
    ensures does { (first got : ℕ → Option (List ℕ)) (losses now : ShelfCounts) (tags : Tags)
        (pace later : Pace)
        → ForwardStands first losses (outbox_of work.old) stream.old.desk tags got now
        (F.seen stream.old.face)
        → TurnDoes (stage_of (outbox_of work.old) stream.old.desk tags pace
        (F.seen stream.old.face))
        (stage_of (outbox_of work.new) stream.new.desk tags later (F.seen stream.new.face)) result }
    ensures scrubs { ScrubsIfQuiet (F.seen stream.old.face) (F.seen stream.new.face) }
    ensures told { RestsAreTold (λ look.
        F.tells look (app_gist (F.seen stream.new.face)) (F.beside stream.new.face)) result }
    ensures seat { SameSeat F.seen F.beside stream.old.face stream.new.face }
{
    stream.abandon_kept(&mut work.uncarried);
    if !stream.leave() {
        return PollTurn::Idle(Rests::NotQuiet);
    }
    let poured = Poured::of_tally(&mut work.tally, stream.alloc());
    PollTurn::Ended(poured)
}

/// Hands an item to the carrier. Where there is no memory to count it the stream is stopped, and so it is where the carrier fails.
fn forward_item<F: AppFace, C: Carrier>(
    stream: &mut LoanStream<F>,
    carrier: &mut C,
    work: &mut Outbox,
    lent: Lent,
)
    requires can { CanHand (outbox_of work.old) stream.old.desk (C.tags carrier.old)
        (F.seen stream.old.face) lent.loan }
    ensures gives { (first : ℕ → Option (List ℕ)) (losses : ShelfCounts) (st : Desk) (v : AppView)
        → ForwardStands first losses (outbox_of work.old) st (C.tags carrier.old)
        (C.got carrier.old) (C.counts carrier.old) v
        → IsItem st stream.old.desk v (F.seen stream.old.face) lent
        → OnlySteps v (F.seen stream.old.face)
        → ForwardStands first losses (outbox_of work.new) stream.new.desk (C.tags carrier.new)
        (C.got carrier.new) (C.counts carrier.new)
        (F.seen stream.new.face) }
    ensures had { (st : Desk) (v : AppView) (pace later : Pace)
        → IsItem st stream.old.desk v (F.seen stream.old.face) lent
        → OnlySteps v (F.seen stream.old.face)
        → CarriedItem (stage_of (outbox_of work.old) st (C.tags carrier.old) pace v)
        (stage_of (outbox_of work.new) stream.new.desk (C.tags carrier.new) later
        (F.seen stream.new.face)) }
    ensures pace { C.pace carrier.new ≡ C.pace carrier.old }
    ensures seat { SameSeat F.seen F.beside stream.old.face stream.new.face }
{
    let Lent {
        flow,
        position: _,
        loan,
        copied,
    } = lent;
    work.pressed = false;
    work.tally.count_item(copied);
    if room_for(work, flow).is_err() {
        stream.stop();
        work.tally.stopped = Stopped::Memory;
        work.uncarried = Some(loan);
        return;
    }
    let sent = Sent {
        tag: free_tag(&work.out),
        flow,
        loan,
    };
    let done = send(stream, carrier, &sent);
    work.tally.count(sent.flow, done);
    let len = sent.loan.place().len;
    work.out.push_reserved(sent);
    if done < len {
        fail(stream, carrier, work);
    }
}

/// Takes one step, and hands the item that it gave to the carrier.
fn step_once<F: AppFace, C: Carrier>(
    stream: &mut LoanStream<F>,
    carrier: &mut C,
    work: &mut Outbox,
) -> PollTurn
    requires stands { (first : ℕ → Option (List ℕ)) × (losses : ShelfCounts)
        × ForwardStands first losses (outbox_of work.old) stream.old.desk (C.tags carrier.old)
        (C.got carrier.old) (C.counts carrier.old)
        (F.seen stream.old.face) }
    requires can { CanStep (outbox_of work.old) stream.old.desk }
    ensures gives { (first : ℕ → Option (List ℕ)) (losses : ShelfCounts)
        → ForwardStands first losses (outbox_of work.old) stream.old.desk (C.tags carrier.old)
        (C.got carrier.old) (C.counts carrier.old)
        (F.seen stream.old.face)
        → ForwardGives first losses (outbox_of work.new) stream.new.desk (C.tags carrier.new)
        (C.got carrier.new) (C.counts carrier.new)
        (F.seen stream.new.face) result }
    ensures does { (pace : Pace)
        → StepDoes (stage_of (outbox_of work.old) stream.old.desk (C.tags carrier.old) pace
        (F.seen stream.old.face))
        (stage_of (outbox_of work.new) stream.new.desk (C.tags carrier.new) (C.pace carrier.new)
        (F.seen stream.new.face)) result }
    ensures only { stream.old.desk.stopped ≡ true
        → OnlySteps (F.seen stream.old.face) (F.seen stream.new.face) }
    ensures pace { C.pace carrier.new ≡ C.pace carrier.old }
    ensures rest { (pace : Pace) → (carrier.new ≡ carrier.old)
        ⊎ CarriedItem (stage_of (outbox_of work.old) stream.old.desk (C.tags carrier.old) pace
        (F.seen stream.old.face))
        (stage_of (outbox_of work.new) stream.new.desk (C.tags carrier.new) (C.pace carrier.new)
        (F.seen stream.new.face)) }
    ensures told { RestsAreTold (λ look.
        F.tells look (app_gist (F.seen stream.new.face)) (F.beside stream.new.face)) result }
    ensures seat { SameSeat F.seen F.beside stream.old.face stream.new.face }
{
    match stream.step() {
        Step::Item(lent) => {
            forward_item(stream, carrier, work, lent);
            PollTurn::Did
        }
        Step::Waiting(why) => {
            work.pressed = why == Waits::ReserveHeld;
            PollTurn::Idle(Rests::Stream(why))
        }
        Step::Memory => {
            work.pressed = false;
            work.tally.stopped = Stopped::Memory;
            PollTurn::Did
        }
        Step::Ended => {
            work.pressed = true;
            PollTurn::Did
        }
    }
}

/// Scrubs where the stream was stopped and no tag is out, unless a refill slot is in use. The loan that wasn't carried is given up
/// before.
fn scrub_stopped<F: AppFace>(stream: &mut LoanStream<F>, work: &mut Outbox)
    requires stands { StandsSo (outbox_of work.old) stream.old.desk (F.seen stream.old.face) }
    requires due { work.old.tally.due ≡ None }
    ensures gives { (first got : ℕ → Option (List ℕ)) (losses now : ShelfCounts) (tags : Tags)
        → ForwardStands first losses (outbox_of work.old) stream.old.desk tags got now
        (F.seen stream.old.face)
        → ForwardStands first losses (outbox_of work.new) stream.new.desk tags got now
        (F.seen stream.new.face) }
    ensures first { (tags : Tags) (pace : Pace)
        → ScrubsFirst (stage_of (outbox_of work.old) stream.old.desk tags pace
        (F.seen stream.old.face))
        (stage_of (outbox_of work.new) stream.new.desk tags pace (F.seen stream.new.face)) }
    ensures scrubs { work.old.tally.stopped ≢ No → work.old.out.items ≡ []
        → ScrubsIfQuiet (F.seen stream.old.face) (F.seen stream.new.face) }
    ensures work { work.new ≡ record work.old { uncarried = work.new.uncarried } }
    ensures desk { (stream.new.desk.stopped ≡ stream.old.desk.stopped)
        × (stream.new.desk.ended ≡ stream.old.desk.ended) }
    ensures seat { SameSeat F.seen F.beside stream.old.face stream.new.face }
{
    if work.tally.stopped == Stopped::No {
        return;
    }
    if !work.out.is_empty() {
        return;
    }
    stream.abandon_kept(&mut work.uncarried);
    stream.scrub();
}

/// Takes a step, and scrubs before where the stream was stopped: also while notes still come.
fn take_step<F: AppFace, C: Carrier>(
    stream: &mut LoanStream<F>,
    carrier: &mut C,
    work: &mut Outbox,
) -> PollTurn
    requires stands { (first : ℕ → Option (List ℕ)) × (losses : ShelfCounts)
        × ForwardStands first losses (outbox_of work.old) stream.old.desk (C.tags carrier.old)
        (C.got carrier.old) (C.counts carrier.old)
        (F.seen stream.old.face) }
    requires can { CanStep (outbox_of work.old) stream.old.desk }
    ensures gives { (first : ℕ → Option (List ℕ)) (losses : ShelfCounts)
        → ForwardStands first losses (outbox_of work.old) stream.old.desk (C.tags carrier.old)
        (C.got carrier.old) (C.counts carrier.old)
        (F.seen stream.old.face)
        → ForwardGives first losses (outbox_of work.new) stream.new.desk (C.tags carrier.new)
        (C.got carrier.new) (C.counts carrier.new)
        (F.seen stream.new.face) result }
    ensures does { (pace : Pace)
        → TurnDoes (stage_of (outbox_of work.old) stream.old.desk (C.tags carrier.old) pace
        (F.seen stream.old.face))
        (stage_of (outbox_of work.new) stream.new.desk (C.tags carrier.new) (C.pace carrier.new)
        (F.seen stream.new.face)) result }
    ensures pace { C.pace carrier.new ≡ C.pace carrier.old }
    ensures rest { (pace : Pace) → (carrier.new ≡ carrier.old)
        ⊎ CarriedItem (stage_of (outbox_of work.old) stream.old.desk (C.tags carrier.old) pace
        (F.seen stream.old.face))
        (stage_of (outbox_of work.new) stream.new.desk (C.tags carrier.new) (C.pace carrier.new)
        (F.seen stream.new.face)) }
    ensures scrubs { work.old.tally.stopped ≢ No → work.old.out.items ≡ []
        → ScrubsIfQuiet (F.seen stream.old.face) (F.seen stream.new.face) }
    ensures told { RestsAreTold (λ look.
        F.tells look (app_gist (F.seen stream.new.face)) (F.beside stream.new.face)) result }
    ensures seat { SameSeat F.seen F.beside stream.old.face stream.new.face }
{
    scrub_stopped(stream, work);
    step_once(stream, carrier, work)
}

/// Gives the loan of the notice that came back, or the one that is due; or takes a step, or lets the face leave.
pub fn go_on<F: AppFace, C: Carrier>(
    stream: &mut LoanStream<F>,
    carrier: &mut C,
    work: &mut Outbox,
    told: Option<u32>,
) -> PollTurn
    requires stands { (first : ℕ → Option (List ℕ)) × (losses : ShelfCounts) × (was : Tags)
        × TakesTag was (C.tags carrier.old) told
        × ForwardStands first losses (outbox_of work.old) stream.old.desk was (C.got carrier.old)
        (C.counts carrier.old)
        (F.seen stream.old.face) }
    requires asked { told ≢ None → work.old.tally.due ≡ None }
    ensures gives { (first : ℕ → Option (List ℕ)) (losses : ShelfCounts) (was : Tags)
        → TakesTag was (C.tags carrier.old) told
        → ForwardStands first losses (outbox_of work.old) stream.old.desk was (C.got carrier.old)
        (C.counts carrier.old)
        (F.seen stream.old.face)
        → ForwardGives first losses (outbox_of work.new) stream.new.desk (C.tags carrier.new)
        (C.got carrier.new) (C.counts carrier.new)
        (F.seen stream.new.face) result }
    ensures does { (was : Tags) (pace : Pace) → TakesTag was (C.tags carrier.old) told
        → (told ≡ None → work.old.tally.due ≡ None → Rose pace.looks (C.pace carrier.old).looks)
        → TurnDoes (stage_of (outbox_of work.old) stream.old.desk was pace (F.seen stream.old.face))
        (stage_of (outbox_of work.new) stream.new.desk (C.tags carrier.new) (C.pace carrier.new)
        (F.seen stream.new.face)) result }
    // The carrier isn't asked again.
    ensures pace { C.pace carrier.new ≡ C.pace carrier.old }
    ensures rest { (was : Tags) (pace : Pace) → TakesTag was (C.tags carrier.old) told
        → MatchOption told ((carrier.new ≡ carrier.old)
        ⊎ CarriedItem (stage_of (outbox_of work.old) stream.old.desk was pace
        (F.seen stream.old.face))
        (stage_of (outbox_of work.new) stream.new.desk (C.tags carrier.new) (C.pace carrier.new)
        (F.seen stream.new.face)))
        (λ tag. (carrier.new ≡ carrier.old)
        × NoticeCame (stage_of (outbox_of work.old) stream.old.desk was pace
        (F.seen stream.old.face))
        (stage_of (outbox_of work.new) stream.new.desk (C.tags carrier.new) (C.pace carrier.new)
        (F.seen stream.new.face))) }
    ensures scrubs { told ≡ None → work.old.tally.stopped ≢ No → work.old.tally.due ≡ None
        → work.old.out.items ≡ []
        → ScrubsIfQuiet (F.seen stream.old.face) (F.seen stream.new.face) }
    ensures told { RestsAreTold (λ look.
        F.tells look (app_gist (F.seen stream.new.face)) (F.beside stream.new.face)) result }
    ensures seat { SameSeat F.seen F.beside stream.old.face stream.new.face }
{
    if let Some(tag) = told {
        take_notice(stream, work, tag);
        return PollTurn::Did;
    }
    if let Some(loan) = work.tally.due.take() {
        return give_back(stream, work, loan);
    }
    if is_full(work) {
        return PollTurn::Idle(Rests::NoNotice);
    }
    if !stream.has_ended() {
        return take_step(stream, carrier, work);
    }
    if !work.out.is_empty() {
        return PollTurn::Idle(Rests::NoNotice);
    }
    leave(stream, work)
}
