//! The items of a stream are written to a shelf, one turn after another.
ghost use Rattle.std.specs.Prelude.{◌≡◌, ◌≢◌, ℕ, List, [], Option, Some, None, true, false, ⊤};
ghost use Rattle.board_face.specs.{AppEvents.{app_gist}, declared.views.app.AppView.{AppView}};
ghost use Rattle.flow_queues.specs.{Counting.{HasRoomForFlows, new_tally, quit_by}, TallyOf.{tally_state_of}};
ghost use Rattle.zr_kinds.specs.declared.{behaviour.Stopped.TheVariants.{No}, place.Place.{Place}};
ghost use Rattle.zc_poll.specs.{Standing.{Desk, StreamStands, HoldsLoan, MayClose}, Fresh.{HasDoneNothing, new_stream_desk}, Pouring.{CanTurn, PourStands}, PourTurns.{HadItem, RestsAreTold, PourGives, PourStage, PourScrubsFirst, ScrubsIfQuiet, PourStepDoes, PourTurnDoes, PollPours, PourPollDoes, pour_stage, pour_stage_at}, Steps.{IsItem, OnlySteps}};
ghost use Rattle.zc_poll.specs.{Polls.{AsksAgain, TellsPoured}, PourTurns.{TellsCounts, pour_end}, Stops.{HasStopped, IsStill, without_loan}, declared.to_shelf.Poured.{Poured as Told}};
ghost use Rattle.futures.specs.Poll.{IfReady, OnPending};
ghost use Rattle.zr_io.specs.Moved.{ShelfCounts};

use crate::pouring::pour;
use crate::step::{Lent, Step, Waits};
use crate::stream::LoanStream;
use board_face::{AppFace, Loan};
use flow_queues::LoanTally;
use futures::Future;
use futures::task::{Context, Poll};
use std::alloc::Global;
use std::marker::Model;
use zr_io::Shelf;
use zr_kinds::Stopped;

/// What was written.
#[derive(Debug, Drop)]
pub struct Poured {
    /// The sum over `flows`.
    pub written: u64,
    /// How many items there were, and how many of them were copied.
    pub loans: u64,
    pub copied: u64,
    pub stopped: Stopped,
    /// How many bytes of each flow that was written, by ascending flow.
    pub flows: Vec<(u32, u64)>,
}

impl Poured {
    /// What a tally says once nothing comes any more.
    pub fn of_tally(tally: &mut LoanTally, alloc: Global) -> Poured
        requires room { HasRoomForFlows (tally_state_of tally.old) }
        ensures tells { TellsCounts (tally_state_of tally.old) result }
        ensures due { tally.new.due ≡ tally.old.due }
    {
        let flows = tally.written_flows(alloc);
        Poured {
            written: tally.written,
            loans: tally.loans,
            copied: tally.copied,
            stopped: tally.stopped,
            flows,
        }
    }
}

/// What a turn that did nothing rests on.
#[derive(Clone, Copy, Debug, PartialEq, Eq)]
pub enum Rests {
    /// The stream waits.
    Stream(Waits),
    /// A loan is due, and the next refill slot is in use.
    RefillFull,
    /// Nothing is left but to leave, and a refill slot is in use.
    NotQuiet,
    /// No more can be done before a notice comes, and none was there. Pouring never rests on this.
    NoNotice,
}

/// What a turn did.
#[derive(Debug, Drop)]
pub enum PollTurn {
    Did,
    Idle(Rests),
    Ended(Poured),
}

/// Gives the loan back that is due.
fn give_back<F: AppFace>(stream: &mut LoanStream<F>, work: &mut LoanTally, loan: Loan) -> PollTurn
    requires holds { HoldsLoan stream.old.desk (F.seen stream.old.face) loan }
    requires due { work.old.due ≡ None }
    ensures gives { (first kept : ℕ → Option (List ℕ)) (losses now : ShelfCounts)
        → PourStands first losses (record (tally_state_of work.old) { due = Some loan })
        stream.old.desk
        kept now (F.seen stream.old.face)
        → PourStands first losses (tally_state_of work.new) stream.new.desk kept now
        (F.seen stream.new.face) }
    ensures desk { stream.new.desk ≡ stream.old.desk }
    ensures does { PourTurnDoes (pour_stage (Some loan) stream.old.desk (F.seen stream.old.face))
        (pour_stage work.new.due stream.new.desk (F.seen stream.new.face)) result }
    ensures told { RestsAreTold (λ look.
        F.tells look (app_gist (F.seen stream.new.face)) (F.beside stream.new.face)) result }
    ensures same { (F.seen stream.new.face).app ≡ (F.seen stream.old.face).app }
    ensures beside { F.beside stream.new.face ≡ F.beside stream.old.face }
{
    match stream.give(loan) {
        Ok(()) => PollTurn::Did,
        Err(loan) => {
            work.due = Some(loan);
            PollTurn::Idle(Rests::RefillFull)
        }
    }
}

/// Lets the face leave, once all is given back.
fn close<F: AppFace>(stream: &mut LoanStream<F>, work: &mut LoanTally) -> PollTurn
    requires may { MayClose stream.old.desk (F.seen stream.old.face) }
    requires due { work.old.due ≡ None }
    requires room { HasRoomForFlows (tally_state_of work.old) }
    ensures gives { (first kept : ℕ → Option (List ℕ)) (losses now : ShelfCounts)
        → PourStands first losses (tally_state_of work.old) stream.old.desk kept now
        (F.seen stream.old.face)
        → PourGives first losses (tally_state_of work.new) stream.new.desk kept now
        (F.seen stream.new.face) result }
    ensures does { (first kept : ℕ → Option (List ℕ)) (losses now : ShelfCounts)
        → PourStands first losses (tally_state_of work.old) stream.old.desk kept now
        (F.seen stream.old.face)
        → PourTurnDoes (pour_stage None stream.old.desk (F.seen stream.old.face))
        (pour_stage None stream.new.desk (F.seen stream.new.face)) result }
    ensures due { work.new.due ≡ None }
    ensures scrubs { ScrubsIfQuiet (F.seen stream.old.face) (F.seen stream.new.face) }
    ensures told { RestsAreTold (λ look.
        F.tells look (app_gist (F.seen stream.new.face)) (F.beside stream.new.face)) result }
    ensures same { (F.seen stream.new.face).app ≡ (F.seen stream.old.face).app }
    ensures beside { F.beside stream.new.face ≡ F.beside stream.old.face }
{
    if !stream.leave() {
        return PollTurn::Idle(Rests::NotQuiet);
    }
    let poured = Poured::of_tally(work, stream.alloc());
    PollTurn::Ended(poured)
}

/// Writes an item to the shelf, and gives its loan back. Where the refill slot is in use the loan stays due.
fn pour_item<F: AppFace, T: Shelf>(
    stream: &mut LoanStream<F>,
    shelf: &mut T,
    work: &mut LoanTally,
    lent: Lent,
)
    requires holds { HoldsLoan stream.old.desk (F.seen stream.old.face) lent.loan }
    requires none { work.old.due ≡ None }
    requires room { HasRoomForFlows (tally_state_of work.old) }
    ensures pours { (first : ℕ → Option (List ℕ)) (losses : ShelfCounts) (st : Desk) (v : AppView)
        → PourStands first losses (tally_state_of work.old) st (T.kept shelf.old)
        (T.counts shelf.old) v
        → IsItem st stream.old.desk v (F.seen stream.old.face) lent
        → OnlySteps v (F.seen stream.old.face)
        → PourStands first losses (tally_state_of work.new) stream.new.desk (T.kept shelf.new)
        (T.counts shelf.new) (F.seen stream.new.face) }
    ensures had { (was : PourStage)
        → IsItem was.desk stream.old.desk was.view (F.seen stream.old.face) lent
        → OnlySteps was.view (F.seen stream.old.face)
        → HadItem was (pour_stage work.new.due stream.new.desk (F.seen stream.new.face)) }
    ensures same { (F.seen stream.new.face).app ≡ (F.seen stream.old.face).app }
    ensures beside { F.beside stream.new.face ≡ F.beside stream.old.face }
{
    if let Some(loan) = pour(stream, shelf, work, lent) {
        give_back(stream, work, loan);
    }
}

/// Takes one step, and writes the item that it gave and gives it back.
fn take_step<F: AppFace, T: Shelf>(
    stream: &mut LoanStream<F>,
    shelf: &mut T,
    work: &mut LoanTally,
) -> PollTurn
    requires stands { StreamStands stream.old.desk (F.seen stream.old.face) }
    requires more { stream.old.desk.ended ≡ false }
    requires none { work.old.due ≡ None }
    requires room { HasRoomForFlows (tally_state_of work.old) }
    ensures gives { (first : ℕ → Option (List ℕ)) (losses : ShelfCounts)
        → PourStands first losses (tally_state_of work.old) stream.old.desk (T.kept shelf.old)
        (T.counts shelf.old) (F.seen stream.old.face)
        → PourGives first losses (tally_state_of work.new) stream.new.desk (T.kept shelf.new)
        (T.counts shelf.new)
        (F.seen stream.new.face) result }
    ensures does { PourStepDoes (pour_stage None stream.old.desk (F.seen stream.old.face))
        (pour_stage work.new.due stream.new.desk (F.seen stream.new.face)) result }
    ensures only { stream.old.desk.stopped ≡ true
        → OnlySteps (F.seen stream.old.face) (F.seen stream.new.face) }
    ensures told { RestsAreTold (λ look.
        F.tells look (app_gist (F.seen stream.new.face)) (F.beside stream.new.face)) result }
    ensures same { (F.seen stream.new.face).app ≡ (F.seen stream.old.face).app }
    ensures beside { F.beside stream.new.face ≡ F.beside stream.old.face }
{
    match stream.step() {
        Step::Item(lent) => {
            pour_item(stream, shelf, work, lent);
            PollTurn::Did
        }
        Step::Waiting(why) => PollTurn::Idle(Rests::Stream(why)),
        Step::Memory => {
            work.stopped = Stopped::Memory;
            PollTurn::Did
        }
        Step::Ended => PollTurn::Did,
    }
}

/// Scrubs where the stream was stopped, unless a refill slot is in use.
fn scrub_stopped<F: AppFace>(stream: &mut LoanStream<F>, work: &LoanTally)
    requires stands { (first kept : ℕ → Option (List ℕ)) × (losses now : ShelfCounts)
        × PourStands first losses (tally_state_of work.now) stream.old.desk kept now
        (F.seen stream.old.face) }
    ensures stands { StreamStands stream.new.desk (F.seen stream.new.face) }
    ensures gives { (first kept : ℕ → Option (List ℕ)) (losses now : ShelfCounts)
        → PourStands first losses (tally_state_of work.now) stream.old.desk kept now
        (F.seen stream.old.face)
        → PourStands first losses (tally_state_of work.now) stream.new.desk kept now
        (F.seen stream.new.face) }
    ensures first { (due : Option Place)
        → PourScrubsFirst (pour_stage due stream.old.desk (F.seen stream.old.face))
        (pour_stage due stream.new.desk (F.seen stream.new.face)) }
    ensures scrubs { work.now.stopped ≢ No
        → ScrubsIfQuiet (F.seen stream.old.face) (F.seen stream.new.face) }
    ensures desk { (stream.new.desk.stopped ≡ stream.old.desk.stopped)
        × (stream.new.desk.ended ≡ stream.old.desk.ended) }
    ensures same { (F.seen stream.new.face).app ≡ (F.seen stream.old.face).app }
    ensures beside { F.beside stream.new.face ≡ F.beside stream.old.face }
{
    if work.stopped == Stopped::No {
        return;
    }
    stream.scrub();
}

/// Takes a step, and scrubs before where the stream was stopped: also while notes still come.
fn go_on<F: AppFace, T: Shelf>(
    stream: &mut LoanStream<F>,
    shelf: &mut T,
    work: &mut LoanTally,
) -> PollTurn
    requires stands { CanTurn (tally_state_of work.old) stream.old.desk (T.kept shelf.old)
        (T.counts shelf.old) (F.seen stream.old.face) }
    requires more { stream.old.desk.ended ≡ false }
    requires none { work.old.due ≡ None }
    ensures gives { (first : ℕ → Option (List ℕ)) (losses : ShelfCounts)
        → PourStands first losses (tally_state_of work.old) stream.old.desk (T.kept shelf.old)
        (T.counts shelf.old) (F.seen stream.old.face)
        → PourGives first losses (tally_state_of work.new) stream.new.desk (T.kept shelf.new)
        (T.counts shelf.new)
        (F.seen stream.new.face) result }
    ensures does { PourTurnDoes (pour_stage None stream.old.desk (F.seen stream.old.face))
        (pour_stage work.new.due stream.new.desk (F.seen stream.new.face)) result }
    ensures scrubs { work.old.stopped ≢ No
        → ScrubsIfQuiet (F.seen stream.old.face) (F.seen stream.new.face) }
    ensures told { RestsAreTold (λ look.
        F.tells look (app_gist (F.seen stream.new.face)) (F.beside stream.new.face)) result }
    ensures same { (F.seen stream.new.face).app ≡ (F.seen stream.old.face).app }
    ensures beside { F.beside stream.new.face ≡ F.beside stream.old.face }
{
    scrub_stopped(stream, work);
    take_step(stream, shelf, work)
}

/// Gives back what is due, or takes a step and gives back its item, or lets the face leave.
fn take_turn<F: AppFace, T: Shelf>(
    stream: &mut LoanStream<F>,
    shelf: &mut T,
    work: &mut LoanTally,
) -> PollTurn
    requires stands { CanTurn (tally_state_of work.old) stream.old.desk (T.kept shelf.old)
        (T.counts shelf.old) (F.seen stream.old.face) }
    ensures gives { (first : ℕ → Option (List ℕ)) (losses : ShelfCounts)
        → PourStands first losses (tally_state_of work.old) stream.old.desk (T.kept shelf.old)
        (T.counts shelf.old) (F.seen stream.old.face)
        → PourGives first losses (tally_state_of work.new) stream.new.desk (T.kept shelf.new)
        (T.counts shelf.new)
        (F.seen stream.new.face) result }
    ensures does { PourTurnDoes (pour_stage work.old.due stream.old.desk (F.seen stream.old.face))
        (pour_stage work.new.due stream.new.desk (F.seen stream.new.face)) result }
    ensures scrubs { work.old.stopped ≢ No
        → ScrubsIfQuiet (F.seen stream.old.face) (F.seen stream.new.face) }
    ensures told { RestsAreTold (λ look.
        F.tells look (app_gist (F.seen stream.new.face)) (F.beside stream.new.face)) result }
    ensures same { (F.seen stream.new.face).app ≡ (F.seen stream.old.face).app }
    ensures beside { F.beside stream.new.face ≡ F.beside stream.old.face }
{
    if let Some(loan) = work.due.take() {
        return give_back(stream, work, loan);
    }
    if stream.has_ended() {
        return close(stream, work);
    }
    go_on(stream, shelf, work)
}

/// Writes the items of a stream to a shelf.
#[derive(Drop)]
pub struct ToShelf<F, T> {
    stream: LoanStream<F>,
    shelf: T,
    work: LoanTally,
}

impl<F, T> Model for ToShelf<F, T> {
    ghost use Rattle.zc_poll.specs.PourTurns.{PourView};
    ghost use Rattle.flow_queues.specs.TallyOf.{tally_state_of};

    ghost Value = { PourView F T };

    ghost view = { λ s. record { face = s.stream.face; desk = s.stream.desk; shelf = s.shelf; tally = tally_state_of s.work } };
}

impl<F: AppFace, T: Shelf> ToShelf<F, T> {
    /// Nothing is written yet. Takes no memory.
    pub fn new(stream: LoanStream<F>, shelf: T) -> ToShelf<F, T>
        requires fresh { (app : ℕ) × (stream.desk ≡ new_stream_desk app)
            × HasDoneNothing app (F.seen stream.face) }
        ensures parts { (result.face ≡ stream.face) × (result.shelf ≡ shelf)
            × (result.desk ≡ stream.desk)
            × (result.tally ≡ new_tally result.tally.room) }
        ensures stands { PourStands (T.kept shelf) (T.counts shelf) result.tally result.desk
            (T.kept result.shelf) (T.counts result.shelf)
            (F.seen result.face) }
    {
        let alloc = stream.alloc();
        ToShelf {
            stream,
            shelf,
            work: LoanTally::new(alloc),
        }
    }

    /// One turn: it gives back what is due, or takes one step, writes its item and gives it back, or lets the face leave. A loan
    /// stays due where the refill slot was seen in use. One that was stopped scrubs as soon as each refill slot is free, also while
    /// notes still come.
    pub fn turn(&mut self) -> PollTurn
        requires stands { CanTurn self.old.tally self.old.desk (T.kept self.old.shelf)
            (T.counts self.old.shelf) (F.seen self.old.face) }
        ensures gives { (first : ℕ → Option (List ℕ)) (losses : ShelfCounts)
            → PourStands first losses self.old.tally self.old.desk (T.kept self.old.shelf)
            (T.counts self.old.shelf) (F.seen self.old.face)
            → PourGives first losses self.new.tally self.new.desk (T.kept self.new.shelf)
            (T.counts self.new.shelf)
            (F.seen self.new.face) result }
        // Why it did something, waited, or ended.
        ensures does { PourTurnDoes (pour_stage_at F.seen self.old) (pour_stage_at F.seen self.new)
            result }
        // One that was stopped and hadn't scrubbed has, or it saw a refill slot in use.
        ensures scrubs { self.old.tally.stopped ≢ No
            → ScrubsIfQuiet (F.seen self.old.face) (F.seen self.new.face) }
        // The board says of the look on which it rests that it is so.
        ensures told { RestsAreTold (λ look.
            F.tells look (app_gist (F.seen self.new.face)) (F.beside self.new.face)) result }
        // The same application at the same board.
        ensures same { (F.seen self.new.face).app ≡ (F.seen self.old.face).app }
        ensures beside { F.beside self.new.face ≡ F.beside self.old.face }
    {
        take_turn(&mut self.stream, &mut self.shelf, &mut self.work)
    }

    /// Gives up the loan that is due and all pieces, and writes nothing more: what was written, the stream, which is stopped, and the
    /// shelf. `leaving` gives the face of that stream back.
    pub fn stop(self) -> (Poured, LoanStream<F>, T)
        requires stands { CanTurn self.tally self.desk (T.kept self.shelf) (T.counts self.shelf)
            (F.seen self.face) }
        // No loan is out.
        ensures still { IsStill result.1.desk (F.seen result.1.face) }
        ensures view { F.seen result.1.face
            ≡ record (without_loan self.tally.due (F.seen self.face)) { helds = [] } }
        ensures stops { (first : ℕ → Option (List ℕ)) (losses : ShelfCounts)
            → PourStands first losses self.tally self.desk (T.kept self.shelf) (T.counts self.shelf)
            (F.seen self.face)
            → HasStopped first (T.kept result.2) (F.seen result.1.face) (pour_end result.0) }
        ensures cause { result.0.stopped ≡ quit_by self.tally.stopped }
        ensures shelf { result.2 ≡ self.shelf }
        ensures beside { F.beside result.1.face ≡ F.beside self.face }
    {
        let ToShelf {
            mut stream,
            shelf,
            mut work,
        } = self;
        stream.abandon_kept(&mut work.due);
        stream.stop();
        work.quit();
        let poured = Poured::of_tally(&mut work, stream.alloc());
        (poured, stream, shelf)
    }

    /// The face, which has left, and the shelf.
    pub fn parts(self) -> (F, T)
        requires left { (F.seen self.face).left ≡ true }
        ensures { (result.0 ≡ self.face) × (result.1 ≡ self.shelf) }
    {
        let ToShelf {
            stream,
            shelf,
            work: _,
        } = self;
        (stream.into_face(), shelf)
    }
}

impl<F: AppFace + Drop, T: Shelf + Drop> Future for ToShelf<F, T> {
    type Output = Poured;

    ghost can_poll = { λ s.
        CanTurn s.tally s.desk (T.kept s.shelf) (T.counts s.shelf) (F.seen s.face) };

    ghost needs = { λ _ _. ⊤ };

    /// What a last turn gives and does.
    ghost gives = { λ s. TellsPoured s.tally s.desk (T.kept s.shelf) (T.counts s.shelf)
        (F.seen s.face) };

    fn poll(&mut self, cx: &mut Context<'_>) -> Poll<Poured>
        requires { CanTurn self.old.tally self.old.desk (T.kept self.old.shelf)
            (T.counts self.old.shelf) (F.seen self.old.face) }
        ensures value { IfReady result
            (TellsPoured self.old.tally self.old.desk (T.kept self.old.shelf)
            (T.counts self.old.shelf)
            (F.seen self.old.face)) }
        ensures same { OnPending result ((x : Told)
            → TellsPoured self.new.tally self.new.desk (T.kept self.new.shelf)
            (T.counts self.new.shelf)
            (F.seen self.new.face) x
            → TellsPoured self.old.tally self.old.desk (T.kept self.old.shelf)
            (T.counts self.old.shelf)
            (F.seen self.old.face) x) }
        ensures again { OnPending result (CanTurn self.new.tally self.new.desk
            (T.kept self.new.shelf) (T.counts self.new.shelf) (F.seen self.new.face)) }
        ensures asks { AsksAgain cx.old cx.new result }
        // It gives what one turn gives.
        ensures gives { (first : ℕ → Option (List ℕ)) (losses : ShelfCounts)
            → PourStands first losses self.old.tally self.old.desk (T.kept self.old.shelf)
            (T.counts self.old.shelf) (F.seen self.old.face)
            → PollPours first losses self.new.tally self.new.desk (T.kept self.new.shelf)
            (T.counts self.new.shelf)
            (F.seen self.new.face) result }
        ensures does { PourPollDoes (λ look.
            F.tells look (app_gist (F.seen self.new.face)) (F.beside self.new.face))
            (pour_stage_at F.seen self.old) (pour_stage_at F.seen self.new) result }
        ensures scrubs { self.old.tally.stopped ≢ No
            → ScrubsIfQuiet (F.seen self.old.face) (F.seen self.new.face) }
        // The same application at the same board.
        ensures app { (F.seen self.new.face).app ≡ (F.seen self.old.face).app }
        ensures beside { F.beside self.new.face ≡ F.beside self.old.face }
    {
        match self.turn() {
            PollTurn::Did => cx.yield_now(),
            PollTurn::Idle(_) => cx.yield_now(),
            PollTurn::Ended(poured) => Poll::Ready(poured),
        }
    }
}
