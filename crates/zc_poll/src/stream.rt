ghost use Rattle.std.specs.Prelude.{◌≡◌, ◌+◌, ◌≤◌, [], List, length, None, true, false, IfErr, IfSome, MatchBool, MatchResult, ⊤};
ghost use Rattle.futures.specs.{Poll.{IfReady, OnPending}, Runs.{After, Within}, declared.task.Poll.TheVariants.{Ready}};
ghost use Rattle.board_face.specs.{Looks.{AppTold}, NotNow.{HasWrittenRingful}, AppCalls.{AppOnlySaw, HasLoan}, AppEvents.{app_gist, gave, abandoned}, declared.views.app.AppLook.TheVariants.{RefillInUse, NotQuiet}};
ghost use Rattle.flow_queues.specs.Leaving.{IsHeldUp};
ghost use Rattle.zc_poll.specs.{Standing.{StreamStands, HoldsLoan, StaysAt, MayClose, stopped_with}, Items.{GivenItem, HasGiven}, Steps.{Stepped, OnlySteps, PollGives, ReadsLoan, ScrubsOrWaits, IsStepTold}, Fresh.{HasDoneNothing, new_stream_desk, has_left}, Polls.{AsksAgain, Yields}, Stops.{IsStill, without_loan}, declared.step.Step.TheVariants.{Ended}};

use crate::lending::offer;
use crate::state::{StreamState, stop};
use crate::step::{Lent, Step, Waits};
use crate::taking::next_note;
use board_face::{AppFace, Loan};
use flow_queues::{Queues, leave, scrub};
use futures::Stream;
use futures::task::{Context, Poll};
use std::alloc::{AllocError, Global};
use std::marker::Model;

/// The loans of an application, one after another.
#[derive(Drop)]
pub struct LoanStream<F> {
    face: F,
    state: StreamState,
}

impl<F> Model for LoanStream<F> {
    ghost use Rattle.zc_poll.specs.{DeskOf.{desk_of}, Streaming.{Streaming}};

    ghost Value = { Streaming F };

    ghost view = { λ s. record { face = s.face; desk = desk_of s.state } };
}

impl<F: AppFace> LoanStream<F> {
    /// A stream of this application's loans, of which none was given yet. Takes no memory.
    pub fn new(alloc: Global, face: F, app: u32) -> LoanStream<F>
        requires { HasDoneNothing app (F.seen face) }
        ensures stream { result ≡ record { face = face; desk = new_stream_desk app } }
        ensures stands { StreamStands result.desk (F.seen result.face) }
        ensures items { HasGiven [] result.desk.flows (F.seen result.face).taken }
    {
        LoanStream {
            face,
            state: StreamState {
                app,
                queues: Queues::new(alloc),
                stopped: false,
                ended: false,
                scrubbed: false,
            },
        }
    }

    /// One step: the next item, or why there is none. It takes as many notes for it as a ring has places, at most. Once it
    /// answered `Ended` it answers that again, and asks nothing.
    pub fn step(&mut self) -> Step
        requires stands { StreamStands self.old.desk (F.seen self.old.face) }
        ensures stepped { Stepped self.old.desk self.new.desk (F.seen self.old.face)
            (F.seen self.new.face) result }
        ensures again { self.old.desk.ended ≡ true → (result ≡ Step.Ended) × (self.new ≡ self.old) }
        // The board says of the look on which it waits that it is so.
        ensures told { IsStepTold (λ look.
            F.tells look (app_gist (F.seen self.new.face)) (F.beside self.new.face)) result }
        ensures beside { F.beside self.new.face ≡ F.beside self.old.face }
    {
        if self.state.ended {
            return Step::Ended;
        }
        if let Some(step) = offer(&mut self.face, &mut self.state) {
            return step;
        }
        let mut left = self.face.places();
        while left > 0 {
            if let Some(step) = next_note(&mut self.face, &mut self.state) {
                return step;
            }
            if let Some(step) = offer(&mut self.face, &mut self.state) {
                return step;
            }
            left -= 1;
        }
        Step::Waiting(Waits::Enough)
    }

    /// Reads bytes of a loan, from its byte `from` on.
    pub fn read(&mut self, loan: &Loan, from: u32, into: &mut [u8])
        requires holds { HoldsLoan self.old.desk (F.seen self.old.face) loan.now }
        requires within { from + length into.old ≤ loan.now.len }
        ensures stays { StaysAt self.old.desk self.new.desk (F.seen self.new.face) }
        ensures reads { ReadsLoan (F.seen self.old.face) (F.seen self.new.face) loan.now from into.new }
        ensures beside { F.beside self.new.face ≡ F.beside self.old.face }
    {
        self.face.read(loan, from, into);
    }

    /// Gives a loan back by a refill entry. `Err` says that the next refill slot was seen in use.
    pub fn give(&mut self, loan: Loan) -> Result<(), Loan>
        requires holds { HoldsLoan self.old.desk (F.seen self.old.face) loan }
        ensures stays { StaysAt self.old.desk self.new.desk (F.seen self.new.face) }
        ensures view { MatchResult result
            (λ _. F.seen self.new.face ≡ gave (F.seen self.old.face) loan)
            (λ back. (back ≡ loan) × AppOnlySaw RefillInUse (F.seen self.old.face)
            (F.seen self.new.face)) }
        ensures full { IfErr result (λ _. HasWrittenRingful (F.seen self.old.face)) }
        ensures told { AppTold (λ look.
            F.tells look (app_gist (F.seen self.old.face)) (F.beside self.old.face))
            (F.seen self.old.face) (F.seen self.new.face) }
        ensures beside { F.beside self.new.face ≡ F.beside self.old.face }
    {
        self.face.give(loan)
    }

    /// Gives a loan up without an entry.
    pub fn abandon(&mut self, loan: Loan)
        requires holds { HoldsLoan self.old.desk (F.seen self.old.face) loan }
        ensures stays { StaysAt self.old.desk self.new.desk (F.seen self.new.face) }
        ensures view { F.seen self.new.face ≡ abandoned (F.seen self.old.face) loan }
        ensures beside { F.beside self.new.face ≡ F.beside self.old.face }
    {
        self.face.abandon(loan);
    }

    /// Gives the loan up that is kept here, if one is.
    pub fn abandon_kept(&mut self, kept: &mut Option<Loan>)
        requires stands { StreamStands self.old.desk (F.seen self.old.face) }
        requires out { IfSome kept.old (λ loan. HasLoan (F.seen self.old.face) loan) }
        ensures stays { StaysAt self.old.desk self.new.desk (F.seen self.new.face) }
        ensures view { F.seen self.new.face ≡ without_loan kept.old (F.seen self.old.face) }
        ensures none { kept.new ≡ None }
        ensures beside { F.beside self.new.face ≡ F.beside self.old.face }
    {
        if let Some(loan) = kept.take() {
            self.abandon(loan);
        }
    }

    /// Gives all pieces up. The stream goes on taking notes, and gives no more items.
    pub fn stop(&mut self)
        requires stands { StreamStands self.old.desk (F.seen self.old.face) }
        ensures stays { StaysAt (stopped_with self.old.desk self.new.desk.flows) self.new.desk
            (F.seen self.new.face) }
        ensures view { F.seen self.new.face ≡ record (F.seen self.old.face) { helds = [] } }
        ensures items { (items : List GivenItem)
            → HasGiven items self.old.desk.flows (F.seen self.old.face).taken
            → HasGiven items self.new.desk.flows (F.seen self.new.face).taken }
        ensures beside { F.beside self.new.face ≡ F.beside self.old.face }
    {
        stop(&mut self.face, &mut self.state);
    }

    /// Scrubs the user counts of a stream that was stopped, once no loan is out, also while notes still come: whether it is done.
    /// `false` says that a refill slot was seen in use.
    pub fn scrub(&mut self) -> bool
        requires still { IsStill self.old.desk (F.seen self.old.face) }
        ensures stands { StreamStands self.new.desk (F.seen self.new.face) }
        ensures scrubs { ScrubsOrWaits self.old.desk self.new.desk (F.seen self.old.face)
            (F.seen self.new.face) result }
        ensures held { result ≡ false
            → IsHeldUp (λ look. F.tells look (app_gist (F.seen self.old.face))
            (F.beside self.old.face))
            (F.seen self.old.face) (F.seen self.new.face) }
        ensures beside { F.beside self.new.face ≡ F.beside self.old.face }
    {
        scrub(&mut self.face, &mut self.state.scrubbed)
    }

    /// Leaves, once no loan is out, and scrubs before where that wasn't done. `Err` says that a refill slot was seen in use.
    pub fn close(self) -> Result<F, LoanStream<F>>
        requires may { MayClose self.desk (F.seen self.face) }
        ensures left { MatchResult result
            (λ face. F.seen face ≡ has_left (F.seen self.face))
            (λ back. (back.desk ≡ self.desk) × StreamStands back.desk (F.seen back.face)
            × AppOnlySaw NotQuiet (F.seen self.face) (F.seen back.face)) }
        ensures held { IfErr result (λ back.
            IsHeldUp (λ look. F.tells look (app_gist (F.seen self.face)) (F.beside self.face))
            (F.seen self.face) (F.seen back.face)) }
        ensures beside { MatchResult result (λ face. F.beside face ≡ F.beside self.face)
            (λ back. F.beside back.face ≡ F.beside self.face) }
    {
        let mut stream = self;
        if !stream.leave() {
            return Err(stream);
        }
        Ok(stream.into_face())
    }

    /// As `close`, and the face stays here. `false` says that a refill slot was seen in use.
    pub fn leave(&mut self) -> bool
        requires may { MayClose self.old.desk (F.seen self.old.face) }
        ensures desk { self.new.desk ≡ self.old.desk }
        ensures left { MatchBool result
            (F.seen self.new.face ≡ has_left (F.seen self.old.face))
            (StreamStands self.new.desk (F.seen self.new.face)
            × AppOnlySaw NotQuiet (F.seen self.old.face) (F.seen self.new.face)) }
        ensures held { result ≡ false
            → IsHeldUp (λ look. F.tells look (app_gist (F.seen self.old.face))
            (F.beside self.old.face))
            (F.seen self.old.face) (F.seen self.new.face) }
        ensures beside { F.beside self.new.face ≡ F.beside self.old.face }
    {
        // By a flag of its own: what the stream keeps stays as it was.
        let mut scrubbed = self.state.scrubbed;
        leave(&mut self.face, &mut scrubbed)
    }

    /// Whether no note comes any more, and all was given.
    pub fn has_ended(&self) -> bool
        ensures { result ≡ self.now.desk.ended }
    {
        self.state.ended
    }

    /// What the queues are made of.
    pub fn alloc(&self) -> Global {
        self.state.queues.alloc
    }
}

impl<F> LoanStream<F> {
    /// The face.
    pub fn into_face(self) -> F
        ensures { result ≡ self.face }
    {
        let LoanStream { face, state: _ } = self;
        face
    }
}

impl<F: AppFace + Drop> Stream for LoanStream<F> {
    type Item = Result<Lent, AllocError>;

    ghost can_poll = { λ s. StreamStands s.desk (F.seen s.face) };

    ghost needs = { λ _ _. ⊤ };

    /// Each answer is what a step gives that goes on from the one before.
    ghost yields = { λ s. Yields s.desk (F.seen s.face) };

    fn poll_next(&mut self, cx: &mut Context<'_>) -> Poll<Option<Result<Lent, AllocError>>>
        requires { StreamStands self.old.desk (F.seen self.old.face) }
        ensures value { IfReady result (Yields self.old.desk (F.seen self.old.face) []) }
        ensures rest { IfReady result (λ o. IfSome o (λ x.
            After (Yields self.old.desk (F.seen self.old.face)) x
            (Yields self.new.desk (F.seen self.new.face)))) }
        ensures same { OnPending result
            (Within (Yields self.old.desk (F.seen self.old.face))
            (Yields self.new.desk (F.seen self.new.face))) }
        ensures stands { StreamStands self.new.desk (F.seen self.new.face) }
        ensures asks { AsksAgain cx.old cx.new result }
        // It gives what one step gives, and the board says of the look on which it waits that it is so.
        ensures gives { PollGives
            (λ look. F.tells look (app_gist (F.seen self.new.face)) (F.beside self.new.face))
            self.old.desk self.new.desk (F.seen self.old.face) (F.seen self.new.face) result }
        // Once it was the end it is the end again, and nothing is asked.
        ensures ended { self.old.desk.ended ≡ true → (result ≡ Ready None) × (self.new ≡ self.old) }
        ensures only { OnlySteps (F.seen self.old.face) (F.seen self.new.face) }
        ensures beside { F.beside self.new.face ≡ F.beside self.old.face }
    {
        match self.step() {
            Step::Item(lent) => Poll::Ready(Some(Ok(lent))),
            Step::Waiting(_) => cx.yield_now(),
            Step::Memory => Poll::Ready(Some(Err(AllocError))),
            Step::Ended => Poll::Ready(None),
        }
    }
}
