//! A stream that was stopped leaves its board.
ghost use Rattle.std.specs.Prelude.{◌≡◌, [], true, IfSome, IsSomeAnd, MatchBool, ⊤};
ghost use Rattle.futures.specs.Poll.{IfReady, OnPending};
ghost use Rattle.board_face.specs.AppEvents.{app_gist};
ghost use Rattle.zc_poll.specs.{Standing.{StreamStands}, Polls.{AsksAgain}, Stops.{GivesFace, IsStill, KeepsStillStream, LeavesSoon, LeavingDoes, LentNothing, WentOn}};

use crate::step::Step;
use crate::stream::LoanStream;
use board_face::AppFace;
use futures::Future;
use futures::task::{Context, Poll};

/// Takes notes until no more come, and then leaves and gives the face back. It scrubs as soon as each refill slot is free.
#[derive(Drop)]
pub struct Leaving<F> {
    stream: Option<LoanStream<F>>,
}

impl<F: AppFace> LoanStream<F> {
    /// Gives all pieces up, and leaves. Each loan was given back or given up.
    pub fn leaving(self) -> Leaving<F>
        requires stands { StreamStands self.desk (F.seen self.face) }
        requires none { (F.seen self.face).loans ≡ [] }
        ensures { IsSomeAnd result.stream (λ stream. IsStill stream.desk (F.seen stream.face)
            × (F.seen stream.face ≡ record (F.seen self.face) { helds = [] })
            × (F.beside stream.face ≡ F.beside self.face)) }
    {
        let mut stream = self;
        stream.stop();
        Leaving {
            stream: Some(stream),
        }
    }
}

/// Takes a step, which gives no item.
fn pass<F: AppFace>(stream: &mut LoanStream<F>)
    requires still { IsStill stream.old.desk (F.seen stream.old.face) }
    ensures still { IsStill stream.new.desk (F.seen stream.new.face) }
    ensures passes { LentNothing (F.seen stream.old.face) (F.seen stream.new.face) }
    ensures went { WentOn (λ look.
        F.tells look (app_gist (F.seen stream.new.face)) (F.beside stream.new.face))
        stream.old.desk stream.new.desk (F.seen stream.old.face) (F.seen stream.new.face) }
    ensures beside { F.beside stream.new.face ≡ F.beside stream.old.face }
{
    match stream.step() {
        Step::Item(lent) => stream.abandon(lent.into_loan()),
        Step::Waiting(_) => {}
        Step::Memory => {}
        Step::Ended => {}
    }
}

/// Scrubs, unless a refill slot is in use, and takes a step; or leaves: whether it has left.
fn leave_soon<F: AppFace>(stream: &mut LoanStream<F>) -> bool
    requires still { IsStill stream.old.desk (F.seen stream.old.face) }
    ensures left { MatchBool result
        (((F.seen stream.new.face).scrubbed ≡ true) × ((F.seen stream.new.face).left ≡ true))
        (IsStill stream.new.desk (F.seen stream.new.face)) }
    ensures passes { LentNothing (F.seen stream.old.face) (F.seen stream.new.face) }
    ensures does { LeavesSoon (λ look.
        F.tells look (app_gist (F.seen stream.new.face)) (F.beside stream.new.face))
        stream.old.desk stream.new.desk (F.seen stream.old.face) (F.seen stream.new.face) result }
    ensures beside { F.beside stream.new.face ≡ F.beside stream.old.face }
{
    if stream.has_ended() {
        return stream.leave();
    }
    stream.scrub();
    pass(stream);
    false
}

impl<F: AppFace + Drop> Future for Leaving<F> {
    type Output = F;

    ghost can_poll = { λ s. KeepsStillStream F.seen s.stream };

    ghost needs = { λ _ _. ⊤ };

    /// The face has scrubbed, and left the same board. No loan went in any way since.
    ghost gives = { λ s. GivesFace F.seen F.beside s.stream };

    fn poll(&mut self, cx: &mut Context<'_>) -> Poll<F>
        requires { KeepsStillStream F.seen self.old.stream }
        ensures value { IfReady result (GivesFace F.seen F.beside self.old.stream) }
        ensures same { OnPending result ((face : F) → GivesFace F.seen F.beside self.new.stream face
            → GivesFace F.seen F.beside self.old.stream face) }
        ensures again { OnPending result (KeepsStillStream F.seen self.new.stream) }
        ensures asks { AsksAgain cx.old cx.new result }
        // It leaves once no note comes any more. Before, it scrubs and takes a step.
        ensures does { IfSome self.old.stream (λ was. LeavingDoes F.seen F.beside
            (λ face look. F.tells look (app_gist (F.seen face)) (F.beside face))
            was self.new.stream result) }
    {
        let Some(mut stream) = self.stream.take() else {
            unreachable!()
        };
        if leave_soon(&mut stream) {
            return Poll::Ready(stream.into_face());
        }
        self.stream = Some(stream);
        cx.yield_now()
    }
}
