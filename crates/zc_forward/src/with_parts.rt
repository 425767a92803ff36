//! What is forwarded, with the face and the carrier.
ghost use Rattle.std.specs.Prelude.{◌≡◌, Some, IfSome, ⊤};
ghost use Rattle.futures.specs.Poll.{IfReady, OnPending};
ghost use Rattle.board_face.specs.AppEvents.{app_gist};
ghost use Rattle.zc_poll.specs.{Polls.{AsksAgain}, declared.to_shelf.Poured.{Poured as Told}};
ghost use Rattle.zc_forward.specs.{Carrying.{carrying}, Sights.{ForwardPartsDo, ForwardPartsMayTurn, GivesForwardParts}};

use crate::carrier::Carrier;
use crate::forward::Forward;
use board_face::AppFace;
use futures::Future;
use futures::task::{Context, Poll};
use zc_poll::Poured;

/// Forwards as `Forward` does, and gives the face and the carrier back too.
#[derive(Drop)]
pub struct WithParts<F, C> {
    work: Option<Forward<F, C>>,
}

impl<F: AppFace, C: Carrier> Forward<F, C> {
    /// The future that gives the face, which has left, and the carrier too.
    pub fn with_parts(self) -> WithParts<F, C>
        ensures { result.work ≡ Some self }
    {
        WithParts { work: Some(self) }
    }
}

impl<F: AppFace + Drop, C: Carrier + Drop> Future for WithParts<F, C> {
    type Output = (Poured, F, C);

    ghost can_poll = { λ s.
        ForwardPartsMayTurn F.seen (carrying C.got C.tags C.counts C.pace) s.work };

    ghost needs = { λ _ _. ⊤ };

    /// What a last turn gives and does, at the same board.
    ghost gives = { λ s.
        GivesForwardParts F.seen F.beside (carrying C.got C.tags C.counts C.pace) s.work };

    fn poll(&mut self, cx: &mut Context<'_>) -> Poll<(Poured, F, C)>
        requires { ForwardPartsMayTurn F.seen (carrying C.got C.tags C.counts C.pace)
            self.old.work }
        ensures value { let gives = GivesForwardParts F.seen F.beside
            (carrying C.got C.tags C.counts C.pace) in
            IfReady result (gives self.old.work) }
        ensures same { let gives = GivesForwardParts F.seen F.beside
            (carrying C.got C.tags C.counts C.pace) in
            OnPending result ((came : (Told × F × C)) → gives self.new.work came
            → gives self.old.work came) }
        ensures again { OnPending result
            (ForwardPartsMayTurn F.seen (carrying C.got C.tags C.counts C.pace)
            self.new.work) }
        ensures wakes { AsksAgain cx.old cx.new result }
        // It does what one poll of the work does.
        ensures does { IfSome self.old.work (λ was. ForwardPartsDo F.seen F.beside
            (carrying C.got C.tags C.counts C.pace) C.answers
            (λ face look. F.tells look (app_gist (F.seen face)) (F.beside face))
            was self.new.work result) }
    {
        let Some(mut work) = self.work.take() else {
            unreachable!()
        };
        match work.poll(cx) {
            Poll::Ready(poured) => {
                let (face, carrier) = work.parts();
                Poll::Ready((poured, face, carrier))
            }
            Poll::Pending => {
                self.work = Some(work);
                Poll::Pending
            }
        }
    }
}
