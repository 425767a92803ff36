//! What is poured, with the face and the shelf.
ghost use Rattle.std.specs.Prelude.{◌≡◌, Some, IfSome, ⊤};
ghost use Rattle.futures.specs.Poll.{IfReady, OnPending};
ghost use Rattle.board_face.specs.AppEvents.{app_gist};
ghost use Rattle.zc_poll.specs.{Polls.{AsksAgain, GivesPourParts, PourPartsDo, PourPartsMayTurn}, declared.to_shelf.Poured.{Poured as Told}};

use crate::to_shelf::{Poured, ToShelf};
use board_face::AppFace;
use futures::Future;
use futures::task::{Context, Poll};
use zr_io::Shelf;

/// Pours as `ToShelf` does, and gives the face and the shelf back too.
#[derive(Drop)]
pub struct WithParts<F, T> {
    work: Option<ToShelf<F, T>>,
}

impl<F: AppFace, T: Shelf> ToShelf<F, T> {
    /// The future that gives the face, which has left, and the shelf too.
    pub fn with_parts(self) -> WithParts<F, T>
        ensures { result.work ≡ Some self }
    {
        WithParts { work: Some(self) }
    }
}

impl<F: AppFace + Drop, T: Shelf + Drop> Future for WithParts<F, T> {
    type Output = (Poured, F, T);

    ghost can_poll = { λ s. PourPartsMayTurn F.seen T.kept T.counts s.work };

    ghost needs = { λ _ _. ⊤ };

    /// What a last turn gives and does, at the same board.
    ghost gives = { λ s. GivesPourParts F.seen F.beside T.kept T.counts s.work };

    fn poll(&mut self, cx: &mut Context<'_>) -> Poll<(Poured, F, T)>
        requires { PourPartsMayTurn F.seen T.kept T.counts self.old.work }
        ensures value { IfReady result
            (GivesPourParts F.seen F.beside T.kept T.counts self.old.work) }
        ensures same { OnPending result ((came : (Told × F × T))
            → GivesPourParts F.seen F.beside T.kept T.counts self.new.work came
            → GivesPourParts F.seen F.beside T.kept T.counts self.old.work came) }
        ensures again { OnPending result (PourPartsMayTurn F.seen T.kept T.counts self.new.work) }
        ensures asks { AsksAgain cx.old cx.new result }
        // It does what one poll of the work does.
        ensures does { IfSome self.old.work (λ was. PourPartsDo F.seen F.beside T.kept T.counts
            (λ face look. F.tells look (app_gist (F.seen face)) (F.beside face))
            was self.new.work result) }
    {
        let Some(mut work) = self.work.take() else {
            unreachable!()
        };
        match work.poll(cx) {
            Poll::Ready(poured) => {
                let (face, shelf) = work.parts();
                Poll::Ready((poured, face, shelf))
            }
            Poll::Pending => {
                self.work = Some(work);
                Poll::Pending
            }
        }
    }
}
