//! The lines of all flows are counted, and the board is left.
ghost use Rattle.std.specs.Prelude.{◌≡◌, [], length, true, IfOk, IfSome, IsSomeAnd, ⊤};
ghost use Rattle.zc_poll.specs.{Fresh.{HasDoneNothing}, Standing.{HoldsLoan, StreamStands}};

use board_face::AppFace;
use futures::executor::block_on;
use futures::task::{Context, Poll};
use futures::{Future, Stream};
use std::alloc::AllocGlobal;
use std::io;
use std::random::RandomSource;
use std::sync::Wait;
use zc_poll::{Lent, LoanStream};

/// Counts the lines of all flows of a stream, and closes it.
#[derive(Drop)]
struct Lines<F> {
    stream: Option<LoanStream<F>>,
    lines: u64,
}

/// How many lines end in an item. Its loan goes back, or is given up where the next refill slot is in use.
fn count_item<F: AppFace>(stream: &mut LoanStream<F>, lent: Lent) -> u64
    requires holds { HoldsLoan stream.old.desk (F.seen stream.old.face) lent.loan }
    requires only { length (F.seen stream.old.face).loans ≡ 1 }
    ensures stands { StreamStands stream.new.desk (F.seen stream.new.face) }
    ensures none { (F.seen stream.new.face).loans ≡ [] }
    ensures same { (F.seen stream.new.face).app ≡ (F.seen stream.old.face).app }
    ensures beside { F.beside stream.new.face ≡ F.beside stream.old.face }
{
    let mut lines = 0u64;
    let mut byte = [0; 1];
    for at in 0..lent.loan.place().len {
        stream.read(&lent.loan, at, &mut byte);
        if byte == [b'\n'] {
            lines = lines.saturating_add(1);
        }
    }
    if let Err(loan) = stream.give(lent.into_loan()) {
        stream.abandon(loan);
    }
    lines
}

impl<F: AppFace + Drop> Future for Lines<F> {
    type Output = (u64, F);

    ghost can_poll = { λ s. IsSomeAnd s.stream (λ stream.
        StreamStands stream.desk (F.seen stream.face) × ((F.seen stream.face).loans ≡ [])) };

    ghost needs = { λ _ _. ⊤ };

    /// The face has left its board.
    ghost gives = { λ s came. IfSome s.stream (λ stream. ((F.seen came.1).left ≡ true)
        × ((F.seen came.1).app ≡ (F.seen stream.face).app) × (F.beside came.1 ≡ F.beside stream.face)) };

    fn poll(&mut self, cx: &mut Context<'_>) -> Poll<(u64, F)> {
        let Some(mut stream) = self.stream.take() else {
            unreachable!()
        };
        match stream.poll_next(cx) {
            Poll::Ready(Some(Ok(lent))) => {
                let lines = count_item(&mut stream, lent);
                self.lines = self.lines.saturating_add(lines);
            }
            // For want of memory. The stream goes on to its end, and gives no more items.
            Poll::Ready(Some(Err(_))) => {}
            Poll::Ready(None) => match stream.close() {
                Ok(face) => return Poll::Ready((self.lines, face)),
                // A refill slot is in use: it is closed again at the next poll.
                Err(back) => stream = back,
            },
            Poll::Pending => {}
        }
        self.stream = Some(stream);
        cx.yield_now()
    }
}

/// Counts the lines of what comes to this application, and gives its face back, which has left.
pub fn count_lines<R: Wait + RandomSource + AllocGlobal, F: AppFace + Drop>(
    rt: &R,
    face: F,
    app: u32,
) -> io::Result<(u64, F)>
    requires new { HasDoneNothing app (F.seen face) }
    ensures left { IfOk result (λ came. ((F.seen came.1).left ≡ true)
        × ((F.seen came.1).app ≡ app) × (F.beside came.1 ≡ F.beside face)) }
{
    let stream = LoanStream::new(rt.alloc(), face, app);
    let lines = Lines {
        stream: Some(stream),
        lines: 0,
    };
    block_on(rt, lines)
}
