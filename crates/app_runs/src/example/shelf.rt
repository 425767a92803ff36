//! Each flow is written to a shelf, to the end or half way, and the board is left.
ghost use Rattle.std.specs.Prelude.{◌≡◌, true, IfOk};
ghost use Rattle.zc_poll.specs.Fresh.{HasDoneNothing};

use board_face::AppFace;
use futures::executor::block_on;
use std::alloc::AllocGlobal;
use std::io;
use std::random::RandomSource;
use std::sync::Wait;
use std::thread::yield_now;
use zc_poll::{LoanStream, PollTurn, Poured, ToShelf};
use zr_io::Shelf;

/// Writes each flow to the shelf: what was written, the face, which has left, and the shelf.
pub fn write_flows<R, F, T>(rt: &R, face: F, app: u32, shelf: T) -> io::Result<(Poured, F, T)>
where
    R: Wait + RandomSource + AllocGlobal,
    F: AppFace + Drop,
    T: Shelf + Drop,
    requires new { HasDoneNothing app (F.seen face) }
    ensures left { IfOk result (λ came. ((F.seen came.1).left ≡ true)
        × ((F.seen came.1).app ≡ app) × (F.beside came.1 ≡ F.beside face)) }
{
    let stream = LoanStream::new(rt.alloc(), face, app);
    block_on(rt, ToShelf::new(stream, shelf).with_parts())
}

/// The same for so many turns at most. What comes later isn't written.
pub fn write_some<R, F, T>(
    rt: &R,
    face: F,
    app: u32,
    shelf: T,
    turns: u32,
) -> io::Result<(Poured, F, T)>
where
    R: Wait + RandomSource + AllocGlobal,
    F: AppFace + Drop,
    T: Shelf + Drop,
    requires new { HasDoneNothing app (F.seen face) }
    ensures left { IfOk result (λ came. ((F.seen came.1).left ≡ true)
        × ((F.seen came.1).app ≡ app) × (F.beside came.1 ≡ F.beside face)) }
{
    let stream = LoanStream::new(rt.alloc(), face, app);
    let mut work = ToShelf::new(stream, shelf);
    for _turn in 0..turns {
        match work.turn() {
            PollTurn::Did => {}
            PollTurn::Idle(_) => yield_now(),
            PollTurn::Ended(poured) => {
                let (face, shelf) = work.parts();
                return Ok((poured, face, shelf));
            }
        }
    }
    let (poured, stream, shelf) = work.stop();
    let face = block_on(rt, stream.leaving())?;
    Ok((poured, face, shelf))
}
