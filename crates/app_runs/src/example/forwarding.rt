//! Each flow is forwarded by a carrier, and the board is left.
ghost use Rattle.std.specs.Prelude.{◌≡◌, ◌<◌, [], true, IfOk};
ghost use Rattle.zc_poll.specs.Fresh.{HasDoneNothing};

use board_face::AppFace;
use futures::executor::block_on;
use std::alloc::AllocGlobal;
use std::io;
use std::random::RandomSource;
use std::sync::Wait;
use zc_forward::{Carrier, Forward, ShelfCarrier};
use zc_poll::{LoanStream, Poured};
use zr_io::Shelf;

/// Hands each flow to the carrier: what was carried, the face, which has left, and the carrier.
pub fn forward_flows<R, F, C>(rt: &R, face: F, app: u32, carrier: C) -> io::Result<(Poured, F, C)>
where
    R: Wait + RandomSource + AllocGlobal,
    F: AppFace + Drop,
    C: Carrier + Drop,
    requires new { HasDoneNothing app (F.seen face) }
    requires none { C.tags carrier ≡ [] }
    ensures left { IfOk result (λ came. ((F.seen came.1).left ≡ true)
        × ((F.seen came.1).app ≡ app) × (F.beside came.1 ≡ F.beside face)) }
{
    let stream = LoanStream::new(rt.alloc(), face, app);
    block_on(rt, Forward::new(stream, carrier).with_parts())
}

/// The same by the carrier of a shelf, which tells of each tag once so many more went out.
pub fn forward_to_shelf<R, F, T>(
    rt: &R,
    face: F,
    app: u32,
    shelf: T,
    delay: u32,
) -> io::Result<(Poured, F, T)>
where
    R: Wait + RandomSource + AllocGlobal,
    F: AppFace + Drop,
    T: Shelf + Drop,
    requires new { HasDoneNothing app (F.seen face) }
    requires few { delay < 64 }
    ensures left { IfOk result (λ came. ((F.seen came.1).left ≡ true)
        × ((F.seen came.1).app ≡ app) × (F.beside came.1 ≡ F.beside face)) }
{
    let carrier = ShelfCarrier::new(shelf, delay);
    let (poured, face, carrier) = forward_flows(rt, face, app, carrier)?;
    Ok((poured, face, carrier.shelf()))
}
