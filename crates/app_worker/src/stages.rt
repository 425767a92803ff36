//! The stages of a turn: lending what is in order, and reading what is more than it keeps unread.
ghost use Rattle.std.specs.Prelude.{◌≡◌, false, ◌+◌, ◌≤◌, [], ◌++◌, length};
ghost use Rattle.completion_ring.specs.Ring.{ring};
ghost use Rattle.board_face.specs.AppEvents.{app_gist};
ghost use Rattle.app_worker.specs.{StateOf.{state_of}, Works.{Works, NoneDue, MayLend}, ShelfWent.{ShelfWent}, Steps.{IsSoOfDelivery}, Stages.{ReadsTo, LentSome, LendsAll, IsSoOfLent}};

use crate::lending::deliver_one;
use crate::letting::let_go;
use crate::stack::{Delivery, Stack};
use crate::straying::{GivenBack, give_back};
use crate::turning::{Read, read_one};
use board_face::AppFace;
use zr_io::Shelf;
use zr_kinds::Stopped;

/// What reading did.
#[derive(Clone, Copy, Debug, PartialEq, Eq)]
pub enum Drained {
    /// Nothing was to be read.
    Nothing,
    /// All that was to be read was, and was given back.
    Did,
    /// A loan was read, and can't be given back yet.
    InUse,
    /// The application has written as many bytes as it is to write, which stopped it.
    Quit,
    /// The shelf failed, which stopped the application.
    Failed,
}

/// What delivering did.
#[derive(Clone, Copy, Debug, PartialEq, Eq)]
pub enum Lent {
    /// Nothing was in order.
    Nothing,
    /// Pieces were lent.
    Did,
    /// A piece is in order, and can't be lent yet, since a raw entry is on its way.
    Stuck,
    /// The application has written as many bytes as it is to write, which stopped it.
    Quit,
    /// Bytes are in order, and can't be copied yet: no buffer is free, and the reserve is held.
    NoSpare,
    /// The shelf failed, which stopped the application.
    Failed,
}

/// Reaps all that is posted.
fn reap_all(st: &mut Stack)
    requires { length st.old.reader.unread.items + length st.old.posted.entries
        ≤ st.old.reader.unread.capacity }
    ensures { state_of st.new ≡ record (state_of st.old) {
      unread = st.old.reader.unread.items ++ st.old.posted.entries;
      posted = ring [] st.old.posted.places;
    } }
{
    while let Some(entry) = st.posted.reap() {
        let _ = st.reader.unread.try_push_back(entry);
    }
}

/// Reads and gives back the oldest loans, down to as many that it may keep unread, or all where a loan in the reserve
/// was posted.
pub fn drain<F: AppFace, T: Shelf>(
    face: &mut F,
    st: &mut Stack,
    shelf: &mut T,
    keep: usize,
) -> Drained
    requires none { NoneDue (state_of st.old) (F.seen face.old) }
    requires keep { st.old.phase.ended ≡ false → st.old.how.hold ≤ keep }
    ensures reads { ReadsTo keep (state_of st.old) (state_of st.new) (F.seen face.old)
        (F.seen face.new) (T.kept shelf.old) (T.kept shelf.new)
        (T.counts shelf.old).faults (T.counts shelf.new).faults result }
    ensures went { ShelfWent Drained.Failed (state_of st.old) (state_of st.new) (T.counts shelf.old)
        (T.counts shelf.new) result }
    ensures beside { F.beside face.new ≡ F.beside face.old }
{
    let least = st.reader.least_kept(keep);
    let mut did = false;
    while st.reader.unread.len() > least {
        match read_one(face, st, shelf) {
            Read::Failed => {
                let_go(face, st);
                st.phase.stopped = Stopped::Write;
                return Drained::Failed;
            }
            Read::Quit => {
                let_go(face, st);
                return Drained::Quit;
            }
            _ => {}
        }
        did = true;
        match give_back(face, st) {
            GivenBack::Part => return Drained::InUse,
            GivenBack::InUse => return Drained::InUse,
            _ => {}
        }
    }
    if did { Drained::Did } else { Drained::Nothing }
}

/// Lends pieces of the active flow, up to one that can't be lent: whether it lent one, and what ended it.
fn lend_some<F: AppFace>(face: &mut F, st: &mut Stack) -> (bool, Delivery)
    requires works { Works (state_of st.old) (F.seen face.old) }
    requires more { st.old.phase.ended ≡ false }
    ensures lends { LentSome (state_of st.old) (state_of st.new) (F.seen face.old) (F.seen face.new)
        result.0 result.1 }
    ensures told { IsSoOfDelivery (λ look.
        F.tells look (app_gist (F.seen face.new)) (F.beside face.new)) result.1 }
    ensures beside { F.beside face.new ≡ F.beside face.old }
{
    let mut did = false;
    loop {
        match deliver_one(face, st) {
            Delivery::Did => did = true,
            end => return (did, end),
        }
    }
}

/// Lends all that is in order, and reads what is more than it keeps unread.
pub fn lend_all<F: AppFace, T: Shelf>(face: &mut F, st: &mut Stack, shelf: &mut T) -> Lent
    requires may { MayLend (state_of st.old) (F.seen face.old) }
    ensures lends { LendsAll (state_of st.old) (state_of st.new) (F.seen face.old) (F.seen face.new)
        (T.kept shelf.old) (T.kept shelf.new) (T.counts shelf.old).faults
        (T.counts shelf.new).faults result }
    ensures told { IsSoOfLent (λ look.
        F.tells look (app_gist (F.seen face.new)) (F.beside face.new)) result }
    ensures went { ShelfWent Lent.Failed (state_of st.old) (state_of st.new) (T.counts shelf.old)
        (T.counts shelf.new) result }
    ensures beside { F.beside face.new ≡ F.beside face.old }
{
    let mut did = false;
    loop {
        let (lent, end) = lend_some(face, st);
        if !lent {
            return match end {
                _ if did => Lent::Did,
                Delivery::Unsettled => Lent::Stuck,
                Delivery::ReserveHeld => Lent::NoSpare,
                _ => Lent::Nothing,
            };
        }
        did = true;
        reap_all(st);
        match drain(face, st, shelf, st.how.hold as usize) {
            Drained::InUse => return Lent::Did,
            Drained::Quit => return Lent::Quit,
            Drained::Failed => return Lent::Failed,
            _ => {}
        }
    }
}
