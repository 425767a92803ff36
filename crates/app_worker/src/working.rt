//! One turn of an application.
ghost use Rattle.std.specs.Prelude.{◌≡◌, ◌≢◌, true, ℕ, [], List, Option, Some, MatchOption};
ghost use Rattle.board_face.specs.{AppCalls.{IsHere, ToldEnd}, AppEvents.{app_gist}};
ghost use Rattle.app_worker.specs.{declared.turn.{Why.{Why}, Turn.{Turn, TheVariants.{Did, Idle, Failed, Finished}}}, State.{Common, Bare, AppStands}, StateOf.{state_of}, Works.{NoneDue, MayLend}, ShelfWent.{ShelfWent}, Turns.{Passes, Turns, look_of, turn_after}};
ghost use Rattle.zr_kinds.specs.declared.fault.Fault.TheVariants.{Write};
ghost use Rattle.flow_queues.specs.{Core.{Each, HoldsApart}, Flows.{IsAtRest}};

use crate::letting::let_go;
use crate::stack::Stack;
use crate::stages::{Drained, Lent, drain, lend_all};
use crate::straying::{GivenBack, give_back};
use crate::turn::{Turn, Why};
use board_face::AppFace;
use flow_queues::{Taken, leave, scrub, take_note};
use zr_io::Shelf;
use zr_kinds::{Fault, Stopped};

/// The turn, once something was done before: then it isn't idle.
fn after(did: bool, turn: Turn) -> Turn
    ensures { result ≡ turn_after did turn }
{
    match turn {
        Turn::Idle(_) if did => Turn::Did,
        other => other,
    }
}

/// An application that has no piece and no loan any more looks for a note, and gives up at once what it brings: what that is
/// as a turn, or `None` where no note comes any more.
fn pass_note<F: AppFace>(face: &mut F) -> Option<Turn>
    requires holds { HoldsApart (F.seen face.old) }
    requires none { (F.seen face.old).helds ≡ [] }
    ensures passes { MatchOption result (ToldEnd (F.seen face.old) (F.seen face.new))
        (λ turn. Passes (F.seen face.old) (F.seen face.new) turn) }
    ensures busy { (turn : Turn) → result ≡ Some turn → turn ≢ Finished }
    ensures told { (why : Why) → result ≡ Some (Idle why)
        → F.tells (look_of why) (app_gist (F.seen face.new)) (F.beside face.new) }
    ensures beside { F.beside face.new ≡ F.beside face.old }
{
    match flow_queues::pass_note(face) {
        Taken::Did => Some(Turn::Did),
        Taken::NoNote => Some(Turn::Idle(Why::NoNote)),
        Taken::Ended => None,
        // What goes past the queues takes no memory, so this is never reached.
        Taken::Memory => unreachable!(),
    }
}

/// A turn of an application that has no piece and no loan any more. It scrubs as soon as each refill slot is free, also while
/// notes still come.
fn bare_turn<F: AppFace>(face: &mut F, st: &mut Stack) -> Turn
    requires here { IsHere (F.seen face.old) }
    requires bare { Bare (state_of st.old) (F.seen face.old) }
    requires is_bare { st.old.phase.bare ≡ true }
    requires common { Common (state_of st.old) (F.seen face.old) }
    requires reaped { st.old.posted.entries ≡ [] }
    ensures turns { (kept : ℕ → Option (List ℕ)) (faults : ℕ)
        → Turns (state_of st.old) (state_of st.new) (F.seen face.old) (F.seen face.new) kept kept
        faults faults result }
    ensures told { (why : Why) → result ≡ Idle why
        → F.tells (look_of why) (app_gist (F.seen face.new)) (F.beside face.new) }
    ensures beside { F.beside face.new ≡ F.beside face.old }
{
    if st.phase.ended {
        return if leave(face, &mut st.phase.scrubbed) {
            Turn::Finished
        } else {
            Turn::Idle(Why::NotQuiet)
        };
    }
    let Some(turn) = pass_note(face) else {
        st.phase.ended = true;
        return if leave(face, &mut st.phase.scrubbed) {
            Turn::Finished
        } else {
            Turn::Did
        };
    };
    if st.phase.scrubbed {
        return turn;
    }
    let did = scrub(face, &mut st.phase.scrubbed);
    after(did, turn)
}

/// Reads all that is unread, gives all up and leaves.
fn close<F: AppFace, T: Shelf>(face: &mut F, st: &mut Stack, shelf: &mut T) -> Turn
    requires none { NoneDue (state_of st.old) (F.seen face.old) }
    requires ended { st.old.phase.ended ≡ true }
    ensures turns { Turns (state_of st.old) (state_of st.new) (F.seen face.old) (F.seen face.new)
        (T.kept shelf.old) (T.kept shelf.new) (T.counts shelf.old).faults
        (T.counts shelf.new).faults result }
    ensures busy { (why : Why) → result ≢ Idle why }
    ensures same { (F.seen face.new).taken ≡ (F.seen face.old).taken }
    ensures went { ShelfWent (Failed Write) (state_of st.old) (state_of st.new) (T.counts shelf.old)
        (T.counts shelf.new) result }
    ensures beside { F.beside face.new ≡ F.beside face.old }
{
    match drain(face, st, shelf, 0) {
        Drained::InUse => return Turn::Did,
        Drained::Quit => return Turn::Did,
        Drained::Failed => return Turn::Failed(Fault::Write),
        _ => {}
    }
    let_go(face, st);
    if leave(face, &mut st.phase.scrubbed) {
        Turn::Finished
    } else {
        Turn::Did
    }
}

/// Looks for a note, and goes on with what that brings.
fn look<F: AppFace, T: Shelf>(face: &mut F, st: &mut Stack, shelf: &mut T) -> Turn
    requires may { MayLend (state_of st.old) (F.seen face.old) }
    requires rest { Each IsAtRest st.old.queues.flows.items }
    ensures turns { Turns (state_of st.old) (state_of st.new) (F.seen face.old) (F.seen face.new)
        (T.kept shelf.old) (T.kept shelf.new) (T.counts shelf.old).faults
        (T.counts shelf.new).faults result }
    ensures told { (why : Why) → result ≡ Idle why
        → F.tells (look_of why) (app_gist (F.seen face.new)) (F.beside face.new) }
    ensures went { ShelfWent (Failed Write) (state_of st.old) (state_of st.new) (T.counts shelf.old)
        (T.counts shelf.new) result }
    ensures beside { F.beside face.new ≡ F.beside face.old }
{
    match take_note(face, &mut st.queues) {
        Taken::Did => match lend_all(face, st, shelf) {
            Lent::Failed => Turn::Failed(Fault::Write),
            _ => Turn::Did,
        },
        Taken::NoNote => Turn::Idle(Why::NoNote),
        Taken::Ended => {
            st.phase.ended = true;
            close(face, st, shelf)
        }
        Taken::Memory => {
            let_go(face, st);
            st.phase.stopped = Stopped::Memory;
            Turn::Failed(Fault::Memory)
        }
    }
}

/// Lends what is in order. Where nothing is, looks for a note.
fn go_on<F: AppFace, T: Shelf>(face: &mut F, st: &mut Stack, shelf: &mut T) -> Turn
    requires may { MayLend (state_of st.old) (F.seen face.old) }
    ensures turns { Turns (state_of st.old) (state_of st.new) (F.seen face.old) (F.seen face.new)
        (T.kept shelf.old) (T.kept shelf.new) (T.counts shelf.old).faults
        (T.counts shelf.new).faults result }
    ensures told { (why : Why) → result ≡ Idle why
        → F.tells (look_of why) (app_gist (F.seen face.new)) (F.beside face.new) }
    ensures went { ShelfWent (Failed Write) (state_of st.old) (state_of st.new) (T.counts shelf.old)
        (T.counts shelf.new) result }
    ensures beside { F.beside face.new ≡ F.beside face.old }
{
    match lend_all(face, st, shelf) {
        Lent::Did => Turn::Did,
        Lent::Quit => Turn::Did,
        Lent::Failed => Turn::Failed(Fault::Write),
        Lent::Stuck => Turn::Idle(Why::Unsettled),
        Lent::NoSpare => Turn::Idle(Why::ReserveHeld),
        Lent::Nothing => look(face, st, shelf),
    }
}

/// A turn of an application that goes on, once nothing is due.
fn work<F: AppFace, T: Shelf>(face: &mut F, st: &mut Stack, shelf: &mut T) -> Turn
    requires none { NoneDue (state_of st.old) (F.seen face.old) }
    ensures turns { Turns (state_of st.old) (state_of st.new) (F.seen face.old) (F.seen face.new)
        (T.kept shelf.old) (T.kept shelf.new) (T.counts shelf.old).faults
        (T.counts shelf.new).faults result }
    ensures told { (why : Why) → result ≡ Idle why
        → F.tells (look_of why) (app_gist (F.seen face.new)) (F.beside face.new) }
    ensures went { ShelfWent (Failed Write) (state_of st.old) (state_of st.new) (T.counts shelf.old)
        (T.counts shelf.new) result }
    ensures beside { F.beside face.new ≡ F.beside face.old }
{
    if st.phase.ended {
        return close(face, st, shelf);
    }
    match drain(face, st, shelf, st.how.hold as usize) {
        Drained::Failed => Turn::Failed(Fault::Write),
        Drained::InUse => Turn::Did,
        Drained::Quit => Turn::Did,
        Drained::Did => {
            let turn = go_on(face, st, shelf);
            after(true, turn)
        }
        Drained::Nothing => go_on(face, st, shelf),
    }
}

/// A turn.
pub fn turn<F: AppFace, T: Shelf>(face: &mut F, st: &mut Stack, shelf: &mut T) -> Turn
    requires here { IsHere (F.seen face.old) }
    requires stands { AppStands (state_of st.old) (F.seen face.old) }
    ensures turns { Turns (state_of st.old) (state_of st.new) (F.seen face.old) (F.seen face.new)
        (T.kept shelf.old) (T.kept shelf.new) (T.counts shelf.old).faults
        (T.counts shelf.new).faults result }
    ensures told { (why : Why) → result ≡ Idle why
        → F.tells (look_of why) (app_gist (F.seen face.new)) (F.beside face.new) }
    ensures went { ShelfWent (Failed Write) (state_of st.old) (state_of st.new) (T.counts shelf.old)
        (T.counts shelf.new) result }
    ensures beside { F.beside face.new ≡ F.beside face.old }
{
    if st.phase.bare {
        return bare_turn(face, st);
    }
    match give_back(face, st) {
        GivenBack::InUse => Turn::Idle(Why::RefillFull),
        GivenBack::Part => Turn::Did,
        GivenBack::Nothing => work(face, st, shelf),
        GivenBack::Did => {
            let turn = work(face, st, shelf);
            after(true, turn)
        }
    }
}
