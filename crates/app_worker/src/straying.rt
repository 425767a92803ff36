//! Loans that are due are given back, each followed by its stray entries.
ghost use Rattle.std.specs.Prelude.{◌≡◌};
ghost use Rattle.board_face.specs.{AppEvents.{app_gist}, declared.views.app.AppLook.TheVariants.{RefillInUse}};
ghost use Rattle.app_worker.specs.{StateOf.{state_of}, Works.{Works, StillWorks}, Whole.{GivesDueBack, PushesLeft}};

use crate::reading::{Pushed, push_strays};
use crate::stack::Stack;
use crate::turning::give_one;
use board_face::AppFace;

/// What giving back did.
#[derive(Clone, Copy, Debug, PartialEq, Eq)]
pub enum GivenBack {
    /// Nothing was to be given back.
    Nothing,
    /// All was given back and followed by its stray entries, or kept to the end.
    Did,
    /// Something was, and then the next refill slot was seen in use.
    Part,
    /// The next refill slot was seen in use at once.
    InUse,
}

/// Writes the stray entries that are left.
fn push_left<F: AppFace>(face: &mut F, st: &mut Stack) -> Pushed
    requires works { Works (state_of st.old) (F.seen face.old) }
    ensures works { StillWorks (state_of st.old) (state_of st.new) (F.seen face.old)
        (F.seen face.new) }
    ensures pushes { PushesLeft (state_of st.old) (state_of st.new) (F.seen face.old)
        (F.seen face.new) result }
    ensures told { result ≡ Pushed.InUse
        → F.tells RefillInUse (app_gist (F.seen face.new)) (F.beside face.new) }
    ensures beside { F.beside face.new ≡ F.beside face.old }
{
    push_strays(face, &mut st.stray)
}

/// Gives all back that is due, with the entries that follow it. What was left of these comes first.
pub fn give_back<F: AppFace>(face: &mut F, st: &mut Stack) -> GivenBack
    requires works { Works (state_of st.old) (F.seen face.old) }
    ensures works { StillWorks (state_of st.old) (state_of st.new) (F.seen face.old)
        (F.seen face.new) }
    ensures gives { GivesDueBack (state_of st.old) (state_of st.new) (F.seen face.old)
        (F.seen face.new) result }
    ensures told { result ≡ GivenBack.InUse
        → F.tells RefillInUse (app_gist (F.seen face.new)) (F.beside face.new) }
    ensures beside { F.beside face.new ≡ F.beside face.old }
{
    match push_left(face, st) {
        Pushed::Nothing => {}
        Pushed::All => return GivenBack::Did,
        Pushed::Part => return GivenBack::Part,
        Pushed::InUse => return GivenBack::InUse,
    }
    if st.due.is_none() {
        return GivenBack::Nothing;
    }
    if !give_one(face, st) {
        return GivenBack::InUse;
    }
    match push_left(face, st) {
        Pushed::Part => GivenBack::Part,
        Pushed::InUse => GivenBack::Part,
        _ => GivenBack::Did,
    }
}
