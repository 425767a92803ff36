//! All that an application has out is given up.
ghost use Rattle.std.specs.Prelude.{◌≡◌, ℕ, ◌≤◌, [], None};
ghost use Rattle.circular_buffer.specs.Buffer.{buffer};
ghost use Rattle.board_face.specs.{declared.views.app.LentPiece.{LentPiece}, AppCalls.{IsHere}};
ghost use Rattle.flow_queues.specs.Core.{LieApart, total, lent_piece, over_due, over_read};
ghost use Rattle.app_worker.specs.{StateOf.{state_of}, Works.{MayLetGo}, Letting.{Abandons, LetGo}};

use crate::stack::Stack;
use board_face::AppFace;
use circular_buffer::HeapCircularBuffer;
use flow_queues::{Lending, release_all};
use zr_kinds::Completion;

/// Abandons loans.
fn abandon_all<F: AppFace>(face: &mut F, unread: &mut HeapCircularBuffer<(Completion, Lending)>)
    requires here { IsHere (F.seen face.old) }
    requires apart { LieApart (F.seen face.old) }
    requires out { (f : LentPiece → ℕ)
        → total (λ p. f (lent_piece (F.seen face.old).taken p.1)) unread.old.items
        ≤ total f (F.seen face.old).loans }
    ensures abandons { Abandons (F.seen face.old) (F.seen face.new)
        (λ f. total (λ p. f (lent_piece (F.seen face.old).taken p.1)) unread.old.items) }
    ensures empty { unread.new ≡ buffer [] unread.old.capacity }
    ensures beside { F.beside face.new ≡ F.beside face.old }
{
    while let Some((_, lending)) = unread.pop_front() {
        face.abandon(lending.loan);
    }
}

/// Abandons the loan that is due, if one is.
fn abandon_due<F: AppFace>(face: &mut F, due: &mut Option<Lending>)
    requires here { IsHere (F.seen face.old) }
    requires apart { LieApart (F.seen face.old) }
    requires out { (f : LentPiece → ℕ)
        → over_due (F.seen face.old).taken f due.old ≤ total f (F.seen face.old).loans }
    ensures abandons { Abandons (F.seen face.old) (F.seen face.new)
        (λ f. over_due (F.seen face.old).taken f due.old) }
    ensures none { due.new ≡ None }
    ensures beside { F.beside face.new ≡ F.beside face.old }
{
    if let Some(lending) = due.take() {
        face.abandon(lending.loan);
    }
}

/// Abandons the loans that were kept to the end.
fn abandon_leaked<F: AppFace>(face: &mut F, leaked: &mut HeapCircularBuffer<Lending>)
    requires here { IsHere (F.seen face.old) }
    requires apart { LieApart (F.seen face.old) }
    requires out { (f : LentPiece → ℕ)
        → over_read (F.seen face.old).taken f leaked.old.items ≤ total f (F.seen face.old).loans }
    ensures abandons { Abandons (F.seen face.old) (F.seen face.new)
        (λ f. over_read (F.seen face.old).taken f leaked.old.items) }
    ensures empty { leaked.new ≡ buffer [] leaked.old.capacity }
    ensures beside { F.beside face.new ≡ F.beside face.old }
{
    while let Some(lending) = leaked.pop_front() {
        face.abandon(lending.loan);
    }
}

/// Gives up all pieces and all loans.
pub fn let_go<F: AppFace>(face: &mut F, st: &mut Stack)
    requires may { MayLetGo (state_of st.old) (F.seen face.old) }
    ensures done { LetGo (state_of st.old) (state_of st.new) (F.seen face.old) (F.seen face.new) }
    ensures beside { F.beside face.new ≡ F.beside face.old }
{
    abandon_all(face, &mut st.reader.unread);
    abandon_due(face, &mut st.due);
    abandon_leaked(face, &mut st.leaked);
    release_all(face, &mut st.queues.flows);
    st.phase.bare = true;
}
