//! A look for a note. What comes enters the queues, or goes past them.
ghost use Rattle.std.specs.Prelude.{◌≡◌, ◌≤◌, ◌⊎◌, [], length};
ghost use Rattle.board_face.specs.{AppCalls.{TookLinear}, AppEvents.{app_gist}, Texts.{IsLinearNote}, declared.views.app.{AppLook.TheVariants.{NoNote as no_note}, AppView.{AppView}}};
ghost use Rattle.flow_queues.specs.{Core.{Each, HoldsApart}, Flows.{IsAtRest, IsIndex}, Kept.{LoansOut, QueuesStand, QueuesWork}, KeptOf.{queue_state}, Noting.{TakesNote, PassesNote}};

use crate::kept::Queues;
use crate::taking::{take_payload, take_piece};
use board_face::{AppFace, Polled};
use zr_kinds::Note;

/// What a look for a note did.
#[derive(Clone, Copy, Debug, PartialEq, Eq)]
pub enum Taken {
    /// A note was taken.
    Did,
    NoNote,
    Ended,
    /// There was no memory for what the note brought.
    Memory,
}

/// A short payload came with its note: the first bytes of these.
fn take_short(st: &mut Queues, note: &Note, linear: &[u8]) -> Taken
    requires fields { IsLinearNote note.now }
    requires long { note.now.total ≤ length linear.now }
    requires index { IsIndex st.old.index.entries st.old.flows.items }
    ensures takes { (old new : AppView) (out : LoansOut) → TookLinear old new linear.now note.now
        → QueuesStand (queue_state st.old) out old → Each IsAtRest st.old.flows.items
        → TakesNote (queue_state st.old) (queue_state st.new) old new result }
    ensures kind { (result ≡ Taken.Did) ⊎ (result ≡ Taken.Memory) }
{
    let Some(notes) = st.notes.checked_add(1) else {
        return Taken::Memory;
    };
    let payload = &linear[..note.total as usize];
    let taken = take_payload(
        st.alloc,
        &mut st.flows,
        &mut st.index,
        note,
        st.notes,
        payload,
    );
    let Ok(i) = taken else {
        return Taken::Memory;
    };
    st.notes = notes;
    st.active = i;
    Taken::Did
}

/// Looks for a note. What its flow wants of it enters the flow's queue, and the rest of a piece is given up.
pub fn take_note<F: AppFace>(face: &mut F, st: &mut Queues) -> Taken
    requires work { QueuesWork (queue_state st.old) (F.seen face.old) }
    requires rest { Each IsAtRest st.old.flows.items }
    ensures takes { TakesNote (queue_state st.old) (queue_state st.new) (F.seen face.old)
        (F.seen face.new) result }
    ensures told { result ≡ Taken.NoNote
        → F.tells no_note (app_gist (F.seen face.new)) (F.beside face.new) }
    ensures beside { F.beside face.new ≡ F.beside face.old }
{
    let mut linear = [0; 256];
    let (note, held) = match face.poll(&mut linear) {
        Polled::Note(note, held) => (note, held),
        Polled::Linear(note) => return take_short(st, &note, &linear),
        Polled::Empty => return Taken::NoNote,
        Polled::Ended => return Taken::Ended,
    };
    let Some(notes) = st.notes.checked_add(1) else {
        face.release(held);
        return Taken::Memory;
    };
    let taken = take_piece(
        st.alloc,
        face,
        &mut st.flows,
        &mut st.index,
        &note,
        st.notes,
        held,
    );
    let Ok(i) = taken else {
        return Taken::Memory;
    };
    st.notes = notes;
    st.active = i;
    Taken::Did
}

/// Looks for a note that goes past the queues: what it brings is given up at once.
pub fn pass_note<F: AppFace>(face: &mut F) -> Taken
    requires holds { HoldsApart (F.seen face.old) }
    requires none { (F.seen face.old).helds ≡ [] }
    ensures passes { PassesNote (F.seen face.old) (F.seen face.new) result }
    ensures told { result ≡ Taken.NoNote
        → F.tells no_note (app_gist (F.seen face.new)) (F.beside face.new) }
    ensures beside { F.beside face.new ≡ F.beside face.old }
{
    let mut linear = [0; 256];
    match face.poll(&mut linear) {
        Polled::Note(_, held) => {
            face.release(held);
            Taken::Did
        }
        Polled::Linear(_) => Taken::Did,
        Polled::Empty => Taken::NoNote,
        Polled::Ended => Taken::Ended,
    }
}
