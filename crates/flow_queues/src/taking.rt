//! A note is taken: what its flow wants of it enters the flow's queue, which is made where there is none.
ghost use Rattle.std.specs.Prelude.{◌≡◌, ℕ, ◌+◌, List, MatchResult, length, take};
ghost use Rattle.zr_kinds.specs.declared.ring.Completion.{Completion};
ghost use Rattle.board_face.specs.{AppCalls.{TookNote, TookLinear}, declared.views.app.AppView.{AppView}, Texts.{IsLinearNote}};
ghost use Rattle.flow_queues.specs.{declared.queues.Lending.{Lending}, Core.{HasTokens, Stands}, Pieces.{CameWith}, Flows.{IsIndex}, Taking.{TakesPiece, LosesPiece, TakesPayload, LosesPayload}};

use crate::places::place_for;
use crate::queues::{FlowQueue, Wanting, enter};
use crate::short::enter_short;
use board_face::{AppFace, Held};
use std::alloc::Global;
use std::collections::BTreeMap;
use zr_kinds::Note;

/// A piece came with the note of this number: the place of the note's flow. What the flow doesn't want of it is given up, and
/// at want of memory all that hasn't entered.
pub fn take_piece<F: AppFace>(
    alloc: Global,
    face: &mut F,
    flows: &mut Vec<FlowQueue>,
    index: &mut BTreeMap<u64, usize>,
    note: &Note,
    number: u64,
    held: Held,
) -> Result<usize, Wanting>
    requires came { CameWith (F.seen face.old) note.now number held }
    requires index { IsIndex index.old.entries flows.old.items }
    ensures takes { MatchResult result
        (λ i. TakesPiece (F.seen face.old) (F.seen face.new) flows.old.items flows.new.items
        index.new.entries note.now number held i)
        (λ _. LosesPiece (F.seen face.old) (F.seen face.new) flows.old.items flows.new.items
        index.old.entries index.new.entries note.now number held) }
    // what stood before the note came stands with it, and at want of memory all that is out is kept
    ensures stands { (old : AppView) (ring : List (Completion × Lending)) (read : List Lending)
        → TookNote old (F.seen face.old) note.now held
        → Stands number flows.old.items ring read old
        → MatchResult result (λ _. Stands (number + 1) flows.new.items ring read (F.seen face.new))
        (λ _. HasTokens flows.new.items ring read (F.seen face.new)) }
    ensures beside { F.beside face.new ≡ F.beside face.old }
{
    let Ok(i) = place_for(alloc, flows, index, note) else {
        face.release(held);
        return Err(Wanting);
    };
    match enter(face, &mut flows[i].queue, note, number, held) {
        Ok(()) => Ok(i),
        Err(Wanting) => Err(Wanting),
    }
}

/// The note of this number came with its payload: the place of the note's flow.
pub fn take_payload(
    alloc: Global,
    flows: &mut Vec<FlowQueue>,
    index: &mut BTreeMap<u64, usize>,
    note: &Note,
    number: u64,
    payload: &[u8],
) -> Result<usize, Wanting>
    requires fields { IsLinearNote note.now }
    requires payload { length payload.now ≡ note.now.total }
    requires index { IsIndex index.old.entries flows.old.items }
    ensures takes { MatchResult result
        (λ i. TakesPayload flows.old.items flows.new.items index.new.entries note.now number
        payload.now i)
        (λ _. LosesPayload flows.old.items flows.new.items index.old.entries index.new.entries
        note.now) }
    // what stood before the note came stands with it, and at want of memory all that is out is kept
    ensures stands { (old new : AppView) (linear : List ℕ) (ring : List (Completion × Lending))
        (read : List Lending)
        → TookLinear old new linear note.now → take note.now.total linear ≡ payload.now
        → Stands number flows.old.items ring read old
        → MatchResult result (λ _. Stands (number + 1) flows.new.items ring read new)
        (λ _. HasTokens flows.new.items ring read new) }
{
    let i = match place_for(alloc, flows, index, note) {
        Ok(i) => i,
        Err(Wanting) => return Err(Wanting),
    };
    match enter_short(alloc, &mut flows[i].queue, note, number, payload) {
        Ok(()) => Ok(i),
        Err(Wanting) => Err(Wanting),
    }
}
