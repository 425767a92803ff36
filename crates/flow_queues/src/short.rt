//! A short payload enters its flow's queue.
ghost use Rattle.std.specs.Prelude.{◌≡◌, false, List, length, OnOk, Some, slice_get};
ghost use Rattle.board_face.specs.{Texts.{IsLinearNote}, declared.views.app.TakenNote.{TakenNote}};
ghost use Rattle.tcp_reorder.specs.Values.{Holds};
ghost use Rattle.zr_kinds.specs.CopyingReceiver.{Placed};
ghost use Rattle.flow_queues.specs.{Marks.{Mark}, Core.{marks_of_waiting, received_note, IsOfNote, Each}, Taking.{EntersPayload}};

use crate::queues::{Short, Waiting, Wanting};
use std::alloc::Global;
use tcp_reorder::RecvQueue;
use zr_kinds::Note;

/// The parts of a short payload that its flow still wants enter the flow's queue, each in memory of its own.
pub fn enter_short(
    alloc: Global,
    queue: &mut RecvQueue<Waiting>,
    note: &Note,
    number: u64,
    payload: &[u8],
) -> Result<(), Wanting>
    requires fields { IsLinearNote note.now }
    requires payload { length payload.now ≡ note.now.total }
    ensures some { EntersPayload queue.old queue.new note.now }
    ensures same { (queue.new.base ≡ queue.old.base) × (queue.new.popped ≡ queue.old.popped) }
    ensures enters { OnOk result ((placed : Placed Mark) → Holds marks_of_waiting queue.old placed →
        Holds marks_of_waiting queue.new
        (received_note queue.old.base placed (record { number = number; note = note.now }))) }
    ensures notes { (taken : List TakenNote) (t : TakenNote) → slice_get taken number ≡ Some t
        → t.note.split ≡ false → t.bytes ≡ payload.now
        → Each (λ k. IsOfNote taken k.piece) queue.old.kept
        → Each (λ k. IsOfNote taken k.piece) queue.new.kept }
{
    let total = note.total;
    if !queue.accepts(note.seq, total) {
        return Ok(());
    }
    let mut done = 0;
    while done < total {
        let from = note.seq.wrapping_add(done);
        let Some(gap) = queue.gap(from, total - done) else {
            break;
        };
        let at = done + gap.skip;
        let end = at + gap.len;
        let Ok(bytes) = payload[at as usize..end as usize].to_vec(alloc) else {
            return Err(Wanting);
        };
        let short = Waiting::Copied(Short {
            note: number,
            at,
            bytes,
        });
        if queue
            .take(from.wrapping_add(gap.skip), gap.len, short)
            .is_err()
        {
            return Err(Wanting);
        }
        done = end;
    }
    Ok(())
}
