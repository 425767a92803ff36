//! All pieces that wait are given up.
ghost use Rattle.std.specs.Prelude.{◌≡◌, ℕ, ◌≤◌, []};
ghost use Rattle.board_face.specs.declared.views.app.HeldPiece.{HeldPiece};
ghost use Rattle.flow_queues.specs.{Core.{HoldsApart, total, over_kept}, Pieces.{AllReleased, OnlyHelds}};

use crate::queues::{FlowQueue, Waiting, give_back};
use board_face::AppFace;
use tcp_reorder::RecvQueue;

/// Gives up all pieces of a queue.
fn release_kept<F: AppFace>(face: &mut F, queue: &mut RecvQueue<Waiting>)
    requires holds { HoldsApart (F.seen face.old) }
    requires out { (f : HeldPiece → ℕ) → over_kept f queue.old ≤ total f (F.seen face.old).helds }
    ensures only { OnlyHelds (F.seen face.old) (F.seen face.new) (λ f. over_kept f queue.old)
        (λ f. 0) }
    ensures empty { queue.new.kept ≡ [] }
    ensures base { queue.new.base ≡ queue.old.base }
    ensures beside { F.beside face.new ≡ F.beside face.old }
{
    while let Some((waiting, _)) = queue.pull() {
        give_back(face, waiting);
    }
}

/// Gives up all pieces of all flows.
pub fn release_all<F: AppFace>(face: &mut F, flows: &mut Vec<FlowQueue>)
    requires holds { HoldsApart (F.seen face.old) }
    requires out { (f : HeldPiece → ℕ)
        → total f (F.seen face.old).helds ≡ total (λ flow. over_kept f flow.queue) flows.old.items }
    ensures released { AllReleased (F.seen face.old) (F.seen face.new) flows.old.items
        flows.new.items }
    ensures beside { F.beside face.new ≡ F.beside face.old }
{
    let mut i = 0;
    while i < flows.len() {
        release_kept(face, &mut flows[i].queue);
        i += 1;
    }
}
