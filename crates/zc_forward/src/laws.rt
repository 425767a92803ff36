//! What holds of forwarding between any two of its turns. Nothing runs.
ghost use Rattle.std.specs.Prelude.{◌≡◌, ℕ, List, Option, ◌≤◌, length};
ghost use Rattle.board_face.specs.AppCalls.{HasLoan};
ghost use Rattle.flow_queues.specs.{Core.{Each}, Marks.{FramesStandTogether}, Streams.{HasFronts}};
ghost use Rattle.zc_forward.specs.{Carrying.{carrying}, Sending.{tags_of, most_out}, Sights.{StandsSince, sight_of}};
ghost use Rattle.zr_io.specs.Moved.{ShelfCounts};

use crate::carrier::Carrier;
use crate::forward::Forward;
use board_face::AppFace;

/// What the carrier got for each flow since the begin is a front of the bytes at the flow's marks. While a tag is out its loan is out
/// too, so its text stands.
pub fn forward_law<F: AppFace, C: Carrier>(forward: &Forward<F, C>)
    ensures fronts { let at = sight_of F.seen (carrying C.got C.tags C.counts C.pace) in
        (first : ℕ → Option (List ℕ)) (losses : ShelfCounts)
        → StandsSince first losses (at forward.now)
        → FramesStandTogether (F.seen forward.now.face).taken
        → HasFronts first (C.got forward.now.carrier) (F.seen forward.now.face) }
    ensures live { let at = sight_of F.seen (carrying C.got C.tags C.counts C.pace) in
        (first : ℕ → Option (List ℕ)) (losses : ShelfCounts)
        → StandsSince first losses (at forward.now)
        → (C.tags forward.now.carrier ≡ tags_of forward.now.work.out)
        × Each (λ s. HasLoan (F.seen forward.now.face) s.loan) forward.now.work.out }
    // At most 64 loans are out.
    ensures few { let at = sight_of F.seen (carrying C.got C.tags C.counts C.pace) in
        (first : ℕ → Option (List ℕ)) (losses : ShelfCounts)
        → StandsSince first losses (at forward.now)
        → length (F.seen forward.now.face).loans ≤ most_out }
{}
