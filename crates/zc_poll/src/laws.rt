//! What the items of a stream are, all together. Nothing runs.
ghost use Rattle.std.specs.Prelude.{◌≡◌, ℕ, ◌++◌, List, true, false};
ghost use Rattle.flow_queues.specs.Marks.{Mark, FramesStandTogether, marks_of};
ghost use Rattle.zc_poll.specs.{Items.{GivenItem, HasGiven, marks_given}, Standing.{StreamStands}};

use crate::stream::LoanStream;
use board_face::AppFace;

/// The items of a flow are of the first of the marks of its notes, each once and in order, and of all of them once no note comes
/// any more, where the stream wasn't stopped. A new stream has given none, and each step goes on from what was given before.
pub fn items_law<F: AppFace>(stream: &LoanStream<F>)
    requires { StreamStands stream.now.desk (F.seen stream.now.face) }
    ensures fronts { (items : List GivenItem)
        → HasGiven items stream.now.desk.flows (F.seen stream.now.face).taken
        → FramesStandTogether (F.seen stream.now.face).taken
        → (flow : ℕ) → (rest : List Mark)
        × (marks_of flow (F.seen stream.now.face).taken ≡ marks_given flow items ++ rest) }
    ensures whole { stream.now.desk.ended ≡ true → stream.now.desk.stopped ≡ false
        → (items : List GivenItem) → HasGiven items stream.now.desk.flows
        (F.seen stream.now.face).taken
        → FramesStandTogether (F.seen stream.now.face).taken
        → (flow : ℕ) → marks_of flow (F.seen stream.now.face).taken ≡ marks_given flow items }
{}
