ghost use Rattle.std.specs.{Prelude.{◌≡◌, ◌≢◌, ◌<◌, ℕ, List, [], ◌∷◌, ◌++◌, Option, length, nat_eq, is_ok, if◌then◌else◌, IfNone, IfSome, IsSome, None, Some, ⊤, Bool}, Map.{lookup}, Io.KnownBytes.{Keeps as KeepsBytes}};
ghost use Rattle.futures.specs.{Poll.{IfReady, OnPending}, Task.{Covers, Keeps}};
ghost use Rattle.zr_io.specs.Moved.{AddsPiece, CountsPiece, HasCause, Rose, ShelfCounts};
ghost use Rattle.zc_forward.specs.{Tags.{FlowsKeep, Pace, Tags, TakesTag, polled}, Carrying.{Cancels, OnlyLooks, carrying}};

use futures::task::{Context, Poll};
use zr_io::Failed;

/// Carries bytes of lent buffers away, piece by piece as they are handed to `carry`, and each buffer's by a tag. The loan is kept
/// until the carrier's notice of the tag, or until the tags are cancelled.
pub trait Carrier {
    /// What each flow got, where the carrier tells it.
    ghost got: { Self → ℕ → Option (List ℕ) };

    /// The tags that are out, each with its flow.
    ghost tags: { Self → Tags };

    /// How often it has failed, which rises in a call that fails and stands still in one that succeeds; and how many bytes the
    /// calls that succeeded carried.
    ghost counts: { Self → ShelfCounts };

    /// How many tags it keeps out where nothing urges it, if it keeps to a number, which no call changes; and how often it was asked
    /// for a notice and had none.
    ghost pace: { Self → Pace };

    /// How it may answer where it is asked for a notice, with urge or without: from one state to another.
    ghost answers: { Bool → Self → Self → Option ℕ → Type 0 } = { λ _ _ _ _. ⊤ };

    /// The sources at which a poll that is pending has registered, beside those that it doesn't name.
    ghost needs: { Self → ℕ → Type 0 } = { λ _ _. ⊥ };

    /// A tag goes out. `Failed` changes nothing.
    fn begin(&mut self, tag: u32, flow: u32) -> Result<(), Failed>
        requires free { lookup (nat_eq tag) (tags self.old) ≡ None }
        requires few { length (tags self.old) < 64 }
        ensures tags { tags self.new
            ≡ (if is_ok result then tags self.old ++ (tag, flow) ∷ [] else tags self.old) }
        ensures got { FlowsKeep (got self.old) (got self.new) }
        ensures cause { HasCause (counts self.old).faults (counts self.new).faults result }
        ensures counted { (counts self.new).appended ≡ (counts self.old).appended }
        ensures pace { pace self.new ≡ pace self.old };

    /// Carries a piece of the tag's buffer, or at `Failed` a front of it. Other flows stay as they were.
    fn carry(&mut self, tag: u32, piece: &[u8]) -> Result<(), Failed>
        requires { IsSome (lookup (nat_eq tag) (tags self.old)) }
        ensures bytes { IfSome (lookup (nat_eq tag) (tags self.old))
            (λ flow. AddsPiece (got self.old flow) (got self.new flow) result piece.now) }
        ensures others { IfSome (lookup (nat_eq tag) (tags self.old))
            (λ flow. (other : ℕ) → other ≢ flow
            → KeepsBytes (got self.old other) (got self.new other)) }
        ensures tags { tags self.new ≡ tags self.old }
        ensures cause { HasCause (counts self.old).faults (counts self.new).faults result }
        ensures counted { CountsPiece (counts self.old).appended (counts self.new).appended result
            piece.now }
        ensures pace { pace self.new ≡ pace self.old };

    /// A tag whose buffer the carrier needs no more. It is out no longer. With `urge` it is told as soon as it can be.
    fn notice(&mut self, urge: bool) -> Option<u32>
        ensures told { TakesTag (tags self.old) (tags self.new) result }
        ensures answers { answers urge self.old self.new result }
        ensures looked { IfNone result (Rose (pace self.old).looks (pace self.new).looks) }
        ensures only { let seen = carrying got tags counts pace in
            OnlyLooks (seen self.old) (seen self.new) };

    /// As `notice`, for a task: a poll that is pending has registered for another.
    fn poll_notice(&mut self, cx: &mut Context<'_>, urge: bool) -> Poll<u32>
        ensures told { IfReady result (λ tag. TakesTag (tags self.old) (tags self.new) (Some tag)) }
        ensures answers { answers urge self.old self.new (polled result) }
        ensures none { OnPending result (tags self.new ≡ tags self.old) }
        ensures looked { OnPending result (Rose (pace self.old).looks (pace self.new).looks) }
        ensures registered { OnPending result (Covers cx.new (needs self.new)) }
        ensures kept { Keeps cx.old cx.new }
        ensures only { let seen = carrying got tags counts pace in
            OnlyLooks (seen self.old) (seen self.new) };

    /// All tags are out no longer, without a notice: the carrier needs their buffers no more.
    fn cancel(&mut self)
        ensures { let seen = carrying got tags counts pace in
            Cancels (seen self.old) (seen self.new) };
}
