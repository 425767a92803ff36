ghost use Rattle.std.specs.{Prelude.{◌≡◌, ◌≢◌, ℕ, ◌<◌, List, Option, length}, Io.{ReadsAtMost, KnownBytes.{Keeps, ReadConsumes}}};
ghost use Rattle.zr_io.specs.Moved.{AddsPiece, CountsPiece, HasCause, ShelfCounts};

/// A call of a source, a sink or a shelf failed.
#[derive(Clone, Copy, Debug, PartialEq, Eq)]
pub struct Failed;

/// Bytes that come in order.
pub trait Source {
    /// What is still to come, where the source tells it.
    ghost left: { Self → Option (List ℕ) };

    /// How often it has failed. It rises in a call that fails, and stands still in one that succeeds.
    ghost faults: { Self → ℕ };

    /// Moves the next bytes to the front of `into`, and answers how many. `Ok(0)` is the end.
    fn read(&mut self, into: &mut [u8]) -> Result<usize, Failed>
        requires { 0 < length into.old }
        ensures bound { ReadsAtMost result into.new }
        // `Ok(n)` took the first n bytes of what was left, and n is 0 only at the end. `Failed` took nothing.
        ensures bytes { ReadConsumes (left self.old) (left self.new) result into.new }
        ensures cause { HasCause (faults self.old) (faults self.new) result };
}

/// Where bytes go out in order.
pub trait Sink {
    /// What went out so far, where the sink tells it.
    ghost sent: { Self → Option (List ℕ) };

    /// How often it has failed. It rises in a call that fails, and stands still in one that succeeds.
    ghost faults: { Self → ℕ };

    /// Sends the whole piece, or at `Failed` a front of it.
    fn write_all(&mut self, piece: &[u8]) -> Result<(), Failed>
        ensures bytes { AddsPiece (sent self.old) (sent self.new) result piece.now }
        ensures cause { HasCause (faults self.old) (faults self.new) result };
}

/// Where the streams of flows are kept, each by its flow's number.
pub trait Shelf {
    /// What is kept of a flow, where the shelf tells it.
    ghost kept: { Self → ℕ → Option (List ℕ) };

    /// How often it has failed, which rises in a call that fails and stands still in one that succeeds; and how many bytes the
    /// appends that succeeded took.
    ghost counts: { Self → ShelfCounts };

    /// Adds the whole piece to the flow's end, or at `Failed` a front of it. Other flows stay as they were.
    fn append(&mut self, flow: u32, piece: &[u8]) -> Result<(), Failed>
        ensures bytes { AddsPiece (kept self.old flow) (kept self.new flow) result piece.now }
        ensures others { (other : ℕ) → other ≢ flow →
            Keeps (kept self.old other) (kept self.new other) }
        ensures cause { HasCause (counts self.old).faults (counts self.new).faults result }
        ensures counted { CountsPiece (counts self.old).appended (counts self.new).appended
            result piece.now };

    /// Hands on what it keeps back of any flow, as a buffered writer's flush does. What is kept of each stays as it was.
    fn flush(&mut self) -> Result<(), Failed>
        ensures bytes { (flow : ℕ) → Keeps (kept self.old flow) (kept self.new flow) }
        ensures cause { HasCause (counts self.old).faults (counts self.new).faults result }
        ensures counted { (counts self.new).appended ≡ (counts self.old).appended };
}
