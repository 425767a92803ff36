//! A sink whose report is looked at on its way, for people to be told of the frames that were refused.
ghost use Rattle.zr_io.specs.Moved.{AddsPiece, HasCause};

use zr_io::{Failed, Sink};

/// Writes to a sink, and counts the lines of refused frames in the first piece, which a replay's report is. It tells what the sink
/// tells.
#[derive(Drop)]
pub(crate) struct RefusedCounter<O> {
    sink: O,
    refused: Option<usize>,
}

impl<O: Sink> RefusedCounter<O> {
    pub(crate) fn new(sink: O) -> RefusedCounter<O> {
        RefusedCounter {
            sink,
            refused: None,
        }
    }

    /// How many frames the report says were refused.
    pub(crate) fn count(&self) -> usize {
        self.refused.unwrap_or(0)
    }
}

/// How many lines are of a refused frame.
fn refused_in(report: &[u8]) -> usize {
    report
        .split(|byte| *byte == b'\n')
        .filter(|line| line.starts_with(b"refused "))
        .count()
}

impl<O: Sink> Sink for RefusedCounter<O> {
    ghost sent = { λ c. O.sent c.sink };

    ghost faults = { λ c. O.faults c.sink };

    fn write_all(&mut self, piece: &[u8]) -> Result<(), Failed>
        ensures bytes { AddsPiece (O.sent self.old.sink) (O.sent self.new.sink) result piece.now }
        ensures cause { HasCause (O.faults self.old.sink) (O.faults self.new.sink) result }
    {
        if self.refused.is_none() {
            self.refused = Some(refused_in(piece));
        }
        self.sink.write_all(piece)
    }
}
