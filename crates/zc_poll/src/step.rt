//! What a step gives.
ghost use Rattle.std.specs.Prelude.{◌≡◌};

use board_face::Loan;

/// A loan, and where its bytes stand in the stream of its flow. It can't be let go: its loan is given back, or given up.
#[derive(Debug)]
pub struct Lent {
    pub flow: u32,
    /// How many bytes of the flow come before, 0 at its first byte.
    pub position: u64,
    pub loan: Loan,
    /// The bytes travelled in a note, and were copied into a buffer.
    pub copied: bool,
}

impl Lent {
    /// The loan, to be given back or given up.
    pub fn into_loan(self) -> Loan
        ensures { result ≡ self.loan }
    {
        let Lent {
            flow: _,
            position: _,
            loan,
            copied: _,
        } = self;
        loan
    }
}

/// What is waited for.
#[derive(Clone, Copy, Debug, PartialEq, Eq)]
pub enum Waits {
    /// No note was there.
    NoNote,
    /// Bytes are next that have to be copied, no buffer is free, and the reserve is held.
    ReserveHeld,
    /// As many notes were taken as a ring has places, and nothing is in order: others may go on.
    Enough,
}

/// What a step gave.
#[derive(Debug)]
pub enum Step {
    Item(Lent),
    Waiting(Waits),
    /// There was no memory. The stream is stopped: it gives no more items.
    Memory,
    /// No note comes any more, and all was given.
    Ended,
}
