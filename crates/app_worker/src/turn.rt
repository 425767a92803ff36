use zr_kinds::Fault;

/// What a turn did.
#[derive(Clone, Copy, Debug, PartialEq, Eq)]
pub enum Turn {
    /// Something.
    Did,
    /// Nothing, and why.
    Idle(Why),
    /// The application left.
    Finished,
    /// The application stopped by this fault: `Write` or `Memory`.
    Failed(Fault),
}

/// Why a turn did nothing.
#[derive(Clone, Copy, Debug, PartialEq, Eq)]
pub enum Why {
    /// No note has come.
    NoNote,
    /// The next refill slot is in use.
    RefillFull,
    /// A raw entry is on its way.
    Unsettled,
    /// No buffer is free to copy into, and the reserve is held.
    ReserveHeld,
    /// A refill slot is in use.
    NotQuiet,
}
