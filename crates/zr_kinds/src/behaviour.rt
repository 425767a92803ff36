/// How an application behaves in a replay.
#[derive(Clone, Copy, Debug, PartialEq, Eq)]
pub struct Behaviour {
    /// How many completions it keeps unread.
    pub hold: u32,
    /// How many loans it keeps to the end.
    pub leak: u32,
    /// How many refill entries follow each that gives a loan back.
    pub stray: u32,
    /// How many bytes it writes before it stops, if it stops of itself.
    pub quit: Option<u64>,
}

/// What stopped an application, if anything did.
#[derive(Clone, Copy, Debug, PartialEq, Eq)]
pub enum Stopped {
    /// Nothing.
    No,
    /// It wrote as many bytes as it was to write.
    Quit,
    /// Its shelf failed.
    Write,
    /// Want of memory.
    Memory,
}
