//! What comes before each turn.

/// It is told of each turn before it is taken, and may hold it back, so that a test can order the turns.
pub trait Gate {
    /// `who` is 0 for the card and `1 + a` for application `a`. The turns of each are numbered from 0.
    fn at(&self, who: u32, turn: u64);

    /// For how many processors the run is laid out: as many as there are, if it names none. Where one role's turn waits for
    /// another's each needs a thread of its own, however few there are.
    fn processors(&self) -> Option<usize>;
}

/// It holds nothing back.
#[derive(Clone, Copy, Debug)]
pub struct NoGate;

impl Gate for NoGate {
    fn at(&self, _who: u32, _turn: u64) {}

    fn processors(&self) -> Option<usize> {
        None
    }
}
