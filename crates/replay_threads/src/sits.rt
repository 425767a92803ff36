//! What sits in a lane. The loops of lanes are written and shown once, whatever sits in them.
ghost use Rattle.std.specs.Prelude.{◌≡◌, Bool, false};

use crate::seated::Came;

/// What sits in a lane, and takes turns there until it has left.
pub trait Sits {
    /// What it keeps fits its side, between two turns.
    ghost fits: { Self → Type 0 };

    /// Some turns.
    ghost goes: { Self → Self → Type 0 };

    /// It has left.
    ghost gone: { Self → Bool };

    /// The number of its application.
    fn app(&self) -> u32;

    /// How many turns it has taken.
    fn turns(&self) -> u64;

    /// Whether it has left.
    fn has_left(&self) -> bool
        ensures { result ≡ gone self.now };

    /// A turn.
    fn turn(&mut self) -> Came
        requires fits { fits self.old }
        requires here { gone self.old ≡ false }
        ensures goes { goes self.old self.new };

    /// No turns are turns.
    ghost same: { (x : Self) → fits x → goes x x };

    /// Turns come behind turns.
    ghost more: { (x y z : Self) → goes x y → goes y z → goes x z };

    /// Behind turns the next may be taken.
    ghost again: { (x y : Self) → goes x y → fits y };
}
