ghost use Rattle.std.specs.{Prelude.{◌≡◌, ◌≢◌, ◌<◌, ℕ, [], ◌∷◌, ◌++◌, length, nat_eq, is_none, Ok, IfNone, IfSome, IsSome, None, Some, ⊤}, Map.{lookup}, Io.KnownBytes.{Keeps as KeepsBytes}};
ghost use Rattle.zr_io.specs.Moved.{AddsPiece, CountsPiece, HasCause, Rose};
ghost use Rattle.zc_poll.specs.Polls.{AsksAgain};
ghost use Rattle.zc_forward.specs.{Tags.{PaceGoes, TakesTag, polled}, Carriage.{AnswersLate, PollsOldest, TellsOldest, is_waiting, pace_of}};

use crate::carrier::Carrier;
use arrayvec::ArrayVec;
use futures::task::{Context, Poll};
use std::marker::Model;
use zr_io::{Failed, Shelf};

/// The most tags that are out.
const MOST: usize = 64;

/// A carrier that appends to a shelf what it is given, at once, and tells of it once so many more tags went out.
#[derive(Drop)]
pub struct ShelfCarrier<T> {
    shelf: T,
    delay: u32,
    /// The tags that are out, each with its flow, the oldest first.
    out: ArrayVec<(u32, u32), MOST>,
    looks: u64,
}

impl<T> Model for ShelfCarrier<T> {
    ghost use Rattle.zc_forward.specs.Carriage.{AreOut, Carriage};

    ghost Value = { Carriage T };

    ghost view = { λ c. record { shelf = c.shelf; delay = c.delay; out = c.out.items; looks = c.looks } };

    ghost invariant = { λ c. AreOut c.delay c.out.items };
}

impl<T> ShelfCarrier<T> {
    /// Nothing is out at first.
    pub fn new(shelf: T, delay: u32) -> ShelfCarrier<T>
        requires { delay < 64 }
        ensures { result ≡ record { shelf = shelf; delay = delay; out = []; looks = 0 } }
    {
        ShelfCarrier {
            shelf,
            delay,
            out: ArrayVec::new(),
            looks: 0,
        }
    }

    /// The shelf, with what the flows got.
    pub fn shelf(self) -> T
        ensures { result ≡ self.shelf }
    {
        let ShelfCarrier {
            shelf,
            delay: _,
            out: _,
            looks: _,
        } = self;
        shelf
    }
}

/// The flow of a tag that is out.
fn flow_of(out: &[(u32, u32)], tag: u32) -> Option<u32>
    ensures { result ≡ lookup (nat_eq tag) out.now }
{
    for &(other, flow) in out {
        if other == tag {
            return Some(flow);
        }
    }
    None
}

impl<T: Shelf> Carrier for ShelfCarrier<T> {
    ghost got = { λ c. T.kept c.shelf };

    ghost tags = { λ c. c.out };

    ghost counts = { λ c. T.counts c.shelf };

    ghost pace = { λ c. pace_of c };

    ghost answers = { λ urge old new told. AnswersLate urge old new told };

    ghost needs = { λ _ _. ⊤ };

    /// It never fails.
    fn begin(&mut self, tag: u32, flow: u32) -> Result<(), Failed>
        requires free { lookup (nat_eq tag) self.old.out ≡ None }
        requires few { length self.old.out < 64 }
        ensures ok { result ≡ Ok tt }
        ensures after { self.new ≡ record self.old { out = self.old.out ++ (tag, flow) ∷ [] } }
    {
        self.out.push((tag, flow));
        Ok(())
    }

    fn carry(&mut self, tag: u32, piece: &[u8]) -> Result<(), Failed>
        requires { IsSome (lookup (nat_eq tag) self.old.out) }
        ensures bytes { IfSome (lookup (nat_eq tag) self.old.out)
            (λ flow. AddsPiece (T.kept self.old.shelf flow) (T.kept self.new.shelf flow) result
            piece.now) }
        ensures others { IfSome (lookup (nat_eq tag) self.old.out)
            (λ flow. (other : ℕ) → other ≢ flow
            → KeepsBytes (T.kept self.old.shelf other) (T.kept self.new.shelf other)) }
        ensures cause { HasCause (T.counts self.old.shelf).faults (T.counts self.new.shelf).faults
            result }
        ensures counted { CountsPiece (T.counts self.old.shelf).appended
            (T.counts self.new.shelf).appended result piece.now }
        ensures beside { self.new ≡ record self.old { shelf = self.new.shelf } }
    {
        let Some(flow) = flow_of(&self.out, tag) else {
            unreachable!()
        };
        self.shelf.append(flow, piece)
    }

    /// The oldest tag, where more than `delay` are out, or with `urge` where one is.
    fn notice(&mut self, urge: bool) -> Option<u32>
        ensures waits { is_none result ≡ is_waiting self.old urge }
        ensures oldest { TellsOldest self.old self.new result }
        ensures told { TakesTag self.old.out self.new.out result }
        ensures looked { IfNone result (Rose self.old.looks self.new.looks) }
        ensures shelf { self.new.shelf ≡ self.old.shelf }
        ensures pace { PaceGoes (pace_of self.old) (pace_of self.new) }
    {
        let waiting = if urge { 0 } else { self.delay as usize };
        if self.out.len() <= waiting {
            self.looks = self.looks.saturating_add(1);
            return None;
        }
        let (tag, _) = self.out.remove(0);
        Some(tag)
    }

    /// As `notice`: it is pending where that has none.
    fn poll_notice(&mut self, cx: &mut Context<'_>, urge: bool) -> Poll<u32>
        ensures polls { PollsOldest urge self.old self.new result }
        ensures wakes { AsksAgain cx.old cx.new result }
        ensures answers { AnswersLate urge self.old self.new (polled result) }
        ensures shelf { self.new.shelf ≡ self.old.shelf }
        ensures pace { PaceGoes (pace_of self.old) (pace_of self.new) }
    {
        match self.notice(urge) {
            Some(tag) => Poll::Ready(tag),
            None => cx.yield_now(),
        }
    }

    fn cancel(&mut self)
        ensures { self.new ≡ record self.old { out = [] } }
    {
        self.out.clear();
    }
}
