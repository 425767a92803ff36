//! A carrier that tells of its tags as it likes.
ghost use Rattle.std.specs.{Prelude.{◌≡◌, ◌<◌, ◌≤◌, [], nat_eq, true, false, None, Some}, Map.{lookup}};
ghost use Rattle.zr_io.specs.Moved.{Rose};

use arrayvec::ArrayVec;
use futures::task::{Context, Poll};
use std::marker::Model;
use zc_forward::Carrier;
use zr_io::{Failed, Shelf};

/// When it tells, and which of its calls fails.
#[derive(Clone, Copy)]
pub struct Mood {
    /// How often it is asked in vain before each notice.
    pub late: u32,
    /// It tells only where it is urged.
    pub only_urged: bool,
    /// Which call of `begin` and `carry` fails, counted from 1.
    pub fails_at: u64,
}

/// A carrier that appends to a shelf what it is given, and tells the latest of its tags first.
#[derive(Drop)]
pub struct Moody<T> {
    shelf: T,
    mood: Mood,
    out: ArrayVec<(u32, u32), 64>,
    vain: u32,
    calls: u64,
    faults: u64,
    appended: u64,
    looks: u64,
}

impl<T> Model for Moody<T> {
    ghost use Rattle.app_runs.specs.Moods.{Mind};
    ghost use Rattle.zc_forward.specs.Carriage.{AreOut};

    ghost Value = { Mind T };

    ghost view = { λ c. record { shelf = c.shelf; out = c.out.items; faults = c.faults; appended = c.appended; looks = c.looks } };

    ghost invariant = { λ c. AreOut 0 c.out.items };
}

impl<T> Moody<T> {
    /// Nothing is out at first.
    pub fn new(shelf: T, mood: Mood) -> Moody<T>
        ensures { result ≡ record { shelf = shelf; out = []; faults = 0; appended = 0; looks = 0 } }
    {
        Moody {
            shelf,
            mood,
            out: ArrayVec::new(),
            vain: 0,
            calls: 0,
            faults: 0,
            appended: 0,
            looks: 0,
        }
    }

    /// The shelf, with what the flows got.
    pub fn shelf(self) -> T
        ensures { result ≡ self.shelf }
    {
        let Moody { shelf, .. } = self;
        shelf
    }

    /// Whether this call fails.
    fn fails(&mut self) -> bool
        ensures shelf { (self.new.shelf ≡ self.old.shelf) × (self.new.out ≡ self.old.out)
            × (self.new.looks ≡ self.old.looks)
            × (self.new.appended ≡ self.old.appended) }
        ensures still { result ≡ false → self.new.faults ≡ self.old.faults }
        ensures rose { result ≡ true → Rose self.old.faults self.new.faults }
        ensures later { self.old.faults ≤ self.new.faults }
    {
        self.calls = self.calls.saturating_add(1);
        if self.calls == self.mood.fails_at {
            self.faults = self.faults.saturating_add(1);
            return true;
        }
        false
    }
}

/// The flow of a tag that is out.
fn flow_of(out: &[(u32, u32)], tag: u32) -> Option<u32>
    ensures { result ≡ lookup (nat_eq tag) out.now }
{
    for &(other, flow) in out {
        if other == tag {
            return Some(flow);
        }
    }
    None
}

impl<T: Shelf> Carrier for Moody<T> {
    ghost got = { λ c. T.kept c.shelf };

    ghost tags = { λ c. c.out };

    ghost counts = { λ c. record { faults = c.faults; appended = c.appended } };

    ghost pace = { λ c. record { delay = 0; looks = c.looks } };

    fn begin(&mut self, tag: u32, flow: u32) -> Result<(), Failed> {
        if self.fails() {
            return Err(Failed);
        }
        self.out.push((tag, flow));
        Ok(())
    }

    fn carry(&mut self, tag: u32, piece: &[u8]) -> Result<(), Failed> {
        let Some(flow) = flow_of(&self.out, tag) else {
            unreachable!()
        };
        if self.fails() {
            return Err(Failed);
        }
        if self.shelf.append(flow, piece).is_err() {
            self.faults = self.faults.saturating_add(1);
            return Err(Failed);
        }
        self.appended = self.appended.saturating_add(piece.len() as u64);
        Ok(())
    }

    fn notice(&mut self, urge: bool) -> Option<u32> {
        if self.vain < self.mood.late || (self.mood.only_urged && !urge) {
            self.vain = self.vain.saturating_add(1);
            self.looks = self.looks.saturating_add(1);
            return None;
        }
        let Some((tag, _)) = self.out.pop() else {
            self.looks = self.looks.saturating_add(1);
            return None;
        };
        self.vain = 0;
        Some(tag)
    }

    fn poll_notice(&mut self, cx: &mut Context<'_>, urge: bool) -> Poll<u32> {
        match self.notice(urge) {
            Some(tag) => Poll::Ready(tag),
            None => cx.yield_now(),
        }
    }

    fn cancel(&mut self) {
        self.out.clear();
    }
}
