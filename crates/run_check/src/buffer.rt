//! The holders of one buffer.
ghost use Rattle.std.specs.{Prelude.{◌≡◌, ◌==◌, ◌&&◌, ◌<◌, ◌+◌, ◌-◌, ◌^◌, IfOk, [], ◌∷◌, ◌++◌, length, nat_lt, Some, not, filter, count_by}, List.{list_any}};
ghost use Rattle.zr_kinds.specs.declared.holding.Holding.TheVariants as holding;
ghost use Rattle.zr_kinds.specs.Holders.{becomes, is_pool_count, is_same, is_user, is_user_count, only_if};
ghost use Rattle.run_check.specs.{Holding.{Changes, can_place}, Places.{IsNoLoan, held_by}, Buffer.{holders_of_keeper}};

use crate::places::{Hand, OwnedPlace, are_apart, is_there};
use std::alloc::{AllocError, Global};
use std::collections::BTreeMap;
use std::marker::Model;

/// The most applications of a run.
const APPS: usize = 8;

/// A piece that is placed begins at a multiple of this many bytes.
const PLACE_UNIT: u32 = 64;

/// The most bytes that are copied into a spare buffer.
const MOST_COPIED: u32 = 256;

/// Who has a buffer as a whole.
#[derive(Clone, Copy)]
pub(crate) enum Keeper {
    Nobody,
    Card,
    /// This application, to copy bytes into it.
    App(u32),
}

/// The holders of a buffer.
#[derive(Drop)]
pub(crate) struct Buffer {
    keeper: Keeper,
    /// What is placed in it, by offset.
    places: BTreeMap<u32, OwnedPlace>,
    /// How many loans each application owes.
    owed: [u32; APPS],
    /// The user count of each application.
    users: [u32; APPS],
    /// The pool count.
    count: u32,
}

impl Model for Buffer {
    ghost use Rattle.std.specs.Prelude.{List};
    ghost use Rattle.zr_kinds.specs.declared.holding.Holding.{Holding};

    ghost Value = { List Holding };

    ghost use Rattle.run_check.specs.Buffer.{holders_in, IsSoundBuffer};

    ghost view = { holders_in };

    ghost invariant = { IsSoundBuffer };
}

impl Buffer {
    /// A buffer without a holder.
    pub(crate) fn new(alloc: Global) -> Buffer
        ensures { result ≡ [] }
    {
        Buffer {
            keeper: Keeper::Nobody,
            places: BTreeMap::new(alloc),
            owed: [0; APPS],
            users: [0; APPS],
            count: 0,
        }
    }

    pub(crate) fn is_empty(&self) -> bool
        ensures { result ≡ (length self.now == 0) }
    {
        self.count == 0
    }

    /// How many holders it has.
    pub(crate) fn pool_count(&self) -> u32
        ensures { result ≡ length self.now }
    {
        self.count
    }

    /// How many loans of the application it has.
    pub(crate) fn user_count(&self, app: u32) -> u32
        requires { app < 8 }
        ensures { result ≡ count_by (is_user app) self.now }
    {
        self.users[app as usize]
    }

    pub(crate) fn is_pool_count(&self, pool: u32) -> bool
        ensures { result ≡ is_pool_count self.now pool }
    {
        self.count == pool
    }

    pub(crate) fn is_user_count(&self, app: u32, user: u32) -> bool
        requires { app < 8 }
        ensures { result ≡ is_user_count self.now app user }
    {
        self.users[app as usize] == user
    }

    pub(crate) fn are_counts(&self, app: u32, pool: u32, user: u32) -> bool
        requires { app < 8 }
        ensures { result ≡ (is_pool_count self.now pool && is_user_count self.now app user) }
    {
        self.is_pool_count(pool) && self.is_user_count(app, user)
    }

    /// The card takes the buffer, where it may and nobody holds it.
    pub(crate) fn take(&mut self, may: bool) -> bool
        ensures { Changes (only_if (may && (length self.old == 0)) (Some (holding.Own ∷ [])))
            self.new result }
    {
        if !may || self.count > 0 {
            return false;
        }
        self.keeper = Keeper::Card;
        self.count = 1;
        true
    }

    /// The application takes the buffer, where it may and nobody holds it.
    pub(crate) fn spare(&mut self, may: bool, app: u32) -> bool
        ensures { Changes (only_if (may && (length self.old == 0)) (Some (holding.Spare app ∷ [])))
            self.new result }
    {
        if !may || self.count > 0 {
            return false;
        }
        self.keeper = Keeper::App(app);
        self.count = 1;
        true
    }

    /// The card has it no more.
    pub(crate) fn shut(&mut self) -> bool
        ensures { Changes (becomes holding.Own [] self.old) self.new result }
    {
        let is_card = is_card(self.keeper);
        if is_card {
            self.keeper = Keeper::Nobody;
            self.count -= 1;
        }
        is_card
    }

    /// Whether the card may place a piece there.
    fn can_place(&self, offset: u32, len: u32) -> bool
        requires { offset + len < 2 ^ 32 }
        ensures { result ≡ can_place self.now offset len }
    {
        if len == 0 || offset % PLACE_UNIT != 0 {
            return false;
        }
        if !is_card(self.keeper) {
            return false;
        }
        are_apart(&self.places, offset, len)
    }

    /// The card places a piece.
    pub(crate) fn place(&mut self, offset: u32, len: u32) -> Result<bool, AllocError>
        requires fits { offset + len < 2 ^ 32 }
        requires few { length self.old + 1 < 2 ^ 32 }
        ensures { IfOk result (Changes (only_if (can_place self.old offset len)
            (Some (self.old ++ holding.Piece offset len ∷ []))) self.new) }
    {
        let fits = self.can_place(offset, len);
        if fits {
            let hand = Hand::Card;
            self.places.insert(offset, OwnedPlace { len, hand })?;
            self.count += 1;
        }
        Ok(fits)
    }

    /// A place goes from hand to hand, without being lent.
    pub(crate) fn pass(
        &mut self,
        offset: u32,
        len: u32,
        old: Hand,
        new: Hand,
    ) -> Result<bool, AllocError>
        requires old { IsNoLoan old }
        requires new { IsNoLoan new }
        ensures { IfOk result (Changes
            (becomes (held_by old offset len) (held_by new offset len ∷ []) self.old) self.new) }
    {
        let there = is_there(&self.places, offset, OwnedPlace { len, hand: old });
        if there {
            self.places.insert(offset, OwnedPlace { len, hand: new })?;
        }
        Ok(there)
    }

    /// The application cuts what it has behind the first `at` bytes.
    pub(crate) fn cut(
        &mut self,
        app: u32,
        offset: u32,
        len: u32,
        at: u32,
    ) -> Result<bool, AllocError>
        requires fits { offset + len < 2 ^ 32 }
        requires few { length self.old + 1 < 2 ^ 32 }
        ensures { IfOk result (Changes (only_if (nat_lt 0 at && nat_lt at len)
            (becomes (holding.Held app offset len)
            (holding.Held app offset at ∷ holding.Held app (offset + at) (len - at) ∷ [])
            self.old)) self.new) }
    {
        if at == 0 || at >= len {
            return Ok(false);
        }
        let hand = Hand::App(app);
        let there = is_there(&self.places, offset, OwnedPlace { len, hand });
        if there {
            self.places.insert(offset, OwnedPlace { len: at, hand })?;
            let rest = OwnedPlace {
                len: len - at,
                hand,
            };
            self.places.insert(offset + at, rest)?;
            self.count += 1;
        }
        Ok(there)
    }

    /// The application lends what it has.
    pub(crate) fn lend(&mut self, app: u32, offset: u32, len: u32) -> Result<bool, AllocError>
        requires { app < 8 }
        ensures { IfOk result (Changes
            (becomes (holding.Held app offset len) (holding.Loan app offset len ∷ []) self.old)
            self.new) }
    {
        let hand = Hand::App(app);
        let there = is_there(&self.places, offset, OwnedPlace { len, hand });
        if there {
            let hand = Hand::Loan(app);
            self.places.insert(offset, OwnedPlace { len, hand })?;
            self.users[app as usize] += 1;
        }
        Ok(there)
    }

    /// The application gives a loan back, and owes it.
    pub(crate) fn back(&mut self, app: u32, offset: u32, len: u32) -> bool
        requires { app < 8 }
        ensures { Changes (becomes (holding.Loan app offset len) (holding.Owed app ∷ []) self.old)
            self.new result }
    {
        let hand = Hand::Loan(app);
        let there = is_there(&self.places, offset, OwnedPlace { len, hand });
        if there {
            self.places.remove(&offset);
            self.owed[app as usize] += 1;
        }
        there
    }

    /// The application lets a piece go.
    pub(crate) fn free(&mut self, app: u32, offset: u32, len: u32) -> bool
        ensures { Changes (becomes (holding.Held app offset len) [] self.old) self.new result }
    {
        let hand = Hand::App(app);
        let there = is_there(&self.places, offset, OwnedPlace { len, hand });
        if there {
            self.places.remove(&offset);
            self.count -= 1;
        }
        there
    }

    /// The application lends the first bytes of its spare buffer.
    pub(crate) fn own(&mut self, app: u32, len: u32) -> Result<bool, AllocError>
        requires { app < 8 }
        ensures { IfOk result (Changes (only_if (nat_lt 0 len && nat_lt len 257)
            (becomes (holding.Spare app) (holding.Loan app 0 len ∷ []) self.old)) self.new) }
    {
        if len == 0 || len > MOST_COPIED {
            return Ok(false);
        }
        let is_spare = is_spare_of(self.keeper, app);
        if is_spare {
            let hand = Hand::Loan(app);
            self.places.insert(0, OwnedPlace { len, hand })?;
            self.keeper = Keeper::Nobody;
            self.users[app as usize] += 1;
        }
        Ok(is_spare)
    }

    /// The card honours an entry of the application.
    pub(crate) fn honour(&mut self, app: u32) -> bool
        requires { app < 8 }
        ensures { Changes (becomes (holding.Owed app) [] self.old) self.new result }
    {
        let some = self.owed[app as usize] > 0;
        if some {
            self.owed[app as usize] -= 1;
            self.users[app as usize] -= 1;
            self.count -= 1;
        }
        some
    }

    /// The application owes nothing any more.
    pub(crate) fn scrub(&mut self, app: u32) -> bool
        requires { app < 8 }
        ensures { Changes (only_if (list_any (is_same (holding.Owed app)) self.old)
            (Some (filter (λ h. not (is_same (holding.Owed app) h)) self.old))) self.new result }
    {
        let owed = self.owed[app as usize];
        if owed == 0 {
            return false;
        }
        self.owed[app as usize] = 0;
        self.users[app as usize] -= owed;
        self.count -= owed;
        true
    }
}

fn is_card(keeper: Keeper) -> bool
    ensures { result ≡ list_any (is_same holding.Own) (holders_of_keeper keeper) }
{
    match keeper {
        Keeper::Card => true,
        Keeper::Nobody | Keeper::App(_) => false,
    }
}

fn is_spare_of(keeper: Keeper, app: u32) -> bool
    ensures { result ≡ list_any (is_same (holding.Spare app)) (holders_of_keeper keeper) }
{
    match keeper {
        Keeper::App(other) => other == app,
        Keeper::Nobody | Keeper::Card => false,
    }
}
