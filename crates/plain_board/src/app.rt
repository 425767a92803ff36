ghost use Rattle.std.specs.Prelude.{◌≡◌, ◌+◌, ◌<◌, ◌≤◌, false, true, length, IsTrue, IfErr, IfNone, IfSome, MatchBool, MatchOption, MatchResult};
ghost use Rattle.board_face.specs.{declared.{views.app.AppLook.TheVariants.{RefillInUse, RawOnItsWay, NoSpare, NotQuiet}, answers.Polled.TheVariants.{Empty as got_none}}, NotNow.{HasWritten, HasWrittenRingful, HasPushedRaw, HasUsedReserve}, Tokens.{filled_by}, Texts.{front_place, rest_place}, AppEvents.{app_gist, cut, released, lent, loan_origin, has_read, abandoned, gave, pushed_raw, came_to_rest, filled, own_bytes, begin_place, lent_own, fell_quiet, scrubbed, left_board}, AppCalls.{IsHere, HasHeld, HasLoan, HasSpare, CanLend, NamesNoLoan, MaySpare, IsFilled, CanScrub, CanLeave, AppOnlySaw, Looked, GotSpare, ShowsCopy}, BoardSteps.{cuts, releases, lends, gives, abandons, spares, lends_own}};
ghost use Rattle.plain_board.specs.{Board.{stand_of, sides_of, view_of, beside_of}, Recorded.{IsRecorded}, Sound.{IsSound}, Seen.{IsFoundLowest}, Told.{AppStepIsLogged, PollTells, SawSo, ScrubTells}};

use crate::logged::Logged;
use crate::{Others, PlainBoard};
use board_face::{AppFace, Held, Loan, Own, Polled};
use std::marker::Model;
use zr_kinds::{Event, Place, Rqe};

/// The board in the hands of an application.
#[derive(Drop)]
pub struct PlainApp {
    pub(crate) board: Box<Logged>,
    pub(crate) app: u32,
}

impl Model for PlainApp {
    ghost use Rattle.plain_board.specs.{Board.{Part, board_of}, Recorded.{IsSoundPart}};

    ghost Value = { Part };

    ghost view = { λ p. record { board = board_of p.board.value; app = p.app } };

    ghost invariant = { λ p. IsSoundPart (view p) };
}

impl PlainApp {
    /// Gives the board back with all that it holds, tokens that are out included. The application is one of the board's.
    pub fn back(self) -> PlainBoard
        ensures board { result ≡ self.board }
        ensures sound { IsSound (stand_of result) }
        ensures log { IsRecorded (sides_of result) result.log }
        ensures app { self.app < result.arrays.layout.reserves }
    {
        PlainBoard { board: self.board }
    }
}

// Beyond the face each call says by its clause `log` which events the log gained.
impl AppFace for PlainApp {
    ghost use Rattle.plain_board.specs.{Board.{view_of, beside_of}, Seen.{IsSeenBy, IsFoundLowest}};

    type Beside = Others;

    ghost seen = { view_of };

    ghost beside = { beside_of };

    ghost tells = { IsSeenBy };

    ghost finds = { IsFoundLowest };

    fn places(&self) -> u32 {
        self.board.contents.places
    }

    fn size(&self) -> u32 {
        self.board.contents.layout.size()
    }

    fn reserve(&self) -> u32 {
        self.board.contents.reserve(self.app)
    }

    fn off(&self, p: &Place) -> u64 {
        self.board.contents.off(self.app, p)
    }

    fn poll(&mut self, linear: &mut [u8; 256]) -> Polled
        requires here { IsHere (view_of self.old) }
        ensures view { Looked (view_of self.old) (view_of self.new) linear.new result }
        ensures untold { result ≡ got_none → (view_of self.old).ended ≡ false }
        ensures told { SawSo self.old self.new }
        ensures beside { beside_of self.new ≡ beside_of self.old }
        ensures log { PollTells result self.old self.new }
    {
        let polled = self.board.contents.poll(self.app, linear);
        if let Polled::Note(note, _) = &polled {
            self.board.log.push(Event::Held {
                app: self.app,
                buffer: note.place.buffer,
                offset: note.place.offset,
                len: note.place.len,
            });
        }
        polled
    }

    fn cut(&mut self, held: Held, at: u32) -> (Held, Held)
        requires here { IsHere (view_of self.old) }
        requires out { HasHeld (view_of self.old) held }
        requires front { 0 < at }
        requires rest { at < held.len }
        ensures places { (result.0 ≡ front_place held at) × (result.1 ≡ rest_place held at) }
        ensures view { view_of self.new ≡ cut (view_of self.old) held at }
        ensures beside { beside_of self.new ≡ beside_of self.old }
        ensures log { AppStepIsLogged (cuts held at) self.old self.new }
    {
        let place = held.place();
        let parts = self.board.contents.cut(self.app, held, at);
        let pool = self.board.contents.pool_count(place.buffer);
        self.board.log.push(Event::Cut {
            app: self.app,
            buffer: place.buffer,
            offset: place.offset,
            len: place.len,
            at,
            pool,
        });
        parts
    }

    fn settle(&mut self) -> bool
        requires here { IsHere (view_of self.old) }
        ensures view { MatchBool result
            (view_of self.new ≡ came_to_rest (view_of self.old))
            (AppOnlySaw RawOnItsWay (view_of self.old) (view_of self.new)) }
        ensures raw { result ≡ false → HasPushedRaw (view_of self.old) }
        ensures told { SawSo self.old self.new }
        ensures still { (view_of self.old).settled ≡ true → IsTrue result }
        ensures beside { beside_of self.new ≡ beside_of self.old }
        ensures log { self.new.board.log ≡ self.old.board.log }
    {
        self.board.contents.settle(self.app)
    }

    fn lend(&mut self, held: Held) -> Loan
        requires here { IsHere (view_of self.old) }
        requires out { HasHeld (view_of self.old) held }
        requires can { CanLend (view_of self.old) }
        ensures place { result ≡ held }
        ensures view { view_of self.new ≡ lent (view_of self.old) held }
        ensures beside { beside_of self.new ≡ beside_of self.old }
        ensures log { AppStepIsLogged (lends held) self.old self.new }
    {
        let loan = self.board.contents.lend(self.app, held);
        let place = loan.place();
        let pool = self.board.contents.pool_count(place.buffer);
        let user = self.board.contents.user_count(self.app, place.buffer);
        self.board.log.push(Event::Lend {
            app: self.app,
            buffer: place.buffer,
            offset: place.offset,
            len: place.len,
            pool,
            user,
        });
        loan
    }

    fn read(&mut self, loan: &Loan, from: u32, into: &mut [u8])
        requires here { IsHere (view_of self.old) }
        requires out { HasLoan (view_of self.old) loan.now }
        requires within { from + length into.old ≤ loan.now.len }
        ensures view { view_of self.new ≡ has_read (view_of self.old) loan.now from into.new }
        ensures copied { ShowsCopy (loan_origin (view_of self.old) loan.now) from into.new }
        ensures beside { beside_of self.new ≡ beside_of self.old }
        ensures log { self.new.board.log ≡ self.old.board.log }
    {
        self.board.contents.read(self.app, loan, from, into);
    }

    fn give(&mut self, loan: Loan) -> Result<(), Loan>
        requires here { IsHere (view_of self.old) }
        requires out { HasLoan (view_of self.old) loan }
        ensures view { MatchResult result
            (λ _. view_of self.new ≡ gave (view_of self.old) loan)
            (λ back. (back ≡ loan) × AppOnlySaw RefillInUse (view_of self.old) (view_of self.new)) }
        ensures full { IfErr result (λ _. HasWrittenRingful (view_of self.old)) }
        ensures told { SawSo self.old self.new }
        ensures beside { beside_of self.new ≡ beside_of self.old }
        ensures log { MatchResult result (λ _. AppStepIsLogged (gives loan) self.old self.new)
            (λ _. self.new.board.log ≡ self.old.board.log) }
    {
        let place = loan.place();
        self.board.contents.give(self.app, loan)?;
        let user = self.board.contents.user_count(self.app, place.buffer);
        self.board.log.push(Event::Back {
            app: self.app,
            buffer: place.buffer,
            offset: place.offset,
            len: place.len,
            user,
        });
        Ok(())
    }

    fn live(&self, buffer: u32) -> bool {
        self.board.contents.live(self.app, buffer)
    }

    fn push_raw(&mut self, entry: Rqe) -> Result<(), Rqe>
        requires here { IsHere (view_of self.old) }
        requires idle { NamesNoLoan (view_of self.old) entry }
        requires counted { (view_of self.old).scrubbed ≡ false }
        ensures view { MatchResult result
            (λ _. view_of self.new ≡ pushed_raw (view_of self.old) entry)
            (λ back. (back ≡ entry) × AppOnlySaw RefillInUse (view_of self.old)
            (view_of self.new)) }
        ensures full { IfErr result (λ _. HasWrittenRingful (view_of self.old)) }
        ensures told { SawSo self.old self.new }
        ensures beside { beside_of self.new ≡ beside_of self.old }
        ensures log { self.new.board.log ≡ self.old.board.log }
    {
        self.board.contents.push_raw(self.app, entry)
    }

    fn release(&mut self, held: Held)
        requires here { IsHere (view_of self.old) }
        requires out { HasHeld (view_of self.old) held }
        ensures view { view_of self.new ≡ released (view_of self.old) held }
        ensures beside { beside_of self.new ≡ beside_of self.old }
        ensures log { AppStepIsLogged (releases held) self.old self.new }
    {
        let place = held.place();
        self.board.contents.release(self.app, held);
        let pool = self.board.contents.pool_count(place.buffer);
        self.board.log.push(Event::Free {
            app: self.app,
            buffer: place.buffer,
            offset: place.offset,
            len: place.len,
            pool,
        });
    }

    fn spare(&mut self) -> Option<Own>
        requires here { IsHere (view_of self.old) }
        requires due { MaySpare (view_of self.old) }
        ensures view { MatchOption result
            (AppOnlySaw NoSpare (view_of self.old) (view_of self.new))
            (λ own. GotSpare (view_of self.old) (view_of self.new) own) }
        ensures held { IfNone result (HasUsedReserve (view_of self.old)) }
        ensures lowest { IfSome result
            (λ own. IsFoundLowest own.buffer (app_gist (view_of self.old)) (beside_of self.old)) }
        ensures told { SawSo self.old self.new }
        ensures beside { beside_of self.new ≡ beside_of self.old }
        ensures log { MatchOption result (self.new.board.log ≡ self.old.board.log)
            (λ own. AppStepIsLogged (spares own.buffer) self.old self.new) }
    {
        let own = self.board.contents.spare(self.app)?;
        let buffer = own.buffer();
        let pool = self.board.contents.pool_count(buffer);
        self.board.log.push(Event::Spare {
            app: self.app,
            buffer,
            pool,
        });
        Some(own)
    }

    fn fill(&mut self, own: &mut Own, bytes: &[u8])
        requires here { IsHere (view_of self.old) }
        requires out { HasSpare (view_of self.old) own.old }
        requires empty { own.old.start ≡ 0 }
        requires some { 0 < length bytes.now }
        requires few { length bytes.now ≤ 256 }
        ensures own { own.new ≡ filled_by own.old (length bytes.now) }
        ensures view { view_of self.new ≡ filled (view_of self.old) own.old bytes.now }
        ensures beside { beside_of self.new ≡ beside_of self.old }
        ensures log { self.new.board.log ≡ self.old.board.log }
    {
        self.board.contents.fill(self.app, own, bytes);
    }

    fn lend_own(&mut self, own: Own) -> Loan
        requires here { IsHere (view_of self.old) }
        requires out { HasSpare (view_of self.old) own }
        requires can { CanLend (view_of self.old) }
        requires filled { IsFilled (view_of self.old) own }
        ensures place { result ≡ begin_place own.buffer
            (length (own_bytes (view_of self.old) own)) }
        ensures view { view_of self.new ≡ lent_own (view_of self.old) own }
        ensures beside { beside_of self.new ≡ beside_of self.old }
        ensures log { AppStepIsLogged (lends_own own) self.old self.new }
    {
        let loan = self.board.contents.lend_own(self.app, own);
        let place = loan.place();
        let pool = self.board.contents.pool_count(place.buffer);
        let user = self.board.contents.user_count(self.app, place.buffer);
        self.board.log.push(Event::Own {
            app: self.app,
            buffer: place.buffer,
            len: place.len,
            pool,
            user,
        });
        loan
    }

    fn abandon(&mut self, loan: Loan)
        requires here { IsHere (view_of self.old) }
        requires out { HasLoan (view_of self.old) loan }
        ensures view { view_of self.new ≡ abandoned (view_of self.old) loan }
        ensures beside { beside_of self.new ≡ beside_of self.old }
        ensures log { AppStepIsLogged (abandons loan) self.old self.new }
    {
        let place = loan.place();
        self.board.contents.abandon(self.app, loan);
        let user = self.board.contents.user_count(self.app, place.buffer);
        self.board.log.push(Event::Back {
            app: self.app,
            buffer: place.buffer,
            offset: place.offset,
            len: place.len,
            user,
        });
    }

    fn quiet(&mut self) -> bool
        requires here { IsHere (view_of self.old) }
        ensures view { MatchBool result
            (view_of self.new ≡ fell_quiet (view_of self.old))
            (AppOnlySaw NotQuiet (view_of self.old) (view_of self.new)) }
        ensures some { result ≡ false → HasWritten (view_of self.old) }
        ensures told { SawSo self.old self.new }
        ensures beside { beside_of self.new ≡ beside_of self.old }
        ensures log { self.new.board.log ≡ self.old.board.log }
    {
        self.board.contents.quiet(self.app)
    }

    fn scrub(&mut self)
        requires here { IsHere (view_of self.old) }
        requires can { CanScrub (view_of self.old) }
        ensures view { view_of self.new ≡ scrubbed (view_of self.old) }
        ensures beside { beside_of self.new ≡ beside_of self.old }
        ensures log { ScrubTells self.old self.new }
    {
        self.board.log_scrub(self.app);
        self.board.contents.scrub(self.app);
    }

    fn leave(&mut self)
        requires here { IsHere (view_of self.old) }
        requires can { CanLeave (view_of self.old) }
        ensures view { view_of self.new ≡ left_board (view_of self.old) }
        ensures beside { beside_of self.new ≡ beside_of self.old }
        ensures log { self.new.board.log ≡ self.old.board.log }
    {
        self.board.contents.leave(self.app);
    }
}
