ghost use Rattle.std.specs.Prelude.{◌≡◌, ◌+◌, ◌<◌, ◌≤◌, ◌↔◌, length, IfErr, IsTrue, MatchResult};
ghost use Rattle.board_face.specs.{declared.views.app.AppLook.TheVariants.{RefillInUse}, AppCalls.{IsHere, HasLoan, IsLive, AppOnlySaw, ShowsCopy}, AppEvents.{has_read, loan_origin, gave, abandoned}, NotNow.{HasWrittenRingful}};
ghost use Rattle.plain_board.specs.{OneSide.{OnlyView}, Stand.{side_of}, Seen.{AppSawSo}};

use crate::contents::Contents;
use board_face::Loan;
use board_parts::{load, lower, note_at, put_back, user_index};
use std::marker::Brand;
use zr_kinds::{Place, Rqe};

impl Contents {
    /// Reads bytes of a loan, from its byte `from` on.
    pub(crate) fn read(&mut self, app: u32, loan: &Loan, from: u32, into: &mut [u8])
        requires app { app < self.old.arrays.layout.reserves }
        requires here { IsHere (side_of self.old app).view }
        requires out { HasLoan (side_of self.old app).view loan.now }
        requires within { from + length into.old ≤ loan.now.len }
        ensures view { (side_of self.new app).view
            ≡ has_read (side_of self.old app).view loan.now from into.new }
        ensures copied { ShowsCopy (loan_origin (side_of self.old app).view loan.now) from
            into.new }
        ensures only { OnlyView self.old self.new app }
    {
        let place = loan.place();
        let at = self.layout.byte_of(&place) as usize + from as usize;
        load(self.area.as_slice(), at, into);
        note_at::<Brand, (Place, u32, &[u8])>(&mut self.apps, app as usize, (place, from, into));
    }

    /// Gives a loan back by a refill entry, unless the ring is full.
    pub(crate) fn give(&mut self, app: u32, loan: Loan) -> Result<(), Loan>
        requires app { app < self.old.arrays.layout.reserves }
        requires here { IsHere (side_of self.old app).view }
        requires out { HasLoan (side_of self.old app).view loan }
        ensures view { MatchResult result
            (λ _. (side_of self.new app).view ≡ gave (side_of self.old app).view loan)
            (λ back. (back ≡ loan) × AppOnlySaw RefillInUse (side_of self.old app).view
            (side_of self.new app).view) }
        ensures full { IfErr result (λ _. HasWrittenRingful (side_of self.old app).view) }
        ensures told { AppSawSo self.old self.new app }
        ensures only { OnlyView self.old self.new app }
    {
        let place = loan.place();
        let entry = Rqe {
            off: self.layout.off_of(&place),
            len: place.len,
            pad: 0,
        };
        if !put_back(&mut self.refills, app as usize, entry) {
            note_at::<Brand, ()>(&mut self.apps, app as usize, ());
            return Err(loan);
        }
        let user = user_index(&self.layout, app, place.buffer);
        lower(&mut self.loans, user);
        note_at::<Brand, Place>(&mut self.apps, app as usize, place);
        Ok(())
    }

    /// Gives a loan up without an entry.
    pub(crate) fn abandon(&mut self, app: u32, loan: Loan)
        requires app { app < self.old.arrays.layout.reserves }
        requires here { IsHere (side_of self.old app).view }
        requires out { HasLoan (side_of self.old app).view loan }
        ensures view { (side_of self.new app).view ≡ abandoned (side_of self.old app).view loan }
        ensures only { OnlyView self.old self.new app }
    {
        let place = loan.place();
        let user = user_index(&self.layout, app, place.buffer);
        lower(&mut self.loans, user);
        note_at::<Brand, Place>(&mut self.apps, app as usize, place);
    }

    /// Whether a loan of the application in this buffer is out.
    pub(crate) fn live(&self, app: u32, buffer: u32) -> bool
        requires { app < self.now.arrays.layout.reserves }
        ensures { IsTrue result ↔ IsLive (side_of self.now app).view buffer }
    {
        buffer < self.layout.total() && self.loans[user_index(&self.layout, app, buffer)] > 0
    }
}
