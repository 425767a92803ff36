ghost use Rattle.std.specs.Prelude.{◌≡◌, ◌<◌, ◌≤◌, length, IfNone, IfSome, MatchOption};
ghost use Rattle.board_face.specs.{declared.views.app.AppLook.TheVariants.{NoSpare}, Tokens.{filled_by}, AppCalls.{IsHere, HasSpare, CanLend, MaySpare, IsFilled, AppOnlySaw, GotSpare}, NotNow.{HasUsedReserve}, AppEvents.{app_gist, filled, own_bytes, begin_place, lent_own}, Counts.{pool_count}};
ghost use Rattle.plain_board.specs.{OneSide.{OnlyView}, Stand.{side_of, others_of}, Seen.{AppSawSo, IsFoundLowest}};

use crate::contents::Contents;
use board_face::{Filling, Loan, Own};
use board_parts::{filled_up, filling_of, note_at, pick_spare, put, raise, store, user_index};
use std::marker::Brand;
use zr_kinds::Place;

impl Contents {
    /// Takes a buffer to copy a short payload into: the lowest listed one, or else the reserve.
    pub(crate) fn spare(&mut self, app: u32) -> Option<Own>
        requires app { app < self.old.arrays.layout.reserves }
        requires here { IsHere (side_of self.old app).view }
        requires due { MaySpare (side_of self.old app).view }
        ensures view { MatchOption result
            (AppOnlySaw NoSpare (side_of self.old app).view (side_of self.new app).view)
            (λ own. GotSpare (side_of self.old app).view (side_of self.new app).view own) }
        ensures held { IfNone result (HasUsedReserve (side_of self.old app).view) }
        ensures unheld { IfSome result
            (λ own. pool_count own.buffer self.old.nic self.old.apps ≡ 0) }
        ensures lowest { IfSome result
            (λ own. IsFoundLowest own.buffer (app_gist (side_of self.old app).view)
            (others_of self.old app)) }
        ensures told { AppSawSo self.old self.new app }
        ensures only { OnlyView self.old self.new app }
    {
        let reserve = self.layout.buffers() + app;
        let Some(buffer) = pick_spare(&mut self.listed, self.pool.as_slice(), reserve) else {
            note_at::<Brand, ()>(&mut self.apps, app as usize, ());
            return None;
        };
        raise(&mut self.pool, buffer as usize);
        put(&mut self.filled, buffer as usize, 0);
        note_at::<Brand, u32>(&mut self.apps, app as usize, buffer);
        let size = self.layout.size_of(buffer);
        Some(Own::new(buffer, 0, size))
    }

    /// Stores a short payload at the begin of a spare.
    pub(crate) fn fill(&mut self, app: u32, own: &mut Own, bytes: &[u8])
        requires app { app < self.old.arrays.layout.reserves }
        requires here { IsHere (side_of self.old app).view }
        requires out { HasSpare (side_of self.old app).view own.old }
        requires empty { own.old.start ≡ 0 }
        requires some { 0 < length bytes.now }
        requires few { length bytes.now ≤ 256 }
        ensures own { own.new ≡ filled_by own.old (length bytes.now) }
        ensures view { (side_of self.new app).view
            ≡ filled (side_of self.old app).view own.old bytes.now }
        ensures only { OnlyView self.old self.new app }
    {
        let filling = filling_of(own);
        let place = Place {
            buffer: filling.buffer,
            offset: 0,
            len: bytes.len() as u32,
        };
        let at = self.layout.byte_of(&place) as usize;
        store(&mut self.area, at, bytes);
        put(&mut self.filled, place.buffer as usize, place.len);
        note_at::<Brand, (Filling, &[u8])>(&mut self.apps, app as usize, (filling, bytes));
        *own = filled_up(own, place.len);
    }

    /// Lends a filled spare.
    pub(crate) fn lend_own(&mut self, app: u32, own: Own) -> Loan
        requires app { app < self.old.arrays.layout.reserves }
        requires here { IsHere (side_of self.old app).view }
        requires out { HasSpare (side_of self.old app).view own }
        requires can { CanLend (side_of self.old app).view }
        requires filled { IsFilled (side_of self.old app).view own }
        ensures place { result ≡ begin_place own.buffer
            (length (own_bytes (side_of self.old app).view own)) }
        ensures view { (side_of self.new app).view ≡ lent_own (side_of self.old app).view own }
        ensures only { OnlyView self.old self.new app }
    {
        let filling = filling_of(&own);
        let len = self.filled[filling.buffer as usize];
        let user = user_index(&self.layout, app, filling.buffer);
        raise(&mut self.users, user);
        raise(&mut self.loans, user);
        note_at::<Brand, Filling>(&mut self.apps, app as usize, filling);
        Loan::new(Place {
            buffer: filling.buffer,
            offset: 0,
            len,
        })
    }
}
