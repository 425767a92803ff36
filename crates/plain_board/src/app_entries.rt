ghost use Rattle.std.specs.Prelude.{◌≡◌, ◌<◌, true, false, IfErr, IsTrue, MatchBool, MatchResult};
ghost use Rattle.board_face.specs.{declared.views.app.AppLook.TheVariants.{RefillInUse, RawOnItsWay, NotQuiet}, AppCalls.{IsHere, NamesNoLoan, AppOnlySaw}, AppEvents.{pushed_raw, came_to_rest, fell_quiet}, NotNow.{HasWritten, HasWrittenRingful, HasPushedRaw}};
ghost use Rattle.plain_board.specs.{OneSide.{OnlyView}, Stand.{side_of}, Seen.{AppSawSo}};

use crate::contents::Contents;
use board_parts::{note_at, put, put_back, ring_len};
use std::marker::Brand;
use zr_kinds::Rqe;

impl Contents {
    /// Writes any refill entry, unless the ring is full.
    pub(crate) fn push_raw(&mut self, app: u32, entry: Rqe) -> Result<(), Rqe>
        requires app { app < self.old.arrays.layout.reserves }
        requires here { IsHere (side_of self.old app).view }
        requires idle { NamesNoLoan (side_of self.old app).view entry }
        requires counted { (side_of self.old app).view.scrubbed ≡ false }
        ensures view { MatchResult result
            (λ _. (side_of self.new app).view ≡ pushed_raw (side_of self.old app).view entry)
            (λ back. (back ≡ entry) × AppOnlySaw RefillInUse (side_of self.old app).view
            (side_of self.new app).view) }
        ensures full { IfErr result (λ _. HasWrittenRingful (side_of self.old app).view) }
        ensures told { AppSawSo self.old self.new app }
        ensures only { OnlyView self.old self.new app }
    {
        if !put_back(&mut self.refills, app as usize, entry) {
            note_at::<Brand, ()>(&mut self.apps, app as usize, ());
            return Err(entry);
        }
        let entries = self.refills[app as usize].len();
        put(&mut self.raw, app as usize, entries as u32);
        note_at::<Brand, Rqe>(&mut self.apps, app as usize, entry);
        Ok(())
    }

    /// Whether no raw entry is on its way.
    pub(crate) fn settle(&mut self, app: u32) -> bool
        requires app { app < self.old.arrays.layout.reserves }
        requires here { IsHere (side_of self.old app).view }
        ensures view { MatchBool result
            ((side_of self.new app).view ≡ came_to_rest (side_of self.old app).view)
            (AppOnlySaw RawOnItsWay (side_of self.old app).view (side_of self.new app).view) }
        ensures raw { result ≡ false → HasPushedRaw (side_of self.old app).view }
        ensures told { AppSawSo self.old self.new app }
        ensures still { (side_of self.old app).view.settled ≡ true → IsTrue result }
        ensures only { OnlyView self.old self.new app }
    {
        let settled = self.raw[app as usize] == 0;
        note_at::<Brand, bool>(&mut self.apps, app as usize, settled);
        settled
    }

    /// Whether each refill slot is free.
    pub(crate) fn quiet(&mut self, app: u32) -> bool
        requires app { app < self.old.arrays.layout.reserves }
        requires here { IsHere (side_of self.old app).view }
        ensures view { MatchBool result
            ((side_of self.new app).view ≡ fell_quiet (side_of self.old app).view)
            (AppOnlySaw NotQuiet (side_of self.old app).view (side_of self.new app).view) }
        ensures some { result ≡ false → HasWritten (side_of self.old app).view }
        ensures told { AppSawSo self.old self.new app }
        ensures only { OnlyView self.old self.new app }
    {
        let quiet = ring_len(self.refills.as_slice(), app as usize) == 0;
        note_at::<Brand, bool>(&mut self.apps, app as usize, quiet);
        quiet
    }
}
