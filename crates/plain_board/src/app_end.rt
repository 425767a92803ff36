ghost use Rattle.std.specs.Prelude.{◌≡◌, ◌<◌};
ghost use Rattle.board_face.specs.{AppCalls.{IsHere, CanScrub, CanLeave}, AppEvents.{scrubbed, left_board}};
ghost use Rattle.plain_board.specs.{Events.{TookOwed}, OneSide.{OnlyView}, Sound.{IsSound}, Stand.{side_of, others_of}};

use crate::contents::Contents;
use board_parts::{note_at, put, take_back};
use std::marker::Brand;

impl Contents {
    /// Takes back all references that an application still owes.
    pub(crate) fn scrub(&mut self, app: u32)
        requires app { app < self.old.arrays.layout.reserves }
        requires here { IsHere (side_of self.old app).view }
        requires can { CanScrub (side_of self.old app).view }
        ensures view { (side_of self.new app).view ≡ scrubbed (side_of self.old app).view }
        ensures taken { TookOwed self.old self.new app }
        ensures others { others_of self.new app ≡ others_of self.old app }
        ensures layout { self.new.arrays.layout ≡ self.old.arrays.layout }
        ensures sound { IsSound self.new }
    {
        let users = self.users.as_slice();
        note_at::<Brand, &[u64]>(&mut self.apps, app as usize, users);
        take_back(
            &mut self.users,
            &mut self.pool,
            &mut self.listed,
            &self.layout,
            app,
        );
    }

    /// An application leaves.
    pub(crate) fn leave(&mut self, app: u32)
        requires app { app < self.old.arrays.layout.reserves }
        requires here { IsHere (side_of self.old app).view }
        requires can { CanLeave (side_of self.old app).view }
        ensures view { (side_of self.new app).view ≡ left_board (side_of self.old app).view }
        ensures only { OnlyView self.old self.new app }
    {
        put(&mut self.left, app as usize, true);
        note_at::<Brand, ()>(&mut self.apps, app as usize, ());
    }
}
