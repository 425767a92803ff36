ghost use Rattle.std.specs.Prelude.{◌≡◌, ◌≢◌, ◌<◌, MatchOption};
ghost use Rattle.board_face.specs.NicCalls.{apps_of, DealtWith};
ghost use Rattle.plain_board.specs.{Events.{IsNoReturn, IsReturn, GaveBack}, OneSide.{OnlyCard}, Stand.{SameBuffers}, Seen.{IsJudged, CardSawSo}};

use crate::contents::Contents;
use board_face::Entry;
use board_parts::{came_free, free_if, lower, lower_if_some, owed_buffer, take_front, user_index};
use std::marker::Brand;
use zr_kinds::Rqe;

impl Contents {
    /// Deals with the next refill entry of an application, and answers in which buffer it gave a reference back, where it
    /// gave one.
    pub(crate) fn entry(&mut self, app: u32) -> (Entry, Option<u32>)
        requires { app < apps_of self.old.nic.view.setting }
        ensures view { DealtWith self.old.nic.view self.new.nic.view app result.0 }
        ensures stray { result.0 ≡ Entry.Stray → SameBuffers self.old.arrays self.new.arrays }
        ensures judged { result.0 ≢ Entry.Empty → IsJudged self.old self.new app }
        ensures returned { MatchOption result.1 (IsNoReturn result.0)
            (λ buffer. IsReturn result.0 × GaveBack self.old self.new app buffer) }
        ensures told { CardSawSo self.old self.new }
        ensures only { OnlyCard self.old self.new }
    {
        let Some(entry) = take_front(&mut self.refills, app as usize) else {
            let nic = &mut self.nic;
            nic.note::<Brand, u32>(app);
            return (Entry::Empty, None);
        };
        lower_if_some(&mut self.raw, app as usize);
        let Some(buffer) = owed_buffer(&self.layout, self.users.as_slice(), app, &entry) else {
            let nic = &mut self.nic;
            nic.note::<Brand, (u32, Rqe)>((app, entry));
            return (Entry::Stray, None);
        };
        let user = user_index(&self.layout, app, buffer);
        lower(&mut self.users, user);
        let left = lower(&mut self.pool, buffer as usize);
        let last = left == 0;
        let free = came_free(last, buffer, &self.layout);
        free_if(free, buffer, &mut self.cache, &mut self.listed);
        let nic = &mut self.nic;
        nic.note::<Brand, (u32, Rqe, u32, bool)>((app, entry, buffer, last));
        let answer = if free { Entry::Freed } else { Entry::Honoured };
        (answer, Some(buffer))
    }
}
