ghost use Rattle.std.specs.Prelude.{◌≡◌, ◌<◌};
ghost use Rattle.area_layout.specs.Layout.{all_buffers};
ghost use Rattle.board_face.specs.Laws.{AllSides, Scrubs};
ghost use Rattle.plain_board.specs.ScrubLaw.{scrub_logged};

use crate::contents::Contents;
use crate::log::EventLog;
use zr_kinds::Event;

/// A board's contents, and the log of its events. Each call of a face logs its own.
#[derive(Drop)]
pub(crate) struct Logged {
    pub(crate) contents: Contents,
    pub(crate) log: EventLog,
}

impl Logged {
    ghost use Rattle.plain_board.specs.Stand.{sides_of};

    /// Logs the scrub that comes next: an event for each buffer in which the application has a user count, with the counts that
    /// the scrub leaves there.
    pub(crate) fn log_scrub(&mut self, app: u32)
        requires { app < self.old.contents.arrays.layout.reserves }
        ensures contents { self.new.contents ≡ self.old.contents }
        ensures room { self.new.log.room ≡ self.old.log.room }
        ensures log { (after : AllSides) → Scrubs app (sides_of self.old.contents) after
            → self.new.log ≡ scrub_logged (sides_of self.old.contents) after app self.old.log
            (all_buffers self.old.contents.arrays.layout) }
    {
        for buffer in 0..self.contents.layout.total() {
            let user = self.contents.user_count(app, buffer);
            if user > 0 {
                let pool = self.contents.pool_count(buffer) - user;
                self.log.push(Event::Scrub {
                    app,
                    buffer,
                    pool,
                    user: 0,
                });
            }
        }
    }
}
