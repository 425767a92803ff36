ghost use Rattle.std.specs.Prelude.{◌≡◌, ◌<◌};
ghost use Rattle.board_face.specs.Counts.{pool_count, user_count};

use crate::contents::Contents;
use board_parts::user_index;

impl Contents {
    /// How many holders the buffer has.
    pub(crate) fn pool_count(&self, buffer: u32) -> u32
        ensures { result ≡ pool_count buffer self.now.nic self.now.apps }
    {
        if buffer >= self.layout.total() {
            return 0;
        }
        self.pool[buffer as usize] as u32
    }

    /// How many of them are loans of the application, out or owed.
    pub(crate) fn user_count(&self, app: u32, buffer: u32) -> u32
        requires { app < self.now.arrays.layout.reserves }
        ensures { result ≡ user_count app buffer self.now.nic self.now.apps }
    {
        if buffer >= self.layout.total() {
            return 0;
        }
        self.users[user_index(&self.layout, app, buffer)] as u32
    }
}
