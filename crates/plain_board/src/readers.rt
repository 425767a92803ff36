ghost use Rattle.std.specs.Prelude.{◌≡◌, ◌<◌};
ghost use Rattle.area_layout.specs.Layout.{all_buffers, off_of};
ghost use Rattle.board_face.specs.{AppCalls.{HasPlace}, AppEvents.{reserve_of}};
ghost use Rattle.plain_board.specs.Stand.{side_of};

use crate::contents::Contents;
use zr_kinds::Place;

impl Contents {
    /// The number of an application's reserve buffer.
    pub(crate) fn reserve(&self, app: u32) -> u32
        requires { app < self.now.arrays.layout.reserves }
        ensures value { result ≡ reserve_of (side_of self.now app).view }
        ensures within { result < all_buffers (side_of self.now app).view.setting.layout }
    {
        self.layout.buffers() + app
    }

    /// The offset by which completions and refill entries name the place of a held piece or a loan.
    pub(crate) fn off(&self, app: u32, p: &Place) -> u64
        requires app { app < self.now.arrays.layout.reserves }
        requires out { HasPlace (side_of self.now app).view p.now }
        ensures { result ≡ off_of (side_of self.now app).view.setting.layout p.now }
    {
        self.layout.off_of(p)
    }
}
