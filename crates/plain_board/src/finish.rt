ghost use Rattle.std.specs.Prelude.{◌≡◌, All};
ghost use Rattle.area_layout.specs.Layout.{pool_buffers};
ghost use Rattle.plain_board.specs.Finish.{IsBoardOver, free_buffers_of, IsEachOnce, HasNoCounts, IsServed};

use crate::contents::Contents;
use board_parts::all_free;
use zr_kinds::Ended;

impl Contents {
    /// Ends a board that all have left, as `PlainBoard::finish` says it.
    pub(crate) fn finish(self) -> Ended
        requires { IsBoardOver self }
        ensures order { result.free.items ≡ free_buffers_of self.arrays }
        ensures once { IsEachOnce (pool_buffers self.arrays.layout) result.free.items }
        ensures counts { HasNoCounts self }
        ensures served { All (IsServed self.nic) self.apps }
    {
        let mut free = self.free;
        all_free(&self.cache, self.listed.as_slice(), &mut free);
        Ended { free }
    }
}
