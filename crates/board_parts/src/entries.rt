ghost use Rattle.std.specs.Prelude.{◌≡◌, ◌*◌, ◌<◌, length, slice_index, Some, IfSome, MatchOption};
ghost use Rattle.area_layout.specs.Layout.{all_buffers, judged};
ghost use Rattle.board_parts.specs.Counts.{user_at};

use crate::counts::user_index;
use area_layout::Layout;
use zr_kinds::Rqe;

/// The buffer to which the entry gives a reference back, if the application owes something there.
pub fn owed_buffer(layout: &Layout, users: &[u64], app: u32, entry: &Rqe) -> Option<u32>
    requires app { app < layout.now.reserves }
    requires sizes { length users.now ≡ layout.now.reserves * all_buffers layout.now }
    ensures { MatchOption result
        (IfSome (judged layout.now entry.now)
        (λ buffer. slice_index users.now (user_at layout.now app buffer) ≡ 0))
        (λ buffer. (judged layout.now entry.now ≡ Some buffer)
        × (buffer < all_buffers layout.now)
        × (0 < slice_index users.now (user_at layout.now app buffer))) }
{
    let buffer = layout.judge(entry)?;
    if users[user_index(layout, app, buffer)] == 0 {
        return None;
    }
    Some(buffer)
}
