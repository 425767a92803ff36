ghost use Rattle.std.specs.Prelude.{◌≡◌, ◌*◌, ◌<◌, length};
ghost use Rattle.area_layout.specs.Layout.{pool_buffers, all_buffers};
ghost use Rattle.board_parts.specs.Counts.{HasFewUsers, TakesBack};

use crate::counts::user_index;
use crate::free::{came_free, list_if};
use area_layout::Layout;

/// Takes back all references that an application owes. A pool buffer of which no reference is left enters the free list.
pub fn take_back(
    users: &mut Vec<u64>,
    pool: &mut Vec<u64>,
    listed: &mut Vec<bool>,
    layout: &Layout,
    app: u32,
)
    requires app { app < layout.now.reserves }
    requires users { length users.old.items ≡ layout.now.reserves * all_buffers layout.now }
    requires pool { length pool.old.items ≡ all_buffers layout.now }
    requires listed { length listed.old.items ≡ pool_buffers layout.now }
    requires few { HasFewUsers layout.now app users.old.items pool.old.items }
    ensures { TakesBack layout.now app users.old.items users.new.items pool.old.items pool.new.items
        listed.old.items listed.new.items }
{
    for buffer in 0..layout.total() {
        let user = user_index(layout, app, buffer);
        let owed = users[user];
        users[user] = 0;
        pool[buffer as usize] -= owed;
        let last = owed > 0 && pool[buffer as usize] == 0;
        list_if(came_free(last, buffer, layout), buffer, listed);
    }
}
