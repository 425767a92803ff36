ghost use Rattle.std.specs.Prelude.{◌≡◌, ◌+◌, ◌-◌, ◌^◌, ◌<◌, length, slice_index, slice_set};
ghost use Rattle.board_parts.specs.Counts.{user_at};

use area_layout::Layout;

/// Where the user count of an application for a buffer stands.
pub fn user_index(layout: &Layout, app: u32, buffer: u32) -> usize
    ensures { result ≡ user_at layout.now app buffer }
{
    app as usize * layout.total() as usize + buffer as usize
}

/// Puts a value at this place.
pub fn put<T: Copy>(list: &mut Vec<T>, at: usize, value: T)
    requires { at < length list.old.items }
    ensures { list.new.items ≡ slice_set list.old.items at value }
{
    list[at] = value;
}

/// One more at this place.
pub fn raise(counts: &mut Vec<u64>, at: usize)
    requires there { at < length counts.old.items }
    requires fits { slice_index counts.old.items at + 1 < 2 ^ 64 }
    ensures { counts.new.items
        ≡ slice_set counts.old.items at (slice_index counts.old.items at + 1) }
{
    counts[at] += 1;
}

/// One less at this place, and how many these are then.
pub fn lower(counts: &mut Vec<u64>, at: usize) -> u64
    requires there { at < length counts.old.items }
    requires some { 0 < slice_index counts.old.items at }
    ensures counts { counts.new.items
        ≡ slice_set counts.old.items at (slice_index counts.old.items at - 1) }
    ensures left { result ≡ slice_index counts.old.items at - 1 }
{
    let count = &mut counts[at];
    *count -= 1;
    *count
}

/// One less at this place, where it isn't 0.
pub fn lower_if_some(counts: &mut Vec<u32>, at: usize)
    requires { at < length counts.old.items }
    ensures { counts.new.items
        ≡ slice_set counts.old.items at (slice_index counts.old.items at - 1) }
{
    counts[at] = counts[at].saturating_sub(1);
}
