ghost use Rattle.std.specs.Prelude.{◌≡◌, ◌+◌, ◌≤◌, length};
ghost use Rattle.board_parts.specs.Area.{stored, loaded};

/// Stores these bytes at a place.
pub fn store(area: &mut Vec<u8>, at: usize, bytes: &[u8])
    requires { at + length bytes.now ≤ length area.old.items }
    ensures { area.new.items ≡ stored area.old.items at bytes.now }
{
    area[at..at + bytes.len()].copy_from_slice(bytes);
}

/// Loads the bytes from a place on.
pub fn load(area: &[u8], at: usize, into: &mut [u8])
    requires { at + length into.old ≤ length area.now }
    ensures { into.new ≡ loaded area.now at (length into.old) }
{
    into.copy_from_slice(&area[at..at + into.len()]);
}
