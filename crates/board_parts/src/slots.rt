ghost use Rattle.std.specs.Prelude.{◌≡◌, ◌≤◌, length, take};

use zr_kinds::Note;

/// A note in its slot, with the bytes that travel in it, if any do.
#[derive(Clone, Copy)]
pub struct NoteSlot {
    pub note: Note,
    pub bytes: [u8; 256],
}

/// The bytes, with room behind them.
pub fn with_room(bytes: &[u8]) -> [u8; 256]
    requires { length bytes.now ≤ 256 }
    ensures { take (length bytes.now) result ≡ bytes.now }
{
    let mut room = [0; 256];
    room[..bytes.len()].copy_from_slice(bytes);
    room
}
