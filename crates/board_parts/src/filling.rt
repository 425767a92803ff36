ghost use Rattle.std.specs.Prelude.{◌≡◌, ◌+◌, ◌≤◌};
ghost use Rattle.board_face.specs.Tokens.{filled_by};

use board_face::{Filling, Own};

/// What a token of a buffer for filling shows.
pub fn filling_of(own: &Own) -> Filling
    ensures { result ≡ own.now }
{
    Filling {
        buffer: own.buffer(),
        start: own.start(),
        size: own.size(),
    }
}

/// The token once so many bytes more are used: the next bytes go to the next multiple of 64.
pub fn filled_up(own: &Own, count: u32) -> Own
    requires { own.now.start + count ≤ own.now.size }
    ensures { result ≡ filled_by own.now count }
{
    Own::new(
        own.buffer(),
        (own.start() + count + 63) / 64 * 64,
        own.size(),
    )
}
