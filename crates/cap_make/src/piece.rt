//! Which bytes of a flow a frame carries.
ghost use Rattle.std.specs.Prelude.{◌≡◌, ◌+◌, ◌*◌, ◌^◌, ◌<◌, ◌≤◌};
ghost use Rattle.cap_make.specs.GeneratedCapture.{drawn_after, early, piece_of, swapped};

/// How many positions of a flow a piece has.
pub(crate) const PIECE: u64 = 1000;

/// How many positions before its own an early piece begins.
const EARLY: u64 = 100;

/// A piece is early where the number drawn is below this.
const EARLY_BELOW: u32 = 1 << 28;

/// A run of positions of a flow.
#[derive(Clone, Copy)]
pub(crate) struct Piece {
    /// The flow, from 0 to 3.
    pub(crate) flow: u16,
    /// Its first position.
    pub(crate) first: u64,
    /// How many positions it has.
    pub(crate) count: u16,
}

/// The next number drawn, by a linear congruential generator modulo 2^32.
pub(crate) fn draw(x: u32) -> u32
    ensures { result ≡ drawn_after x }
{
    x.wrapping_mul(1_664_525).wrapping_add(1_013_904_223)
}

/// Which piece a flow sends at its turn `m`: of each four pieces the last two are swapped.
fn swap(m: u32) -> u32
    requires { m < 2 ^ 30 }
    ensures value { result ≡ swapped m }
    ensures few { result < 2 ^ 31 }
{
    if m / 2 % 2 == 0 {
        m
    } else if m % 2 == 0 {
        m + 1
    } else {
        m - 1
    }
}

/// The piece that frame `k` carries, for which `x` was drawn.
pub(crate) fn piece_at(k: u32, x: u32) -> Piece
    ensures value { result ≡ piece_of k x }
    ensures flow { result.flow < 4 }
    ensures first { result.first < 2 ^ 42 }
    ensures count { result.count ≤ 1100 }
{
    let number = u64::from(swap(k / 4));
    let early = if x < EARLY_BELOW && number > 0 {
        EARLY
    } else {
        0
    };
    Piece {
        flow: (k % 4) as u16,
        first: PIECE * number - early,
        count: (PIECE + early) as u16,
    }
}
