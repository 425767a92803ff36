ghost use Rattle.board_face.specs.{Used.{UnusedAreCached}, Laws.{TakeLaw, SweepLaw, PlaceLaw, SendLaw, ShutLaw, HonourLaw, StrayLaw, CardKeeps}};

/// `take`: its buffer has one holder more, and leaves the cache.
pub fn take_law()
    ensures { TakeLaw }
{}

/// `sweep`: the buffers that were found enter the cache.
pub fn sweep_law()
    ensures { SweepLaw }
{}

/// `place`: the buffer has one holder more.
pub fn place_law()
    ensures { PlaceLaw }
{}

/// `send` and `send_linear`: all counts stand.
pub fn send_law()
    ensures { SendLaw }
{}

/// `shut`: the buffer has one holder less. A pool buffer of which it was the last enters the cache where that has room.
pub fn shut_law()
    ensures { ShutLaw }
{}

/// `entry`, where it honours: the buffer has one holder less and the application one user reference less there. A pool
/// buffer of which it was the last enters the cache where that has room.
pub fn honour_law()
    ensures { HonourLaw }
{}

/// `entry`, where it passes a stray over: all counts and free places stand.
pub fn stray_law()
    ensures { StrayLaw }
{}

/// Looks, an application that was seen to have left, and the card's end: all counts and free places stand.
pub fn card_keeps()
    ensures { CardKeeps }
{}

/// On any board: once the card has swept each word of the free list, the pool buffers that nobody ever used are cached. So
/// a search that ends there finds too few only where fewer than it needs were never used.
pub fn unused_are_cached()
    ensures { UnusedAreCached }
{}
