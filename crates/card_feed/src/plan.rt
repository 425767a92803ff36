//! What a replay is asked to do.

ghost use Rattle.card_feed.specs.Plan.{IsLaidOut};

use area_layout::Layout;
use zr_kinds::Options;

/// What a replay is asked to do.
#[derive(Drop)]
pub struct Plan {
    /// The destination ports, one for each application.
    pub ports: Vec<u16>,
    /// One to four areas, each with its number of pool buffers and their size in bytes.
    pub areas: Vec<(u32, u32)>,
    /// With `events` the board keeps a log of its first events, where one thread runs it.
    pub options: Options,
}

impl Plan {
    /// The layout of the areas: the pool's buffers, and one reserve for each port.
    pub fn layout(&self) -> Option<Layout>
        ensures { IsLaidOut self.now result }
    {
        let apps = u32::try_from(self.ports.len()).ok()?;
        Layout::of(&self.areas, apps)
    }
}
